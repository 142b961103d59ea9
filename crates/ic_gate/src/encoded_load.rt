ghost use Rattle.std.specs.Prelude.{is_ok, IfOk, IfErr};
ghost use Rattle.ic_disk.specs.Disk.{Keeps, CrashLeaves, Makes};
ghost use Rattle.ic_gate.specs.Calls.{IsFault};
ghost use Rattle.ic_gate.specs.Encoding.{LoadsEncoded};
ghost use Rattle.ic_gate.specs.Reading.{load_calls};
ghost use Rattle.ic_gate.specs.RecordLoads.{RefusesRecords, disk_loaded};

use crate::record_load::read_records;
use crate::{EncodedRecords, LoadRefused, Log};
use ic_base::limits::FIRST_GATE;
use ic_disk::Disk;
use std::alloc::Global;

/// The log of a component that a disk holds, with its records, as `load_records`, but without their places.
pub fn load_encoded<D: Disk>(
    alloc: Global,
    disk: D,
    fingerprint: &[u8; 32],
    owner: u8,
) -> Result<(Log<D>, EncodedRecords), LoadRefused<D>>
    ensures step { IfOk result (LoadsEncoded D.Disk disk fingerprint.now owner) }
    ensures disk { Keeps D.Disk disk (disk_loaded result) }
    // It writes nothing, so a crash leaves nothing more.
    ensures crash { CrashLeaves D.Disk disk (disk_loaded result) (D.may_leave disk) }
    ensures calls { Makes D.Disk load_calls (is_ok result) (IsFault result) disk (disk_loaded result) }
    ensures refused { IfErr result (λ refused. RefusesRecords D.Disk disk fingerprint.now owner refused.disk refused.why) }
{
    let mut disk = disk;
    match read_records(alloc, &mut disk, fingerprint, owner, None) {
        Ok(read) => {
            let (_, records) = read.reader.finish();
            let log = Log::over(disk, FIRST_GATE, read.closed, read.directory, read.buffered);
            Ok((log, records))
        }
        Err(why) => Err(LoadRefused { disk, why }),
    }
}
