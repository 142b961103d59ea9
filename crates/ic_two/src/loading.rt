ghost use Rattle.std.specs.Prelude.{◌≡◌, is_ok, IfOk, IfErr};
ghost use Rattle.def_two.specs.Logs.{records2_in};
ghost use Rattle.ic_disk.specs.Disk.{Keeps, CrashLeaves, Makes};
ghost use Rattle.ic_gate.specs.Calls.{IsFault};
ghost use Rattle.ic_gate.specs.Reading.{load_calls};
ghost use Rattle.ic_two.specs.Loading.{LoadsRecords, RefusesRecords, disk_loaded};

use crate::reading::{PlacedRecords2, all_records};
use def_two::{Record2, Records2};
use ic_base::Items;
use ic_disk::Disk;
use ic_gate::{LoadRefused, Log};
use std::alloc::{AllocError, Global};

/// The log that a disk holds, with its records, each with its place in the file. It syncs, asks for the length and reads the whole
/// file once. Bad tells the place at which the frame is refused, or of the first byte that begins no record.
pub(crate) fn load_records<D: Disk>(
    alloc: Global,
    disk: D,
    fingerprint: &[u8; 32],
    owner: u8,
) -> Result<(Log<D>, PlacedRecords2), LoadRefused<D>>
    ensures step { IfOk result (LoadsRecords D.Disk disk fingerprint.now owner) }
    ensures disk { Keeps D.Disk disk (disk_loaded result) }
    // It writes nothing, so a crash leaves nothing more.
    ensures crash { CrashLeaves D.Disk disk (disk_loaded result) (D.may_leave disk) }
    ensures calls { Makes D.Disk load_calls (is_ok result) (IsFault result) disk (disk_loaded result) }
    ensures refused { IfErr result (λ refused. RefusesRecords D.Disk disk fingerprint.now owner refused.disk refused.why) }
{
    let (log, batches) = Log::load(alloc, disk, fingerprint, owner)?;
    match all_records(alloc, &batches) {
        Ok(records) => Ok((log, records)),
        Err(why) => Err(LoadRefused {
            disk: log.into_disk(),
            why,
        }),
    }
}

/// The records without their places.
pub(crate) fn without_places(alloc: Global, placed: PlacedRecords2) -> Result<Records2, AllocError>
    ensures { IfOk result (λ rs. rs ≡ records2_in placed) }
{
    let records: Vec<Record2> = placed
        .into_vec()
        .into_iter()
        .map(|(_, record)| record)
        .collect(alloc)?;
    Ok(Items::from_vec(records))
}
