ghost use Rattle.std.specs.Prelude.{◌≡◌, ◌<◌, false, [], length, is_ok, Err, OnOk, IfErr};
ghost use Rattle.ic_disk.specs.Disk.{Keeps, CrashLeaves, Makes};
ghost use Rattle.ic_gate.specs.Calls.{gated_calls, force_writes};
ghost use Rattle.ic_gate.specs.Logs.{disk_of, size_of, buffered_of, is_closed};
ghost use Rattle.ic_two.specs.Committing.{Adds, FailsToAdd, IsOldOrAdded};

use ic_disk::Disk;
use ic_gate::{AppendRefused, ForceRefused, Log, StepRefused};
use std::alloc::Global;

/// Adds a payload to a log with nothing buffered, and forces it. This alone touches the disk of a component that is up: room is made
/// before the first device call, and a refusal for want of room leaves all as it was.
pub(crate) fn commit<D: Disk>(
    log: &mut Log<D>,
    alloc: Global,
    bytes: &[u8],
) -> Result<(), StepRefused>
    requires open { is_closed log.old ≡ false }
    requires alone { buffered_of log.old ≡ [] }
    requires some { 0 < length bytes.now }
    ensures step { OnOk result (Adds log.old bytes.now log.new) }
    ensures disk { Keeps D.Disk (disk_of log.old) (disk_of log.new) }
    ensures crash { CrashLeaves D.Disk (disk_of log.old) (disk_of log.new) (IsOldOrAdded log.old bytes.now) }
    ensures calls { Makes D.Disk (gated_calls (force_writes (size_of log.old) bytes.now)) (is_ok result) (result ≡ Err StepRefused.Failed) (disk_of log.old) (disk_of log.new) }
    ensures refused { IfErr result (FailsToAdd log.old bytes.now log.new) }
{
    match log.append(alloc, bytes) {
        Ok(()) => {}
        Err(AppendRefused::Closed) => unreachable!(),
        Err(AppendRefused::Full) => return Err(StepRefused::Full),
        Err(AppendRefused::Memory) => return Err(StepRefused::Memory),
    }
    match log.force() {
        Ok(()) => Ok(()),
        Err(ForceRefused::Failed) => Err(StepRefused::Failed),
        Err(ForceRefused::Stopped) => Err(StepRefused::Stopped),
        Err(ForceRefused::Closed) => unreachable!(),
    }
}
