ghost use Rattle.std.specs.Prelude.{◌≡◌, ◌≢◌, ◌+◌, ◌<◌, ◌≤◌, ◌^◌, [], length, take, is_ok, OnOk, Err};
ghost use Rattle.def_log.specs.Frame.{letters};
ghost use Rattle.def_log.specs.Images.{LeavesJust};
ghost use Rattle.def_former.specs.Opening.{unopened, IsUnopened, IsWholeOrRefused};
ghost use Rattle.ic_disk.specs.Causes.{IsCaused};
ghost use Rattle.ic_disk.specs.Disk.{Keeps, Makes, CrashLeaves, IsSynced};
ghost use Rattle.ic_opening.specs.Phases.{unopened_calls, first_letter_calls};

use ic_disk::{Disk, DiskError, write_through};

/// Writes all of a log but its first letter on an empty disk: a byte 0 in its place, and then all that stands behind it, each with a
/// sync. A crash leaves nothing that a load takes for a log.
pub fn write_unopened<D: Disk>(disk: &mut D, log: &[u8]) -> Result<(), DiskError>
    requires empty { D.tells disk.old → D.seen disk.old ≡ [] }
    requires some { 1 ≤ length log.now }
    requires few { length log.now < 2 ^ 60 }
    requires spare { length log.now + 64 ≤ D.spare disk.old }
    ensures disk { Keeps D.Disk disk.old disk.new }
    ensures synced { OnOk result (IsSynced D.Disk disk.old disk.new (unopened log.now)) }
    ensures crash { (D.keeps disk.old → LeavesJust (D.may_leave disk.old) (D.seen disk.old)) →
        CrashLeaves D.Disk disk.old disk.new IsUnopened }
    ensures room { D.spare disk.old ≤ D.spare disk.new + (length log.now + 64) }
    ensures calls { Makes D.Disk (unopened_calls log.now) (is_ok result) (result ≡ Err DiskError.Failed) disk.old disk.new }
    ensures cause { IsCaused (D.faults disk.old) (D.faults disk.new) (D.stopped disk.new) result }
    ensures no_memory { result ≢ Err DiskError.Memory }
{
    write_through(disk, 0, &[0])?;
    write_through(disk, 1, &log[1..])
}

/// Writes and syncs the first letter of a log that stands on a disk but for that. A crash leaves the whole log, or nothing that a load
/// takes for one.
pub fn write_first_letter<D: Disk>(disk: &mut D, log: &[u8]) -> Result<(), DiskError>
    requires unopened { D.tells disk.old → D.seen disk.old ≡ unopened log.now }
    requires some { 1 ≤ length log.now }
    requires spare { 33 ≤ D.spare disk.old }
    ensures disk { Keeps D.Disk disk.old disk.new }
    ensures synced { OnOk result (IsSynced D.Disk disk.old disk.new log.now) }
    ensures crash { (D.keeps disk.old → LeavesJust (D.may_leave disk.old) (D.seen disk.old)) → take 1 log.now ≡ take 1 letters →
        CrashLeaves D.Disk disk.old disk.new (IsWholeOrRefused log.now) }
    ensures calls { Makes D.Disk (first_letter_calls log.now) (is_ok result) (result ≡ Err DiskError.Failed) disk.old disk.new }
    ensures cause { IsCaused (D.faults disk.old) (D.faults disk.new) (D.stopped disk.new) result }
    ensures no_memory { result ≢ Err DiskError.Memory }
{
    write_through(disk, 0, &log[..1])
}
