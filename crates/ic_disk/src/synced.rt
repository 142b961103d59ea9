ghost use Rattle.std.specs.Prelude.{◌≡◌, ◌≢◌, ◌+◌, ◌<◌, ◌≤◌, ◌^◌, [], ◌∷◌, length, is_ok, OnOk, Err};
ghost use Rattle.def_log.specs.Torn.{written};
ghost use Rattle.def_log.specs.Images.{IsTorn, LeavesJust};
ghost use Rattle.ic_disk.specs.Causes.{IsCaused};
ghost use Rattle.ic_disk.specs.Disk.{Keeps, Makes, CrashLeaves, IsSynced};
ghost use Rattle.ic_disk.specs.Stops.{Writes, Syncs};

use crate::{Disk, DiskError};

/// Writes and syncs. Where the disk was synced before, a crash leaves the old bytes, torn in the written range alone.
pub fn write_through<D: Disk>(disk: &mut D, at: u64, bytes: &[u8]) -> Result<(), DiskError>
    requires place { D.tells disk.old → at ≤ length (D.seen disk.old) }
    requires fits { at + length bytes.now < 2 ^ 64 }
    requires spare { length bytes.now + 32 ≤ D.spare disk.old }
    ensures disk { Keeps D.Disk disk.old disk.new }
    ensures synced { OnOk result (IsSynced D.Disk disk.old disk.new (written (D.seen disk.old) at bytes.now)) }
    ensures crash { (D.keeps disk.old → LeavesJust (D.may_leave disk.old) (D.seen disk.old)) →
        CrashLeaves D.Disk disk.old disk.new (IsTorn at (length bytes.now) (D.seen disk.old)) }
    ensures room { D.spare disk.old ≤ D.spare disk.new + (length bytes.now + 32) }
    ensures calls { Makes D.Disk (Writes at bytes.now ∷ Syncs ∷ []) (is_ok result) (result ≡ Err DiskError.Failed) disk.old disk.new }
    ensures cause { IsCaused (D.faults disk.old) (D.faults disk.new) (D.stopped disk.new) result }
    ensures no_memory { result ≢ Err DiskError.Memory }
{
    disk.write_at(at, bytes)?;
    disk.sync()
}
