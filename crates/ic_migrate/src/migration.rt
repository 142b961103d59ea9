ghost use Rattle.std.specs.Prelude.{◌≡◌, length, IfOk, IfErr};
ghost use Rattle.ic_opening.specs.Disks.{EachMeets, IsOnlyRead};
ghost use Rattle.ic_migrate.specs.Migrations.{AreLeftSafe, Migrates, RefusesMigration};

use crate::reading::read_all;
use ic_base::{Bytes, ComId, StartWhy};
use ic_disk::Disk;
use ic_opening::{ask_all, open_all, reserve_all, write_all};
use std::alloc::Global;

/// Migrates the logs of these components of a scenario, each from its old disk to its new one, which is to be blank. The lengths of the new
/// disks are asked first, then the old logs are read. Of each new log all but the first letter is written, and when all are so far, the first
/// letter of each. A crash at any moment leaves each new log whole, or nothing that is taken for a log.
pub fn migrate_logs<D: Disk>(
    alloc: Global,
    coms: &[ComId],
    fingerprint: &[u8; 32],
    old: &mut [D],
    new: &mut [D],
) -> Result<Vec<Bytes>, StartWhy>
    requires old_disks { length old.old ≡ length coms.now }
    requires new_disks { length new.old ≡ length coms.now }
    ensures old { EachMeets (λ i before behind. IsOnlyRead D.Disk before behind) old.old old.new }
    ensures new { AreLeftSafe D.Disk fingerprint.now coms.now old.old new.old new.new }
    ensures migrated { IfOk result (λ logs. Migrates D.Disk fingerprint.now coms.now old.old old.new new.old new.new logs.items) }
    ensures refused { IfErr result (RefusesMigration D.Disk fingerprint.now coms.now old.old old.new new.old new.new) }
{
    ask_all(coms, new)?;
    let logs = read_all(alloc, coms, fingerprint, old)?;
    let files = logs.as_slice();
    reserve_all(alloc, files, new)?;
    write_all(coms, files, new)?;
    open_all(coms, files, new)?;
    Ok(logs)
}
