ghost use Rattle.std.specs.Prelude.{◌≡◌, ◌⊎◌, [], OnOk, IfErr, length};
ghost use Rattle.ic_disk.specs.Disk.{Keeps, CrashLeaves};
ghost use Rattle.ic_opening.specs.Disks.{EachMeets, HasFailed, IsOnlyRead, IsBlank};
ghost use Rattle.ic_opening.specs.Refusals.{IsNoBlank, AreNoneBlank};

use ic_base::{ComId, StartWhy};
use ic_disk::Disk;

/// Asks the length of a component's disk, which is to be blank.
fn ask_blank<D: Disk>(com: ComId, disk: &mut D) -> Result<(), StartWhy>
    ensures disk { Keeps D.Disk disk.old disk.new }
    ensures crash { CrashLeaves D.Disk disk.old disk.new (D.may_leave disk.old) }
    ensures bytes { D.tells disk.old → (D.seen disk.new ≡ D.seen disk.old) ⊎ HasFailed D.Disk disk.old disk.new }
    ensures empty { D.tells disk.old → OnOk result (D.seen disk.old ≡ []) }
    ensures still { D.tells disk.old → OnOk result (D.seen disk.new ≡ []) }
    ensures refused { IfErr result (IsNoBlank D.Disk «com» disk.old disk.new) }
{
    match disk.length() {
        Ok(0) => Ok(()),
        Ok(_) => Err(StartWhy::NotBlank(com)),
        Err(_) => Err(StartWhy::Failed(com)),
    }
}

/// Asks the lengths of the disks of these components, in order. The first one that isn't blank is told.
pub fn ask_all<D: Disk>(coms: &[ComId], disks: &mut [D]) -> Result<(), StartWhy>
    requires { length disks.old ≡ length coms.now }
    ensures asked { EachMeets (λ i old new. IsOnlyRead D.Disk old new) disks.old disks.new }
    ensures blank { OnOk result (EachMeets (λ i old new. IsBlank D.Disk old new) disks.old disks.new) }
    ensures refused { IfErr result (AreNoneBlank D.Disk coms.now disks.old disks.new) }
{
    for i in 0..coms.len() {
        ask_blank(coms[i], &mut disks[i])?;
    }
    Ok(())
}
