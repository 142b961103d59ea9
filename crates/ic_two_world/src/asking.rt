ghost use Rattle.std.specs.Prelude.{◌≡◌, ◌≤◌, OnOk, IfErr, length};
ghost use Rattle.ic_base.specs.declared.limits.TheConstants.{COMPONENTS};
ghost use Rattle.ic_disk.specs.Disk.{Keeps};
ghost use Rattle.ic_two_world.specs.Opening.{IsBlank, IsNoBlank, AreBlank, AreKept, IsNotStarted};

use def_two::TwoWhy;
use ic_disk::Disk;

/// Asks the length of a component's disk, which is to be blank.
fn ask_blank<D: Disk>(c: u8, disk: &mut D) -> Result<(), TwoWhy>
    ensures disk { Keeps D.Disk disk.old disk.new }
    ensures old { OnOk result (IsBlank D.Disk disk.old) }
    ensures new { OnOk result (IsBlank D.Disk disk.new) }
    ensures refused { IfErr result (IsNoBlank D.Disk c disk.old disk.new) }
{
    match disk.length() {
        Ok(0) => Ok(()),
        Ok(_) => Err(TwoWhy::NotBlank(c)),
        Err(_) => Err(TwoWhy::Failed(c)),
    }
}

/// Asks the lengths of all disks, in order. The first one that isn't blank is told.
pub(crate) fn ask_all<D: Disk>(disks: &mut [D]) -> Result<(), TwoWhy>
    requires few { length disks.old ≤ COMPONENTS }
    ensures kept { AreKept D.Disk disks.old disks.new }
    ensures was { OnOk result (AreBlank D.Disk disks.old) }
    ensures blank { OnOk result (AreBlank D.Disk disks.new) }
    ensures refused { IfErr result (IsNotStarted D.Disk disks.old disks.new) }
{
    for c in 0..disks.len() {
        ask_blank(c as u8, &mut disks[c])?;
    }
    Ok(())
}
