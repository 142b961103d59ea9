ghost use Rattle.std.specs.Prelude.{◌≡◌, ◌≤◌, OnOk, IfErr, length};
ghost use Rattle.ic_base.specs.declared.limits.TheConstants.{COMPONENTS};
ghost use Rattle.ic_disk.specs.Disk.{Keeps};
ghost use Rattle.ic_world.specs.Opening.{EachMeets, LeavesNoMore, disks_in};
ghost use Rattle.ic_world.specs.Making.{IsBlank, IsNoBlank, IsOnlyRead, AreBlank, IsNoneBlank};

use ic_base::{ComId, Kind, Program, StartWhy};
use ic_disk::Disk;

/// Asks the length of a component's disk, which is to be blank.
fn ask_blank<D: Disk>(com: ComId, disk: &mut D) -> Result<(), StartWhy>
    ensures disk { Keeps D.Disk disk.old disk.new }
    ensures crash { LeavesNoMore D.Disk disk.old disk.new }
    ensures old { OnOk result (IsBlank D.Disk disk.old) }
    ensures new { OnOk result (IsBlank D.Disk disk.new) }
    ensures refused { IfErr result (IsNoBlank D.Disk «com» disk.old disk.new) }
{
    match disk.length() {
        Ok(0) => Ok(()),
        Ok(_) => Err(StartWhy::NotBlank(com)),
        Err(_) => Err(StartWhy::Failed(com)),
    }
}

/// Asks the lengths of all disks, in order. The first one that isn't blank is told.
pub(crate) fn ask_all<D: Disk>(program: &Program, disks: &mut [D]) -> Result<(), StartWhy>
    requires few { length program.now.components ≤ COMPONENTS }
    requires disks { length disks.old ≡ disks_in program.now.components }
    ensures disks { EachMeets (IsOnlyRead D.Disk) disks.old disks.new }
    ensures step { OnOk result (AreBlank D.Disk program.now disks.old disks.new) }
    ensures refused { IfErr result (IsNoneBlank D.Disk program.now disks.old disks.new) }
{
    let components = program.components.as_slice();
    let mut next = 0;
    for i in 0..components.len() {
        if let Kind::Xcom = components[i].kind {
            continue;
        }
        ask_blank(ComId(i as u8), &mut disks[next])?;
        next += 1;
    }
    Ok(())
}
