ghost use Rattle.std.specs.Prelude.{◌≡◌, ◌≤◌, length, IfOk, IfErr};
ghost use Rattle.def_facts.specs.Playable.{IsPlayable};
ghost use Rattle.ic_base.specs.declared.limits.TheConstants.{COMPONENTS};
ghost use Rattle.ic_serve.specs.Opening.{Opens, FailsToOpen};
ghost use Rattle.ic_world.specs.Opening.{disks_in};

use ic_base::{Program, StartWhy};
use ic_disk::{Disk, TornDisk};
use ic_world::{StartRefused, World};
use std::alloc::Global;

/// The world of a program over its disks: with all components up over fresh logs where all disks are blank, else with all down over the
/// logs that stand there.
pub(crate) fn open<D: Disk + Drop>(
    alloc: Global,
    program: &Program,
    fingerprint: &[u8; 32],
    disks: Vec<D>,
) -> Result<World<TornDisk<D>>, StartRefused<D>>
    requires few { length program.now.components ≤ COMPONENTS }
    requires playable { IsPlayable program.now }
    requires disks { length disks.items ≡ disks_in program.now.components }
    ensures step { IfOk result (Opens D.Disk program.now fingerprint.now disks.items) }
    ensures refused { IfErr result (FailsToOpen D.Disk program.now fingerprint.now disks.items) }
    ensures print { length fingerprint.now ≡ 32 }
{
    match World::start(alloc, program, *fingerprint, disks) {
        Ok(world) => Ok(world),
        Err(refused) => match refused.why {
            StartWhy::NotBlank(_) => World::found(alloc, program, *fingerprint, refused.disks),
            _ => Err(refused),
        },
    }
}
