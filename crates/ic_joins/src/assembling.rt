ghost use Rattle.std.specs.Prelude.{◌≡◌, ◌≤◌, length, IfOk};
ghost use Rattle.ic_base.specs.declared.limits.TheConstants.{COMPONENTS};
ghost use Rattle.def_facts.specs.Playable.{IsPlayable};
ghost use Rattle.ic_live.specs.Ended.{AreReturned};
ghost use Rattle.ic_joins.specs.Assembling.{IsAssembled, IsJoined};
ghost use Rattle.ic_joins.specs.Showing.{showings_of};

use crate::placing::place_all;
use ic_base::{Items, Program, Showings};
use ic_disk::{Disk, TornDisk};
use ic_node::Component;
use ic_turn::Progress;
use ic_world::World;
use std::alloc::{AllocError, Global};

/// The world of the components that came back from a live run, with those outside in their places: its network is empty, and what they
/// showed counts as shown (docs/RULES.md, "Live runs"). Where the disks tell their bytes, it stands as the law of live runs wants it.
pub fn assemble<D: Disk + Drop>(
    alloc: Global,
    program: &Program,
    fingerprint: &[u8; 32],
    components: Items<Component<TornDisk<D>>>,
    progresses: &[Progress],
    shown: Showings,
) -> Result<World<TornDisk<D>>, AllocError>
    requires few { length program.now.components ≤ COMPONENTS }
    requires playable { IsPlayable program.now }
    requires returned { AreReturned program.now fingerprint.now components progresses.now }
    requires shown { shown ≡ showings_of components progresses.now }
    ensures step { IfOk result (IsAssembled program.now fingerprint.now components shown) }
    ensures joined { IfOk result (IsJoined program.now fingerprint.now components progresses.now) }
{
    let all = place_all(alloc, program, components)?;
    match World::assemble(alloc, program, *fingerprint, all, shown) {
        Ok(world) => Ok(world),
        Err(_) => Err(AllocError),
    }
}
