ghost use Rattle.std.specs.Prelude.{◌≡◌, ◌≤◌, length, IfOk, IfErr};
ghost use Rattle.ic_base.specs.declared.limits.TheConstants.{COMPONENTS};
ghost use Rattle.ic_world.specs.Opening.{LeavesBegun, disks_in};
ghost use Rattle.ic_world.specs.Making.{MayBeginOver, Opens, FailsToMake};

use crate::World;
use crate::asking::ask_all;
use crate::making::{Beginning, make_all, take_back};
use ic_base::{Program, StartWhy};
use ic_disk::{Disk, TornDisk};
use ic_network::{Network, Shown};
use std::alloc::Global;

/// Why no world begins. The disks are handed back in their order.
#[derive(Drop)]
pub struct StartRefused<D> {
    pub disks: Vec<D>,
    pub why: StartWhy,
}

impl<D: Disk + Drop> World<TornDisk<D>> {
    ghost use Rattle.std.specs.Prelude.{◌≡◌, ◌≤◌, ◌+◌, ◌++◌, length, IfOk, IfErr};
    ghost use Rattle.std.specs.Vec.{vec_len, vec_capacity};
    ghost use Rattle.ic_base.specs.declared.limits.TheConstants.{COMPONENTS};
    ghost use Rattle.def_facts.specs.Playable.{IsPlayable};
    ghost use Rattle.ic_world.specs.Explaining.{BeginsExplained, IsFoundExplained};
    ghost use Rattle.ic_world.specs.Opening.{Starts, Finds, FailsToStart, FailsToFind, EachMeets, LeavesFresh, LeavesBegun, LeavesNoMore, disks_in, disks_under, disks_behind};
    ghost use Rattle.ic_world.specs.Views.{components_of};

    /// All components up over fresh logs, one on each disk: a disk for each Pcom and Tcom, in order of declaration
    /// (docs/RULES.md, "Statuses"). First the lengths of all disks are asked, so a disk that isn't blank leaves all as they were.
    pub fn start(
        alloc: Global,
        program: &Program,
        fingerprint: [u8; 32],
        disks: Vec<D>,
    ) -> Result<World<TornDisk<D>>, StartRefused<D>>
        requires few { length program.now.components ≤ COMPONENTS }
        requires playable { IsPlayable program.now }
        requires disks { length disks.items ≡ disks_in program.now.components }
        ensures step { IfOk result (Starts D.Disk program.now fingerprint disks.items) }
        ensures explained { IfOk result (BeginsExplained program.now) }
        ensures crash { IfOk result (LeavesFresh fingerprint) }
        ensures refused { IfErr result (FailsToStart D.Disk program.now disks.items) }
        ensures begun { IfErr result (LeavesBegun D.Disk program.now fingerprint disks.items) }
    {
        let mut disks = disks;
        if let Err(why) = ask_all(program, disks.as_mut_slice()) {
            return Err(StartRefused { disks, why });
        }
        opened(alloc, program, fingerprint, Beginning::Fresh, disks)
    }

    /// All components down over the logs that stand on their disks, each of which is loaded once and its records read.
    pub fn found(
        alloc: Global,
        program: &Program,
        fingerprint: [u8; 32],
        disks: Vec<D>,
    ) -> Result<World<TornDisk<D>>, StartRefused<D>>
        requires few { length program.now.components ≤ COMPONENTS }
        requires playable { IsPlayable program.now }
        requires disks { length disks.items ≡ disks_in program.now.components }
        ensures step { IfOk result (Finds D.Disk program.now fingerprint disks.items) }
        ensures explained { IfOk result (IsFoundExplained D.Disk program.now disks.items) }
        // No write is made, so a crash leaves nothing more of any disk.
        ensures crash { EachMeets (LeavesNoMore D.Disk) disks.items (disks_behind result) }
        ensures refused { IfErr result (FailsToFind D.Disk program.now fingerprint disks.items) }
    {
        opened(alloc, program, fingerprint, Beginning::Found, disks)
    }

    /// The disks below, in the order of their components, go behind these.
    pub fn into_disks(self, back: &mut Vec<D>)
        requires { vec_len back.old + length (disks_under (components_of self)) ≤ vec_capacity back.old }
        ensures { back.new.items ≡ back.old.items ++ disks_under (components_of self) }
    {
        take_back(back, self.components);
    }
}

/// The world whose components begin so over the disks.
fn opened<D: Disk + Drop>(
    alloc: Global,
    program: &Program,
    fingerprint: [u8; 32],
    way: Beginning,
    disks: Vec<D>,
) -> Result<World<TornDisk<D>>, StartRefused<D>>
    requires few { length program.now.components ≤ COMPONENTS }
    requires disks { length disks.items ≡ disks_in program.now.components }
    requires may { MayBeginOver D.Disk way disks.items }
    ensures step { IfOk result (Opens D.Disk way program.now fingerprint disks.items) }
    ensures refused { IfErr result (FailsToMake D.Disk way program.now fingerprint disks.items) }
    ensures begun { IfErr result (λ refused. way ≡ Beginning.Fresh → LeavesBegun D.Disk program.now fingerprint disks.items refused) }
{
    let Ok(network) = Network::new(alloc) else {
        return Err(StartRefused {
            disks,
            why: StartWhy::Memory,
        });
    };
    let components = make_all(alloc, program, &fingerprint, way, disks)?;
    Ok(World {
        fingerprint,
        components,
        network,
        shown: Shown::new(alloc),
        received: 0,
        played: 0,
        over: false,
    })
}
