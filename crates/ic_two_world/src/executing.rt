ghost use Rattle.std.specs.Prelude.{OnOk, IfErr};
ghost use Rattle.std.specs.List.{AllByRecursion};
ghost use Rattle.def_two.specs.Runs.{IsEvent2};
ghost use Rattle.ic_two_world.specs.Executing.{Executed2, WasRefused2};
ghost use Rattle.ic_two_world.specs.Views.{openings_of, IsGoing};

use crate::{TwoWorld, next_event2};
use def_two::{Event2, TwoRefused};
use ic_disk::{Disk, TornDisk};
use std::alloc::Global;

/// Does the events of a script in order, and then those that settle the world, until nothing is left to do (docs/RULES.md, "Moves over
/// two books"). Each event that settles leaves less to do, so it comes back for every script. The first refusal ends it, at the event
/// that was next.
pub fn execute<D: Disk + Drop>(
    alloc: Global,
    world: &mut TwoWorld<TornDisk<D>>,
    events: &[Event2],
) -> Result<(), TwoRefused>
    requires going { IsGoing ⟦<TornDisk<D> as Disk>⟧ world.old }
    requires events { AllByRecursion (IsEvent2 (openings_of world.old)) events.now }
    ensures done { OnOk result (Executed2 D.Disk events.now world.old world.new) }
    ensures refused { IfErr result (WasRefused2 D.Disk events.now world.old world.new) }
{
    for event in events {
        world.step(alloc, event)?;
    }
    while let Some(next) = next_event2(world) {
        world.step(alloc, &next)?;
    }
    Ok(())
}
