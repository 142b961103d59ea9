ghost use Rattle.std.specs.Prelude.{◌≡◌, ◌+◌, ◌<◌, length, option_map, IfOk, IfErr, IfSome};
ghost use Rattle.ic_base.specs.declared.events.What.{What};
ghost use Rattle.def_run.specs.Reports.{played_by_all};
ghost use Rattle.def_run.specs.SystemStates.{without_stop};
ghost use Rattle.def_step.specs.Settle as definition;
ghost use Rattle.ic_world.specs.Allowing.{GoesOn};
ghost use Rattle.ic_world.specs.Stepping.{KeepsDisks, CrashLeavesLogs, FailsToStep};
ghost use Rattle.ic_world.specs.Views.{components_of, world_of};
ghost use Rattle.ic_settle.specs.Policies.{intervals_of};
ghost use Rattle.ic_settle.specs.Settling.{Settles};

use crate::next::next_event;
use crate::policy::next_policy;
use ic_base::{ComId, Event, Policy, Program, Steps, Trace, WorldRefused};
use ic_disk::{Disk, TornDisk};
use ic_world::World;
use std::alloc::Global;
use std::sync::ledger::Ledger;

/// The settling event: that of the policy for the component of the event before, where there is one, else the next event.
fn settling_event<D: Disk>(world: &World<D>, policy: &Policy, last: Option<ComId>) -> Option<Event>
    requires last { IfSome last (λ c. c.0 < length (components_of world.now)) }
    ensures { result ≡ option_map without_stop (definition.settling_event (world_of world.now) (intervals_of policy.now) last) }
{
    let Some(com) = last else {
        return next_event(world);
    };
    match next_policy(world, policy, com) {
        Some(event) => Some(event),
        None => next_event(world),
    }
}

/// Does one event that settles the world (docs/RULES.md, "Settling"). `last` is the component of the event before, or None.
/// None comes exactly where nothing is left to do. Each event lowers what is left, so a loop over this call ends.
pub fn settle<D: Disk, L: Ledger>(
    alloc: Global,
    world: &mut World<TornDisk<D>>,
    program: &Program,
    policy: &Policy,
    last: Option<ComId>,
    steps: &mut Steps<L>,
) -> Result<Option<Trace>, WorldRefused>
    requires world { GoesOn program.now world.old }
    requires last { IfSome last (λ c. c.0 < length (components_of world.old)) }
    ensures step { IfOk result (Settles program.now (intervals_of policy.now) last world.old world.new) }
    ensures disks { (what : What) → definition.settling_event (world_of world.old) (intervals_of policy.now) last ≡ Some what → KeepsDisks world.old what world.new }
    ensures crash { (what : What) → definition.settling_event (world_of world.old) (intervals_of policy.now) last ≡ Some what → CrashLeavesLogs program.now world.old what world.new }
    ensures refused { IfErr result (λ why. (what : What) → definition.settling_event (world_of world.old) (intervals_of policy.now) last ≡ Some what → FailsToStep D.Disk program.now world.old (without_stop what) world.new why) }
    ensures played { IfOk result (λ t. steps.new ≡ steps.old + played_by_all (world_of world.old).nodes (world_of world.new).nodes) }
{
    let Some(event) = settling_event(world, policy, last) else {
        return Ok(None);
    };
    match world.step(alloc, program, &event, steps) {
        Ok(trace) => Ok(Some(trace)),
        Err(why) => Err(why),
    }
}
