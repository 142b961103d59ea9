ghost use Rattle.std.specs.Prelude.{◌≡◌, ◌<◌, length, option_map, IfSome};
ghost use Rattle.def_run.specs.Executions as definition;
ghost use Rattle.def_run.specs.SystemStates.{without_stop};
ghost use Rattle.def_step.specs.Settle.{policy_for};
ghost use Rattle.ic_run.specs.Agendas.{agenda_of, next_of};
ghost use Rattle.ic_settle.specs.Policies.{intervals_of};
ghost use Rattle.ic_world.specs.Views.{components_of, world_of};

use ic_base::{ComId, Event, Policy};
use ic_disk::Disk;
use ic_settle::{next_event, next_policy};
use ic_world::World;

/// What is still to be done of a run.
#[derive(Clone, Copy)]
pub struct Agenda<'a> {
    /// The events of the schedule that are left.
    pub left: &'a [Event],
    /// Whether it ends behind them, and the world isn't settled.
    pub halts: bool,
    /// The component of the event before, of which the policy is asked.
    pub last: Option<ComId>,
}

/// The event that is next, and the events of the schedule that are left behind it.
#[derive(Clone, Copy)]
pub(crate) struct Coming<'a> {
    pub(crate) event: Event,
    pub(crate) left: &'a [Event],
}

/// What the policy asks for behind the event before.
fn policy_event<D: Disk>(world: &World<D>, policy: &Policy, last: Option<ComId>) -> Option<Event>
    requires { IfSome last (λ c. c.0 < length (components_of world.now)) }
    ensures { result ≡ option_map without_stop (policy_for (world_of world.now) (intervals_of policy.now) last) }
{
    next_policy(world, policy, last?)
}

/// The event that is next: what the policy asks for behind the event before; else the schedule's next event; else, unless the
/// run halts, what settles the world.
pub(crate) fn next<'a, D: Disk>(
    world: &World<D>,
    policy: &Policy,
    agenda: &Agenda<'a>,
) -> Option<Coming<'a>>
    requires { IfSome agenda.now.last (λ c. c.0 < length (components_of world.now)) }
    ensures { option_map next_of result ≡ definition.next (world_of world.now) (intervals_of policy.now) (agenda_of agenda.now) }
{
    let left = agenda.left;
    if let Some(event) = policy_event(world, policy, agenda.last) {
        return Some(Coming { event, left });
    }
    match left.split_first() {
        Some((event, left)) => Some(Coming {
            event: *event,
            left,
        }),
        None if agenda.halts => None,
        None => {
            let event = next_event(world)?;
            Some(Coming { event, left })
        }
    }
}
