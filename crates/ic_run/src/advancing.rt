ghost use Rattle.std.specs.Prelude.{◌≡◌, ◌+◌, IfOk, IfErr};
ghost use Rattle.def_run.specs.Reports.{played_by_all};
ghost use Rattle.def_step.specs.Settle as definition;
ghost use Rattle.ic_run.specs.Advancing.{Advances, FailsToAdvance};
ghost use Rattle.ic_run.specs.Agendas.{IsReady};
ghost use Rattle.ic_settle.specs.Policies.{intervals_of};
ghost use Rattle.ic_world.specs.Allowing.{GoesOn};
ghost use Rattle.ic_world.specs.Views.{world_of};

use crate::Agenda;
use crate::agenda::next;
use ic_base::{Answer, ComId, Policy, Program, Steps, Trace, What, WorldRefused};
use ic_disk::{Disk, TornDisk};
use ic_network::receiver_of;
use ic_world::World;
use std::alloc::Global;
use std::sync::ledger::Ledger;

/// The component of which the policy is asked behind an event.
fn asked_of(trace: &Trace) -> Option<ComId>
    ensures { result ≡ definition.asked_of trace.now.event.what trace.now.answer }
{
    match (trace.event.what, trace.answer) {
        (What::Input(c, _, _), _) => Some(c),
        (What::Deliver(_, to) | What::Lose(_, to), _) => Some(to),
        (What::Packet(_), Answer::Packet(_, packet, _)) => Some(receiver_of(&packet)),
        (What::Packet(_), _) => None,
        (What::Force(c) | What::Checkpoint(c) | What::Resend(c), _) => Some(c),
        (What::Emit(c) | What::Crash(c) | What::Recover(c), _) => Some(c),
    }
}

/// Does the event that is next: what the policy asks for behind the event before; else the schedule's next event; else,
/// unless the run halts, what settles (docs/RULES.md, "Settling"). None comes exactly where nothing is left to do. Each event
/// leaves less to do, so a loop over this call ends.
pub fn advance<D: Disk, L: Ledger>(
    alloc: Global,
    world: &mut World<TornDisk<D>>,
    program: &Program,
    policy: &Policy,
    agenda: &mut Agenda<'_>,
    steps: &mut Steps<L>,
) -> Result<Option<Trace>, WorldRefused>
    requires world { GoesOn program.now world.old }
    requires ready { IsReady program.now world.old agenda.old }
    ensures step { IfOk result (Advances program.now (intervals_of policy.now) agenda.old agenda.new world.old world.new) }
    ensures refused { IfErr result (FailsToAdvance D.Disk program.now (intervals_of policy.now) agenda.old world.old world.new) }
    ensures played { IfOk result (λ t. steps.new ≡ steps.old + played_by_all (world_of world.old).nodes (world_of world.new).nodes) }
{
    let Some(coming) = next(world, policy, agenda) else {
        return Ok(None);
    };
    match world.step(alloc, program, &coming.event, steps) {
        Ok(trace) => {
            agenda.left = coming.left;
            agenda.last = asked_of(&trace);
            Ok(Some(trace))
        }
        Err(why) => Err(why),
    }
}
