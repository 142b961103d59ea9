ghost use Rattle.std.specs.Prelude.{IfOk, IfErr};
ghost use Rattle.ic_clients.specs.Moments.{item_pieces};
ghost use Rattle.ic_clients.specs.Working.{MayFollow, Pursued};
ghost use Rattle.ic_run.specs.Agendas.{agenda_of, IsReady};
ghost use Rattle.ic_run.specs.Running.{WasCut};
ghost use Rattle.ic_settle.specs.Policies.{intervals_of};
ghost use Rattle.ic_world.specs.Allowing.{GoesOn};

use crate::noting::tell;
use ic_base::{Policy, Program, ReportLevel, Steps};
use ic_client::Front;
use ic_disk::{Disk, Sink, TornDisk};
use ic_run::{Agenda, Cut, Tally, advance};
use ic_world::World;
use std::alloc::Global;
use std::sync::ledger::Ledger;

/// Does all that is to be done of an agenda of one event at the most, as a run does, and lets the front see each event before its
/// lines are printed.
pub(crate) fn pursue_seen<K: Sink, D: Disk, L: Ledger>(
    alloc: Global,
    world: &mut World<TornDisk<D>>,
    program: &Program,
    policy: &Policy,
    agenda: &Agenda<'_>,
    level: ReportLevel,
    tally: Tally,
    front: &mut Front,
    out: &mut K,
    steps: &mut Steps<L>,
) -> Result<Tally, Cut>
    requires world { GoesOn program.now world.old }
    requires ready { IsReady program.now world.old agenda.now }
    requires may { MayFollow front.old (agenda_of agenda.now) }
    ensures done { IfOk result (Pursued K.Sink program.now (intervals_of policy.now) level tally (agenda_of agenda.now) front.old.taken front.new.taken world.old world.new out.old out.new) }
    ensures cut { IfErr result (WasCut D.Disk K.Sink program.now (intervals_of policy.now) (item_pieces program.now level) tally.events (agenda_of agenda.now) world.old world.new out.old out.new) }
{
    let mut rest = *agenda;
    let mut told = tally;
    while let Some(trace) = advance(alloc, world, program, policy, &mut rest, steps)? {
        front.saw(&trace);
        told = tell(alloc, program, level, told, &trace, out)?;
    }
    Ok(told)
}
