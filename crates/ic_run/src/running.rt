ghost use Rattle.std.specs.Prelude.{◌≡◌, ◌++◌, ◌∷◌, [], List, suc, IfOk, IfErr, OnOk};
ghost use Rattle.ic_base.specs.declared.events.Trace.{Trace};
ghost use Rattle.ic_run.specs.Agendas.{agenda_of, IsReady};
ghost use Rattle.ic_run.specs.Running.{pieces_of, Executed, WasCut, FailsToTell};
ghost use Rattle.ic_run.specs.Tallies.{Counts, IsOneMore};
ghost use Rattle.ic_report.specs.Outputs.{Puts};
ghost use Rattle.ic_settle.specs.Policies.{intervals_of};
ghost use Rattle.ic_world.specs.Allowing.{GoesOn};

use crate::{Agenda, Tally, advance};
use ic_base::{Policy, Program, ReportLevel, Steps, Trace, WorldRefused};
use ic_disk::{Disk, Sink, SinkFailed, TornDisk};
use ic_report::{print, trace_bytes};
use ic_world::World;
use std::alloc::{AllocError, Global};
use std::sync::ledger::Ledger;

/// Why a run goes no further.
#[derive(Clone, Copy, Debug)]
pub enum Cut {
    /// The world refused an event.
    Refused(WorldRefused),
    /// The output failed.
    Print,
    /// Want of memory for the lines of an event, or more events than can be numbered.
    Memory,
}

impl From<WorldRefused> for Cut {
    ghost use Rattle.std.specs.Prelude.{◌≡◌};
    ghost use Rattle.ic_run.specs.declared.running.Cut.TheVariants.{Refused};

    ghost from_gives = { λ why cut. cut ≡ Refused why };

    fn from(why: WorldRefused) -> Self {
        Cut::Refused(why)
    }
}

impl From<SinkFailed> for Cut {
    ghost use Rattle.std.specs.Prelude.{◌≡◌};
    ghost use Rattle.ic_run.specs.declared.running.Cut.TheVariants.{Print};

    ghost from_gives = { λ _ cut. cut ≡ Print };

    fn from(_: SinkFailed) -> Self {
        Cut::Print
    }
}

impl From<AllocError> for Cut {
    ghost use Rattle.std.specs.Prelude.{◌≡◌};
    ghost use Rattle.ic_run.specs.declared.running.Cut.TheVariants.{Memory};

    ghost from_gives = { λ _ cut. cut ≡ Memory };

    fn from(_: AllocError) -> Self {
        Cut::Memory
    }
}

/// Counts an event, and prints its lines with its number.
fn tell<K: Sink>(
    alloc: Global,
    program: &Program,
    level: ReportLevel,
    tally: Tally,
    trace: &Trace,
    out: &mut K,
) -> Result<Tally, Cut>
    ensures counts { IfOk result (λ now. (traces : List Trace) → Counts traces tally → Counts (traces ++ trace.now ∷ []) now) }
    ensures more { IfOk result (IsOneMore tally) }
    ensures printed { OnOk result (Puts K.Sink (pieces_of program.now level (suc tally.events) trace.now) out.old out.new) }
    ensures cut { IfErr result (FailsToTell K.Sink (pieces_of program.now level (suc tally.events) trace.now) out.old out.new) }
{
    let Some(now) = tally.with(trace) else {
        return Err(Cut::Memory);
    };
    let lines = trace_bytes(alloc, program, now.events, trace, level)?;
    print(out, lines.as_slice())?;
    Ok(now)
}

/// Does all that is to be done of an agenda, with the events of the policy and, unless it halts, those that settle; and prints
/// the lines of each event, those of one at once. The events are numbered and counted on from a tally, so agendas may follow
/// one another over one world.
pub fn pursue<K: Sink, D: Disk, L: Ledger>(
    alloc: Global,
    world: &mut World<TornDisk<D>>,
    program: &Program,
    policy: &Policy,
    agenda: &Agenda<'_>,
    level: ReportLevel,
    tally: Tally,
    out: &mut K,
    steps: &mut Steps<L>,
) -> Result<Tally, Cut>
    requires world { GoesOn program.now world.old }
    requires ready { IsReady program.now world.old agenda.now }
    ensures done { IfOk result (Executed K.Sink program.now (intervals_of policy.now) (pieces_of program.now level) tally (agenda_of agenda.now) world.old world.new out.old out.new) }
    ensures cut { IfErr result (WasCut D.Disk K.Sink program.now (intervals_of policy.now) (pieces_of program.now level) tally.events (agenda_of agenda.now) world.old world.new out.old out.new) }
{
    let mut rest = *agenda;
    let mut told = tally;
    while let Some(trace) = advance(alloc, world, program, policy, &mut rest, steps)? {
        told = tell(alloc, program, level, told, &trace, out)?;
    }
    Ok(told)
}
