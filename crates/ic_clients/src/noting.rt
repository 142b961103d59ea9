ghost use Rattle.std.specs.Prelude.{◌++◌, ◌∷◌, [], List, suc, IfOk, IfErr, OnOk};
ghost use Rattle.def_client.specs.Clients.{item_of};
ghost use Rattle.ic_base.specs.declared.events.Trace.{Trace};
ghost use Rattle.ic_clients.specs.Moments.{item_pieces, note_pieces};
ghost use Rattle.ic_report.specs.Outputs.{Puts};
ghost use Rattle.ic_run.specs.Running.{FailsToTell};
ghost use Rattle.ic_run.specs.Tallies.{Counts, IsOneMore};

use ic_base::{Event, Program, ReportLevel, Trace};
use ic_client::Asked;
use ic_disk::Sink;
use ic_report::{item_bytes, note_bytes, print};
use ic_run::{Cut, Tally};
use std::alloc::Global;

/// Counts an event, and prints its lines with its number, in the form of its item.
pub(crate) fn tell<K: Sink>(
    alloc: Global,
    program: &Program,
    level: ReportLevel,
    tally: Tally,
    trace: &Trace,
    out: &mut K,
) -> Result<Tally, Cut>
    ensures counts { IfOk result (λ now. (traces : List Trace) → Counts traces tally → Counts (traces ++ trace.now ∷ []) now) }
    ensures more { IfOk result (IsOneMore tally) }
    ensures printed { OnOk result (Puts K.Sink (item_pieces program.now level (suc tally.events) trace.now) out.old out.new) }
    ensures cut { IfErr result (FailsToTell K.Sink (item_pieces program.now level (suc tally.events) trace.now) out.old out.new) }
{
    let Some(now) = tally.with(trace) else {
        return Err(Cut::Memory);
    };
    let lines = item_bytes(alloc, program, now.events, trace, level)?;
    print(out, lines.as_slice())?;
    Ok(now)
}

/// Numbers a request that is answered with no step, and prints its line.
pub(crate) fn note<K: Sink>(
    alloc: Global,
    program: &Program,
    level: ReportLevel,
    tally: Tally,
    event: &Event,
    answer: &Asked,
    out: &mut K,
) -> Result<Tally, Cut>
    ensures counts { IfOk result (λ now. (traces : List Trace) → Counts traces tally → Counts traces now) }
    ensures more { IfOk result (IsOneMore tally) }
    ensures printed { OnOk result (Puts K.Sink (note_pieces program.now level (suc tally.events) (item_of event.now) answer.now) out.old out.new) }
    ensures cut { IfErr result (FailsToTell K.Sink (note_pieces program.now level (suc tally.events) (item_of event.now) answer.now) out.old out.new) }
{
    let Some(now) = tally.noted() else {
        return Err(Cut::Memory);
    };
    let lines = note_bytes(alloc, program, now.events, event, answer, level)?;
    print(out, lines.as_slice())?;
    Ok(now)
}
