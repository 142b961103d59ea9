ghost use Rattle.std.specs.Prelude.{◌≡◌, ◌+◌, ◌≤◌, ◌<◌, ◌∷◌, [], ◌++◌, true, length, IfOk, IfErr, OnOk, OnErr};
ghost use Rattle.ic_base.specs.declared.limits.TheConstants.{COMPONENTS};
ghost use Rattle.def_live_run.specs.Reports.{output_lines};
ghost use Rattle.def_report.specs.Summaries.{summary_lines};
ghost use Rattle.ic_report.specs.Outputs.{if_any, Puts, FailsToPut};
ghost use Rattle.ic_run.specs.Summaries.{summed, FailsToTell};
ghost use Rattle.ic_threads.specs.Concluding.{with_outputs, shown_in};
ghost use Rattle.ic_world.specs.Acting.{GREATEST};
ghost use Rattle.ic_world.specs.Views.{world_of, played_of};

use crate::outputs::{Outputs, outputs_of};
use ic_base::{ComId, Output, Program, ReportLevel, Summary};
use ic_disk::{Disk, Sink, SinkFailed};
use ic_report::{Why, print, summary_bytes};
use ic_run::Tally;
use ic_world::World;
use std::alloc::{AllocError, Global};

/// What both phases came to.
fn summary_of<D: Disk>(
    alloc: Global,
    program: &Program,
    tally: Tally,
    outputs: &Outputs,
    played: u64,
    world: &World<D>,
) -> Result<Summary, AllocError>
    requires few { length program.now.components ≤ COMPONENTS }
    ensures { IfOk result (λ s. s ≡ summed program.now true (with_outputs tally outputs.now) played (world_of world.now)) }
{
    Ok(Summary {
        taken: tally.taken,
        kept: tally.kept,
        lost: tally.lost,
        missed: tally.missed,
        first: outputs.first,
        again: outputs.again,
        states: world.states(alloc)?,
        played,
        history: world.history_len(program)? as u64,
        settled: true,
    })
}

/// Prints a piece, and another behind it.
fn print_both<K: Sink>(out: &mut K, first: &[u8], second: &[u8]) -> Result<(), SinkFailed>
    ensures printed { OnOk result (Puts K.Sink (if_any first.now ++ if_any second.now) out.old out.new) }
    ensures failed { OnErr result (FailsToPut K.Sink (if_any first.now ++ if_any second.now) out.old out.new) }
{
    print(out, first)?;
    print(out, second)
}

/// Prints what was shown in both phases, in one piece, and what they came to, in another. `played` is the number of records that were played
/// in threads.
pub(crate) fn conclude<K: Sink, D: Disk>(
    alloc: Global,
    program: &Program,
    level: ReportLevel,
    tally: Tally,
    played: u64,
    shown: &[(ComId, Output)],
    world: &World<D>,
    out: &mut K,
) -> Result<(), Why>
    requires few { length program.now.components ≤ COMPONENTS }
    ensures printed { OnOk result (Puts K.Sink (if_any (output_lines program.now level shown.now) ++ summary_lines program.now (summed program.now true (shown_in program.now tally shown.now) (played + played_of world.now) (world_of world.now)) ∷ []) out.old out.new) }
    ensures few { OnOk result (played_of world.now < GREATEST) }
    ensures refused { IfErr result (FailsToTell K.Sink (if_any (output_lines program.now level shown.now) ++ summary_lines program.now (summed program.now true (shown_in program.now tally shown.now) (played + played_of world.now) (world_of world.now)) ∷ []) out.old out.new) }
{
    if world.played() == u64::MAX {
        return Err(Why::Memory);
    }
    let Some(played) = played.checked_add(world.played()) else {
        return Err(Why::Memory);
    };
    let outputs = outputs_of(alloc, program, level, shown)?;
    let summary = summary_of(alloc, program, tally, &outputs, played, world)?;
    let lines = summary_bytes(alloc, program, &summary)?;
    match print_both(out, outputs.lines.as_slice(), lines.as_slice()) {
        Ok(()) => Ok(()),
        Err(_) => Err(Why::Print),
    }
}
