ghost use Rattle.std.specs.Prelude.{◌≡◌, ◌+◌, ◌≤◌, ◌++◌, ◌∷◌, [], List, cond, filter, length, OnOk, IfOk};
ghost use Rattle.ic_base.specs.declared.limits.TheConstants.{COMPONENTS};
ghost use Rattle.def_facts.specs.World.{is_by};
ghost use Rattle.def_live_run.specs.Reports.{Marked, marked, in_order};
ghost use Rattle.ic_threads.specs.Outputs.{Tells, level_of};

use ic_base::{Answer, ComId, Event, Items, Output, Program, ReportLevel, Trace, What};
use ic_network::Shown;
use ic_report::trace_bytes;
use std::alloc::{AllocError, Global};

/// The lines of outputs, and how many of them were shown for the first time and again.
#[derive(Drop)]
pub(crate) struct Outputs {
    pub lines: Vec<u8>,
    pub first: u64,
    pub again: u64,
}

/// The level at which the line of an output alone is told.
fn level_of(level: ReportLevel) -> ReportLevel
    ensures { result ≡ level_of level }
{
    match level {
        ReportLevel::Summary => ReportLevel::Summary,
        _ => ReportLevel::Brief,
    }
}

/// One more, if it counts. A count that can't rise wants memory.
fn more(count: u64, counts: bool) -> Result<u64, AllocError>
    ensures { IfOk result (λ n. n ≡ count + cond counts 1 0) }
{
    if !counts {
        return Ok(count);
    }
    match count.checked_add(1) {
        Some(count) => Ok(count),
        None => Err(AllocError),
    }
}

/// The line of an output of a component goes behind these, and is counted.
fn add_output(
    alloc: Global,
    program: &Program,
    level: ReportLevel,
    c: ComId,
    output: &Output,
    before: bool,
    outputs: &mut Outputs,
) -> Result<(), AllocError>
    ensures { OnOk result ((xs : List Marked) → Tells program.now level xs outputs.old → Tells program.now level (xs ++ record { by = «c»; output = output.now; before = before } ∷ []) outputs.new) }
{
    let trace = Trace {
        event: Event {
            what: What::Emit(c),
            stop: None,
        },
        answer: Answer::Ended,
        puts: Items::new(alloc),
        first_put: 1,
        shown: Some((*output, before)),
        aborted: None,
    };
    let line = trace_bytes(alloc, program, 1, &trace, level_of(level))?;
    outputs.lines.extend_from_slice(line.as_slice())?;
    outputs.first = more(outputs.first, !before)?;
    outputs.again = more(outputs.again, before)?;
    Ok(())
}

/// A showing goes behind these, if it is one of the component, which showed those that were seen.
fn add_showing(
    alloc: Global,
    program: &Program,
    level: ReportLevel,
    c: ComId,
    showing: &(ComId, Output),
    seen: &mut Shown,
    outputs: &mut Outputs,
) -> Result<(), AllocError>
    ensures seen { OnOk result (seen.new.showings ≡ seen.old.showings ++ filter (is_by «c») (showing.now ∷ [])) }
    ensures told { OnOk result ((xs : List Marked) → Tells program.now level xs outputs.old → Tells program.now level (xs ++ marked seen.old.showings (filter (is_by «c») (showing.now ∷ []))) outputs.new) }
{
    let (by, output) = showing;
    if by.0 != c.0 {
        return Ok(());
    }
    seen.reserve(1)?;
    let before = seen.was_shown(*by, output.m);
    seen.add(*by, *output);
    add_output(alloc, program, level, *by, output, before, outputs)
}

/// The lines of the outputs of one component go behind these.
fn add_outputs_of(
    alloc: Global,
    program: &Program,
    level: ReportLevel,
    c: ComId,
    showings: &[(ComId, Output)],
    outputs: &mut Outputs,
) -> Result<(), AllocError>
    ensures { OnOk result ((xs : List Marked) → Tells program.now level xs outputs.old → Tells program.now level (xs ++ marked [] (filter (is_by «c») showings.now)) outputs.new) }
{
    let mut seen = Shown::new(alloc);
    for showing in showings {
        add_showing(alloc, program, level, c, showing, &mut seen, outputs)?;
    }
    Ok(())
}

/// The lines of all outputs, in order of component and showing; an output is shown again where its component showed it before.
pub(crate) fn outputs_of(
    alloc: Global,
    program: &Program,
    level: ReportLevel,
    showings: &[(ComId, Output)],
) -> Result<Outputs, AllocError>
    requires few { length program.now.components ≤ COMPONENTS }
    ensures { IfOk result (Tells program.now level (in_order program.now showings.now)) }
{
    let mut outputs = Outputs {
        lines: Vec::new(alloc),
        first: 0,
        again: 0,
    };
    for i in 0..program.components.len() {
        add_outputs_of(
            alloc,
            program,
            level,
            ComId(i as u8),
            showings,
            &mut outputs,
        )?;
    }
    Ok(outputs)
}
