ghost use Rattle.std.specs.Prelude.{◌≡◌, IfOk};
ghost use Rattle.ic_serve.specs.Telling as definition;
ghost use Rattle.ic_serve.specs.Telling.{event_lines};

use ic_base::{Bytes, Packets, Program, ReportLevel, Trace};
use ic_report::{item_bytes, trace_bytes};
use std::alloc::{AllocError, Global};

/// In which form an event of a served run is told.
#[derive(Clone, Copy, Debug, PartialEq, Eq)]
pub(crate) enum Form {
    /// One that settles, or for which the policy asks: its event line stands at the level full alone.
    Following,
    /// That of a line: its event line stands at each level.
    Own,
    /// That of a line which is the request of a client, told as one.
    Request,
}

/// What is told of an event at a level: the packets that it put out at the level full alone, and an abort not in a summary.
fn told_at(alloc: Global, level: ReportLevel, trace: Trace) -> Trace
    ensures { result ≡ definition.told_at level trace }
{
    let mut told = trace;
    match level {
        ReportLevel::Full => {}
        ReportLevel::Brief => told.puts = Packets::new(alloc),
        ReportLevel::Summary => {
            told.puts = Packets::new(alloc);
            told.aborted = None;
        }
    }
    told
}

/// The level at which an event that follows is told.
fn level_behind(level: ReportLevel) -> ReportLevel
    ensures { result ≡ definition.level_behind level }
{
    match level {
        ReportLevel::Full => ReportLevel::Full,
        ReportLevel::Brief | ReportLevel::Summary => ReportLevel::Brief,
    }
}

/// The lines of the event of a number, in a form.
pub(crate) fn event_bytes(
    alloc: Global,
    program: &Program,
    level: ReportLevel,
    form: Form,
    number: u32,
    trace: Trace,
) -> Result<Bytes, AllocError>
    ensures { IfOk result (λ b. b ≡ event_lines program.now level form number trace) }
{
    let told = told_at(alloc, level, trace);
    match form {
        Form::Following => trace_bytes(alloc, program, number, &told, level_behind(level)),
        Form::Own => trace_bytes(alloc, program, number, &told, ReportLevel::Full),
        Form::Request => item_bytes(alloc, program, number, &told, ReportLevel::Full),
    }
}
