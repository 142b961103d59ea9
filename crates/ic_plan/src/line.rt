ghost use Rattle.std.specs.Prelude.{◌≡◌, IfOk, IfSome, IfErr};
ghost use Rattle.def_syntax.specs.Text.{schedule_tokens_of};
ghost use Rattle.def_syntax.specs.Schedule.{is_halt, token_events, line_events};
ghost use Rattle.ic_tokens.specs.Views.{seen_tokens, RefusedFor};
ghost use Rattle.def_syntax.specs.Allowed.{IsSmall, IsAllowed};
ghost use Rattle.ic_plan.specs.RawEvent.{entry_seen};
ghost use Rattle.ic_plan.specs.Events.{LineGives, StandsFor};
ghost use Rattle.ic_plan.specs.Verbs.{forms_for};

use crate::event_line::{EventLine, RawEvent, entry_of};
use crate::resolve::event_of;
use crate::verb::Inputs;
use ic_base::{Cause, Event, Program};
use ic_tokens::{LineRefused, Token, schedule_tokens};
use std::alloc::Global;

fn is_halt(entry: &EventLine<'_>) -> bool
    ensures { result ≡ is_halt (entry_seen entry.now) }
{
    match entry.written {
        RawEvent::Halt => true,
        _ => false,
    }
}

/// The cause for which a line without tokens is refused.
pub(crate) fn cause_of(refused: LineRefused) -> Cause
    ensures { StandsFor refused result }
{
    match refused {
        LineRefused::NotText => Cause::NotText,
        LineRefused::Word => Cause::Word,
        LineRefused::Memory => Cause::Memory,
    }
}

/// The event of a line's tokens, and whether the schedule is halted behind it.
pub(crate) fn token_event(
    inputs: Inputs,
    program: &Program,
    halts: bool,
    line: &[u8],
    tokens: &[Token],
) -> Result<(Option<Event>, bool), Cause>
    requires { IsSmall program.now }
    ensures found { LineGives (token_events (forms_for inputs) program.now halts (seen_tokens line.now tokens.now)) result }
    ensures there { IfOk result (λ x. IfSome x.0 (IsAllowed program.now)) }
{
    if tokens.is_empty() {
        return Ok((None, halts));
    }
    if halts {
        return Err(Cause::Structure);
    }
    let Some(entry) = entry_of(inputs, line, tokens) else {
        return Err(Cause::Structure);
    };
    let event = event_of(program, &entry)?;
    Ok((event, is_halt(&entry)))
}

/// The event of a line, and whether the schedule is halted behind it.
#[tactic(auto, unfolding(def_syntax::specs::Schedule::line_events))]
pub(crate) fn line_event(
    alloc: Global,
    inputs: Inputs,
    program: &Program,
    halts: bool,
    line: &[u8],
) -> Result<(Option<Event>, bool), Cause>
    requires { IsSmall program.now }
    ensures found { LineGives (line_events (forms_for inputs) program.now halts line.now) result }
    ensures there { IfOk result (λ x. IfSome x.0 (IsAllowed program.now)) }
{
    match schedule_tokens(alloc, line) {
        Ok(tokens) => token_event(inputs, program, halts, line, tokens.as_slice()),
        Err(refused) => Err(cause_of(refused)),
    }
}
