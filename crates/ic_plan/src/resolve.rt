ghost use Rattle.std.specs.Prelude.{◌≡◌, ◌≤◌, ◌+◌, ◌++◌, length, drop, map, IfSome, IfOk, MatchResult, Ok, Err};
ghost use Rattle.ic_base.specs.declared.limits.TheConstants.{VALUES};
ghost use Rattle.std.specs.declared.option.Option.TheVariants as options;
ghost use Rattle.ic_base.specs.declared.refusals.Cause.TheVariants.{Unknown};
ghost use Rattle.def_syntax.specs.Schedule.{com_of, named_from, is_inside, is_pcom, input_at, event_of};
ghost use Rattle.def_syntax.specs.Allowed.{IsSmall, NamesInside, MayHappen, IsAllowed};
ghost use Rattle.ic_plan.specs.RawEvent.{value_of, values_seen, entry_seen};
ghost use Rattle.ic_plan.specs.Events.{EventGiven, EventsGiven, Finds};

use crate::event_line::{EventLine, RawEvent};
use crate::names::{Wanted, handler_of, named};
use ic_base::limits::VALUES;
use ic_base::{Args, Cause, ComId, Event, Program, Stop, What};
use ic_tokens::{Token, TokenKind};

fn value_of(token: &Token) -> i64
    ensures { result ≡ value_of token.now.kind }
{
    match token.kind {
        TokenKind::Number(z) => z,
        _ => 0,
    }
}

/// The values that numbers give.
fn args_of(numbers: &[Token], tokens: &[Token]) -> Args
    requires { length numbers.now + length tokens.now ≤ VALUES }
    ensures { result ≡ values_seen numbers.now ++ values_seen tokens.now }
{
    let mut values = [0i64; VALUES];
    for (i, token) in numbers.iter().enumerate() {
        values[i] = value_of(token);
    }
    for (j, token) in tokens.iter().enumerate() {
        values[numbers.len() + j] = value_of(token);
    }
    let Some(args) = Args::of(&values[..numbers.len() + tokens.len()]) else {
        unreachable!()
    };
    args
}

/// The Pcom or Tcom of this name.
pub(crate) fn inside(program: &Program, name: &[u8]) -> Result<ComId, Cause>
    requires { IsSmall program.now }
    ensures found { Finds (com_of program.now is_inside name.now) result }
    ensures there { IfOk result (NamesInside program.now) }
{
    match named(program, Wanted::Inside, name) {
        Some((i, _)) => Ok(ComId(i)),
        None => Err(Cause::Unknown),
    }
}

/// The input of a handler, with as many values as it has parameters.
pub(crate) fn input(
    program: &Program,
    name: &[u8],
    handler: &[u8],
    numbers: &[Token],
    tokens: &[Token],
    stop: Option<Stop>,
) -> Result<Event, Cause>
    requires { IsSmall program.now }
    ensures found { EventGiven (input_at stop (values_seen numbers.now ++ values_seen tokens.now) handler.now
        (named_from 0 is_pcom name.now program.now.components)) result }
    ensures there { IfOk result (IsAllowed program.now) }
{
    let Some((c, component)) = named(program, Wanted::Pcom, name) else {
        return Err(Cause::Unknown);
    };
    let Some((h, handler)) = handler_of(component, handler) else {
        return Err(Cause::Unknown);
    };
    if numbers.len() + tokens.len() != usize::from(handler.params) {
        return Err(Cause::Arity);
    }
    Ok(Event {
        what: What::Input(ComId(c), h, args_of(numbers, tokens)),
        stop,
    })
}

/// What a written event stands for: one event, or none for `halt`.
#[tactic(auto, unfolding(def_syntax::specs::Schedule::event_of))]
pub(crate) fn event_of(program: &Program, entry: &EventLine<'_>) -> Result<Option<Event>, Cause>
    requires { IsSmall program.now }
    ensures found { EventsGiven (event_of program.now (entry_seen entry.now)) result }
    ensures there { IfOk result (λ o. IfSome o (IsAllowed program.now)) }
{
    let stop = entry.stop;
    let what = match entry.written {
        RawEvent::Halt => return Ok(None),
        RawEvent::Input(name, handler, numbers, values) => {
            return Ok(Some(input(program, name, handler, numbers, values, stop)?));
        }
        RawEvent::Packet(n) => What::Packet(n),
        RawEvent::Deliver(from, to) => What::Deliver(inside(program, from)?, inside(program, to)?),
        RawEvent::Lose(from, to) => What::Lose(inside(program, from)?, inside(program, to)?),
        RawEvent::Force(name) => What::Force(inside(program, name)?),
        RawEvent::Checkpoint(name) => What::Checkpoint(inside(program, name)?),
        RawEvent::Resend(name) => What::Resend(inside(program, name)?),
        RawEvent::Emit(name) => What::Emit(inside(program, name)?),
        RawEvent::Crash(name) => What::Crash(inside(program, name)?),
        RawEvent::Recover(name) => What::Recover(inside(program, name)?),
    };
    Ok(Some(Event { what, stop }))
}
