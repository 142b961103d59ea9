ghost use Rattle.std.specs.Prelude.{◌≡◌, option_map, IfOk, IfSome};
ghost use Rattle.ic_tokens.specs.Views.{seen_tokens};
ghost use Rattle.def_serve.specs.Reading as definition;
ghost use Rattle.def_serve.specs.Reading.{served_forms, served_line};
ghost use Rattle.def_syntax.specs.Allowed.{IsSmall, IsAllowed};
ghost use Rattle.def_syntax.specs.Text.{look_up};
ghost use Rattle.law_syntax.specs.Events.{IsEvent};
ghost use Rattle.ic_plan.specs.RawEvent.{entry_seen};
ghost use Rattle.ic_plan.specs.Served.{request_seen, line_seen, event_in, served_form, ReadsAs};

use crate::event_line::{EventLine, RawEvent, input_of, name_in, one_name, request_of};
use crate::line::cause_of;
use crate::resolve::{input, inside};
use ic_base::{Args, Cause, ComId, Program, What};
use ic_tokens::{Token, schedule_tokens};
use std::alloc::Global;

/// An input of a Pcom: its handler and its values.
#[derive(Clone, Copy, Debug)]
pub struct Request {
    pub who: ComId,
    pub handler: u8,
    pub args: Args,
}

/// What a line that is served asks for.
#[derive(Clone, Copy, Debug)]
pub enum ServedLine {
    /// The request of a client: the first two values are the client's number and its own.
    Asks(Request),
    /// An input that has no number.
    Gives(Request),
    /// A checkpoint of a component.
    Checkpoints(ComId),
    /// The values of all components.
    Values,
}

/// The first word of a line that is served.
#[derive(Clone, Copy, Debug)]
pub(crate) enum ServedVerb {
    Input,
    Client,
    Checkpoint,
    Values,
}

/// The verb that a word is, if it is one.
fn verb_of(word: &[u8]) -> Option<ServedVerb>
    ensures { option_map served_form result ≡ look_up word.now served_forms }
{
    if word == b"input".as_slice() {
        Some(ServedVerb::Input)
    } else if word == b"client".as_slice() {
        Some(ServedVerb::Client)
    } else if word == b"checkpoint".as_slice() {
        Some(ServedVerb::Checkpoint)
    } else if word == b"values".as_slice() {
        Some(ServedVerb::Values)
    } else {
        None
    }
}

/// The request of an input without a stop.
fn request_at(program: &Program, entry: Option<EventLine<'_>>) -> Result<Request, Cause>
    requires { IsSmall program.now }
    ensures read { ReadsAs request_seen (definition.request_at program.now (option_map entry_seen entry.entry)) result }
    ensures there { IfOk result (λ r. IfSome (event_in (ServedLine.Asks r)) (IsAllowed program.now)) }
{
    let Some(entry) = entry else {
        return Err(Cause::Structure);
    };
    match (entry.written, entry.stop) {
        (RawEvent::Input(name, handler, numbers, values), None) => {
            let event = input(program, name, handler, numbers, values, None)?;
            match &event.what {
                What::Input(who, handler, args) => Ok(Request {
                    who: *who,
                    handler: *handler,
                    args: *args,
                }),
                _ => Err(Cause::Unknown),
            }
        }
        _ => Err(Cause::Structure),
    }
}

/// The checkpoint of the component that is named.
fn checkpoint_at(program: &Program, name: Option<&[u8]>) -> Result<ServedLine, Cause>
    requires { IsSmall program.now }
    ensures read { ReadsAs line_seen (definition.checkpoint_at program.now (option_map (λ n. n.now) name.entry)) result }
    ensures there { IfOk result (λ l. IfSome (event_in l) (IsAllowed program.now)) }
{
    match name {
        Some(name) => Ok(ServedLine::Checkpoints(inside(program, name)?)),
        None => Err(Cause::Structure),
    }
}

/// What a line asks for that has these tokens behind its first word.
fn formed(
    program: &Program,
    verb: ServedVerb,
    line: &[u8],
    tokens: &[Token],
) -> Result<ServedLine, Cause>
    requires { IsSmall program.now }
    ensures read { ReadsAs line_seen (served_form verb program.now (seen_tokens line.now tokens.now)) result }
    ensures there { IfOk result (λ l. IfSome (event_in l) (IsAllowed program.now)) }
{
    match verb {
        ServedVerb::Input => Ok(ServedLine::Gives(request_at(program, input_of(line, tokens))?)),
        ServedVerb::Client => Ok(ServedLine::Asks(request_at(program, request_of(line, tokens))?)),
        ServedVerb::Checkpoint => checkpoint_at(program, one_name(line, tokens)),
        ServedVerb::Values => match tokens {
            [] => Ok(ServedLine::Values),
            _ => Err(Cause::Structure),
        },
    }
}

/// What a line asks for that has this word first and these tokens behind it.
#[tactic(auto, unfolding(def_serve::specs::Reading::line_with))]
fn line_with(
    program: &Program,
    line: &[u8],
    word: &[u8],
    tokens: &[Token],
) -> Result<ServedLine, Cause>
    requires { IsSmall program.now }
    ensures read { ReadsAs line_seen (definition.line_with program.now word.now (seen_tokens line.now tokens.now)) result }
    ensures there { IfOk result (λ l. IfSome (event_in l) (IsAllowed program.now)) }
{
    match verb_of(word) {
        Some(verb) => formed(program, verb, line, tokens),
        None => Err(Cause::Structure),
    }
}

/// What the tokens of a line ask for.
fn token_line(program: &Program, line: &[u8], tokens: &[Token]) -> Result<Option<ServedLine>, Cause>
    requires { IsSmall program.now }
    ensures read { ReadsAs (option_map line_seen) (definition.token_line program.now (seen_tokens line.now tokens.now)) result }
    ensures there { IfOk result (λ o. IfSome o (λ l. IfSome (event_in l) (IsAllowed program.now))) }
{
    let [first, rest @ ..] = tokens else {
        return Ok(None);
    };
    match name_in(line, first) {
        Some(word) => Ok(Some(line_with(program, line, word, rest)?)),
        None => Err(Cause::Structure),
    }
}

/// What a line asks for, of a run that serves lines: `input PCOM HANDLER NUMBER*`, `client U Q PCOM HANDLER NUMBER*`,
/// `checkpoint COM` or `values`, read as the lines of a schedule are. None of a line without tokens; else the first cause for
/// which it is refused.
#[tactic(auto, unfolding(def_serve::specs::Reading::served_line))]
pub fn read_line(alloc: Global, program: &Program, line: &[u8]) -> Result<Option<ServedLine>, Cause>
    requires { IsSmall program.now }
    ensures read { ReadsAs (option_map line_seen) (served_line program.now line.now) result }
    ensures allowed { IfOk result (λ o. IfSome o (λ l. IfSome (event_in l) (IsAllowed program.now))) }
    ensures events { IfOk result (λ o. IfSome o (λ l. IfSome (event_in l) (IsEvent program.now))) }
{
    match schedule_tokens(alloc, line) {
        Ok(tokens) => token_line(program, line, tokens.as_slice()),
        Err(refused) => Err(cause_of(refused)),
    }
}
