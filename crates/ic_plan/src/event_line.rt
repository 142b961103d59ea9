ghost use Rattle.std.specs.Prelude.{◌≡◌, ℕ, List, [], ◌∷◌, ◌≤◌, length, position, not, option_map};
ghost use Rattle.std.specs.List.{position_or_len};
ghost use Rattle.def_syntax.specs.SyntaxLines.{name_in, one_name, name_then};
ghost use Rattle.def_syntax.specs.Schedule.{within, is_word, fill_of, stop_parts, stop_of, values_then_stop, ForceOf, CheckpointOf, ResendOf, EmitOf, CrashOf, RecoverOf, is_count, input_of, request_of, deliver_of, packet_of, lose_of, at_one, alone, halt_of, entry_of};
ghost use Rattle.ic_tokens.specs.declared.scan.Token.{Token};
ghost use Rattle.ic_tokens.specs.Views.{word_at, seen_token, seen_tokens};
ghost use Rattle.ic_plan.specs.Verbs.{form_of, forms_for};
ghost use Rattle.ic_plan.specs.RawEvent.{is_number, values_seen, entry_seen};

use crate::verb::{Inputs, Verb, verb_of};
use ic_base::limits::PACKETS;
use ic_base::{Fill, Stop};
use ic_tokens::{Token, TokenKind, fixed_word, operator};

/// An event as it is written, with the names and numbers that it has.
#[derive(Clone, Copy, Debug)]
pub(crate) enum RawEvent<'a> {
    /// The Pcom, its handler, the two numbers of a request or none, and a number for each further value.
    Input(&'a [u8], &'a [u8], &'a [Token], &'a [Token]),
    /// The sender and the receiver.
    Deliver(&'a [u8], &'a [u8]),
    Packet(u32),
    /// The sender and the receiver.
    Lose(&'a [u8], &'a [u8]),
    Force(&'a [u8]),
    Checkpoint(&'a [u8]),
    Resend(&'a [u8]),
    Emit(&'a [u8]),
    Crash(&'a [u8]),
    Recover(&'a [u8]),
    Halt,
}

/// An event as it is written, with its stop.
#[derive(Clone, Copy, Debug)]
pub(crate) struct EventLine<'a> {
    pub written: RawEvent<'a>,
    pub stop: Option<Stop>,
}

/// The word of a token.
fn word<'a>(line: &'a [u8], token: &Token) -> &'a [u8]
    ensures { result.now ≡ word_at line.now token.now }
{
    let behind = &line[token.place.min(line.len())..];
    &behind[..token.length.min(behind.len())]
}

/// The name that a token is, if it is one.
pub(crate) fn name_in<'a>(line: &'a [u8], token: &Token) -> Option<&'a [u8]>
    ensures { option_map (λ n. n.now) result ≡ name_in (seen_token line.now token.now) }
{
    let word = word(line, token);
    let is_name = match token.kind {
        TokenKind::Number(_) => false,
        TokenKind::Name => true,
        TokenKind::Fixed => fixed_word(word).is_none(),
        TokenKind::Operator => operator(word).is_none(),
    };
    if is_name { Some(word) } else { None }
}

/// The number that a token is, if it is one of these.
pub(crate) fn within(low: u32, high: u32, token: &Token) -> Option<u32>
    ensures { (line : List ℕ) → within low high (seen_token line token.now) ≡ result }
{
    match token.kind {
        TokenKind::Number(z) => {
            if i64::from(low) <= z && z <= i64::from(high) {
                Some(z as u32)
            } else {
                None
            }
        }
        _ => None,
    }
}

/// Whether a token is this word.
fn is_word(line: &[u8], token: &Token, wanted: &[u8]) -> bool
    ensures { result ≡ is_word wanted.now (seen_token line.now token.now) }
{
    match name_in(line, token) {
        Some(name) => name == wanted,
        None => false,
    }
}

fn fill_of(line: &[u8], token: &Token) -> Option<Fill>
    ensures { result ≡ fill_of (seen_token line.now token.now) }
{
    if is_word(line, token, b"old") {
        return Some(Fill::Old);
    }
    match within(0, 255, token) {
        Some(n) => Some(Fill::Byte(n as u8)),
        None => None,
    }
}

/// A stop that keeps these many bytes.
fn short_stop(line: &[u8], call: &Token, keep: &Token) -> Option<Stop>
    ensures { result ≡ stop_parts (seen_token line.now call.now ∷ seen_token line.now keep.now ∷ []) }
{
    Some(Stop {
        call: within(1, 16, call)?,
        keep: within(0, 4294967295, keep)?,
        fill: Fill::Old,
    })
}

fn whole_stop(line: &[u8], call: &Token, keep: &Token, fill: &Token) -> Option<Stop>
    ensures { result
        ≡ stop_parts (seen_token line.now call.now ∷ seen_token line.now keep.now ∷ seen_token line.now fill.now ∷ []) }
{
    Some(Stop {
        call: within(1, 16, call)?,
        keep: within(0, 4294967295, keep)?,
        fill: fill_of(line, fill)?,
    })
}

/// What stands behind the word `stop`.
fn stop_parts(line: &[u8], tokens: &[Token]) -> Option<Stop>
    ensures { result ≡ stop_parts (seen_tokens line.now tokens.now) }
{
    match tokens {
        [call] => Some(Stop {
            call: within(1, 16, call)?,
            keep: 0,
            fill: Fill::Old,
        }),
        [call, keep] => short_stop(line, call, keep),
        [call, keep, fill] => whole_stop(line, call, keep, fill),
        _ => None,
    }
}

/// Nothing, or a stop.
fn stop_of(line: &[u8], tokens: &[Token]) -> Option<Option<Stop>>
    ensures { result ≡ stop_of (seen_tokens line.now tokens.now) }
{
    match tokens {
        [] => Some(None),
        [word, parts @ ..] => {
            if is_word(line, word, b"stop") {
                Some(Some(stop_parts(line, parts)?))
            } else {
                None
            }
        }
    }
}

/// A name, and nothing or a stop behind it.
fn name_stop<'a>(line: &'a [u8], tokens: &[Token]) -> Option<(&'a [u8], Option<Stop>)>
    ensures { option_map (λ x. (x.0.now, x.1)) result
        ≡ name_then stop_of (seen_tokens line.now tokens.now) }
{
    match tokens {
        [] => None,
        [name, rest @ ..] => Some((name_in(line, name)?, stop_of(line, rest)?)),
    }
}

fn names_stop<'a>(line: &'a [u8], tokens: &[Token]) -> Option<(&'a [u8], &'a [u8], Option<Stop>)>
    ensures { option_map (λ x. (x.0.now, (x.1.now, x.2))) result
        ≡ name_then (name_then stop_of) (seen_tokens line.now tokens.now) }
{
    match tokens {
        [] => None,
        [name, rest @ ..] => {
            let first = name_in(line, name)?;
            let (second, stop) = name_stop(line, rest)?;
            Some((first, second, stop))
        }
    }
}

pub(crate) fn one_name<'a>(line: &'a [u8], tokens: &[Token]) -> Option<&'a [u8]>
    ensures { option_map (λ n. n.now) result ≡ one_name (seen_tokens line.now tokens.now) }
{
    match tokens {
        [name] => name_in(line, name),
        _ => None,
    }
}

fn two_names<'a>(line: &'a [u8], tokens: &[Token]) -> Option<(&'a [u8], &'a [u8])>
    ensures { option_map (λ x. (x.0.now, x.1.now)) result
        ≡ name_then one_name (seen_tokens line.now tokens.now) }
{
    match tokens {
        [] => None,
        [name, rest @ ..] => Some((name_in(line, name)?, one_name(line, rest)?)),
    }
}

fn is_number(token: &Token) -> bool
    ensures { result ≡ is_number token.now.kind }
{
    match token.kind {
        TokenKind::Number(_) => true,
        _ => false,
    }
}

/// Where the first token stands that is no number.
fn end_of_numbers(tokens: &[Token]) -> Option<usize>
    ensures { result ≡ position (λ (t : Token). not (is_number t.kind)) tokens.now }
{
    tokens.iter().position(|t| !is_number(t))
}

/// How many numbers stand in front.
#[tactic(auto, using(ic_tokens::proofs::Cuts::place_or_all))]
fn count_of_numbers(tokens: &[Token]) -> usize
    ensures place { result ≡ position_or_len (λ (t : Token). not (is_number t.kind)) tokens.now }
    ensures inside { result ≤ length tokens.now }
{
    end_of_numbers(tokens).unwrap_or(tokens.len())
}

/// Numbers, and nothing or a stop behind them.
fn values_stop<'t>(line: &[u8], tokens: &'t [Token]) -> Option<(&'t [Token], Option<Stop>)>
    ensures { option_map (λ x. (values_seen x.0.now, x.1)) result
        ≡ values_then_stop (seen_tokens line.now tokens.now) }
{
    let (values, rest) = tokens.split_at(count_of_numbers(tokens));
    match stop_of(line, rest) {
        Some(stop) => Some((values, stop)),
        None => None,
    }
}

pub(crate) fn input_of<'a>(line: &'a [u8], tokens: &'a [Token]) -> Option<EventLine<'a>>
    ensures { option_map entry_seen result ≡ input_of (seen_tokens line.now tokens.now) }
{
    match tokens {
        [com, handler, rest @ ..] => {
            let com = name_in(line, com)?;
            let handler = name_in(line, handler)?;
            let (values, stop) = values_stop(line, rest)?;
            Some(EventLine {
                written: RawEvent::Input(com, handler, &tokens[..0], values),
                stop,
            })
        }
        _ => None,
    }
}

/// Whether a token is a number of at least 0.
fn is_count(token: &Token) -> bool
    ensures { (line : List ℕ) → result ≡ is_count (seen_token line token.now) }
{
    match token.kind {
        TokenKind::Number(z) => z >= 0,
        _ => false,
    }
}

/// The numbers of a request in front of the Pcom, its handler and further values.
pub(crate) fn request_of<'a>(line: &'a [u8], tokens: &'a [Token]) -> Option<EventLine<'a>>
    ensures { option_map entry_seen result ≡ request_of (seen_tokens line.now tokens.now) }
{
    match tokens {
        [user, number, com, handler, rest @ ..] => {
            if !is_count(user) || !is_count(number) {
                return None;
            }
            let com = name_in(line, com)?;
            let handler = name_in(line, handler)?;
            let (values, stop) = values_stop(line, rest)?;
            Some(EventLine {
                written: RawEvent::Input(com, handler, &tokens[..2], values),
                stop,
            })
        }
        _ => None,
    }
}

fn packet_of<'a>(line: &[u8], tokens: &[Token]) -> Option<EventLine<'a>>
    ensures { option_map entry_seen result ≡ packet_of (seen_tokens line.now tokens.now) }
{
    match tokens {
        [] => None,
        [number, rest @ ..] => Some(EventLine {
            written: RawEvent::Packet(within(1, PACKETS as u32, number)?),
            stop: stop_of(line, rest)?,
        }),
    }
}

fn deliver_of<'a>(line: &'a [u8], tokens: &[Token]) -> Option<EventLine<'a>>
    ensures { option_map entry_seen result ≡ deliver_of (seen_tokens line.now tokens.now) }
{
    let (from, to, stop) = names_stop(line, tokens)?;
    Some(EventLine {
        written: RawEvent::Deliver(from, to),
        stop,
    })
}

fn lose_of<'a>(line: &'a [u8], tokens: &[Token]) -> Option<EventLine<'a>>
    ensures { option_map entry_seen result ≡ lose_of (seen_tokens line.now tokens.now) }
{
    let (from, to) = two_names(line, tokens)?;
    Some(EventLine {
        written: RawEvent::Lose(from, to),
        stop: None,
    })
}

fn force_of<'a>(line: &'a [u8], tokens: &[Token]) -> Option<EventLine<'a>>
    ensures { option_map entry_seen result ≡ at_one ForceOf (seen_tokens line.now tokens.now) }
{
    let (com, stop) = name_stop(line, tokens)?;
    Some(EventLine {
        written: RawEvent::Force(com),
        stop,
    })
}

fn checkpoint_of<'a>(line: &'a [u8], tokens: &[Token]) -> Option<EventLine<'a>>
    ensures { option_map entry_seen result ≡ at_one CheckpointOf (seen_tokens line.now tokens.now) }
{
    let (com, stop) = name_stop(line, tokens)?;
    Some(EventLine {
        written: RawEvent::Checkpoint(com),
        stop,
    })
}

fn recover_of<'a>(line: &'a [u8], tokens: &[Token]) -> Option<EventLine<'a>>
    ensures { option_map entry_seen result ≡ at_one RecoverOf (seen_tokens line.now tokens.now) }
{
    let (com, stop) = name_stop(line, tokens)?;
    Some(EventLine {
        written: RawEvent::Recover(com),
        stop,
    })
}

fn resend_of<'a>(line: &'a [u8], tokens: &[Token]) -> Option<EventLine<'a>>
    ensures { option_map entry_seen result ≡ alone ResendOf (seen_tokens line.now tokens.now) }
{
    let com = one_name(line, tokens)?;
    Some(EventLine {
        written: RawEvent::Resend(com),
        stop: None,
    })
}

fn emit_of<'a>(line: &'a [u8], tokens: &[Token]) -> Option<EventLine<'a>>
    ensures { option_map entry_seen result ≡ alone EmitOf (seen_tokens line.now tokens.now) }
{
    let com = one_name(line, tokens)?;
    Some(EventLine {
        written: RawEvent::Emit(com),
        stop: None,
    })
}

fn crash_of<'a>(line: &'a [u8], tokens: &[Token]) -> Option<EventLine<'a>>
    ensures { option_map entry_seen result ≡ alone CrashOf (seen_tokens line.now tokens.now) }
{
    let com = one_name(line, tokens)?;
    Some(EventLine {
        written: RawEvent::Crash(com),
        stop: None,
    })
}

fn halt_of<'a>(tokens: &[Token]) -> Option<EventLine<'a>>
    ensures { (line : List ℕ) → option_map entry_seen result ≡ halt_of (seen_tokens line tokens.now) }
{
    match tokens {
        [] => Some(EventLine {
            written: RawEvent::Halt,
            stop: None,
        }),
        _ => None,
    }
}

/// What stands behind a verb.
fn form_of<'a>(verb: Verb, line: &'a [u8], tokens: &'a [Token]) -> Option<EventLine<'a>>
    ensures { option_map entry_seen result ≡ form_of verb (seen_tokens line.now tokens.now) }
{
    match verb {
        Verb::Input => input_of(line, tokens),
        Verb::Request => request_of(line, tokens),
        Verb::Deliver => deliver_of(line, tokens),
        Verb::Packet => packet_of(line, tokens),
        Verb::Lose => lose_of(line, tokens),
        Verb::Force => force_of(line, tokens),
        Verb::Checkpoint => checkpoint_of(line, tokens),
        Verb::Resend => resend_of(line, tokens),
        Verb::Emit => emit_of(line, tokens),
        Verb::Crash => crash_of(line, tokens),
        Verb::Recover => recover_of(line, tokens),
        Verb::Halt => halt_of(tokens),
    }
}

/// The event that tokens are, if they are one.
#[tactic(auto, unfolding(def_syntax::specs::Schedule::entry_of))]
pub(crate) fn entry_of<'a>(
    inputs: Inputs,
    line: &'a [u8],
    tokens: &'a [Token],
) -> Option<EventLine<'a>>
    ensures { option_map entry_seen result ≡ entry_of (forms_for inputs) (seen_tokens line.now tokens.now) }
{
    match tokens {
        [] => None,
        [word, rest @ ..] => {
            let verb = verb_of(inputs, name_in(line, word)?)?;
            form_of(verb, line, rest)
        }
    }
}
