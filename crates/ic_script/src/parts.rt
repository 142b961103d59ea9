ghost use Rattle.std.specs.Prelude.{◌≡◌, ◌≤◌, ℕ, List, [], ◌∷◌, option_map, IfSome};
ghost use Rattle.def_syntax.specs.SyntaxLines.{name_in, one_name, name_then};
ghost use Rattle.def_syntax.specs.Schedule.{within, is_word, fill_of, stop_parts, stop_of};
ghost use Rattle.ic_tokens.specs.Views.{word_at, seen_token, seen_tokens};
ghost use Rattle.ic_script.specs.Reading.{StopCounts};

use ic_base::{Fill, Stop};
use ic_tokens::{Token, TokenKind, fixed_word, operator};

/// The word of a token.
fn word<'a>(line: &'a [u8], token: &Token) -> &'a [u8]
    ensures { result.now ≡ word_at line.now token.now }
{
    let behind = &line[token.place.min(line.len())..];
    &behind[..token.length.min(behind.len())]
}

/// The name that a token is, if it is one.
pub(crate) fn name_in<'a>(line: &'a [u8], token: &Token) -> Option<&'a [u8]>
    ensures { option_map (λ n. n.now) result ≡ name_in (seen_token line.now token.now) }
{
    let word = word(line, token);
    let is_name = match token.kind {
        TokenKind::Number(_) => false,
        TokenKind::Name => true,
        TokenKind::Fixed => fixed_word(word).is_none(),
        TokenKind::Operator => operator(word).is_none(),
    };
    if is_name { Some(word) } else { None }
}

/// The number that a token is, if it is one of these.
pub(crate) fn within(low: u32, high: u32, token: &Token) -> Option<u32>
    ensures number { (line : List ℕ) → within low high (seen_token line token.now) ≡ result }
    ensures low { IfSome result (λ n. low ≤ n) }
{
    match token.kind {
        TokenKind::Number(z) => {
            if i64::from(low) <= z && z <= i64::from(high) {
                Some(z as u32)
            } else {
                None
            }
        }
        _ => None,
    }
}

/// Whether a token is this word.
fn is_word(line: &[u8], token: &Token, wanted: &[u8]) -> bool
    ensures { result ≡ is_word wanted.now (seen_token line.now token.now) }
{
    match name_in(line, token) {
        Some(name) => name == wanted,
        None => false,
    }
}

fn fill_of(line: &[u8], token: &Token) -> Option<Fill>
    ensures { result ≡ fill_of (seen_token line.now token.now) }
{
    if is_word(line, token, b"old") {
        return Some(Fill::Old);
    }
    match within(0, 255, token) {
        Some(n) => Some(Fill::Byte(n as u8)),
        None => None,
    }
}

/// A stop that keeps these many bytes.
fn short_stop(line: &[u8], call: &Token, keep: &Token) -> Option<Stop>
    ensures stop { result ≡ stop_parts (seen_token line.now call.now ∷ seen_token line.now keep.now ∷ []) }
    ensures counts { IfSome result (λ s. 1 ≤ s.call) }
{
    Some(Stop {
        call: within(1, 16, call)?,
        keep: within(0, 4294967295, keep)?,
        fill: Fill::Old,
    })
}

fn whole_stop(line: &[u8], call: &Token, keep: &Token, fill: &Token) -> Option<Stop>
    ensures stop { result
        ≡ stop_parts (seen_token line.now call.now ∷ seen_token line.now keep.now ∷ seen_token line.now fill.now ∷ []) }
    ensures counts { IfSome result (λ s. 1 ≤ s.call) }
{
    Some(Stop {
        call: within(1, 16, call)?,
        keep: within(0, 4294967295, keep)?,
        fill: fill_of(line, fill)?,
    })
}

/// What stands behind the word `stop`.
fn stop_parts(line: &[u8], tokens: &[Token]) -> Option<Stop>
    ensures stop { result ≡ stop_parts (seen_tokens line.now tokens.now) }
    ensures counts { IfSome result (λ s. 1 ≤ s.call) }
{
    match tokens {
        [call] => Some(Stop {
            call: within(1, 16, call)?,
            keep: 0,
            fill: Fill::Old,
        }),
        [call, keep] => short_stop(line, call, keep),
        [call, keep, fill] => whole_stop(line, call, keep, fill),
        _ => None,
    }
}

/// Nothing, or a stop.
pub(crate) fn stop_of(line: &[u8], tokens: &[Token]) -> Option<Option<Stop>>
    ensures stop { result ≡ stop_of (seen_tokens line.now tokens.now) }
    ensures counts { IfSome result StopCounts }
{
    match tokens {
        [] => Some(None),
        [word, parts @ ..] => {
            if is_word(line, word, b"stop") {
                Some(Some(stop_parts(line, parts)?))
            } else {
                None
            }
        }
    }
}

/// A name, and nothing or a stop behind it.
pub(crate) fn name_stop<'a>(line: &'a [u8], tokens: &[Token]) -> Option<(&'a [u8], Option<Stop>)>
    ensures parts { option_map (λ x. (x.0.now, x.1)) result
        ≡ name_then stop_of (seen_tokens line.now tokens.now) }
    ensures counts { IfSome result (λ x. StopCounts x.1) }
{
    match tokens {
        [] => None,
        [name, rest @ ..] => Some((name_in(line, name)?, stop_of(line, rest)?)),
    }
}

pub(crate) fn names_stop<'a>(
    line: &'a [u8],
    tokens: &[Token],
) -> Option<(&'a [u8], &'a [u8], Option<Stop>)>
    ensures parts { option_map (λ x. (x.0.now, (x.1.now, x.2))) result
        ≡ name_then (name_then stop_of) (seen_tokens line.now tokens.now) }
    ensures counts { IfSome result (λ x. StopCounts x.2) }
{
    match tokens {
        [] => None,
        [name, rest @ ..] => {
            let first = name_in(line, name)?;
            let (second, stop) = name_stop(line, rest)?;
            Some((first, second, stop))
        }
    }
}

pub(crate) fn one_name<'a>(line: &'a [u8], tokens: &[Token]) -> Option<&'a [u8]>
    ensures { option_map (λ n. n.now) result ≡ one_name (seen_tokens line.now tokens.now) }
{
    match tokens {
        [name] => name_in(line, name),
        _ => None,
    }
}

pub(crate) fn two_names<'a>(line: &'a [u8], tokens: &[Token]) -> Option<(&'a [u8], &'a [u8])>
    ensures { option_map (λ x. (x.0.now, x.1.now)) result
        ≡ name_then one_name (seen_tokens line.now tokens.now) }
{
    match tokens {
        [] => None,
        [name, rest @ ..] => Some((name_in(line, name)?, one_name(line, rest)?)),
    }
}
