ghost use Rattle.std.specs.Prelude.{◌≡◌, ◌<◌, ◌≤◌, ◌^◌, ◌&&◌, ℕ, List, length, not, true, codes, bytes_eq, option_map, option_and_then, Some, IfSome, FitsSigned};
ghost use Rattle.def_syntax.specs.SyntaxLines.{both};
ghost use Rattle.std.specs.Int.{w64};
ghost use Rattle.std.specs.List.{list_all};
ghost use Rattle.def_two.specs.Script as script;
ghost use Rattle.ic_tokens.specs.declared.scan.Token.{Token};
ghost use Rattle.ic_tokens.specs.Views.{seen_token, seen_tokens};
ghost use Rattle.ic_script.specs.Forms as forms;
ghost use Rattle.ic_script.specs.Reading.{IsWritten, StopCounts};
ghost use Rattle.ic_script.specs.Views.{is_amount, is_row, line_seen};

use crate::form::{Form, form_of};
use crate::parts::{name_in, name_stop, names_stop, one_name, stop_of, two_names, within};
use ic_base::Stop;
use ic_base::limits::PACKETS;
use ic_tokens::{Token, TokenKind, fixed_word};

/// A line of a script as it is written, with the names and numbers that it has.
#[derive(Clone, Copy, Debug)]
pub(crate) enum ScriptLine<'a> {
    /// A book, and a number for each value.
    Book(&'a [u8], &'a [Token]),
    /// A book and a key, another book and a key, and the amount.
    Move(&'a [u8], i64, &'a [u8], i64, u64, Option<Stop>),
    /// The sender and the receiver.
    Deliver(&'a [u8], &'a [u8], Option<Stop>),
    /// The sender and the receiver.
    Lose(&'a [u8], &'a [u8]),
    Packet(u32, Option<Stop>),
    Crash(&'a [u8]),
    Resend(&'a [u8]),
    Recover(&'a [u8], Option<Stop>),
}

/// The number that a token is, if it is at least this one.
fn at_least(low: u8, token: &Token) -> Option<u64>
    ensures number { (line : List ℕ) → script.at_least low (seen_token line token.now) ≡ result }
    ensures low { IfSome result (λ n. low ≤ n) }
    ensures fits { IfSome result (λ n. n < 2 ^ 64) }
{
    match token.kind {
        TokenKind::Number(z) => {
            if i64::from(low) <= z {
                Some(z as u64)
            } else {
                None
            }
        }
        _ => None,
    }
}

/// The number that a token is, if it is one.
fn number_in(token: &Token) -> Option<i64>
    ensures number { (line : List ℕ) → script.number_in (seen_token line token.now) ≡ result }
    ensures fits { IfSome result (λ z. FitsSigned w64 z) }
{
    match token.kind {
        TokenKind::Number(z) => Some(z),
        _ => None,
    }
}

/// Whether a token is a number of at least 0.
fn is_amount(token: &Token) -> bool
    ensures { result ≡ is_amount token.now.kind }
{
    match token.kind {
        TokenKind::Number(z) => 0 <= z,
        _ => false,
    }
}

fn are_amounts(tokens: &[Token]) -> bool
    ensures { result ≡ list_all (λ (t : Token). is_amount t.kind) tokens.now }
{
    tokens.iter().all(|t| is_amount(t))
}

/// Whether tokens are 1 to 64 numbers of at least 0.
fn is_row(tokens: &[Token]) -> bool
    ensures row { result ≡ is_row tokens.now }
    ensures short { result ≡ true → length tokens.now ≤ 64 }
{
    1 <= tokens.len() && (tokens.len() <= 64 && are_amounts(tokens))
}

/// Whether a name is no word of a stop.
fn is_free_of_stops(name: &[u8]) -> bool
    ensures { result ≡ not (bytes_eq name.now (codes "stop")) && not (bytes_eq name.now (codes "old")) }
{
    match name {
        b"stop" => false,
        b"old" => false,
        _ => true,
    }
}

/// Whether a book may have this name.
fn is_component_name(name: &[u8]) -> bool
    ensures { result ≡ script.is_component_name name.now }
{
    fixed_word(name).is_none() && is_free_of_stops(name)
}

/// The line of a book with this name, whose values these tokens are.
fn book_line<'a>(name: &'a [u8], values: &'a [Token]) -> Option<ScriptLine<'a>>
    ensures line { (line : List ℕ) → option_map line_seen result ≡ option_and_then script.book_line (both (λ n x. (n, x)) (Some name.now) (option_and_then script.row_of (script.values_in (seen_tokens line values.now)))) }
    ensures written { IfSome result (λ l. IsWritten (line_seen l)) }
{
    if !is_row(values) {
        return None;
    }
    if !is_component_name(name) {
        return None;
    }
    Some(ScriptLine::Book(name, values))
}

fn book_of<'a>(line: &'a [u8], tokens: &'a [Token]) -> Option<ScriptLine<'a>>
    ensures line { option_map line_seen result ≡ script.book_of (seen_tokens line.now tokens.now) }
    ensures written { IfSome result (λ l. IsWritten (line_seen l)) }
{
    match tokens {
        [] => None,
        [name, values @ ..] => book_line(name_in(line, name)?, values),
    }
}

/// The line of a move between two books, whose names must differ.
fn move_line<'a>(
    from: &'a [u8],
    source: i64,
    to: &'a [u8],
    target: i64,
    amount: u64,
    stop: Option<Stop>,
) -> Option<ScriptLine<'a>>
    requires some { 1 ≤ amount }
    requires counts { StopCounts stop }
    ensures line { option_map line_seen result ≡ script.apart from.now to.now (script.MoveOf from.now source to.now target amount stop) }
    ensures written { IfSome result (λ l. IsWritten (line_seen l)) }
{
    if from == to {
        None
    } else {
        Some(ScriptLine::Move(from, source, to, target, amount, stop))
    }
}

fn move_of<'a>(line: &'a [u8], tokens: &[Token]) -> Option<ScriptLine<'a>>
    ensures line { option_map line_seen result ≡ script.move_of (seen_tokens line.now tokens.now) }
    ensures written { IfSome result (λ l. IsWritten (line_seen l)) }
{
    match tokens {
        [from, source, to, target, amount, rest @ ..] => {
            let from = name_in(line, from)?;
            let source = number_in(source)?;
            let to = name_in(line, to)?;
            let target = number_in(target)?;
            let amount = at_least(1, amount)?;
            let stop = stop_of(line, rest)?;
            move_line(from, source, to, target, amount, stop)
        }
        _ => None,
    }
}

fn deliver_of<'a>(line: &'a [u8], tokens: &[Token]) -> Option<ScriptLine<'a>>
    ensures line { option_map line_seen result ≡ script.deliver_of (seen_tokens line.now tokens.now) }
    ensures written { IfSome result (λ l. IsWritten (line_seen l)) }
{
    let (from, to, stop) = names_stop(line, tokens)?;
    Some(ScriptLine::Deliver(from, to, stop))
}

fn lose_of<'a>(line: &'a [u8], tokens: &[Token]) -> Option<ScriptLine<'a>>
    ensures line { option_map line_seen result ≡ script.lose_of (seen_tokens line.now tokens.now) }
    ensures written { IfSome result (λ l. IsWritten (line_seen l)) }
{
    let (from, to) = two_names(line, tokens)?;
    Some(ScriptLine::Lose(from, to))
}

fn packet_of<'a>(line: &[u8], tokens: &[Token]) -> Option<ScriptLine<'a>>
    ensures line { option_map line_seen result ≡ script.packet_of (seen_tokens line.now tokens.now) }
    ensures written { IfSome result (λ l. IsWritten (line_seen l)) }
{
    match tokens {
        [] => None,
        [number, rest @ ..] => {
            let number = within(1, PACKETS as u32, number)?;
            Some(ScriptLine::Packet(number, stop_of(line, rest)?))
        }
    }
}

fn crash_of<'a>(line: &'a [u8], tokens: &[Token]) -> Option<ScriptLine<'a>>
    ensures line { option_map line_seen result ≡ script.crash_of (seen_tokens line.now tokens.now) }
    ensures written { IfSome result (λ l. IsWritten (line_seen l)) }
{
    Some(ScriptLine::Crash(one_name(line, tokens)?))
}

fn resend_of<'a>(line: &'a [u8], tokens: &[Token]) -> Option<ScriptLine<'a>>
    ensures line { option_map line_seen result ≡ script.resend_of (seen_tokens line.now tokens.now) }
    ensures written { IfSome result (λ l. IsWritten (line_seen l)) }
{
    Some(ScriptLine::Resend(one_name(line, tokens)?))
}

fn recover_of<'a>(line: &'a [u8], tokens: &[Token]) -> Option<ScriptLine<'a>>
    ensures line { option_map line_seen result ≡ script.recover_of (seen_tokens line.now tokens.now) }
    ensures written { IfSome result (λ l. IsWritten (line_seen l)) }
{
    let (name, stop) = name_stop(line, tokens)?;
    Some(ScriptLine::Recover(name, stop))
}

/// What stands behind the first word of a line.
fn of_form<'a>(form: Form, line: &'a [u8], tokens: &'a [Token]) -> Option<ScriptLine<'a>>
    ensures line { option_map line_seen result ≡ forms.form_of form (seen_tokens line.now tokens.now) }
    ensures written { IfSome result (λ l. IsWritten (line_seen l)) }
{
    match form {
        Form::Book => book_of(line, tokens),
        Form::Move => move_of(line, tokens),
        Form::Deliver => deliver_of(line, tokens),
        Form::Packet => packet_of(line, tokens),
        Form::Lose => lose_of(line, tokens),
        Form::Crash => crash_of(line, tokens),
        Form::Recover => recover_of(line, tokens),
        Form::Resend => resend_of(line, tokens),
    }
}

/// The line that tokens are, if they are one.
#[tactic(auto, unfolding(def_two::specs::Script::line_of))]
pub(crate) fn line_of<'a>(line: &'a [u8], tokens: &'a [Token]) -> Option<ScriptLine<'a>>
    ensures line { option_map line_seen result ≡ script.line_of (seen_tokens line.now tokens.now) }
    ensures written { IfSome result (λ l. IsWritten (line_seen l)) }
{
    match tokens {
        [] => None,
        [word, rest @ ..] => {
            let form = form_of(name_in(line, word)?)?;
            of_form(form, line, rest)
        }
    }
}
