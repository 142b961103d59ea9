ghost use Rattle.std.specs.Prelude.{◌≡◌, ◌<◌, ◌≤◌, ◌^◌, length, option_map, IfSome, IfOk};
ghost use Rattle.std.specs.List.{AllByRecursion};
ghost use Rattle.def_two.specs.Script as script;
ghost use Rattle.ic_script.specs.Views as views;
ghost use Rattle.ic_script.specs.Reading as reading;

use crate::line::{ScriptLine, line_of};
use def_two::{Amounts, Books, Event2, Events2, What2};
use ic_base::{Cause, Items};
use ic_tokens::{LineRefused, Token, TokenKind, schedule_tokens};
use std::alloc::{AllocError, Global};

/// How many books a script may have, and how many moves.
const BOOKS: usize = 8;

const MOVES: usize = 10_000;

/// What was read so far: the books, the number of `move` lines, whether an event's line stood there, and the events.
#[derive(Drop)]
pub(crate) struct SoFar {
    pub books: Books,
    pub moves: usize,
    pub in_events: bool,
    pub events: Events2,
}

/// The cause for which a line without tokens is refused.
fn cause_of(refused: LineRefused) -> Cause
    ensures { reading.StandsFor refused result }
{
    match refused {
        LineRefused::NotText => Cause::NotText,
        LineRefused::Word => Cause::Word,
        LineRefused::Memory => Cause::Memory,
    }
}

/// The number of a token, and 0 where it is none.
fn amount_of(token: &Token) -> u64
    ensures { result ≡ views.amount_of token.now.kind }
{
    match token.kind {
        TokenKind::Number(z) if 0 <= z => z as u64,
        _ => 0,
    }
}

/// The values that numbers give.
fn amounts(alloc: Global, tokens: &[Token]) -> Result<Amounts, AllocError>
    ensures values { IfOk result (λ xs. xs ≡ views.amounts_seen tokens.now) }
    ensures fit { IfOk result (AllByRecursion (λ n. n < 2 ^ 64)) }
{
    let mut values = Items::new(alloc);
    for token in tokens {
        values.push(amount_of(token))?;
    }
    Ok(values)
}

/// The book of this name, with its number.
fn book_named<'a>(books: &'a Books, name: &[u8]) -> Option<(u8, &'a Amounts)>
    requires few { length books.now ≤ 8 }
    requires rows { AllByRecursion reading.IsRow books.now }
    ensures found { option_map (λ x. (x.0, x.1.now)) result ≡ script.named_from 1 name.now books.now }
    ensures short { IfSome result (λ x. length x.1.now ≤ 64) }
{
    for (i, book) in books.as_slice().iter().enumerate() {
        if name == book.0.as_slice() {
            return Some((i as u8 + 1, &book.1));
        }
    }
    None
}

/// The key that a number is, where a row of these many values has it.
fn key_of(key: i64, count: usize) -> Option<u16>
    requires few { count ≤ 64 }
    ensures { result ≡ views.key_of key count }
{
    if 0 <= key && key < count as i64 {
        Some(key as u16)
    } else {
        None
    }
}

/// How many moves a line begins.
fn counts(line: &ScriptLine<'_>) -> usize
    ensures { result ≡ script.counts (views.line_seen line.now) }
{
    match *line {
        ScriptLine::Move(..) => 1,
        _ => 0,
    }
}

impl SoFar {
    ghost use Rattle.std.specs.Prelude.{◌≡◌, ◌<◌, ◌≤◌, [], length, false, IfErr, OnOk};
    ghost use Rattle.def_two.specs.Script as script;
    ghost use Rattle.ic_tokens.specs.Views.{seen_tokens};
    ghost use Rattle.ic_script.specs.Views.{amounts_seen, line_seen, read_so_far};
    ghost use Rattle.ic_script.specs.Reading.{IsSound, IsWritten, Takes, RefusedBy};

    /// Nothing.
    pub(crate) fn new(alloc: Global) -> SoFar
        ensures read { read_so_far result ≡ record { books = []; moves = 0; in_events = false } }
        ensures events { result.events ≡ [] }
        ensures sound { IsSound result }
    {
        SoFar {
            books: Items::new(alloc),
            moves: 0,
            in_events: false,
            events: Items::new(alloc),
        }
    }

    /// The chief, 0, or the number of the book of this name.
    fn com_named(&self, name: &[u8]) -> Option<u8>
        requires sound { IsSound self.now }
        ensures { result ≡ script.com_named (read_so_far self.now) name.now }
    {
        match name {
            b"chief" => Some(0),
            _ => match book_named(&self.books, name) {
                Some((book, _)) => Some(book),
                None => None,
            },
        }
    }

    /// The number of the book of this name with a key that it has.
    fn key_named(&self, name: &[u8], key: i64) -> Option<(u8, u16)>
        requires sound { IsSound self.now }
        ensures { result ≡ script.key_named (read_so_far self.now) name.now key }
    {
        let (book, values) = book_named(&self.books, name)?;
        let key = key_of(key, values.len())?;
        Some((book, key))
    }

    /// The event of a line; None where a name or a key stands for nothing.
    fn event_of(&self, line: &ScriptLine<'_>) -> Option<Event2>
        requires sound { IsSound self.now }
        ensures { result ≡ script.event_of (read_so_far self.now) (line_seen line.now) }
    {
        let (what, stop) = match *line {
            ScriptLine::Book(..) => return None,
            ScriptLine::Move(from, source, to, target, amount, stop) => {
                let (from, source) = self.key_named(from, source)?;
                let (to, target) = self.key_named(to, target)?;
                let what = What2::Move {
                    from,
                    source,
                    to,
                    target,
                    amount,
                };
                (what, stop)
            }
            ScriptLine::Deliver(from, to, stop) => {
                (
                    What2::Deliver(self.com_named(from)?, self.com_named(to)?),
                    stop,
                )
            }
            ScriptLine::Lose(from, to) => {
                (
                    What2::Lose(self.com_named(from)?, self.com_named(to)?),
                    None,
                )
            }
            ScriptLine::Packet(number, stop) => (What2::Packet(number), stop),
            ScriptLine::Crash(name) => (What2::Crash(self.com_named(name)?), None),
            ScriptLine::Resend(name) => (What2::Resend(self.com_named(name)?), None),
            ScriptLine::Recover(name, stop) => (What2::Recover(self.com_named(name)?), stop),
        };
        Some(Event2 { what, stop })
    }

    /// Whether a line may not stand here: a book behind an event or behind eight books, an event before any book, a move behind
    /// 10,000 others.
    fn is_misplaced(&self, line: &ScriptLine<'_>) -> bool
        ensures { result ≡ script.is_misplaced (read_so_far self.now) (line_seen line.now) }
    {
        match *line {
            ScriptLine::Book(..) => self.in_events || self.books.len() >= BOOKS,
            ScriptLine::Move(..) => self.books.len() < 1 || self.moves >= MOVES,
            _ => self.books.len() < 1,
        }
    }

    /// Adds a book with the values that numbers give.
    fn add_book(&mut self, alloc: Global, name: &[u8], values: &[Token]) -> Result<(), Cause>
        requires sound { IsSound self.old }
        requires before { self.old.in_events ≡ false }
        requires room { length self.old.books < 8 }
        requires row { length values.now ≤ 64 }
        ensures read { OnOk result (Takes (script.reads_book (read_so_far self.old) name.now (amounts_seen values.now)) self.old self.new) }
        ensures sound { OnOk result (IsSound self.new) }
        ensures refused { IfErr result (RefusedBy (script.reads_book (read_so_far self.old) name.now (amounts_seen values.now))) }
    {
        if self.com_named(name).is_some() {
            return Err(Cause::Twice);
        }
        let Ok(name) = Vec::from_slice(alloc, name) else {
            return Err(Cause::Memory);
        };
        let Ok(values) = amounts(alloc, values) else {
            return Err(Cause::Memory);
        };
        match self.books.push((Items::from_vec(name), values)) {
            Ok(()) => Ok(()),
            Err(_) => Err(Cause::Memory),
        }
    }

    /// Adds the event of a line.
    fn add_event(&mut self, line: &ScriptLine<'_>) -> Result<(), Cause>
        requires sound { IsSound self.old }
        requires written { IsWritten (line_seen line.now) }
        requires placed { script.is_misplaced (read_so_far self.old) (line_seen line.now) ≡ false }
        ensures read { OnOk result (Takes (script.reads_event (read_so_far self.old) (line_seen line.now) (script.event_of (read_so_far self.old) (line_seen line.now))) self.old self.new) }
        ensures sound { OnOk result (IsSound self.new) }
        ensures refused { IfErr result (RefusedBy (script.reads_event (read_so_far self.old) (line_seen line.now) (script.event_of (read_so_far self.old) (line_seen line.now)))) }
    {
        let Some(event) = self.event_of(line) else {
            return Err(Cause::Unknown);
        };
        match self.events.push(event) {
            Ok(()) => {
                self.moves += counts(line);
                self.in_events = true;
                Ok(())
            }
            Err(_) => Err(Cause::Memory),
        }
    }

    /// Takes a line in, which may not stand everywhere.
    fn take(&mut self, alloc: Global, line: &ScriptLine<'_>) -> Result<(), Cause>
        requires sound { IsSound self.old }
        requires written { IsWritten (line_seen line.now) }
        ensures read { OnOk result (Takes (script.reads_placed (read_so_far self.old) (line_seen line.now)) self.old self.new) }
        ensures sound { OnOk result (IsSound self.new) }
        ensures refused { IfErr result (RefusedBy (script.reads_placed (read_so_far self.old) (line_seen line.now))) }
    {
        if self.is_misplaced(line) {
            return Err(Cause::Structure);
        }
        match *line {
            ScriptLine::Book(name, values) => self.add_book(alloc, name, values),
            _ => self.add_event(line),
        }
    }

    fn read_tokens(&mut self, alloc: Global, line: &[u8], tokens: &[Token]) -> Result<(), Cause>
        requires sound { IsSound self.old }
        ensures read { OnOk result (Takes (script.reads_tokens (read_so_far self.old) (seen_tokens line.now tokens.now)) self.old self.new) }
        ensures sound { OnOk result (IsSound self.new) }
        ensures refused { IfErr result (RefusedBy (script.reads_tokens (read_so_far self.old) (seen_tokens line.now tokens.now))) }
    {
        if tokens.is_empty() {
            return Ok(());
        }
        match line_of(line, tokens) {
            Some(written) => self.take(alloc, &written),
            None => Err(Cause::Structure),
        }
    }

    /// Reads a line: a book, an event, or nothing.
    #[tactic(auto, unfolding(def_two::specs::Script::reads_line))]
    pub(crate) fn read_line(&mut self, alloc: Global, line: &[u8]) -> Result<(), Cause>
        requires sound { IsSound self.old }
        ensures read { OnOk result (Takes (script.reads_line (read_so_far self.old) line.now) self.old self.new) }
        ensures sound { OnOk result (IsSound self.new) }
        ensures refused { IfErr result (RefusedBy (script.reads_line (read_so_far self.old) line.now)) }
    {
        match schedule_tokens(alloc, line) {
            Ok(tokens) => self.read_tokens(alloc, line, tokens.as_slice()),
            Err(refused) => Err(cause_of(refused)),
        }
    }
}
