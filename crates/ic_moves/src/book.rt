ghost use Rattle.std.specs.Prelude.{◌≡◌, ◌<◌, ◌+◌, ◌≤◌, ◌==◌, ◌&&◌, ◌^◌, ℕ, List, Bool, true, false, find, slice_get, get_or, option_map, option_to_list, Some, None, IfOk, IfSome, OnOk};
ghost use Rattle.def_two.specs.Moves.{leaves, comes, amounts, numbered, has_part, is_lawful, moved_once};
ghost use Rattle.def_two.specs.Book as books;
ghost use Rattle.def_two.specs.Records.{IsCounted2};
ghost use Rattle.def_two.specs.declared.moves.Record2.TheVariants as records;
ghost use Rattle.ic_moves.specs.Cores.{state_of, IsOfLog, HasRoom, IsSameBook, MayChange, step_of};

use crate::moves::{is_lawful, is_party, numbered};
use def_two::{Cause2, End, Move, Packet2, Record2};
use ic_base::limits::GREATEST_NUMBER;
use std::alloc::{AllocError, Global};

/// A book beside its log.
#[derive(Drop)]
pub struct BookCore {
    /// Its number, from 1.
    pub number: u8,
    pub values: Vec<u64>,
    /// The moves that it made ready, in order.
    pub readied: Vec<Move>,
    /// How moves ended, in order.
    pub ended: Vec<End>,
    /// Those of its ready moves that haven't ended.
    pub ready: Vec<Move>,
}

/// What a packet comes to at a book: a record to force, and then an answer.
#[derive(Clone, Copy, Debug, PartialEq, Eq)]
pub struct BookPlan {
    pub adds: Option<Record2>,
    pub puts: Option<Packet2>,
}

/// The sum of the amounts of the moves that leave a key of a book.
fn leaving(moves: &[Move], book: u8, key: u16) -> u64
    requires { amounts (leaves book key) moves.now < 2 ^ 64 }
    ensures { result ≡ amounts (leaves book key) moves.now }
{
    let mut sum = 0;
    for m in moves {
        if m.from == book && m.source == key {
            sum += m.amount;
        }
    }
    sum
}

/// The sum of the amounts of the moves that come to a key of a book.
fn coming(moves: &[Move], book: u8, key: u16) -> u64
    requires { amounts (comes book key) moves.now < 2 ^ 64 }
    ensures { result ≡ amounts (comes book key) moves.now }
{
    let mut sum = 0;
    for m in moves {
        if m.to == book && m.target == key {
            sum += m.amount;
        }
    }
    sum
}

/// Makes a move's change to the values of one of its books.
fn change(values: &mut [u64], book: u8, m: Move)
    requires { MayChange book values.old m }
    ensures { values.new ≡ moved_once book values.old m }
{
    if m.from == book {
        values[usize::from(m.source)] -= m.amount;
    } else {
        values[usize::from(m.target)] += m.amount;
    }
}

/// The values of a book behind the end of a move, which is told where it was made ready.
fn end_values(values: &mut [u64], book: u8, yes: bool, readied: Option<Move>)
    requires { IfSome readied (MayChange book values.old) }
    ensures { values.new ≡ books.values_ended book yes readied values.old }
{
    match readied {
        Some(m) if yes => change(values, book, m),
        _ => {}
    }
}

/// Whether a number is one that a move may have.
fn is_move_number(n: u64) -> bool
    ensures { result ≡ books.is_move_number n }
{
    1 <= n && n <= GREATEST_NUMBER
}

impl BookCore {
    /// A book over an empty log.
    pub fn first(alloc: Global, number: u8, opening: &[u64]) -> Result<BookCore, AllocError>
        ensures state { IfOk result (λ c. state_of c ≡ books.first_book opening.now) }
        ensures number { IfOk result (λ c. c.number ≡ number) }
        ensures of_log { IfOk result IsOfLog }
    {
        Ok(BookCore {
            number,
            values: Vec::from_slice(alloc, opening)?,
            readied: Vec::new(alloc),
            ended: Vec::new(alloc),
            ready: Vec::new(alloc),
        })
    }

    /// The value of a key.
    pub fn value(&self, key: u16) -> Option<u64>
        ensures { result ≡ slice_get (state_of self.now).values key }
    {
        self.values.get(usize::from(key)).copied()
    }

    /// How a move ended here.
    fn end_of(&self, n: u64) -> Option<bool>
        ensures { result ≡ books.end_of (state_of self.now) n }
    {
        self.ended.iter().find(|end| n == end.n).map(|end| end.yes)
    }

    /// The value of a key, and 0 where there is no such key.
    fn value_or_none(&self, key: u16) -> u64
        ensures { result ≡ get_or (state_of self.now).values key 0 }
    {
        match self.value(key) {
            Some(value) => value,
            None => 0,
        }
    }

    /// What the ready moves that leave a key hold of it.
    fn held_out(&self, key: u16) -> u64
        requires of_log { IsOfLog self.now }
        ensures sum { result ≡ books.held_out self.now.number (state_of self.now) key }
        ensures covered { result ≤ get_or (state_of self.now).values key 0 }
    {
        leaving(self.ready.as_slice(), self.number, key)
    }

    /// What the ready moves that come to a key hold there.
    fn held_in(&self, key: u16) -> u64
        requires of_log { IsOfLog self.now }
        ensures sum { result ≡ books.held_in self.now.number (state_of self.now) key }
        ensures bounded { get_or (state_of self.now).values key 0 + result < 2 ^ 64 }
    {
        coming(self.ready.as_slice(), self.number, key)
    }

    /// Why the book can't promise the move.
    fn refusal(&self, m: Move) -> Option<Cause2>
        requires of_log { IsOfLog self.now }
        ensures { result ≡ books.refusal self.now.number (state_of self.now) m }
    {
        if m.from == self.number {
            let value = self.value_or_none(m.source);
            let held = self.held_out(m.source);
            if value - held < m.amount {
                Some(Cause2::Short(value, held))
            } else {
                None
            }
        } else {
            let value = self.value_or_none(m.target);
            let held = self.held_in(m.target);
            if u64::MAX - value - held < m.amount {
                Some(Cause2::Over(value, held))
            } else {
                None
            }
        }
    }

    /// Whether the book has a part in a move, at one of its keys.
    fn has_part(&self, m: Move) -> bool
        ensures { result ≡ has_part self.now.number (state_of self.now).values m }
    {
        let key = if m.from == self.number {
            m.source
        } else {
            m.target
        };
        is_party(self.number, m) && usize::from(key) < self.values.len()
    }

    /// Whether the record may stand next in the book's log.
    pub fn fits(&self, r: Record2) -> bool
        requires of_log { IsOfLog self.now }
        ensures { result ≡ books.book_fits self.now.number (state_of self.now) r }
    {
        match r {
            Record2::Ready(m) => {
                numbered(self.readied.as_slice(), m.n).is_none()
                    && (is_lawful(m) && (self.has_part(m) && self.refusal(m).is_none()))
            }
            Record2::Ended(n, yes) => {
                self.end_of(n).is_none() && (!yes || numbered(self.readied.as_slice(), n).is_some())
            }
            _ => false,
        }
    }

    /// Makes room for one record more.
    pub fn reserve(&mut self) -> Result<(), AllocError>
        ensures same { IsSameBook self.old self.new }
        ensures room { OnOk result (HasRoom self.new) }
    {
        self.readied.reserve(1)?;
        self.ended.reserve(1)?;
        self.ready.reserve(1)
    }

    fn enter_ready(&mut self, m: Move)
        requires of_log { IsOfLog self.old }
        requires next { books.book_fits self.old.number (state_of self.old) (records.Ready m) ≡ true }
        requires room { HasRoom self.old }
        ensures state { state_of self.new ≡ books.booked self.old.number (state_of self.old) (records.Ready m) }
        ensures number { self.new.number ≡ self.old.number }
        ensures of_log { IsOfLog self.new }
    {
        if self.end_of(m.n).is_some() {
            self.readied.push_reserved(m);
            return;
        }
        self.readied.push_reserved(m);
        self.ready.push_reserved(m);
    }

    fn enter_ended(&mut self, n: u64, yes: bool)
        requires of_log { IsOfLog self.old }
        requires next { books.book_fits self.old.number (state_of self.old) (records.Ended n yes) ≡ true }
        requires room { HasRoom self.old }
        ensures state { state_of self.new ≡ books.booked self.old.number (state_of self.old) (records.Ended n yes) }
        ensures number { self.new.number ≡ self.old.number }
        ensures of_log { IsOfLog self.new }
    {
        let readied = numbered(self.readied.as_slice(), n);
        end_values(&mut self.values, self.number, yes, readied);
        self.ready.retain(|m| n != m.n);
        self.ended.push_reserved(End { n, yes });
    }

    /// Takes the next record of its log in.
    pub fn enter(&mut self, r: Record2)
        requires of_log { IsOfLog self.old }
        requires next { books.book_fits self.old.number (state_of self.old) r ≡ true }
        requires room { HasRoom self.old }
        ensures state { state_of self.new ≡ books.booked self.old.number (state_of self.old) r }
        ensures number { self.new.number ≡ self.old.number }
        ensures of_log { IsOfLog self.new }
    {
        match r {
            Record2::Ready(m) => self.enter_ready(m),
            Record2::Ended(n, yes) => self.enter_ended(n, yes),
            _ => {}
        }
    }

    fn on_ask(&self, m: Move) -> BookPlan
        requires of_log { IsOfLog self.now }
        requires lawful { is_lawful m ≡ true }
        requires part { has_part self.now.number (state_of self.now).values m ≡ true }
        ensures step { step_of result ≡ books.on_ask self.now.number (state_of self.now) m }
        ensures fits { IfSome result.adds (λ r. books.book_fits self.now.number (state_of self.now) r ≡ true) }
        ensures counted { IfSome result.adds (λ r. r ≡ records.Ready m) }
    {
        let book = self.number;
        if self.end_of(m.n).is_some() {
            return BookPlan {
                adds: None,
                puts: Some(Packet2::Done { n: m.n, book }),
            };
        }
        if numbered(self.readied.as_slice(), m.n).is_some() {
            return BookPlan {
                adds: None,
                puts: Some(Packet2::Vote {
                    n: m.n,
                    book,
                    no: None,
                }),
            };
        }
        match self.refusal(m) {
            None => BookPlan {
                adds: Some(Record2::Ready(m)),
                puts: Some(Packet2::Vote {
                    n: m.n,
                    book,
                    no: None,
                }),
            },
            Some(cause) => BookPlan {
                adds: None,
                puts: Some(Packet2::Vote {
                    n: m.n,
                    book,
                    no: Some(cause),
                }),
            },
        }
    }

    fn on_verdict(&self, n: u64, yes: bool) -> BookPlan
        ensures { step_of result ≡ books.on_verdict self.now.number (state_of self.now) n yes }
    {
        let done = Packet2::Done {
            n,
            book: self.number,
        };
        if self.end_of(n).is_some() {
            return BookPlan {
                adds: None,
                puts: Some(done),
            };
        }
        if numbered(self.readied.as_slice(), n).is_some() {
            return BookPlan {
                adds: Some(Record2::Ended(n, yes)),
                puts: Some(done),
            };
        }
        BookPlan {
            adds: if yes {
                None
            } else {
                Some(Record2::Ended(n, false))
            },
            puts: None,
        }
    }

    /// What a packet comes to. One that the book may not get comes to nothing.
    pub fn plan(&self, p: Packet2) -> BookPlan
        requires of_log { IsOfLog self.now }
        ensures step { step_of result ≡ books.book_step self.now.number (state_of self.now) p }
        ensures fits { IfSome result.adds (λ r. books.book_fits self.now.number (state_of self.now) r ≡ true) }
        ensures counted { IfSome result.adds IsCounted2 }
    {
        match p {
            Packet2::Ask { book, asked }
                if book == self.number
                    && (is_move_number(asked.n) && (is_lawful(asked) && self.has_part(asked))) => {
                self.on_ask(asked)
            }
            Packet2::Verdict { n, book, yes } if book == self.number && is_move_number(n) => {
                self.on_verdict(n, yes)
            }
            _ => BookPlan {
                adds: None,
                puts: None,
            },
        }
    }
}
