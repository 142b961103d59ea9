ghost use Rattle.std.specs.Prelude.{◌≡◌, ◌<◌, ◌+◌, ◌∷◌, ◌++◌, ◌||◌, [], cond, List, Bool, true, false, map, length, get_or, Some, None, IfOk, IfSome, OnOk};
ghost use Rattle.def_two.specs.Moves.{parties, is_party, numbered, nth_book, is_of_books};
ghost use Rattle.def_two.specs.declared.moves.Packet2.TheVariants as packets;
ghost use Rattle.def_two.specs.Chief as chief;
ghost use Rattle.def_two.specs.Records.{IsCounted2};
ghost use Rattle.ic_moves.specs.Chiefs.{openings_of, docket_of, heard_of, heard_with, step_of, AreCounted, HasRoom, HasWordRoom, IsSameChief, IsVerdictOn, IsNext};
ghost use Rattle.def_two.specs.declared.states.Heard.{Heard};

use crate::moves::{is_lawful, is_party, numbered};
use def_two::{Asks, Books, Cause2, Move, Packet2, Record2, Ruled, Ruling, Word2};
use ic_base::Items;
use std::alloc::{AllocError, Global};

/// A chief beside its log: the moves that were begun, in order, the decisions, and which books it heard vote yes or answer Done in its
/// present life.
#[derive(Drop)]
pub struct ChiefCore {
    pub begun: Vec<Move>,
    pub ruled: Vec<Ruled>,
    pub yes: Vec<Word2>,
    pub done: Vec<Word2>,
}

/// What the chief hears of a packet.
#[derive(Clone, Copy, Debug, PartialEq, Eq)]
pub enum News {
    Nothing,
    Yes(Word2),
    Done(Word2),
}

/// What a call comes to at the chief: a record to force, and behind it what it hears and what it puts out.
#[derive(Drop)]
pub struct ChiefPlan {
    pub adds: Option<Record2>,
    pub news: News,
    pub puts: Asks,
}

/// The two books of a move, in order.
fn parties(m: Move) -> (u8, u8)
    ensures { parties m ≡ result.0 ∷ result.1 ∷ [] }
{
    if m.from < m.to {
        (m.from, m.to)
    } else {
        (m.to, m.from)
    }
}

/// Whether a word of this book on move n was heard.
fn is_heard(words: &[Word2], n: u64, book: u8) -> bool
    ensures { result ≡ chief.is_heard words.now n book }
{
    words.iter().any(|word| n == word.n && book == word.book)
}

/// Whether both books of the move are among these words.
fn are_both(words: &[Word2], m: Move) -> bool
    ensures { result ≡ chief.are_both words.now m }
{
    is_heard(words, m.n, m.from) && is_heard(words, m.n, m.to)
}

fn ask(m: Move, book: u8) -> Packet2
    ensures { result ≡ packets.Ask book m }
{
    Packet2::Ask { book, asked: m }
}

fn verdict(m: Move, yes: bool, book: u8) -> Packet2
    ensures { result ≡ chief.verdict m yes book }
{
    Packet2::Verdict { n: m.n, book, yes }
}

/// An Ask for both books of a move.
fn asks(alloc: Global, m: Move) -> Result<Asks, AllocError>
    ensures { IfOk result (λ puts. puts ≡ map (λ b. packets.Ask b m) (parties m)) }
{
    let (first, second) = parties(m);
    let mut puts = Items::new(alloc);
    puts.push(ask(m, first))?;
    puts.push(ask(m, second))?;
    Ok(puts)
}

/// A Verdict for both books of a move.
fn verdicts(alloc: Global, m: Move, yes: bool) -> Result<Asks, AllocError>
    ensures { IfOk result (λ puts. puts ≡ map (chief.verdict m yes) (parties m)) }
{
    let (first, second) = parties(m);
    let mut puts = Items::new(alloc);
    puts.push(verdict(m, yes, first))?;
    puts.push(verdict(m, yes, second))?;
    Ok(puts)
}

/// A plan that changes nothing and puts nothing out.
fn nothing(alloc: Global) -> ChiefPlan
    ensures adds { result.adds ≡ None }
    ensures step { (h : Heard) → step_of h result ≡ chief.waits h }
{
    ChiefPlan {
        adds: None,
        news: News::Nothing,
        puts: Items::new(alloc),
    }
}

fn is_yes(ruling: Ruling) -> bool
    ensures { result ≡ chief.is_yes ruling }
{
    match ruling {
        Ruling::Yes => true,
        Ruling::No(..) => false,
    }
}

fn send_unless(heard: bool, packet: Packet2, puts: &mut Asks) -> Result<(), AllocError>
    ensures { OnOk result (puts.new ≡ puts.old ++ cond heard [] (packet ∷ [])) }
{
    if !heard {
        puts.push(packet)?;
    }
    Ok(())
}

/// How many values a book has; 0 where there is no such book.
fn keys_of(books: &Books, book: u8) -> usize
    ensures { result ≡ length (nth_book (openings_of books.now) book) }
{
    if book == 0 {
        return 0;
    }
    let at = usize::from(book - 1);
    if at < books.len() {
        books.as_slice()[at].1.len()
    } else {
        0
    }
}

/// Whether both are books of the script, with the move's keys.
fn is_of_books(books: &Books, m: Move) -> bool
    ensures { result ≡ is_of_books (openings_of books.now) m }
{
    usize::from(m.source) < keys_of(books, m.from) && usize::from(m.target) < keys_of(books, m.to)
}

/// Whether a move is lawful for these books.
pub fn is_lawful_for(books: &Books, m: Move) -> bool
    ensures { result ≡ chief.is_lawful_for (openings_of books.now) m }
{
    is_lawful(m) && is_of_books(books, m)
}

/// Whether the book of a no is one of the move's two.
fn is_ruling_on(m: Move, ruling: Ruling) -> bool
    ensures { result ≡ chief.is_ruling_on m ruling }
{
    match ruling {
        Ruling::Yes => true,
        Ruling::No(book, _) => is_party(book, m),
    }
}

impl ChiefCore {
    /// A chief over an empty log.
    pub fn first(alloc: Global) -> ChiefCore
        ensures docket { docket_of result ≡ chief.first_docket }
        ensures heard { heard_of result ≡ chief.nothing_heard }
        ensures counted { AreCounted result }
    {
        ChiefCore {
            begun: Vec::new(alloc),
            ruled: Vec::new(alloc),
            yes: Vec::new(alloc),
            done: Vec::new(alloc),
        }
    }

    /// The decision on move n, if there is one.
    pub fn ruling_of(&self, n: u64) -> Option<Ruling>
        ensures { result ≡ chief.ruling_of (docket_of self.now) n }
    {
        self.ruled
            .iter()
            .find(|ruled| n == ruled.n)
            .map(|ruled| ruled.ruling)
    }

    /// Whether the record may stand next in the chief's log.
    pub fn fits(&self, books: &Books, r: Record2) -> bool
        ensures { result ≡ chief.docket_fits (openings_of books.now) (docket_of self.now) r }
    {
        match r {
            Record2::Begun(m) => m.n == self.begun.len() as u64 + 1 && is_lawful_for(books, m),
            Record2::Verdict(n, ruling) => {
                self.ruling_of(n).is_none()
                    && match numbered(self.begun.as_slice(), n) {
                        Some(m) => is_ruling_on(m, ruling),
                        None => false,
                    }
            }
            _ => false,
        }
    }

    /// Makes room for one record more, and for one word more of each kind.
    pub fn reserve(&mut self) -> Result<(), AllocError>
        ensures same { IsSameChief self.old self.new }
        ensures room { OnOk result (HasRoom self.new) }
    {
        self.begun.reserve(1)?;
        self.ruled.reserve(1)?;
        self.yes.reserve(1)?;
        self.done.reserve(1)
    }

    /// Takes the next record of its log in.
    pub fn enter(&mut self, r: Record2)
        requires room { HasRoom self.old }
        ensures docket { docket_of self.new ≡ chief.docketed (docket_of self.old) r }
        ensures heard { heard_of self.new ≡ heard_of self.old }
        ensures counted { AreCounted self.old → IsCounted2 r → AreCounted self.new }
        ensures words { HasWordRoom self.new }
    {
        match r {
            Record2::Begun(m) => self.begun.push_reserved(m),
            Record2::Verdict(n, ruling) => self.ruled.push_reserved(Ruled { n, ruling }),
            _ => {}
        }
    }

    /// Keeps what was heard.
    pub fn hear(&mut self, news: News)
        requires room { HasWordRoom self.old }
        ensures heard { heard_of self.new ≡ heard_with (heard_of self.old) news }
        ensures docket { docket_of self.new ≡ docket_of self.old }
        ensures counted { AreCounted self.old → AreCounted self.new }
    {
        match news {
            News::Nothing => {}
            News::Yes(word) => self.yes.push_reserved(word),
            News::Done(word) => self.done.push_reserved(word),
        }
    }

    /// Whether each begun move is Done by both its books.
    pub fn is_all_done(&self) -> bool
        ensures { result ≡ chief.is_all_done (docket_of self.now) (heard_of self.now) }
    {
        self.begun
            .iter()
            .all(|m| are_both(self.done.as_slice(), *m))
    }

    /// Whether with this book's yes both books of the move have said yes.
    fn is_second_yes(&self, m: Move, book: u8) -> bool
        ensures { result ≡ chief.are_both (chief.hears_yes m.n book (heard_of self.now)).yes m }
    {
        (is_heard(self.yes.as_slice(), m.n, m.from) || m.from == book)
            && (is_heard(self.yes.as_slice(), m.n, m.to) || m.to == book)
    }

    /// What a vote on an undecided move comes to.
    fn plan_vote(
        &self,
        alloc: Global,
        m: Move,
        book: u8,
        no: Option<Cause2>,
    ) -> Result<ChiefPlan, AllocError>
        ensures step { IfOk result (λ p. step_of (heard_of self.now) p ≡ chief.on_vote (heard_of self.now) m book no) }
        ensures verdict { IfOk result (λ p. IfSome p.adds (IsVerdictOn m book)) }
    {
        if let Some(cause) = no {
            return Ok(ChiefPlan {
                adds: Some(Record2::Verdict(m.n, Ruling::No(book, cause))),
                news: News::Nothing,
                puts: verdicts(alloc, m, false)?,
            });
        }
        let news = News::Yes(Word2 { n: m.n, book });
        if self.is_second_yes(m, book) {
            return Ok(ChiefPlan {
                adds: Some(Record2::Verdict(m.n, Ruling::Yes)),
                news,
                puts: verdicts(alloc, m, true)?,
            });
        }
        Ok(ChiefPlan {
            adds: None,
            news,
            puts: Items::new(alloc),
        })
    }

    /// A move begins: it is to be recorded, and both its books are asked.
    pub fn plan_begin(&self, alloc: Global, m: Move) -> Result<ChiefPlan, AllocError>
        ensures { IfOk result (λ p. step_of (heard_of self.now) p ≡ chief.begins (heard_of self.now) m) }
    {
        Ok(ChiefPlan {
            adds: Some(Record2::Begun(m)),
            news: News::Nothing,
            puts: asks(alloc, m)?,
        })
    }

    /// What a packet comes to. One that isn't a Vote or a Done on a begun move from one of its two books comes to nothing.
    pub fn plan(&self, alloc: Global, p: Packet2) -> Result<ChiefPlan, AllocError>
        requires counted { AreCounted self.now }
        ensures step { IfOk result (λ plan. step_of (heard_of self.now) plan ≡ chief.hears (docket_of self.now) (heard_of self.now) p) }
        ensures fits { IfOk result (λ plan. IfSome plan.adds (IsNext (docket_of self.now))) }
        ensures counted { IfOk result (λ plan. IfSome plan.adds IsCounted2) }
    {
        match p {
            Packet2::Vote { n, book, no } => match numbered(self.begun.as_slice(), n) {
                Some(m) if is_party(book, m) && self.ruling_of(n).is_none() => {
                    self.plan_vote(alloc, m, book, no)
                }
                _ => Ok(nothing(alloc)),
            },
            Packet2::Done { n, book } => match numbered(self.begun.as_slice(), n) {
                Some(m) if is_party(book, m) => Ok(ChiefPlan {
                    adds: None,
                    news: News::Done(Word2 { n, book }),
                    puts: Items::new(alloc),
                }),
                _ => Ok(nothing(alloc)),
            },
            _ => Ok(nothing(alloc)),
        }
    }

    /// Sends again what a begun move waits for.
    fn send_again(&self, m: Move, puts: &mut Asks) -> Result<(), AllocError>
        ensures { OnOk result (puts.new ≡ puts.old ++ chief.sends_again (heard_of self.now) m (chief.ruling_of (docket_of self.now) m.n)) }
    {
        let (first, second) = parties(m);
        match self.ruling_of(m.n) {
            None => {
                let yes = self.yes.as_slice();
                send_unless(is_heard(yes, m.n, first), ask(m, first), puts)?;
                send_unless(is_heard(yes, m.n, second), ask(m, second), puts)?;
            }
            Some(ruling) => {
                let done = self.done.as_slice();
                let yes = is_yes(ruling);
                send_unless(is_heard(done, m.n, first), verdict(m, yes, first), puts)?;
                send_unless(is_heard(done, m.n, second), verdict(m, yes, second), puts)?;
            }
        }
        Ok(())
    }

    /// Asks each book whose vote on an undecided move isn't known, and sends each decision to the books that haven't answered Done.
    pub fn resends(&self, alloc: Global) -> Result<Asks, AllocError>
        ensures { IfOk result (λ puts. puts ≡ chief.resends (docket_of self.now) (heard_of self.now)) }
    {
        let mut puts = Items::new(alloc);
        for m in self.begun.as_slice() {
            self.send_again(*m, &mut puts)?;
        }
        Ok(puts)
    }
}
