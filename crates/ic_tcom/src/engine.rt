ghost use Rattle.std.specs.Prelude.{◌≡◌, ◌<◌, ◌≤◌, ◌+◌, ◌++◌, ◌∷◌, [], List, max, filter, not, length, slice_get, Option, Some, None, IfOk, OnErr};
ghost use Rattle.ic_base.specs.declared.record.Record.TheVariants as records;
ghost use Rattle.def_state.specs.Names.{number_of, put_number};
ghost use Rattle.ic_base.specs.declared.limits.TheConstants.{COMPONENTS, GREATEST_NUMBER, REQUESTS};
ghost use Rattle.def_step.specs.Tcom as step;
ghost use Rattle.ic_tcom.specs.EngineState.{over, entered, Keeps, IsWithinLimits, IsDecision};
ghost use Rattle.ic_tcom.specs.CarriesOut.{CarriesOut, CarriesOutOverItsLog, GoesOn, HasRoomFor, commits, is_full};
ghost use Rattle.ic_tcom.specs.Last.{verdicts_in};
ghost use Rattle.ic_tcom.specs.Served.{AreOneEach};
ghost use Rattle.ic_tcom.specs.Sittings.{fresh_sitting};

use crate::answers::{Serving, held_by, of_epoch_before, outcome};
use crate::book::Book;
use crate::fits::{fits_tcom, key_of};
use crate::kept_book::KeptBook;
use crate::least::Least;
use crate::sitting::Sitting;
use crate::sittings::Sittings;
use crate::transaction::{Transaction, Verdict};
use ic_base::limits::GREATEST_NUMBER;
use ic_base::{ComId, Decision, Packet, Program, Record, Request, Session};
use std::alloc::{AllocError, Global};
use std::marker::Model;

/// What a Tcom holds beside its log: the ledger, the epoch, the clock and the last decision of each Pcom, the last counter of a
/// session, the open sessions, and the least transaction number that is still served of each Pcom (docs/RULES.md, "Transactions").
///
/// A decision is forgotten once its Pcom is served from a greater number on. One is told before it is made, so that its record can be forced first. Contracts also see for how many more
/// decisions there is room.
#[derive(Drop)]
pub struct Engine {
    book: KeptBook,
    counter: u64,
    sittings: Sittings,
    least: Least,
}

impl Model for Engine {
    ghost use Rattle.std.specs.Prelude.{◌≤◌};
    ghost use Rattle.ic_base.specs.declared.limits.TheConstants.{GREATEST_NUMBER};
    ghost use Rattle.ic_tcom.specs.Roomy.{Roomy};
    ghost use Rattle.ic_tcom.specs.EngineState.{EngineState};
    ghost use Rattle.ic_tcom.specs.Served.{AreServed};

    ghost Value = { Roomy EngineState };

    ghost view = { λ s. record { held = record { book = s.book.held; counter = s.counter; sittings = s.sittings.held; least = s.least.held }; spare = s.book.spare } };

    ghost invariant = { λ s. (s.book.held.clock ≤ GREATEST_NUMBER) × (s.counter ≤ GREATEST_NUMBER) × AreServed s.least.held s.sittings.held };
}

impl Engine {
    /// Over an empty log.
    pub fn fresh(alloc: Global, program: &Program, t: ComId) -> Result<Engine, AllocError>
        ensures first { IfOk result (λ e. over [] e.held ≡ step.fresh_tcom program.now t) }
        ensures keeps { IfOk result (λ e. Keeps [] e.held) }
    {
        let book = KeptBook::first(alloc, program, t)?;
        Ok(Engine::with_book(alloc, book, Least::new(alloc)))
    }

    /// Over a log whose records give this book, in the next epoch.
    pub fn in_next_epoch(alloc: Global, book: Book) -> Engine
        requires { book.held.epoch < GREATEST_NUMBER }
        ensures next { (log : List Record) → verdicts_in log ≡ book.held.decided → over (log ++ records.Epoch (book.held.epoch + 1) ∷ []) result.held ≡ step.in_next_epoch log book.held }
        ensures keeps { (log : List Record) → verdicts_in log ≡ book.held.decided → Keeps (log ++ records.Epoch (book.held.epoch + 1) ∷ []) result.held }
    {
        let (kept, least) = KeptBook::in_next_epoch(book);
        Engine::with_book(alloc, kept, least)
    }

    /// The value of each key, in order of declaration.
    pub fn values(&self) -> &[i64]
        ensures { result.now ≡ self.now.held.book.ledger }
    {
        self.book.ledger()
    }

    /// The value of a key.
    pub fn ledger(&self, key: u16) -> Option<i64>
        ensures { result ≡ slice_get self.now.held.book.ledger key }
    {
        self.book.ledger().get(usize::from(key)).copied()
    }

    /// The stamp of the decision on a transaction, which is forgotten once its Pcom is served from a greater number on.
    pub fn decided(&self, c: ComId, n: u64) -> Option<u64>
        ensures { (log : List Record) → Keeps log self.now.held → result ≡ step.kept_at (over log self.now.held) c n }
    {
        if n < self.least.of(c) {
            return None;
        }
        self.book.decided_at(c, n)
    }

    pub fn epoch(&self) -> u64
        ensures { result ≡ self.now.held.book.epoch }
    {
        self.book.epoch()
    }

    /// How many sessions are open: at most one for each Pcom.
    pub fn sessions(&self) -> usize
        ensures count { result ≡ length self.now.held.sittings }
        ensures one_each { AreOneEach self.now.held.sittings }
    {
        self.sittings.len()
    }

    /// Serves a packet: answers it, or tells the decision that it asks for, or finds that a number would pass its limit.
    pub fn serve(
        &mut self,
        alloc: Global,
        program: &Program,
        t: ComId,
        p: &Packet,
    ) -> Result<Serving, AllocError>
        requires { length program.now.components ≤ COMPONENTS }
        ensures step { IfOk result (CarriesOutOverItsLog (λ log. step.tcom_step program.now t (over log self.old.held) p.now) self.old.held self.new.held) }
        ensures full { IfOk result (λ s. (log : List Record) → Keeps log self.old.held → is_full s ≡ step.is_past_limit program.now t (over log self.old.held) p.now) }
        ensures room { IfOk result (HasRoomFor self.new.spare) }
        ensures keeps { (log : List Record) → Keeps log self.old.held → Keeps log self.new.held }
        ensures memory { OnErr result (self.new.held ≡ self.old.held) }
    {
        self.on_packet(alloc, program, t, p)
    }

    /// Enters a decision that was told and forced: its writes are in the ledger, and its session is over.
    pub fn enter(&mut self, stored: &Record)
        requires room { 0 < self.old.spare }
        requires decision { IsDecision self.old.held stored.now }
        ensures entered { self.new.held ≡ entered self.old.held stored.now }
        ensures keeps { (log : List Record) → Keeps log self.old.held → Keeps (log ++ stored.now ∷ []) self.new.held }
    {
        if let Record::Decided {
            stamp,
            c,
            n,
            writes,
        } = stored
        {
            let verdict = Verdict {
                peer: *c,
                n: *n,
                stamp: *stamp,
            };
            self.book.enter(verdict, writes.as_slice());
            self.sittings.end(*c, *n);
        }
    }

    fn with_book(alloc: Global, book: KeptBook, least: Least) -> Engine
        ensures { result.held ≡ record { book = book.held; counter = 0; sittings = []; least = least.held } }
    {
        Engine {
            book,
            counter: 0,
            sittings: Sittings::new(alloc),
            least,
        }
    }
}

impl Engine {
    // Serves a packet by the first case that holds.
    fn on_packet(
        &mut self,
        alloc: Global,
        program: &Program,
        t: ComId,
        p: &Packet,
    ) -> Result<Serving, AllocError>
        requires { length program.now.components ≤ COMPONENTS }
        ensures step { IfOk result (CarriesOutOverItsLog (λ log. step.tcom_step program.now t (over log self.old.held) p.now) self.old.held self.new.held) }
        ensures on { GoesOn self.old.held self.new.held }
        ensures room { IfOk result (HasRoomFor self.new.spare) }
        ensures memory { OnErr result (self.new.held ≡ self.old.held) }
        ensures limits { IsWithinLimits self.new.held }
    {
        let _ = &self.book;
        if !fits_tcom(program, t, p) {
            return Ok(Serving::Answered(None));
        }
        match *p {
            Packet::Op {
                from,
                n,
                place,
                session,
                request,
                ..
            } => self.on_request(
                alloc,
                Transaction {
                    tcom: t,
                    peer: from,
                    n,
                },
                place,
                session,
                request,
            ),
            Packet::Commit {
                from,
                n,
                place,
                session,
                stamp,
                ..
            } => self.on_commit(
                alloc,
                Transaction {
                    tcom: t,
                    peer: from,
                    n,
                },
                place,
                session,
                stamp,
            ),
            Packet::Drop { from, n, .. } => self.on_drop(from, n),
            _ => Ok(Serving::Answered(None)),
        }
    }

    // One below the least number is passed over, a decided transaction is answered so.
    fn on_request(
        &mut self,
        alloc: Global,
        on: Transaction,
        place: u16,
        session: Option<Session>,
        request: Request,
    ) -> Result<Serving, AllocError>
        requires { place < REQUESTS }
        ensures step { IfOk result (CarriesOut (λ log. step.unless_below on.peer on.n (over log self.old.held) (step.unless_decided on.tcom on.peer on.n place session (over log self.old.held) (step.decided_at self.old.held.book on.peer on.n) (step.on_op on.tcom on.peer on.n place session request (over log self.old.held)))) self.old.held self.new.held) }
        ensures on { GoesOn self.old.held self.new.held }
        ensures room { IfOk result (HasRoomFor self.new.spare) }
        ensures memory { OnErr result (self.new.held ≡ self.old.held) }
        ensures limits { IsWithinLimits self.new.held }
    {
        if on.n < self.least.of(on.peer) {
            return Ok(Serving::Answered(None));
        }
        if let Some(stamp) = self.book.decided_at(on.peer, on.n) {
            let decision = Decision::Committed(stamp);
            return Ok(Serving::Answered(Some(outcome(on, place, session, decision))));
        }
        let Some(session) = session else {
            return self.on_first(alloc, on, request);
        };
        let present = self.book.epoch();
        if session.epoch != present {
            return Ok(Serving::Answered(Some(of_epoch_before(on, place, session, present))));
        }
        self.on_later(on, place, session, request)
    }

    // A commit of an open session is to be decided.
    fn on_commit(
        &mut self,
        alloc: Global,
        on: Transaction,
        place: u16,
        session: Session,
        stamp: u64,
    ) -> Result<Serving, AllocError>
        requires peer { on.peer.0 < COMPONENTS }
        requires first { 1 ≤ on.n }
        requires limit { on.n ≤ GREATEST_NUMBER }
        ensures step { IfOk result (CarriesOut (λ log. commits on.tcom on.peer on.n place session stamp (over log self.old.held) (step.decided_at self.old.held.book on.peer on.n)) self.old.held self.new.held) }
        ensures on { GoesOn self.old.held self.new.held }
        ensures room { IfOk result (HasRoomFor self.new.spare) }
        ensures memory { OnErr result (self.new.held ≡ self.old.held) }
        ensures limits { IsWithinLimits self.new.held }
    {
        if on.n < self.least.of(on.peer) {
            return Ok(Serving::Answered(None));
        }
        if let Some(stamp) = self.book.decided_at(on.peer, on.n) {
            let decision = Decision::Committed(stamp);
            return Ok(Serving::Answered(Some(outcome(on, place, Some(session), decision))));
        }
        let present = self.book.epoch();
        if present != session.epoch {
            return Ok(Serving::Answered(Some(of_epoch_before(on, place, session, present))));
        }
        self.decide(alloc, on, place, session, stamp)
    }

    // The decision on the session's transaction, where the session is there.
    fn decide(
        &mut self,
        alloc: Global,
        on: Transaction,
        place: u16,
        session: Session,
        stamp: u64,
    ) -> Result<Serving, AllocError>
        requires peer { on.peer.0 < COMPONENTS }
        requires first { 1 ≤ on.n }
        requires limit { on.n ≤ GREATEST_NUMBER }
        requires open { step.decided_at self.old.held.book on.peer on.n ≡ None }
        requires least { number_of 1 self.old.held.least on.peer ≤ on.n }
        ensures step { IfOk result (CarriesOut (λ log. step.on_commit on.tcom place stamp session (over log self.old.held) (step.sitting_in (over log self.old.held) session on.peer on.n)) self.old.held self.new.held) }
        ensures on { GoesOn self.old.held self.new.held }
        ensures room { IfOk result (HasRoomFor self.new.spare) }
        ensures memory { OnErr result (self.new.held ≡ self.old.held) }
        ensures limits { IsWithinLimits self.new.held }
    {
        let Some(at) = self.sittings.place_of(session, on.peer, on.n) else {
            return Ok(Serving::Answered(None));
        };
        let before = self.book.clock().max(stamp);
        if before >= GREATEST_NUMBER {
            return Ok(Serving::Full);
        }
        self.book.reserve()?;
        let writes = self.sittings.at(at).written(alloc)?;
        let stamp = before + 1;
        let decided = Record::Decided {
            stamp,
            c: on.peer,
            n: on.n,
            writes,
        };
        let decision = Decision::Committed(stamp);
        Ok(Serving::Decides(decided, outcome(on, place, Some(session), decision)))
    }

    // A first request opens the session, or is answered again; lower numbers are served no longer.
    fn on_first(
        &mut self,
        alloc: Global,
        on: Transaction,
        request: Request,
    ) -> Result<Serving, AllocError>
        requires { number_of 1 self.old.held.least on.peer ≤ on.n }
        ensures step { IfOk result (CarriesOut (λ log. step.on_first on.tcom on.peer on.n request (over log self.old.held)) self.old.held self.new.held) }
        ensures on { GoesOn self.old.held self.new.held }
        ensures room { IfOk result (HasRoomFor self.new.spare) }
        ensures memory { OnErr result (self.new.held ≡ self.old.held) }
        ensures limits { IsWithinLimits self.new.held }
    {
        self.least.reserve()?;
        if let Some(sitting) = self.sittings.of(on.peer, on.n) {
            let reply = sitting.reply_at(on.tcom, 0);
            serve_from(&mut self.least, &mut self.sittings, on);
            return Ok(Serving::Answered(Some(reply)));
        }
        if let Some(other) = self.sittings.holder_from(on.peer, on.n, key_of(request)) {
            let held = held_by(on, 0, None, other);
            serve_from(&mut self.least, &mut self.sittings, on);
            return Ok(Serving::Answered(Some(held)));
        }
        if self.counter >= GREATEST_NUMBER {
            return Ok(Serving::Full);
        }
        let session = Session {
            epoch: self.book.epoch(),
            counter: self.counter + 1,
        };
        let opened = opened(alloc, self.book.ledger(), on, session, request)?;
        self.sittings.reserve()?;
        let reply = opened.reply_at(on.tcom, 0);
        serve_from(&mut self.least, &mut self.sittings, on);
        self.sittings.add(opened);
        self.counter += 1;
        Ok(Serving::Answered(Some(reply)))
    }

    // An answered place is answered again, the next one is done unless another session holds the key.
    fn on_later(
        &mut self,
        on: Transaction,
        place: u16,
        session: Session,
        request: Request,
    ) -> Result<Serving, AllocError>
        requires { place < REQUESTS }
        ensures step { IfOk result (CarriesOut (λ log. step.on_later on.tcom place session request (over log self.old.held) (step.sitting_in (over log self.old.held) session on.peer on.n)) self.old.held self.new.held) }
        ensures on { GoesOn self.old.held self.new.held }
        ensures room { IfOk result (HasRoomFor self.new.spare) }
        ensures memory { OnErr result (self.new.held ≡ self.old.held) }
        ensures limits { IsWithinLimits self.new.held }
    {
        let Some(at) = self.sittings.place_of(session, on.peer, on.n) else {
            return Ok(Serving::Answered(None));
        };
        let sitting = self.sittings.at(at);
        let answered = sitting.answered();
        if usize::from(place) < answered {
            return Ok(Serving::Answered(Some(sitting.reply_at(on.tcom, place))));
        }
        if usize::from(place) > answered {
            return Ok(Serving::Answered(None));
        }
        if let Some(other) = self.sittings.holder(on.peer, on.n, key_of(request)) {
            return Ok(Serving::Answered(Some(held_by(on, place, Some(session), other))));
        }
        self.sittings.take_on(at, self.book.ledger(), request)?;
        Ok(Serving::Answered(Some(self.sittings.at(at).reply_at(on.tcom, place))))
    }

    // A Drop ends the sessions up to its number, which is served no longer.
    fn on_drop(&mut self, peer: ComId, n: u64) -> Result<Serving, AllocError>
        requires { n ≤ GREATEST_NUMBER }
        ensures step { IfOk result (CarriesOut (λ log. step.silent (step.on_drop (over log self.old.held) peer n)) self.old.held self.new.held) }
        ensures on { GoesOn self.old.held self.new.held }
        ensures room { IfOk result (HasRoomFor self.new.spare) }
        ensures memory { OnErr result (self.new.held ≡ self.old.held) }
        ensures limits { IsWithinLimits self.new.held }
    {
        self.least.reserve()?;
        let from = self.least.of(peer).max(n + 1);
        self.least.put(peer, from);
        self.sittings.end_below(peer, n + 1);
        Ok(Serving::Answered(None))
    }
}

// A session whose first request is done.
fn opened(
    alloc: Global,
    ledger: &[i64],
    on: Transaction,
    session: Session,
    request: Request,
) -> Result<Sitting, AllocError>
    ensures { IfOk result (λ s. s ≡ step.done ledger.now (fresh_sitting session on.peer on.n) request) }
{
    let mut sitting = Sitting::open(alloc, session, on.peer, on.n);
    sitting.take_on(ledger, request)?;
    Ok(sitting)
}

// Serves a Pcom's transactions from this one on, and ends the sessions of those below.
fn serve_from(least: &mut Least, sittings: &mut Sittings, on: Transaction)
    requires { 0 < least.old.spare }
    ensures least { least.new.held ≡ put_number on.peer on.n least.old.held }
    ensures sittings { sittings.new.held ≡ filter (λ s. not (step.is_below on.peer on.n s)) sittings.old.held }
    ensures room { sittings.old.spare ≤ sittings.new.spare }
{
    least.put(on.peer, on.n);
    sittings.end_below(on.peer, on.n);
}
