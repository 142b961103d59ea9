ghost use Rattle.std.specs.Prelude.{◌≡◌, ◌<◌, IsTrue};
ghost use Rattle.ic_base.specs.declared.limits.TheConstants.{GREATEST_NUMBER};
ghost use Rattle.def_state.specs.Txn as txn;
ghost use Rattle.def_state.specs.Txn.{no_txn};
ghost use Rattle.ic_txn.specs.Replies.{after_reply, has_next_place, ended};

use crate::stage::Stage;
use ic_base::{ComId, Decision, Packet, Request, Session};
use std::marker::Model;

/// How many transactions were begun, the last that ended with its Tcom, and the open one.
///
/// Only the answer that is awaited counts (docs/RULES.md, "Transactions").
#[derive(Clone, Copy, Debug)]
pub struct Txn {
    begun: u64,
    last: Option<(ComId, u64)>,
    stage: Stage,
}

impl Model for Txn {
    ghost use Rattle.def_state.specs.Txn.{Txn};

    ghost Value = { Txn };

    ghost use Rattle.ic_txn.specs.Kept.{stage_seen, stage_kept, kept_again};

    ghost view = { λ t. record { begun = t.begun; last = t.last; stage = stage_seen t.stage } };

    ghost inverse = { λ t. record { begun = t.begun; last = t.last; stage = stage_kept t.stage } };

    ghost inverse_ok = { λ a h. kept_again a };
}

impl Txn {
    /// No transaction yet.
    pub fn new() -> Txn
        ensures { result ≡ no_txn }
    {
        Txn {
            begun: 0,
            last: None,
            stage: Stage::Idle,
        }
    }

    /// Begins the next transaction, on a Tcom, with its first request.
    pub fn begin(&mut self, tcom: ComId, request: Request)
        requires { self.old.begun < GREATEST_NUMBER }
        ensures { self.new ≡ txn.begin self.old tcom request }
    {
        self.begun += 1;
        self.stage = Stage::Waiting(tcom, 0, None, request);
    }

    /// The value of the awaited answer: of this Tcom, transaction, place and session, at place 0 of any session. It is
    /// then taken, and its session kept.
    pub fn reply(&mut self, p: &Packet) -> Option<i64>
        ensures answer { result ≡ txn.reply self.old p.now }
        ensures taken { self.new ≡ after_reply self.old p.now }
    {
        let Packet::OpReply {
            from,
            n,
            place,
            session,
            value,
            ..
        } = *p
        else {
            return None;
        };
        if self.is_on(from) && n == self.begun && self.awaits(place, session) {
            self.take_reply(session);
            Some(value)
        } else {
            None
        }
    }

    /// Whether the answer at this place, in this session, is the awaited one.
    pub fn awaits(&self, place: u16, session: Session) -> bool
        ensures { result ≡ txn.is_awaited_at self.now.stage place session }
    {
        match self.stage {
            Stage::Waiting(_, awaited, kept, _) => {
                place == awaited && (awaited == 0 || kept == Some(session))
            }
            _ => false,
        }
    }

    /// Takes the awaited answer, and keeps its session.
    pub fn take_reply(&mut self, session: Session)
        ensures { self.new ≡ txn.take_reply self.old session }
    {
        if let Stage::Waiting(tcom, place, _, request) = self.stage {
            self.stage = Stage::Answered(tcom, place, session, request);
        }
    }

    /// Asks the next request, where the answer to the last one is taken.
    pub fn ask(&mut self, request: Request)
        requires { IsTrue (has_next_place self.old.stage) }
        ensures { self.new ≡ txn.ask self.old request }
    {
        if let Stage::Answered(tcom, place, session, _) = self.stage {
            self.stage = Stage::Waiting(tcom, place + 1, Some(session), request);
        }
    }

    /// The part is played to its end, where the answer to the last request is taken: the commit is next.
    pub fn ready(&mut self)
        requires { IsTrue (has_next_place self.old.stage) }
        ensures { self.new ≡ txn.ready self.old }
    {
        if let Stage::Answered(tcom, place, session, _) = self.stage {
            self.stage = Stage::Committing(tcom, place + 1, session);
        }
    }

    /// The decision on the open transaction: committed while it is committing, aborted at the awaited place and session.
    pub fn outcome(&self, p: &Packet) -> Option<Decision>
        ensures { result ≡ txn.outcome self.now p.now }
    {
        let Packet::Outcome {
            from,
            n,
            place,
            session,
            decision,
            ..
        } = *p
        else {
            return None;
        };
        if self.is_on(from) && n == self.begun && self.accepts(place, session, decision) {
            Some(decision)
        } else {
            None
        }
    }

    /// Ends the open transaction.
    pub fn end(&mut self)
        ensures { self.new ≡ txn.end self.old }
    {
        if let Some(tcom) = self.tcom() {
            self.last = Some((tcom, self.begun));
        }
        self.stage = Stage::Idle;
    }

    /// What is to be sent until it is answered: the awaited request of `c`, or its commit with the clock as stamp.
    pub fn pending(&self, c: ComId, clock: u64) -> Option<Packet>
        ensures { result ≡ txn.pending c self.now clock }
    {
        let n = self.begun;
        match self.stage {
            Stage::Idle => None,
            Stage::Waiting(to, place, session, request) => Some(Packet::Op {
                from: c,
                to,
                n,
                place,
                session,
                request,
            }),
            Stage::Answered(to, place, session, request) => Some(Packet::Op {
                from: c,
                to,
                n,
                place,
                session: Some(session),
                request,
            }),
            Stage::Committing(to, place, session) => Some(Packet::Commit {
                from: c,
                to,
                n,
                place,
                session,
                stamp: clock,
            }),
        }
    }

    /// The Tcom of the open transaction.
    pub fn tcom(&self) -> Option<ComId>
        ensures { result ≡ txn.tcom_of self.now.stage }
    {
        match self.stage {
            Stage::Idle => None,
            Stage::Waiting(tcom, _, _, _) => Some(tcom),
            Stage::Answered(tcom, _, _, _) => Some(tcom),
            Stage::Committing(tcom, _, _) => Some(tcom),
        }
    }

    /// Whether no transaction is open.
    pub fn is_idle(&self) -> bool
        ensures { result ≡ txn.is_idle self.now.stage }
    {
        match self.stage {
            Stage::Idle => true,
            _ => false,
        }
    }

    /// Whether the decision on the open transaction is awaited.
    pub fn is_committing(&self) -> bool
        ensures { result ≡ txn.is_committing self.now.stage }
    {
        match self.stage {
            Stage::Committing(_, _, _) => true,
            _ => false,
        }
    }

    /// Whether there is a place behind that of the answer which is taken.
    pub fn has_next_place(&self) -> bool
        ensures { result ≡ has_next_place self.now.stage }
    {
        match self.stage {
            Stage::Answered(_, place, _, _) => place < u16::MAX,
            _ => true,
        }
    }

    /// How many transactions were begun.
    pub fn begun(&self) -> u64
        ensures { result ≡ self.now.begun }
    {
        self.begun
    }

    /// The last transaction that ended, with its Tcom.
    pub fn last(&self) -> Option<(ComId, u64)>
        ensures { result ≡ self.now.last }
    {
        self.last
    }

    /// So many begun, with the last that ended, and none open.
    pub fn from_parts(begun: u64, last: Option<(ComId, u64)>) -> Txn
        ensures { result ≡ ended begun last }
    {
        Txn {
            begun,
            last,
            stage: Stage::Idle,
        }
    }

    // Whether the open transaction is on this Tcom.
    fn is_on(&self, tcom: ComId) -> bool
        ensures { result ≡ txn.is_on self.now.stage tcom }
    {
        match self.tcom() {
            Some(open) => tcom == open,
            None => false,
        }
    }

    // Whether a decision at this place and session counts.
    fn accepts(&self, place: u16, session: Option<Session>, decision: Decision) -> bool
        ensures { result ≡ txn.accepts self.now.stage place session decision }
    {
        match decision {
            Decision::Committed(_) => self.is_committing(),
            Decision::Aborted(_) => self.is_at(place, session),
        }
    }

    // Whether the open transaction is at this place and session.
    fn is_at(&self, place: u16, session: Option<Session>) -> bool
        ensures { result ≡ txn.same_place self.now.stage place session }
    {
        match self.stage {
            Stage::Idle => false,
            Stage::Waiting(_, at, kept, _) => place == at && session == kept,
            Stage::Answered(_, at, kept, _) => place == at && session == Some(kept),
            Stage::Committing(_, at, kept) => place == at && session == Some(kept),
        }
    }
}
