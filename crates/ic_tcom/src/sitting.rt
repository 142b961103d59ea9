ghost use Rattle.std.specs.Prelude.{◌≡◌, ◌<◌, ◌≤◌, ◌==◌, ◌&&◌, length, get_or, pos, IfOk, OnOk, OnErr};
ghost use Rattle.std.specs.List.{list_any};
ghost use Rattle.ic_base.specs.declared.limits.TheConstants.{REQUESTS};
ghost use Rattle.def_state.specs.Names.{same_session};
ghost use Rattle.def_step.specs.Tcom as step;
ghost use Rattle.ic_tcom.specs.Sittings.{fresh_sitting};

use ic_base::{ComId, Items, Packet, Request, Session, Writes};
use std::alloc::{AllocError, Global};
use std::marker::Model;

/// A session: the transaction that it serves, its answers in order of place, the keys that it holds, its writes.
///
/// A transaction has few requests (docs/RULES.md, "Limits"), so a search goes over few.
#[derive(Drop)]
pub(crate) struct Sitting {
    session: Session,
    peer: ComId,
    n: u64,
    answers: Vec<i64>,
    keys: Vec<u16>,
    writes: Vec<(u16, i64)>,
}

impl Model for Sitting {
    ghost use Rattle.std.specs.Prelude.{◌≤◌, length};
    ghost use Rattle.ic_base.specs.declared.limits.TheConstants.{REQUESTS};
    ghost use Rattle.def_step.specs.Tcom.{Sitting};

    ghost Value = { Sitting };

    ghost view = { λ s. record { session = s.session; peer = s.peer; n = s.n; answers = s.answers.items; keys = s.keys.items; writes = s.writes.items } };

    ghost invariant = { λ s. (length s.writes.items ≤ length s.answers.items) × (length s.keys.items ≤ length s.answers.items) × (length s.answers.items ≤ REQUESTS) };
}

impl Sitting {
    /// A session without a request.
    pub(crate) fn open(alloc: Global, session: Session, peer: ComId, n: u64) -> Sitting
        ensures { result ≡ fresh_sitting session peer n }
    {
        Sitting {
            session,
            peer,
            n,
            answers: Vec::new(alloc),
            keys: Vec::new(alloc),
            writes: Vec::new(alloc),
        }
    }

    /// Whether it serves this transaction.
    pub(crate) fn is_for(&self, peer: ComId, n: u64) -> bool
        ensures { result ≡ step.sits_for peer n self.now }
    {
        peer == self.peer && n == self.n
    }

    /// Whether it serves an earlier transaction of this Pcom.
    pub(crate) fn is_below(&self, peer: ComId, n: u64) -> bool
        ensures { result ≡ step.is_below peer n self.now }
    {
        peer == self.peer && self.n < n
    }

    /// Whether it is this session, and serves this transaction.
    pub(crate) fn is_in(&self, session: Session, peer: ComId, n: u64) -> bool
        ensures { result ≡ (same_session session self.now.session && step.sits_for peer n self.now) }
    {
        session == self.session && self.is_for(peer, n)
    }

    /// Whether it holds the key's lock.
    pub(crate) fn holds(&self, key: u16) -> bool
        ensures { result ≡ list_any (λ k. k == key) self.now.keys }
    {
        self.keys.contains(&key)
    }

    /// The transaction that it serves.
    pub(crate) fn serves(&self) -> (ComId, u64)
        ensures peer { result.0 ≡ self.now.peer }
        ensures n { result.1 ≡ self.now.n }
    {
        (self.peer, self.n)
    }

    /// How many requests it has answered.
    pub(crate) fn answered(&self) -> usize
        ensures { result ≡ length self.now.answers }
    {
        self.answers.len()
    }

    /// Its answer at a place.
    pub(crate) fn reply_at(&self, tcom: ComId, place: u16) -> Packet
        ensures { result ≡ step.reply_at tcom self.now place }
    {
        Packet::OpReply {
            from: tcom,
            to: self.peer,
            n: self.n,
            place,
            session: self.session,
            value: self.answer_at(usize::from(place)),
        }
    }

    fn answer_at(&self, place: usize) -> i64
        ensures { result ≡ get_or self.now.answers place (pos 0) }
    {
        match self.answers.get(place) {
            Some(answer) => *answer,
            None => 0,
        }
    }

    /// CarriesOut a request: takes the key's lock and keeps the answer.
    pub(crate) fn take_on(&mut self, ledger: &[i64], request: Request) -> Result<(), AllocError>
        requires { length self.old.answers < REQUESTS }
        ensures done { OnOk result (self.new ≡ step.done ledger.now self.old request) }
        ensures same { OnErr result (self.new ≡ self.old) }
    {
        self.answers.reserve(1)?;
        self.keys.reserve(1)?;
        self.writes.reserve(1)?;
        let answer = self.answer_to(ledger, request);
        self.answers.push_reserved(answer);
        match request {
            Request::Get(key) => self.keys.push_reserved(key),
            Request::Put(key, value) => {
                self.keys.push_reserved(key);
                self.writes.push_reserved((key, value));
            }
        }
        Ok(())
    }

    // A get answers the session's own last write or the ledger's value, a put what it writes.
    fn answer_to(&self, ledger: &[i64], request: Request) -> i64
        ensures { result ≡ step.answer_to ledger.now self.now request }
    {
        match request {
            Request::Get(key) => {
                let held = match ledger.get(usize::from(key)) {
                    Some(held) => *held,
                    None => 0,
                };
                last_write(&self.writes, key, held)
            }
            Request::Put(_, value) => value,
        }
    }

    /// What it writes, once more.
    pub(crate) fn written(&self, alloc: Global) -> Result<Writes, AllocError>
        ensures same { IfOk result (λ w. w ≡ self.now.writes) }
        ensures few { IfOk result (λ w. length w ≤ REQUESTS) }
    {
        Ok(Items::from_vec(self.writes.as_slice().to_vec(alloc)?))
    }
}

// The value that was last written to the key, or the one before.
fn last_write(writes: &[(u16, i64)], key: u16, before: i64) -> i64
    ensures { result ≡ step.last_write writes.now key before }
{
    let mut value = before;
    for (written, put) in writes {
        if *written == key {
            value = *put;
        }
    }
    value
}
