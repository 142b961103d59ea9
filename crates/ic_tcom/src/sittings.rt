ghost use Rattle.std.specs.Prelude.{◌≡◌, ◌<◌, ◌≤◌, ◌==◌, ◌&&◌, ◌++◌, ◌∷◌, [], not, filter, find, length, slice_get, option_and_then, Some, None, IfSome, OnOk, OnErr};
ghost use Rattle.std.specs.Option.{option_copied};
ghost use Rattle.ic_base.specs.declared.limits.TheConstants.{REQUESTS};
ghost use Rattle.ic_base.specs.Programs.{same_com};
ghost use Rattle.def_state.specs.Names.{same_session};
ghost use Rattle.ic_tcom.specs.Served.{AreOneEach};
ghost use Rattle.def_step.specs.Tcom as step;
ghost use Rattle.ic_tcom.specs.Sittings as sittings;

use crate::sitting::Sitting;
use ic_base::{ComId, Request, Session};
use std::alloc::{AllocError, Global};
use std::marker::Model;

/// The open sessions, in order of opening, at most one for each Pcom. So a search goes over few.
#[derive(Drop)]
pub(crate) struct Sittings {
    list: Vec<Sitting>,
}

impl Model for Sittings {
    ghost use Rattle.std.specs.Prelude.{◌-◌, List, vec_len, vec_capacity};
    ghost use Rattle.def_step.specs.Tcom.{Sitting as Seen};
    ghost use Rattle.ic_tcom.specs.Served.{AreOneEach};
    ghost use Rattle.ic_tcom.specs.Roomy.{Roomy};

    ghost Value = { Roomy (List Seen) };

    ghost view = { λ s. record { held = s.list.items; spare = vec_capacity s.list - vec_len s.list } };

    ghost invariant = { λ s. AreOneEach s.list.items };
}

impl Sittings {
    pub(crate) fn new(alloc: Global) -> Sittings
        ensures { result.held ≡ [] }
    {
        Sittings {
            list: Vec::new(alloc),
        }
    }

    /// Makes room for one more session.
    pub(crate) fn reserve(&mut self) -> Result<(), AllocError>
        ensures same { self.new.held ≡ self.old.held }
        ensures room { OnOk result (0 < self.new.spare) }
    {
        self.list.reserve(1)
    }

    /// How many sessions there are.
    pub(crate) fn len(&self) -> usize
        ensures count { result ≡ length self.now.held }
        ensures one_each { AreOneEach self.now.held }
    {
        self.list.len()
    }

    /// The session of a transaction.
    pub(crate) fn of(&self, peer: ComId, n: u64) -> Option<&Sitting>
        ensures { option_copied result ≡ find (step.sits_for peer n) self.now.held }
    {
        self.list.iter().find(|sitting| sitting.is_for(peer, n))
    }

    /// Where a session stands that serves this transaction.
    pub(crate) fn place_of(&self, session: Session, peer: ComId, n: u64) -> Option<usize>
        ensures found { option_and_then (slice_get self.now.held) result ≡ find (λ s. same_session session s.session && step.sits_for peer n s) self.now.held }
        ensures within { IfSome result (λ i. i < length self.now.held) }
    {
        self.list
            .iter()
            .position(|sitting| sitting.is_in(session, peer, n))
    }

    /// The session at a place.
    pub(crate) fn at(&self, place: usize) -> &Sitting
        requires { place < length self.now.held }
        ensures { slice_get self.now.held place ≡ Some result.now }
    {
        &self.list[place]
    }

    /// The session of another transaction that holds a key.
    pub(crate) fn holder(&self, peer: ComId, n: u64, key: u16) -> Option<&Sitting>
        ensures { option_copied result ≡ find (sittings.holds_for_another peer n key) self.now.held }
    {
        self.list
            .iter()
            .find(|sitting| sitting.holds(key) && !sitting.is_for(peer, n))
    }

    /// The same once the sessions of the Pcom below a number are over.
    pub(crate) fn holder_from(&self, peer: ComId, n: u64, key: u16) -> Option<&Sitting>
        ensures { option_copied result ≡ find (sittings.holds_for_another peer n key) (filter (λ s. not (step.is_below peer n s)) self.now.held) }
    {
        self.list.iter().find(|sitting| {
            !sitting.is_below(peer, n) && (sitting.holds(key) && !sitting.is_for(peer, n))
        })
    }

    /// Ends the sessions of a Pcom below a number.
    pub(crate) fn end_below(&mut self, peer: ComId, n: u64)
        ensures ended { self.new.held ≡ filter (λ s. not (step.is_below peer n s)) self.old.held }
        ensures spare { self.old.spare ≤ self.new.spare }
    {
        self.list.retain(|sitting| !sitting.is_below(peer, n));
    }

    /// Ends the session of a transaction.
    pub(crate) fn end(&mut self, peer: ComId, n: u64)
        ensures { self.new.held ≡ filter (λ s. not (step.sits_for peer n s)) self.old.held }
    {
        self.list.retain(|sitting| !sitting.is_for(peer, n));
    }

    /// Adds a session of a Pcom that has none.
    pub(crate) fn add(&mut self, sitting: Sitting)
        requires room { 0 < self.old.spare }
        requires new { find (λ s. same_com sitting.peer s.peer) self.old.held ≡ None }
        ensures { self.new.held ≡ self.old.held ++ sitting ∷ [] }
    {
        self.list.push_reserved(sitting);
    }

    /// CarriesOut a request of the session at a place.
    pub(crate) fn take_on(
        &mut self,
        place: usize,
        ledger: &[i64],
        request: Request,
    ) -> Result<(), AllocError>
        requires there { place < length self.old.held }
        requires few { IfSome (slice_get self.old.held place) (λ s. length s.answers < REQUESTS) }
        ensures done { OnOk result (IfSome (slice_get self.old.held place) (λ s. self.new.held ≡ sittings.with_sitting (step.done ledger.now s request) self.old.held)) }
        ensures same { OnErr result (self.new.held ≡ self.old.held) }
    {
        self.list[place].take_on(ledger, request)
    }
}
