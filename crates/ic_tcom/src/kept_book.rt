ghost use Rattle.std.specs.Prelude.{◌≡◌, ◌<◌, ◌≤◌, ◌+◌, IfOk, OnOk};
ghost use Rattle.ic_base.specs.declared.limits.TheConstants.{GREATEST_NUMBER};
ghost use Rattle.def_step.specs.Tcom as step;
ghost use Rattle.ic_tcom.specs.EngineState.{with_decision};
ghost use Rattle.ic_tcom.specs.Last.{AreLast, stamp_at};

use crate::book::{Book, first_ledger, write_all};
use crate::last::Last;
use crate::least::Least;
use crate::transaction::Verdict;
use ic_base::{ComId, Program};
use std::alloc::{AllocError, Global};
use std::marker::Model;

/// What is held of the book of a log: the ledger, the epoch, the clock, and of the decisions just the last one of each Pcom.
///
/// Contracts also see for how many more decisions there is room.
#[derive(Drop)]
pub(crate) struct KeptBook {
    ledger: Vec<i64>,
    last: Last,
    epoch: u64,
    clock: u64,
}

impl Model for KeptBook {
    ghost use Rattle.std.specs.Prelude.{◌≤◌};
    ghost use Rattle.def_step.specs.Tcom.{Book as Seen};
    ghost use Rattle.ic_base.specs.declared.limits.TheConstants.{GREATEST_NUMBER};
    ghost use Rattle.ic_tcom.specs.Roomy.{Roomy};

    ghost Value = { Roomy Seen };

    ghost view = { λ s. record { held = record { ledger = s.ledger.items; decided = s.last.held; epoch = s.epoch; clock = s.clock }; spare = s.last.spare } };

    ghost invariant = { λ s. (s.epoch ≤ GREATEST_NUMBER) × (s.clock ≤ GREATEST_NUMBER) };
}

impl KeptBook {
    /// The ledger as it is declared, and nothing decided.
    pub(crate) fn first(alloc: Global, program: &Program, t: ComId) -> Result<KeptBook, AllocError>
        ensures { IfOk result (λ b. b.held ≡ step.first_book program.now t) }
    {
        Ok(KeptBook {
            ledger: first_ledger(alloc, program, t)?,
            last: Last::new(alloc),
            epoch: 1,
            clock: 0,
        })
    }

    /// What is held of a book in the next epoch, with the number of the last decision of each Pcom.
    pub(crate) fn in_next_epoch(book: Book) -> (KeptBook, Least)
        requires { book.held.epoch < GREATEST_NUMBER }
        ensures rest { result.0.held ≡ record book.held { decided = result.0.held.decided; epoch = book.held.epoch + 1 } }
        ensures least { result.1.held ≡ step.greatest_decided book.held.decided }
        ensures last { AreLast book.held.decided result.1.held result.0.held.decided }
    {
        let epoch = book.epoch() + 1;
        let (ledger, least, last, clock) = book.into_parts();
        let kept = KeptBook {
            ledger,
            last,
            epoch,
            clock,
        };
        (kept, least)
    }

    /// Makes room for one more decision.
    pub(crate) fn reserve(&mut self) -> Result<(), AllocError>
        ensures same { self.new.held ≡ self.old.held }
        ensures room { OnOk result (0 < self.new.spare) }
    {
        self.last.reserve()
    }

    /// The stamp of the decision on a transaction, if that is the last one of its Pcom.
    pub(crate) fn decided_at(&self, c: ComId, n: u64) -> Option<u64>
        ensures { result ≡ stamp_at self.now.held.decided c n }
    {
        self.last.stamp_of(c, n)
    }

    /// The value of each key.
    pub(crate) fn ledger(&self) -> &[i64]
        ensures { result.now ≡ self.now.held.ledger }
    {
        self.ledger.as_slice()
    }

    pub(crate) fn epoch(&self) -> u64
        ensures value { result ≡ self.now.held.epoch }
        ensures bound { result ≤ GREATEST_NUMBER }
    {
        self.epoch
    }

    pub(crate) fn clock(&self) -> u64
        ensures value { result ≡ self.now.held.clock }
        ensures bound { result ≤ GREATEST_NUMBER }
    {
        self.clock
    }

    /// Takes a decision in, with its writes.
    pub(crate) fn enter(&mut self, verdict: Verdict, writes: &[(u16, i64)])
        requires room { 0 < self.old.spare }
        requires limit { verdict.stamp ≤ GREATEST_NUMBER }
        ensures { self.new.held ≡ with_decision self.old.held verdict.stamp verdict.peer verdict.n writes.now }
    {
        write_all(&mut self.ledger, writes);
        self.clock = verdict.stamp;
        self.last.put(verdict);
    }
}
