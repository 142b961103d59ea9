ghost use Rattle.std.specs.Prelude.{◌≡◌, ◌<◌, ◌≤◌, Option, Some, None, slice_get, map, IfOk, OnOk};
ghost use Rattle.ic_base.specs.declared.limits.TheConstants.{GREATEST_NUMBER};
ghost use Rattle.ic_base.specs.Programs as programs;
ghost use Rattle.std.specs.List.{list_all};
ghost use Rattle.def_step.specs.Tcom as step;
ghost use Rattle.ic_tcom.specs.Books.{MayEnter};
ghost use Rattle.ic_tcom.specs.Last.{AreLast};

use crate::decided_list::DecidedList;
use crate::fits::{has_key, is_a_pcom};
use crate::last::{Last, take_in};
use crate::least::Least;
use crate::transaction::Verdict;
use ic_base::{ComId, Name, Program, Record};
use std::alloc::{AllocError, Global};
use std::collections::HashMap;
use std::marker::Model;

/// What the records of a Tcom's log give: the ledger, the decided transactions in order, the epoch and the clock.
///
/// Of the decisions it holds the stamps, and the last one of each Pcom. Contracts also see for how many more there is room.
#[derive(Drop)]
pub struct Book {
    ledger: Vec<i64>,
    decided: DecidedList,
    /// The greatest number decided of each Pcom.
    least: Least,
    last: Last,
    /// The stamp of each decision, by Pcom and number.
    stamps: HashMap<(u8, u64), u64>,
    epoch: u64,
    clock: u64,
}

impl Model for Book {
    ghost use Rattle.std.specs.Prelude.{◌≡◌, ◌≤◌, min};
    ghost use Rattle.std.specs.HashMap.{spare as room_in};
    ghost use Rattle.def_step.specs.Tcom.{Book as Seen, greatest_decided};
    ghost use Rattle.ic_base.specs.declared.limits.TheConstants.{GREATEST_NUMBER};
    ghost use Rattle.ic_tcom.specs.Roomy.{Roomy};

    ghost Value = { Roomy Seen };

    ghost use Rattle.ic_tcom.specs.Index.{IsIndexOf};
    ghost use Rattle.ic_tcom.specs.Last.{AreLast};

    ghost view = { λ s. record { held = record { ledger = s.ledger.items; decided = s.decided.list; epoch = s.epoch; clock = s.clock }; spare = min (min s.least.spare s.last.spare) (room_in s.stamps) } };

    ghost invariant = { λ s. IsIndexOf s.stamps s.decided.list × (s.least.held ≡ greatest_decided s.decided.list) × AreLast s.decided.list s.least.held s.last.held × (s.epoch ≤ GREATEST_NUMBER) × (s.clock ≤ GREATEST_NUMBER) };
}

impl Book {
    /// The ledger as it is declared, and nothing decided.
    pub fn first(alloc: Global, program: &Program, t: ComId) -> Result<Book, AllocError>
        ensures { IfOk result (λ b. b.held ≡ step.first_book program.now t) }
    {
        Ok(Book {
            ledger: first_ledger(alloc, program, t)?,
            decided: DecidedList::new(),
            least: Least::new(alloc),
            last: Last::new(alloc),
            stamps: HashMap::new(alloc),
            epoch: 1,
            clock: 0,
        })
    }

    /// Makes room for one more decision.
    pub(crate) fn reserve(&mut self) -> Result<(), AllocError>
        ensures same { self.new.held ≡ self.old.held }
        ensures room { OnOk result (0 < self.new.spare) }
    {
        self.least.reserve()?;
        self.last.reserve()?;
        self.stamps.reserve(1)
    }

    /// The stamp of the decision on a transaction.
    pub(crate) fn decided_at(&self, c: ComId, n: u64) -> Option<u64>
        ensures { result ≡ step.decided_at self.now.held c n }
    {
        self.stamps.get(&(c.0, n)).copied()
    }

    pub fn epoch(&self) -> u64
        ensures value { result ≡ self.now.held.epoch }
        ensures bound { result ≤ GREATEST_NUMBER }
    {
        self.epoch
    }

    /// The ledger, the greatest number decided of each Pcom, the last decision of each, and the clock.
    pub(crate) fn into_parts(self) -> (Vec<i64>, Least, Last, u64)
        ensures ledger { result.0.items ≡ self.held.ledger }
        ensures least { result.1.held ≡ step.greatest_decided self.held.decided }
        ensures last { AreLast self.held.decided result.1.held result.2.held }
        ensures clock { result.3 ≡ self.held.clock }
        ensures limit { result.3 ≤ GREATEST_NUMBER }
    {
        (self.ledger, self.least, self.last, self.clock)
    }

    /// Whether the record may stand next.
    pub(crate) fn fits(&self, program: &Program, t: ComId, stored: &Record) -> bool
        ensures { result ≡ step.book_fits program.now t self.now.held stored.now }
    {
        match stored {
            Record::Epoch { epoch } => *epoch == self.epoch + 1,
            Record::Decided {
                stamp,
                c,
                n,
                writes,
            } => {
                self.clock < *stamp
                    && self.decided_at(*c, *n).is_none()
                    && is_a_pcom(program, *c)
                    && have_keys(program, t, writes.as_slice())
            }
            _ => false,
        }
    }

    /// Takes the next record in.
    pub(crate) fn enter(&mut self, stored: &Record)
        requires room { 0 < self.old.spare }
        requires next { MayEnter self.old.held stored.now }
        ensures { self.new.held ≡ step.booked self.old.held stored.now }
    {
        match stored {
            Record::Epoch { epoch } => self.epoch = *epoch,
            Record::Decided {
                stamp,
                c,
                n,
                writes,
            } => {
                let verdict = Verdict {
                    peer: *c,
                    n: *n,
                    stamp: *stamp,
                };
                self.decided = DecidedList::with(&self.decided, &verdict);
                take_in(&mut self.least, &mut self.last, verdict);
                let _kept = self.stamps.insert((c.0, *n), *stamp);
                write_all(&mut self.ledger, writes.as_slice());
                self.clock = *stamp;
            }
            _ => {}
        }
    }
}

/// The values with which a Tcom's keys are declared.
pub(crate) fn first_ledger(
    alloc: Global,
    program: &Program,
    t: ComId,
) -> Result<Vec<i64>, AllocError>
    ensures { IfOk result (λ v. v.items ≡ step.first_ledger (slice_get program.now.components t.0)) }
{
    match program.components.as_slice().get(usize::from(t.0)) {
        Some(component) => first_values(alloc, component.keys.as_slice()),
        None => Ok(Vec::new(alloc)),
    }
}

fn first_values(alloc: Global, keys: &[(Name, i64)]) -> Result<Vec<i64>, AllocError>
    ensures { IfOk result (λ v. v.items ≡ map (λ k. k.1) keys.now) }
{
    keys.iter().map(|key| key.1).collect(alloc)
}

// Whether a Tcom has each key that is written.
fn have_keys(program: &Program, t: ComId, writes: &[(u16, i64)]) -> bool
    ensures { result ≡ list_all (λ w. programs.has_key program.now t w.0) writes.now }
{
    writes.iter().all(|write| has_key(program, t, write.0))
}

/// Makes writes, in order.
pub(crate) fn write_all(ledger: &mut [i64], writes: &[(u16, i64)])
    ensures { ledger.new ≡ step.write_all ledger.old writes.now }
{
    for (key, value) in writes {
        let place = usize::from(*key);
        if place < ledger.len() {
            ledger[place] = *value;
        }
    }
}
