ghost use Rattle.std.specs.Prelude.{◌≡◌, ◌<◌, ◌++◌, ◌∷◌, [], List, max, IfOk, OnOk};
ghost use Rattle.def_state.specs.Names.{number_of, put_number};
ghost use Rattle.def_step.specs.Tcom.{Verdict as Seen, greatest_decided};
ghost use Rattle.ic_tcom.specs.Last.{AreLast, stamp_at, with_last};

use crate::least::Least;
use crate::transaction::Verdict;
use ic_base::ComId;
use std::alloc::{AllocError, Global};
use std::marker::Model;

/// The last decision of each Pcom, at most one for each. So a search goes over few.
#[derive(Drop)]
pub(crate) struct Last {
    list: Vec<Verdict>,
}

impl Model for Last {
    ghost use Rattle.std.specs.Prelude.{◌-◌, List, vec_len, vec_capacity};
    ghost use Rattle.def_step.specs.Tcom.{Verdict as Seen};
    ghost use Rattle.ic_tcom.specs.Last.{AreOfEach};
    ghost use Rattle.ic_tcom.specs.Roomy.{Roomy};

    ghost Value = { Roomy (List Seen) };

    ghost view = { λ s. record { held = s.list.items; spare = vec_capacity s.list - vec_len s.list } };

    ghost invariant = { λ s. AreOfEach s.list.items };
}

impl Last {
    pub(crate) fn new(alloc: Global) -> Last
        ensures { result.held ≡ [] }
    {
        Last {
            list: Vec::new(alloc),
        }
    }

    /// Makes room for one more Pcom.
    pub(crate) fn reserve(&mut self) -> Result<(), AllocError>
        ensures same { self.new.held ≡ self.old.held }
        ensures room { OnOk result (0 < self.new.spare) }
    {
        self.list.reserve(1)
    }

    /// The stamp of the decision on a transaction, if that is the last one of its Pcom.
    pub(crate) fn stamp_of(&self, c: ComId, n: u64) -> Option<u64>
        ensures { result ≡ stamp_at self.now.held c n }
    {
        match self.list.iter().find(|verdict| verdict.is_of(c, n)) {
            Some(verdict) => Some(verdict.stamp),
            None => None,
        }
    }

    /// Holds this decision in the place of the one of its Pcom before.
    pub(crate) fn put(&mut self, verdict: Verdict)
        requires { 0 < self.old.spare }
        ensures { self.new.held ≡ with_last verdict self.old.held }
    {
        self.list.retain(|other| verdict.peer != other.peer);
        self.list.push_reserved(verdict);
    }
}

/// Takes the next decision of a log in. One below the least number changes nothing else, nor does one on a transaction that was
/// decided before.
pub(crate) fn take_in(least: &mut Least, last: &mut Last, verdict: Verdict)
    requires least { 0 < least.old.spare }
    requires last { 0 < last.old.spare }
    ensures least { least.new.held ≡ put_number verdict.peer (max (number_of 1 least.old.held verdict.peer) verdict.n) least.old.held }
    ensures last { (all : List Seen) → AreLast all least.old.held last.old.held → AreLast (all ++ verdict ∷ []) least.new.held last.new.held }
{
    let from = least.of(verdict.peer).max(verdict.n);
    least.put(verdict.peer, from);
    if verdict.n < from {
        return;
    }
    if let Some(_) = last.stamp_of(verdict.peer, verdict.n) {
        return;
    }
    last.put(verdict);
}
