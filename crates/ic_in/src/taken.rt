ghost use Rattle.std.specs.Prelude.{map, ◌==◌, ◌||◌, ◌≡◌, ◌+◌, ◌<◌, ◌≤◌, ℕ, [], nat_lt, nat_le, ◌&&◌, not, true, false, is_some, None, OnOk, IfOk};
ghost use Rattle.std.specs.List.{list_any};
ghost use Rattle.def_state.specs.Names.{Identity, same_identity};
ghost use Rattle.ic_base.specs.declared.limits.TheConstants.{GREATEST_NUMBER};
ghost use Rattle.ic_base.specs.Programs.{same_com};
ghost use Rattle.def_state.specs.Inbox.{insert_identity};
ghost use Rattle.ic_in.specs.Senders.{AreParts, taken_in, is_listed, are_components, sender_of, with_number, with_bound, number_above};
ghost use Rattle.ic_index.specs.Entries.{value_of, is_in_order};

use ic_base::{ComId, Numbers};
use ic_index::{Counts, Sorted};
use std::alloc::{AllocError, Global};
use std::marker::Model;

/// The identities of the taken messages: for each sender the number up to which all are taken, and those above it.
#[derive(Drop)]
pub struct Taken {
    bounds: Counts,
    above: Sorted<()>,
}

impl Model for Taken {
    ghost use Rattle.std.specs.Prelude.{List, min};
    ghost use Rattle.def_state.specs.Names.{Identity};
    ghost use Rattle.ic_index.specs.Room.{WithRoom};

    ghost Value = { WithRoom (List Identity) };

    ghost use Rattle.ic_in.specs.Taken.{taken_of, IsTaken};

    ghost view = { λ s. record { seen = taken_of s.bounds.seen s.above.seen; spare = min s.bounds.spare s.above.spare } };

    ghost invariant = { λ s. IsTaken s.bounds.seen s.above.seen };
}

impl Taken {
    /// None, and room for none.
    pub fn new(alloc: Global) -> Taken
        ensures { result.seen ≡ [] }
    {
        Taken {
            bounds: Counts::new(alloc),
            above: Sorted::new(alloc),
        }
    }

    /// The messages of these senders, as an image has them: each with a number up to which all are taken, and those
    /// above it.
    pub fn from_parts(alloc: Global, senders: &[(ComId, u64, Numbers)]) -> Result<Taken, AllocError>
        requires { AreParts senders.now }
        ensures { IfOk result (λ taken. taken.seen ≡ taken_in senders.now) }
    {
        Ok(Taken {
            bounds: Counts::from_vec(bounds_of(alloc, senders)?),
            above: above_of(alloc, senders)?,
        })
    }

    /// Makes room for n more.
    pub fn reserve(&mut self, n: usize) -> Result<(), AllocError>
        ensures same { self.new.seen ≡ self.old.seen }
        ensures room { OnOk result (n ≤ self.new.spare) }
        ensures kept { self.old.spare ≤ self.new.spare }
    {
        self.bounds.reserve(n)?;
        self.above.reserve(n)
    }

    /// Whether the message is taken.
    pub fn contains(&self, from: ComId, k: u64) -> bool
        ensures { result ≡ list_any (same_identity (record { peer = from; k = k })) self.now.seen }
    {
        let bound = self.bounds.get(from);
        if bound < k {
            return self.above.get(from, k).is_some();
        }
        1 <= k
    }

    /// Adds a message that isn't taken, in its place.
    pub fn insert(&mut self, from: ComId, k: u64)
        requires room { 0 < self.old.spare }
        requires number { (1 ≤ k) × (k ≤ GREATEST_NUMBER) }
        requires new { list_any (same_identity (record { peer = from; k = k })) self.old.seen ≡ false }
        ensures inserted { self.new.seen ≡ insert_identity (record { peer = from; k = k }) self.old.seen }
        ensures room { self.old.spare ≤ self.new.spare + 1 }
    {
        let bound = self.bounds.get(from);
        if k == bound + 1 {
            let bound = absorb(&mut self.above, from, k);
            self.bounds.put(from, bound);
            return;
        }
        self.above.put(from, k, ());
        self.bounds.put(from, bound);
    }

    /// The i-th sender by rising component, with the greatest number up to which all are taken. None exactly past the
    /// end.
    pub fn sender(&self, i: usize) -> Option<(ComId, u64)>
        ensures { are_components self.now.seen ≡ true → with_number result ≡ with_bound (sender_of self.now.seen i) }
    {
        self.bounds.at(i)
    }

    /// The j-th taken number of the i-th sender above the bound that `sender` gives. None exactly past the end.
    pub fn above(&self, i: usize, j: usize) -> Option<u64>
        ensures { are_components self.now.seen ≡ true → result ≡ number_above (sender_of self.now.seen i) j }
    {
        let (from, _) = self.bounds.at(i)?;
        let first = self.above.place(from, 0);
        if self.above.len() - first <= j {
            return None;
        }
        let entry = self.above.at(first + j)?;
        if from.0 == entry.peer.0 {
            Some(entry.k)
        } else {
            None
        }
    }

    /// An equal value.
    pub fn copy(&self, alloc: Global) -> Result<Taken, AllocError>
        ensures { IfOk result (λ copy. copy.seen ≡ self.now.seen) }
    {
        Ok(Taken {
            bounds: self.bounds.copy(alloc)?,
            above: self.above.copy(alloc)?,
        })
    }
}

/// Takes the sender's numbers behind a bound out of those above, as far as none is missing. Answers the new bound.
fn absorb(above: &mut Sorted<()>, from: ComId, bound: u64) -> u64
    requires low { bound ≤ GREATEST_NUMBER }
    requires ordered { is_in_order above.old.seen ≡ true }
    requires limited { (x : Identity) → is_some (value_of above.old.seen x) ≡ true → x.k ≤ GREATEST_NUMBER }
    ensures rises { (bound ≤ result) × (result ≤ GREATEST_NUMBER) }
    ensures left { (x : Identity) → is_some (value_of above.new.seen x) ≡ (is_some (value_of above.old.seen x) && not (same_com x.peer from && (nat_lt bound x.k && nat_le x.k result))) }
    ensures absorbed { (k : ℕ) → bound < k → k ≤ result → is_some (value_of above.old.seen (record { peer = from; k = k })) ≡ true }
    ensures end { value_of above.new.seen (record { peer = from; k = result + 1 }) ≡ None }
    ensures ordered { is_in_order above.new.seen ≡ true }
    ensures room { above.old.spare ≤ above.new.spare }
{
    let mut end = bound;
    while above.remove(from, end + 1) {
        end += 1;
    }
    end
}

/// The senders' bounds.
fn bounds_of(
    alloc: Global,
    senders: &[(ComId, u64, Numbers)],
) -> Result<Vec<(ComId, u64)>, AllocError>
    ensures { IfOk result (λ bounds. bounds.items ≡ map (λ s. (s.0, s.1)) senders.now) }
{
    let mut bounds = Vec::with_capacity(alloc, senders.len())?;
    for (from, bound, _) in senders {
        bounds.push((*from, *bound))?;
    }
    Ok(bounds)
}

/// The senders' numbers above their bounds.
fn above_of(alloc: Global, senders: &[(ComId, u64, Numbers)]) -> Result<Sorted<()>, AllocError>
    ensures members { IfOk result (λ above. (x : Identity) → is_some (value_of above.seen x) ≡ is_listed senders.now x) }
    ensures ordered { IfOk result (λ above. is_in_order above.seen ≡ true) }
{
    let mut above = Sorted::new(alloc);
    for (from, _, numbers) in senders {
        add_numbers(&mut above, *from, numbers.as_slice())?;
    }
    Ok(above)
}

/// Adds these numbers of a sender.
fn add_numbers(above: &mut Sorted<()>, from: ComId, numbers: &[u64]) -> Result<(), AllocError>
    requires { is_in_order above.old.seen ≡ true }
    ensures members { OnOk result ((x : Identity) → is_some (value_of above.new.seen x) ≡ (is_some (value_of above.old.seen x) || (same_com x.peer from && list_any (λ k. x.k == k) numbers.now))) }
    ensures ordered { is_in_order above.new.seen ≡ true }
{
    above.reserve(numbers.len())?;
    for k in numbers {
        above.put(from, *k, ());
    }
    Ok(())
}
