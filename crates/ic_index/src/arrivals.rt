ghost use Rattle.std.specs.Prelude.{◌≡◌, ◌+◌, ◌<◌, ◌≤◌, ◌++◌, ◌∷◌, [], ℕ, false, length, slice_get, option_to_list, OnOk, IfOk, IfSome, Some};
ghost use Rattle.std.specs.List.{list_any, remove};
ghost use Rattle.def_state.specs.Names.{same_identity};

use ic_base::ComId;
use std::alloc::{AllocError, Global};
use std::collections::{HashMap, VecDeque};
use std::marker::Model;

/// A message's identity at one of its two ends, and the number of its arrival.
#[derive(Clone, Copy, Debug)]
pub struct Arrival {
    peer: ComId,
    k: u64,
    number: u64,
}

/// Identities of messages in order of arrival, each one once. Where one stands is found by the number of its arrival, which
/// is kept by identity, and a binary search for that number.
#[derive(Drop)]
pub struct Arrivals {
    order: VecDeque<Arrival>,
    /// By component and number of the message.
    numbers: HashMap<(u8, u64), u64>,
    next: u64,
}

impl Model for Arrivals {
    ghost use Rattle.std.specs.Prelude.{List, map, min, length, ◌≡◌, ◌-◌, ◌≤◌, true};
    ghost use Rattle.std.specs.VecDeque.{deque_capacity, deque_len};
    ghost use Rattle.def_state.specs.Names.{Identity};
    ghost use Rattle.ic_index.specs.Room.{WithRoom};

    ghost Value = { WithRoom (List Identity) };

    ghost use Rattle.std.specs.HashMap as map;
    ghost use Rattle.ic_index.specs.Rows.{arrived, are_numbered, are_indexed, number_kept, KeepsNoOther};

    ghost view = { λ s. record { seen = map arrived s.order.items; spare = min (deque_capacity s.order - deque_len s.order) (min (map.spare s.numbers) (18446744073709551615 - s.next)) } };

    ghost invariant = { λ s. (are_numbered s.next s.order.items ≡ true) × (are_indexed (number_kept s.numbers) s.order.items ≡ true) × KeepsNoOther (number_kept s.numbers) s.order.items };
}

impl Arrivals {
    /// None, and room for none.
    pub fn new(alloc: Global) -> Arrivals
        ensures { result.seen ≡ [] }
    {
        Arrivals {
            order: VecDeque::new(alloc),
            numbers: HashMap::new(alloc),
            next: 0,
        }
    }

    /// Makes room for n more. It is refused too where the numbers of arrival run out, which 2^64 arrivals take.
    pub fn reserve(&mut self, n: usize) -> Result<(), AllocError>
        ensures same { self.new.seen ≡ self.old.seen }
        ensures room { OnOk result (n ≤ self.new.spare) }
        ensures kept { self.old.spare ≤ self.new.spare }
    {
        if u64::MAX - self.next < n as u64 {
            return Err(AllocError);
        }
        self.order.reserve(n)?;
        self.numbers.reserve(n)
    }

    /// How many there are.
    pub fn len(&self) -> usize
        ensures { result ≡ length self.now.seen }
    {
        self.order.len()
    }

    /// Where this one stands.
    pub fn position(&self, peer: ComId, k: u64) -> Option<usize>
        ensures found { IfSome result (λ i. slice_get self.now.seen i ≡ Some (record { peer = peer; k = k })) }
        ensures once { (i : ℕ) → slice_get self.now.seen i ≡ Some (record { peer = peer; k = k }) → result ≡ Some i }
    {
        let number = self.numbers.get(&(peer.0, k)).copied()?;
        let i = self.order.partition_point(|a| a.number < number);
        if self.is_at(i, peer, k) {
            Some(i)
        } else {
            None
        }
    }

    /// Whether the i-th is this one.
    fn is_at(&self, i: usize, peer: ComId, k: u64) -> bool
        ensures { result ≡ list_any (same_identity (record { peer = peer; k = k })) (option_to_list (slice_get self.now.seen i)) }
    {
        match self.order.get(i) {
            Some(a) => peer.0 == a.peer.0 && k == a.k,
            None => false,
        }
    }

    /// One more arrives.
    pub fn push(&mut self, peer: ComId, k: u64)
        requires room { 0 < self.old.spare }
        requires new { list_any (same_identity (record { peer = peer; k = k })) self.old.seen ≡ false }
        ensures last { self.new.seen ≡ self.old.seen ++ record { peer = peer; k = k } ∷ [] }
        ensures room { self.old.spare ≤ self.new.spare + 1 }
    {
        let number = self.next;
        self.order.push_back_reserved(Arrival { peer, k, number });
        if self.numbers.insert((peer.0, k), number).is_err() {
            unreachable!()
        }
        self.next = number + 1;
    }

    /// The i-th leaves.
    pub fn remove(&mut self, i: usize)
        requires { i < length self.old.seen }
        ensures gone { self.new.seen ≡ remove self.old.seen i }
        ensures room { self.old.spare ≤ self.new.spare }
    {
        if let Some(a) = self.order.remove(i) {
            let _ = self.numbers.remove(&(a.peer.0, a.k));
        }
    }

    /// An equal value.
    pub fn copy(&self, alloc: Global) -> Result<Arrivals, AllocError>
        ensures { IfOk result (λ copy. copy.seen ≡ self.now.seen) }
    {
        Ok(Arrivals {
            order: self.order.clone()?,
            numbers: self.numbers.clone()?,
            next: self.next,
        })
    }
}
