ghost use Rattle.std.specs.Prelude.{◌≡◌, ◌+◌, ◌<◌, ◌≤◌, [], length, slice_get, option_to_list, is_some, true, OnOk, IfOk};
ghost use Rattle.std.specs.List.{list_any};
ghost use Rattle.def_state.specs.Names.{same_identity};
ghost use Rattle.ic_index.specs.Entries.{name_of, value_of, put_entry, without, count_before, is_in_order};

use ic_base::ComId;
use std::alloc::{AllocError, Global};
use std::collections::VecDeque;
use std::marker::Model;

/// A value kept under the identity of a message at one of its two ends: the component at the other end, and the
/// message's number on their link.
#[derive(Clone, Copy, Debug, PartialEq, Eq)]
pub struct Entry<T> {
    pub peer: ComId,
    pub k: u64,
    pub value: T,
}

/// Values kept by identity, in order of component and number, and found by binary search.
#[derive(Drop)]
pub struct Sorted<T> {
    entries: VecDeque<Entry<T>>,
}

impl<T> Model for Sorted<T> {
    ghost use Rattle.std.specs.Prelude.{List, ◌≡◌, ◌-◌, true};
    ghost use Rattle.std.specs.VecDeque.{deque_capacity, deque_len};
    ghost use Rattle.ic_index.specs.declared.sorted.Entry.{Entry};
    ghost use Rattle.ic_index.specs.Room.{WithRoom};

    ghost Value = { WithRoom (List (Entry T)) };

    ghost use Rattle.ic_index.specs.Entries.{is_in_order};

    ghost view = { λ s. record { seen = s.entries.items; spare = deque_capacity s.entries - deque_len s.entries } };

    ghost invariant = { λ s. is_in_order s.entries.items ≡ true };
}

impl<T: Copy> Sorted<T> {
    /// No entry, and room for none.
    pub fn new(alloc: Global) -> Sorted<T>
        ensures { result.seen ≡ [] }
    {
        Sorted {
            entries: VecDeque::new(alloc),
        }
    }

    /// Makes room for n more entries.
    pub fn reserve(&mut self, n: usize) -> Result<(), AllocError>
        ensures same { self.new.seen ≡ self.old.seen }
        ensures room { OnOk result (n ≤ self.new.spare) }
        ensures kept { self.old.spare ≤ self.new.spare }
    {
        self.entries.reserve(n)
    }

    /// How many entries there are.
    pub fn len(&self) -> usize
        ensures { result ≡ length self.now.seen }
    {
        self.entries.len()
    }

    /// The i-th entry. None exactly past the end.
    pub fn at(&self, i: usize) -> Option<Entry<T>>
        ensures { result ≡ slice_get self.now.seen i }
    {
        self.entries.get(i).copied()
    }

    /// How many entries come before this identity.
    pub fn place(&self, peer: ComId, k: u64) -> usize
        ensures before { result ≡ count_before (record { peer = peer; k = k }) self.now.seen }
        ensures within { result ≤ length self.now.seen }
        ensures in_order { is_in_order self.now.seen ≡ true }
    {
        self.entries
            .partition_point(|e| e.peer.0 < peer.0 || (e.peer.0 == peer.0 && e.k < k))
    }

    /// Whether the i-th entry has this identity.
    fn is_at(&self, i: usize, peer: ComId, k: u64) -> bool
        ensures { result ≡ list_any (λ e. same_identity (record { peer = peer; k = k }) (name_of e)) (option_to_list (slice_get self.now.seen i)) }
    {
        match self.entries.get(i) {
            Some(e) => peer.0 == e.peer.0 && k == e.k,
            None => false,
        }
    }

    /// The value under this identity.
    pub fn get(&self, peer: ComId, k: u64) -> Option<T>
        ensures { result ≡ value_of self.now.seen (record { peer = peer; k = k }) }
    {
        let i = self.place(peer, k);
        if !self.is_at(i, peer, k) {
            return None;
        }
        match self.at(i) {
            Some(e) => Some(e.value),
            None => None,
        }
    }

    /// Keeps the value under this identity.
    pub fn put(&mut self, peer: ComId, k: u64, value: T)
        requires { 0 < self.old.spare }
        ensures put { self.new.seen ≡ put_entry (record { peer = peer; k = k; value = value }) self.old.seen }
        ensures room { self.old.spare ≤ self.new.spare + 1 }
    {
        let i = self.place(peer, k);
        if self.is_at(i, peer, k) {
            self.entries[i] = Entry { peer, k, value };
        } else if self.entries.insert(i, Entry { peer, k, value }).is_err() {
            unreachable!()
        }
    }

    /// Forgets the value under this identity. True exactly where there was one.
    pub fn remove(&mut self, peer: ComId, k: u64) -> bool
        ensures gone { self.new.seen ≡ without (record { peer = peer; k = k }) self.old.seen }
        ensures was { result ≡ is_some (value_of self.old.seen (record { peer = peer; k = k })) }
        ensures room { self.old.spare ≤ self.new.spare }
    {
        let i = self.place(peer, k);
        if !self.is_at(i, peer, k) {
            return false;
        }
        self.entries.remove(i).is_some()
    }

    /// An equal value.
    pub fn copy(&self, alloc: Global) -> Result<Sorted<T>, AllocError>
        ensures { IfOk result (λ copy. copy.seen ≡ self.now.seen) }
    {
        let mut copy = Sorted::new(alloc);
        copy.reserve(self.entries.len())?;
        for i in 0..self.entries.len() {
            copy.entries.push_back_reserved(self.entries[i]);
        }
        Ok(copy)
    }
}
