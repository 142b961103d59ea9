ghost use Rattle.std.specs.Prelude.{◌≡◌, ◌+◌, ◌≤◌, [], ◌∷◌, ◌++◌, length, IfOk, OnOk};

use crate::write_list::WriteList;
use std::alloc::{AllocError, Global};
use std::marker::Model;

/// What a disk in memory held at first, and each write that it took since.
#[derive(Drop)]
pub(crate) struct Past {
    first: Vec<u8>,
    writes: WriteList,
}

impl Model for Past {
    ghost use Rattle.ic_disk.specs.Past.{TakenWrites};

    ghost Value = { TakenWrites };

    ghost view = { λ s. record { first = s.first.items; writes = s.writes.writes; spare = s.writes.spare } };
}

impl Past {
    /// No write, over these bytes.
    pub(crate) fn new(alloc: Global, first: &[u8]) -> Result<Past, AllocError>
        ensures first { IfOk result (λ past. past.first ≡ first.now) }
        ensures writes { IfOk result (λ past. past.writes ≡ []) }
    {
        let first = Vec::from_slice(alloc, first)?;
        Ok(Past {
            first,
            writes: WriteList::new(alloc),
        })
    }

    /// Makes room for writes of so many bytes, with 32 for each.
    pub(crate) fn reserve(&mut self, bytes: usize) -> Result<(), AllocError>
        ensures room { OnOk result (bytes ≤ self.new.spare) }
        ensures kept { self.old.spare ≤ self.new.spare }
        ensures after { self.new ≡ record self.old { spare = self.new.spare } }
    {
        self.writes.reserve(bytes)
    }

    /// Adds a write.
    pub(crate) fn add(&mut self, at: usize, bytes: &[u8])
        requires { length bytes.now + 32 ≤ self.old.spare }
        ensures writes { self.new.writes ≡ self.old.writes ++ (at, bytes.now) ∷ [] }
        ensures first { self.new.first ≡ self.old.first }
        ensures room { self.old.spare ≤ self.new.spare + (length bytes.now + 32) }
    {
        self.writes.add(at, bytes);
    }
}
