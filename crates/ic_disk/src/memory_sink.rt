ghost use Rattle.std.specs.Prelude.{◌≡◌, ◌≤◌, ◌+◌, ◌++◌, ◌||◌, [], ◌∷◌, ⊤, nat_lt, length, is_err, IfOk, OnOk, OnErr};
ghost use Rattle.ic_disk.specs.Calls.{no_calls, fails_next, after_call};
ghost use Rattle.ic_disk.specs.Causes.{Rose, IsFront};

use crate::byte_lists::ByteLists;
use crate::failing::Calls;
use crate::{Sink, SinkFailed};
use std::alloc::{AllocError, Global};
use std::marker::Model;

/// A sink in memory, whose puts fail where it was told so and past its capacity.
#[derive(Drop)]
pub struct MemSink {
    bytes: Vec<u8>,
    capacity: usize,
    calls: Calls,
    pieces: ByteLists,
}

impl Model for MemSink {
    ghost use Rattle.std.specs.Prelude.{◌≤◌, vec_len, vec_capacity};
    ghost use Rattle.ic_disk.specs.Memory.{MemorySink};

    ghost Value = { MemorySink };

    ghost view = { λ s. record { bytes = s.bytes.items; capacity = s.capacity; calls = s.calls; pieces = s.pieces.lists } };

    ghost invariant = { λ s. (vec_len s.bytes ≤ s.capacity) × (s.capacity ≤ vec_capacity s.bytes) };
}

impl MemSink {
    /// An empty sink. The puts are counted from 1, and those whose number is in `failing` fail.
    pub fn new(alloc: Global, capacity: usize, failing: &[u64]) -> Result<MemSink, AllocError>
        ensures bytes { IfOk result (λ s. s.bytes ≡ []) }
        ensures capacity { IfOk result (λ s. s.capacity ≡ capacity) }
        ensures calls { IfOk result (λ s. s.calls ≡ no_calls failing.now) }
        ensures pieces { IfOk result (λ s. s.pieces ≡ []) }
    {
        let bytes = Vec::with_capacity(alloc, capacity)?;
        let calls = Calls::new(alloc, failing)?;
        Ok(MemSink {
            bytes,
            capacity,
            calls,
            pieces: ByteLists::new(),
        })
    }

    /// The bytes taken.
    pub fn bytes(&self) -> &[u8]
        ensures { result.now ≡ self.now.bytes }
    {
        self.bytes.as_slice()
    }
}

impl Sink for MemSink {
    ghost tells = { λ s. ⊤ };

    ghost taken = { λ s. s.bytes };

    ghost faults = { λ s. s.calls.faults };

    ghost pieces = { λ s. s.pieces };

    fn fault_count(&self) -> u64 {
        self.calls.faults()
    }

    fn put(&mut self, bytes: &[u8]) -> Result<(), SinkFailed>
        ensures whole { OnOk result (self.new.bytes ≡ self.old.bytes ++ bytes.now) }
        ensures nothing { OnErr result (self.new.bytes ≡ self.old.bytes) }
        ensures front { OnErr result (IsFront self.old.bytes bytes.now self.new.bytes) }
        ensures fails { is_err result ≡ (fails_next self.old.calls || nat_lt self.old.capacity (length self.old.bytes + length bytes.now)) }
        ensures calls { self.new.calls ≡ after_call (is_err result) self.old.calls }
        ensures capacity { self.new.capacity ≡ self.old.capacity }
        ensures put { self.new.pieces ≡ self.old.pieces ++ bytes.now ∷ [] }
        ensures failed { OnErr result (Rose self.old.calls.faults self.new.calls.faults) }
        ensures later { self.old.calls.faults ≤ self.new.calls.faults }
    {
        self.pieces = ByteLists::with(&self.pieces, bytes);
        let fits = bytes.len() <= self.capacity - self.bytes.len();
        if self.calls.fails(fits) {
            return Err(SinkFailed);
        }
        self.bytes.extend_from_slice(bytes).unwrap();
        Ok(())
    }
}
