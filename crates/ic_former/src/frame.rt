ghost use Rattle.std.specs.Prelude.{◌≡◌, ◌+◌, ◌<◌, ◌≤◌, ◌^◌, [], ◌∷◌, ◌++◌, length, OnOk};
ghost use Rattle.def_log.specs.Sizes.{span};

use ic_base::{Batch, Batches};
use std::alloc::{AllocFailed, Global};

/// Batches from a gate on, and the offset of the closed gate behind them.
#[derive(Drop)]
pub struct Frame {
    pub batches: Batches,
    pub start: u64,
    pub gate: u64,
    ghost placed: { gate ≡ start + span batches },
}

impl Frame {
    /// A closed gate, and no batch before it.
    pub fn new(alloc: Global, gate: u64) -> Frame
        ensures batches { result.batches ≡ [] }
        ensures start { result.start ≡ gate }
        ensures gate { result.gate ≡ gate }
    {
        Frame {
            batches: Batches::new(alloc),
            start: gate,
            gate,
        }
    }

    /// Goes on behind one more batch: its gate, its length and its payload.
    pub fn push(&mut self, batch: Batch) -> Result<(), AllocFailed<Batch>>
        requires { self.old.gate + 5 + length batch.payload < 2 ^ 64 }
        ensures batches { OnOk result (self.new.batches ≡ self.old.batches ++ batch ∷ []) }
        ensures start { OnOk result (self.new.start ≡ self.old.start) }
        ensures gate { OnOk result (self.new.gate ≡ self.old.gate + 5 + length batch.payload) }
    {
        let count = batch.payload.len() as u64;
        self.batches.push(batch)?;
        self.gate += 5 + count;
        Ok(())
    }
}
