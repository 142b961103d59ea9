ghost use Rattle.std.specs.Prelude.{◌≡◌, []};

use crate::byte_lists::ByteLists;
use crate::{Sink, SinkFailed};
use std::marker::Model;

/// Standard output. It tells no bytes: what the host does is trusted.
#[derive(Drop)]
pub struct StdSink<R: Print + Drop> {
    rt: R,
    faults: u64,
    pieces: ByteLists,
}

// Contracts see its count of faults and the pieces that were put.
impl<R: Print + Drop> Model for StdSink<R> {
    ghost use Rattle.ic_disk.specs.Memory.{HostSink};

    ghost Value = { HostSink };

    ghost view = { λ s. record { faults = s.faults; pieces = s.pieces.lists } };
}

impl<R: Print + Drop> StdSink<R> {
    /// Nothing is put yet. What is put goes out at once: nothing is buffered here.
    pub fn new(rt: R) -> StdSink<R>
        ensures { result ≡ record { faults = 0; pieces = [] } }
    {
        StdSink {
            rt,
            faults: 0,
            pieces: ByteLists::new(),
        }
    }
}

impl<R: Print + Drop> Sink for StdSink<R> {
    ghost tells = { λ s. ⊥ };

    ghost taken = { λ s. [] };

    ghost faults = { λ s. s.faults };

    ghost pieces = { λ s. s.pieces };

    fn fault_count(&self) -> u64 {
        self.faults
    }

    fn put(&mut self, bytes: &[u8]) -> Result<(), SinkFailed> {
        self.pieces = ByteLists::with(&self.pieces, bytes);
        match self.rt.write_all(bytes) {
            Ok(()) => Ok(()),
            Err(_) => {
                self.faults = self.faults.saturating_add(1);
                Err(SinkFailed)
            }
        }
    }
}
