ghost use Rattle.std.specs.Prelude.{◌≡◌, ◌↔◌, ◌≤◌, ◌++◌, ℕ, List, [], ◌∷◌, OnOk, OnErr};
ghost use Rattle.ic_disk.specs.Causes.{Rose, IsFront};

/// A piece wasn't written whole; the count of faults rose.
#[derive(Clone, Copy, Debug, PartialEq, Eq)]
pub struct SinkFailed;

/// Where a program prints.
pub trait Sink {
    /// Whether the sink tells the bytes that it took.
    ghost tells: { Self → Type 0 };

    /// The bytes taken.
    ghost taken: { Self → List ℕ };

    /// How often a piece wasn't taken whole. It stands still at 2^64 - 1.
    ghost faults: { Self → ℕ };

    /// The pieces that were put, in order, whether or not they were taken.
    ghost pieces: { Self → List (List ℕ) };

    /// How often a piece wasn't taken whole.
    fn fault_count(&self) -> u64
        ensures { result ≡ faults self.now };

    /// Takes the piece, or a part of its front where it fails.
    fn put(&mut self, bytes: &[u8]) -> Result<(), SinkFailed>
        ensures tells { tells self.old ↔ tells self.new }
        ensures whole { tells self.old → OnOk result (taken self.new ≡ taken self.old ++ bytes.now) }
        ensures front { tells self.old → OnErr result (IsFront (taken self.old) bytes.now (taken self.new)) }
        ensures put { pieces self.new ≡ pieces self.old ++ bytes.now ∷ [] }
        ensures failed { OnErr result (Rose (faults self.old) (faults self.new)) }
        ensures later { faults self.old ≤ faults self.new };
}
