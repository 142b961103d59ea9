ghost use Rattle.std.specs.Prelude.{◌≡◌, ◌≢◌, ◌≤◌, ℕ, List, IfOk, OnOk, OnErr, Err, IfSome};
ghost use Rattle.ic_lines.specs.declared.lines.LineError.TheVariants.{Failed, Memory};
ghost use Rattle.ic_disk.specs.Causes.{Rose};
ghost use Rattle.ic_lines.specs.Lines.{first_read, behind_line, IsLine};

use ic_base::Bytes;
use std::alloc::{AllocError, AllocFailed, Global};
use thiserror::Error;

/// What is read of one line.
#[derive(Debug, Drop)]
pub enum Read {
    /// The bytes of a line, without the byte 10 that ends it.
    Line(Bytes),
    /// The bytes of a last line that no byte 10 ends, at least one: its writer may have died within it.
    Unterminated(Bytes),
    /// The line has more bytes than the limit. It was read to its end, and its bytes aren't kept.
    TooLong,
}

/// Why no line is given.
#[derive(Clone, Copy, Debug, PartialEq, Eq, Error)]
pub enum LineError {
    /// A read failed; the count of faults rose.
    #[error("a line was not read")]
    Failed,
    /// Want of memory; nothing was read.
    #[error("out of memory")]
    Memory,
}

impl From<AllocError> for LineError {
    ghost from_gives = { λ _ e. e ≡ Memory };

    fn from(_: AllocError) -> Self {
        LineError::Memory
    }
}

impl<T: Drop> From<AllocFailed<T>> for LineError {
    ghost from_gives = { λ _ e. e ≡ Memory };

    fn from(_: AllocFailed<T>) -> Self {
        LineError::Memory
    }
}

/// A source of lines. A byte 10 ends each of them; a last one without it counts where it isn't empty.
pub trait Lines {
    /// Whether the source tells the bytes that are left. One of which a read failed may tell nothing from then on.
    ghost tells: { Self → Type 0 };

    /// The bytes that are left.
    ghost left: { Self → List ℕ };

    /// How often a read failed. It stands still at 2^64 - 1.
    ghost faults: { Self → ℕ };

    /// How often a read failed.
    fn fault_count(&self) -> u64
        ensures { result ≡ faults self.now };

    /// The next line, or None where nothing is left. It takes no more memory than `limit` + 1 bytes, however long the line is.
    fn next(&mut self, alloc: Global, limit: usize) -> Result<Option<Read>, LineError>
        ensures tells { tells self.old → result ≢ Err Failed → tells self.new }
        ensures read { tells self.old → IfOk result (λ r. r ≡ first_read limit (left self.old)) }
        ensures rest { tells self.old → OnOk result (left self.new ≡ behind_line (left self.old)) }
        ensures kept { tells self.old → tells self.new → OnErr result (left self.new ≡ left self.old) }
        ensures line { IfOk result (λ r. IfSome r (IsLine limit)) }
        ensures failed { result ≡ Err Failed → Rose (faults self.old) (faults self.new) }
        ensures later { faults self.old ≤ faults self.new };
}
