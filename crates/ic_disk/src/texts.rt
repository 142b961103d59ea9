ghost use Rattle.std.specs.Prelude.{◌≡◌, ◌↔◌, ◌<◌, ◌≤◌, ◌++◌, ℕ, List, [], ◌∷◌, Option, Some, length, IfOk, Ok, Err};
ghost use Rattle.ic_disk.specs.declared.texts.TextError.TheVariants.{Failed, TooLong, Memory};
ghost use Rattle.ic_disk.specs.Causes.{Rose, IsTooLong};

use ic_base::Word;
use std::alloc::{AllocError, AllocFailed, Global};
use thiserror::Error;

/// Why a text isn't given.
#[derive(Clone, Copy, Debug, PartialEq, Eq, Error)]
pub enum TextError {
    /// The text wasn't read; the count of faults rose.
    #[error("the text was not read")]
    Failed,
    /// The text has more bytes than were asked for.
    #[error("the text is too long")]
    TooLong,
    /// Want of memory.
    #[error("out of memory")]
    Memory,
}

impl From<AllocError> for TextError {
    ghost from_gives = { λ _ e. e ≡ Memory };

    fn from(_: AllocError) -> Self {
        TextError::Memory
    }
}

impl<T: Drop> From<AllocFailed<T>> for TextError {
    ghost from_gives = { λ _ e. e ≡ Memory };

    fn from(_: AllocFailed<T>) -> Self {
        TextError::Memory
    }
}

/// Named texts.
pub trait Texts {
    /// Whether the texts tell what each name holds.
    ghost tells: { Self → Type 0 };

    /// The text that a name holds, if it holds one.
    ghost held: { Self → List ℕ → Option (List ℕ) };

    /// How often a text wasn't read. It stands still at 2^64 - 1.
    ghost faults: { Self → ℕ };

    /// The names whose texts were asked for, in order.
    ghost asked: { Self → List (List ℕ) };

    /// How often a text wasn't read.
    fn fault_count(&self) -> u64
        ensures { result ≡ faults self.now };

    /// The text of a name, where it has at most so many bytes. Of texts that tell what they hold, one too long
    /// isn't answered with want of memory.
    fn read(&mut self, alloc: Global, name: &Word, limit: usize) -> Result<Vec<u8>, TextError>
        ensures tells { tells self.old ↔ tells self.new }
        ensures held { tells self.old → held self.new ≡ held self.old }
        ensures text { tells self.old → IfOk result (λ v. held self.old name.now ≡ Some v.items) }
        ensures short { IfOk result (λ v. length v.items ≤ limit) }
        ensures asked { asked self.new ≡ asked self.old ++ name.now ∷ [] }
        ensures too_long { tells self.old → result ≡ Err TooLong → IsTooLong (held self.old name.now) limit }
        ensures fits { tells self.old → result ≡ Err Memory → ¬ IsTooLong (held self.old name.now) limit }
        ensures failed { result ≡ Err Failed → Rose (faults self.old) (faults self.new) }
        ensures later { faults self.old ≤ faults self.new };
}
