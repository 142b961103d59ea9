use std::alloc::{AllocError, AllocFailed};

/// Why a history has no plain run.
#[derive(Clone, Copy, Debug, PartialEq, Eq)]
pub enum PlainRefused {
    /// The place, from 0, of the first entry that has no step.
    Illegal(usize),
    /// Want of memory, which is no fault of the history.
    Memory,
}

/// Why an entry isn't played.
#[derive(Clone, Copy, Debug, PartialEq, Eq)]
pub(crate) enum StepRefused {
    /// It may not come now.
    NoStep,
    /// Want of memory, which is no fault of the entry.
    Memory,
}

impl From<AllocError> for StepRefused {
    ghost use Rattle.std.specs.Prelude.{◌≡◌};
    ghost use Rattle.ic_model.specs.declared.refusals.StepRefused.TheVariants.{Memory};

    ghost from_gives = { λ _ e. e ≡ Memory };

    fn from(_: AllocError) -> Self {
        StepRefused::Memory
    }
}

impl<T: Drop> From<AllocFailed<T>> for StepRefused {
    ghost use Rattle.std.specs.Prelude.{◌≡◌};
    ghost use Rattle.ic_model.specs.declared.refusals.StepRefused.TheVariants.{Memory};

    ghost from_gives = { λ _ e. e ≡ Memory };

    fn from(_: AllocFailed<T>) -> Self {
        StepRefused::Memory
    }
}

impl From<AllocError> for PlainRefused {
    ghost use Rattle.std.specs.Prelude.{◌≡◌};
    ghost use Rattle.ic_model.specs.declared.refusals.PlainRefused.TheVariants.{Memory};

    ghost from_gives = { λ _ e. e ≡ Memory };

    fn from(_: AllocError) -> Self {
        PlainRefused::Memory
    }
}
