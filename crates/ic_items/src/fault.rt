use ic_base::Cause;
use std::alloc::{AllocError, AllocFailed};

/// Why a line is refused, or want of memory.
#[derive(Clone, Copy, Debug, PartialEq, Eq)]
pub struct Fault(pub Cause);

impl From<AllocError> for Fault {
    ghost use Rattle.std.specs.Prelude.{◌≡◌};
    ghost use Rattle.ic_base.specs.declared.refusals.Cause.TheVariants.{Memory};

    ghost from_gives = { λ _ e. e.0 ≡ Memory };

    fn from(_: AllocError) -> Self {
        Fault(Cause::Memory)
    }
}

impl<T: Drop> From<AllocFailed<T>> for Fault {
    ghost use Rattle.std.specs.Prelude.{◌≡◌};
    ghost use Rattle.ic_base.specs.declared.refusals.Cause.TheVariants.{Memory};

    ghost from_gives = { λ _ e. e.0 ≡ Memory };

    fn from(_: AllocFailed<T>) -> Self {
        Fault(Cause::Memory)
    }
}
