ghost use Rattle.std.specs.Prelude.{◌≡◌};
ghost use Rattle.ic_ckpt.specs.declared.misread.Misread.TheVariants.{Memory};

use std::alloc::{AllocError, AllocFailed};

/// Why a field of an image could not be read.
#[derive(Clone, Copy, Debug, PartialEq, Eq)]
pub(crate) enum Misread {
    /// It doesn't fit: so many bytes are left from its beginning on.
    Left(usize),
    /// Want of memory; the field may fit.
    Memory,
}

impl From<AllocError> for Misread {
    ghost from_gives = { λ _ e. e ≡ Memory };

    fn from(_: AllocError) -> Misread {
        Misread::Memory
    }
}

impl<T: Drop> From<AllocFailed<T>> for Misread {
    ghost from_gives = { λ _ e. e ≡ Memory };

    fn from(_: AllocFailed<T>) -> Misread {
        Misread::Memory
    }
}
