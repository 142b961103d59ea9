ghost use Rattle.std.specs.Prelude.{◌≡◌};
ghost use Rattle.ic_former.specs.Refusals.{why_of};

use ic_disk::DiskError;
use std::alloc::{AllocError, AllocFailed};

/// Why a log of the former format isn't read.
#[derive(Clone, Copy, Debug, PartialEq, Eq)]
pub enum LoadWhy {
    /// The log is refused at this place.
    Bad(u64),
    /// The log is of another scenario, whose fingerprint it holds.
    Foreign([u8; 32]),
    /// The device failed.
    Failed,
    /// The disk stands stopped.
    Stopped,
    /// Want of memory.
    Memory,
}

impl From<AllocError> for LoadWhy {
    ghost use Rattle.ic_former.specs.declared.refusals.LoadWhy.TheVariants.{Memory};

    ghost from_gives = { λ _ e. e ≡ Memory };

    fn from(_: AllocError) -> Self {
        LoadWhy::Memory
    }
}

impl<T: Drop> From<AllocFailed<T>> for LoadWhy {
    ghost use Rattle.ic_former.specs.declared.refusals.LoadWhy.TheVariants.{Memory};

    ghost from_gives = { λ _ e. e ≡ Memory };

    fn from(_: AllocFailed<T>) -> Self {
        LoadWhy::Memory
    }
}

impl From<DiskError> for LoadWhy {
    ghost from_gives = { λ error e. e ≡ why_of error };

    fn from(error: DiskError) -> Self {
        match error {
            DiskError::Failed => LoadWhy::Failed,
            DiskError::Stopped => LoadWhy::Stopped,
            DiskError::Memory => LoadWhy::Memory,
        }
    }
}
