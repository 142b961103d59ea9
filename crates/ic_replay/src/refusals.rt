use std::alloc::AllocError;

/// Why a replay doesn't go on.
#[derive(Clone, Copy, Debug, PartialEq, Eq)]
pub enum ReplayRefused {
    /// The number, from 0, of the first record that is a misfit (docs/FORMATS.md, "Misfits").
    Misfit(usize),
    /// Want of memory, which is no fault of the records.
    Memory,
}

impl From<AllocError> for ReplayRefused {
    ghost use Rattle.std.specs.Prelude.{◌≡◌};
    ghost use Rattle.ic_replay.specs.declared.refusals.ReplayRefused.TheVariants.{Memory};

    ghost from_gives = { λ _ e. e ≡ Memory };

    fn from(_: AllocError) -> Self {
        ReplayRefused::Memory
    }
}
