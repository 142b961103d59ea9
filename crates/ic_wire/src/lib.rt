//! Records to bytes and back (docs/FORMATS.md, "Records").
#![tactic(auto)]

ghost use Rattle.std.specs.Prelude.{◌≡◌};
ghost use Rattle.ic_wire.specs.declared.WireRefused.TheVariants.{Memory};

mod copies;
pub mod fields;
mod kinds;
pub mod parts;
mod reading;
mod spelled;
mod unread;

pub use copies::{copied_record, copied_records};
use ic_base::Items;
pub use ic_base::{Record, Records, Writes};
pub use kinds::record_of;
pub use reading::{placed_records, read_records};
pub use spelled::record_bytes;
use std::alloc::{AllocError, AllocFailed};
pub use unread::Unread;

/// Why bytes are no records.
#[derive(Clone, Copy, Debug, PartialEq, Eq)]
pub enum WireRefused {
    /// The offset of the first byte that begins no whole record.
    BadAt(usize),
    /// Want of memory.
    Memory,
}

impl From<AllocError> for WireRefused {
    ghost from_gives = { λ _ e. e ≡ Memory };

    fn from(_: AllocError) -> Self {
        WireRefused::Memory
    }
}

impl<T: Drop> From<AllocFailed<T>> for WireRefused {
    ghost from_gives = { λ _ e. e ≡ Memory };

    fn from(_: AllocFailed<T>) -> Self {
        WireRefused::Memory
    }
}

/// Records, each with the place of its first byte.
pub type PlacedRecords = Items<(u64, Record)>;
