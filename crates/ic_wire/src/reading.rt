ghost use Rattle.std.specs.Prelude.{◌≡◌, ◌+◌, ◌<◌, ◌^◌, ℕ, length, IfOk, IfErr, Ok, Err};
ghost use Rattle.std.specs.List.{AllByRecursion};
ghost use Rattle.def_log.specs.Spelling.{Fits};
ghost use Rattle.def_log.specs.Log.{records_of, records_in, placed_at};
ghost use Rattle.ic_wire.specs.Placed.{PlacedFits, AreMore};
ghost use Rattle.ic_wire.specs.declared.WireRefused.TheVariants.{BadAt};

use crate::kinds::record_of;
use crate::unread::Unread;
use crate::{PlacedRecords, WireRefused};
use ic_base::{Items, Record, Records};
use std::alloc::{AllocError, Global};

// Records, and behind them those of bytes that begin at a place, each with its own place.
fn more_records(
    alloc: Global,
    before: PlacedRecords,
    at: u64,
    bytes: &[u8],
) -> Result<PlacedRecords, WireRefused>
    requires { at + length bytes.now < 2 ^ 64 }
    ensures records { IfOk result (AreMore before (placed_at at bytes.now)) }
    ensures bad { IfErr result (λ e. (place : ℕ) → e ≡ BadAt place → placed_at at bytes.now ≡ Err place) }
{
    let end = at + bytes.len() as u64;
    let mut records = before;
    let mut rest = bytes;
    while !rest.is_empty() {
        let place = end - rest.len() as u64;
        match record_of(alloc, rest) {
            Ok((record, more)) => {
                records.push((place, record))?;
                rest = more;
            }
            Err(Unread::Cut) => return Err(WireRefused::BadAt(place as usize)),
            Err(Unread::Memory) => return Err(WireRefused::Memory),
        }
    }
    Ok(records)
}

/// The records of bytes that begin at a place, each with its own place.
pub fn placed_records(alloc: Global, at: u64, bytes: &[u8]) -> Result<PlacedRecords, WireRefused>
    requires { at + length bytes.now < 2 ^ 64 }
    ensures records { IfOk result (λ rs. placed_at at bytes.now ≡ Ok rs) }
    ensures fit { IfOk result (λ rs. AllByRecursion PlacedFits rs) }
    ensures bad { IfErr result (λ e. (place : ℕ) → e ≡ BadAt place → placed_at at bytes.now ≡ Err place) }
{
    more_records(alloc, Items::new(alloc), at, bytes)
}

fn without_places(alloc: Global, placed: PlacedRecords) -> Result<Records, AllocError>
    ensures { IfOk result (λ rs. rs ≡ records_in placed) }
{
    let records: Vec<Record> = placed
        .into_vec()
        .into_iter()
        .map(|(_, record)| record)
        .collect(alloc)?;
    Ok(Items::from_vec(records))
}

/// The records that the bytes are.
pub fn read_records(alloc: Global, bytes: &[u8]) -> Result<Records, WireRefused>
    ensures records { IfOk result (λ rs. records_of bytes.now ≡ Ok rs) }
    ensures fit { IfOk result (λ rs. AllByRecursion Fits rs) }
    ensures bad { IfErr result (λ e. (place : ℕ) → e ≡ BadAt place → records_of bytes.now ≡ Err place) }
{
    let placed = placed_records(alloc, 0, bytes)?;
    let records = without_places(alloc, placed)?;
    Ok(records)
}
