ghost use Rattle.std.specs.Prelude.{◌≡◌, ◌+◌, ◌≤◌, length, Ok, IfOk, IfErr};
ghost use Rattle.std.specs.List.{AllByRecursion};
ghost use Rattle.ic_base.specs.declared.limits.TheConstants.{LOG_BYTES};
ghost use Rattle.def_two.specs.Logs.{placed2_at, placed2_in};
ghost use Rattle.ic_gate.specs.Gates.{AreBelow};
ghost use Rattle.ic_two.specs.Reading.{PlacedFits2, FailsToRead};

use crate::fields::record_of;
use def_two::Record2;
use ic_base::{Batches, Items};
use ic_gate::LoadWhy;
use std::alloc::Global;

/// Records, each with the place of its first byte in the file.
pub(crate) type PlacedRecords2 = Items<(u64, Record2)>;

/// The records of a batch's payload, which begins at a place in the file.
fn placed_records(alloc: Global, at: u64, payload: &[u8]) -> Result<PlacedRecords2, LoadWhy>
    requires below { at + length payload.now ≤ LOG_BYTES }
    ensures read { IfOk result (λ rs. placed2_at at payload.now ≡ Ok rs) }
    ensures fit { IfOk result (AllByRecursion PlacedFits2) }
    ensures refused { IfErr result (FailsToRead (placed2_at at payload.now)) }
{
    let end = at + payload.len() as u64;
    let mut records = Items::new(alloc);
    let mut rest = payload;
    while !rest.is_empty() {
        let place = end - rest.len() as u64;
        match record_of(rest) {
            Some((record, more)) => {
                records.push((place, record))?;
                rest = more;
            }
            None => return Err(LoadWhy::Bad(place)),
        }
    }
    Ok(records)
}

/// The records of all batches. Bad tells the place of the first byte that begins none.
pub(crate) fn all_records(alloc: Global, batches: &Batches) -> Result<PlacedRecords2, LoadWhy>
    requires below { AreBelow LOG_BYTES batches.now }
    ensures read { IfOk result (λ rs. placed2_in batches.now ≡ Ok rs) }
    ensures fit { IfOk result (AllByRecursion PlacedFits2) }
    ensures refused { IfErr result (FailsToRead (placed2_in batches.now)) }
{
    let mut all = Vec::new(alloc);
    for batch in batches.as_slice() {
        let mut records = placed_records(alloc, batch.at, batch.payload.as_slice())?.into_vec();
        if all.append(&mut records).is_err() {
            return Err(LoadWhy::Memory);
        }
    }
    Ok(Items::from_vec(all))
}
