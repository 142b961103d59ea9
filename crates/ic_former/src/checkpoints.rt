ghost use Rattle.std.specs.Prelude.{◌≡◌, ◌+◌, ◌≤◌, length, map, IfOk, IfErr, OnOk};
ghost use Rattle.ic_base.specs.declared.limits.TheConstants.{LOG_BYTES};
ghost use Rattle.def_log.specs.Log.{is_checkpoint, placed_at, placed_in, records_in, end_with_checkpoint, ends_with_checkpoint};
ghost use Rattle.ic_former.specs.Gates.{AreBelow};
ghost use Rattle.ic_former.specs.Reading.{IsReadable, FailsToRead};

use crate::LoadWhy;
use ic_base::{Batches, Record};
use ic_wire::{WireRefused, placed_records};
use std::alloc::Global;

/// Whether a record is a checkpoint.
fn is_checkpoint(stored: &Record) -> bool
    ensures { result ≡ is_checkpoint stored.now }
{
    match stored {
        Record::Checkpoint { .. } => true,
        _ => false,
    }
}

/// Whether the last of the records is a checkpoint.
fn end_with_checkpoint(records: &[(u64, Record)]) -> bool
    ensures { result ≡ end_with_checkpoint (records_in records.now) }
{
    match records {
        [.., (_, last)] => is_checkpoint(last),
        [] => false,
    }
}

/// Whether the last record of a batch is a checkpoint, whose payload begins at a place in the file. Bad tells the place of the first
/// byte that begins no record.
fn ends_at(alloc: Global, at: u64, payload: &[u8]) -> Result<bool, LoadWhy>
    requires below { at + length payload.now ≤ LOG_BYTES }
    ensures ends { IfOk result (λ ends. ends_with_checkpoint (record { at = at; payload = payload.now }) ≡ ends) }
    ensures read { OnOk result (IsReadable (placed_at at payload.now)) }
    ensures refused { IfErr result (FailsToRead (placed_at at payload.now)) }
{
    match placed_records(alloc, at, payload) {
        Ok(records) => Ok(end_with_checkpoint(records.as_slice())),
        Err(WireRefused::BadAt(place)) => Err(LoadWhy::Bad(place as u64)),
        Err(WireRefused::Memory) => Err(LoadWhy::Memory),
    }
}

/// Whether the last record of each batch is a checkpoint.
pub fn checkpoint_ends(alloc: Global, batches: &Batches) -> Result<Vec<bool>, LoadWhy>
    requires below { AreBelow LOG_BYTES batches.now }
    ensures ends { IfOk result (λ ends. ends.items ≡ map ends_with_checkpoint batches.now) }
    ensures read { OnOk result (IsReadable (placed_in batches.now)) }
    ensures refused { IfErr result (FailsToRead (placed_in batches.now)) }
{
    let mut ends = Vec::new(alloc);
    for batch in batches.as_slice() {
        ends.push(ends_at(alloc, batch.at, batch.payload.as_slice())?)?;
    }
    Ok(ends)
}
