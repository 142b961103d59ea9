ghost use Rattle.std.specs.Prelude.{◌≡◌, ◌+◌, ◌<◌, ◌≤◌, true, length, drop, is_some, slice_get, All, IfOk, IfErr};
ghost use Rattle.def_log.specs.Spelling.{Fits};
ghost use Rattle.def_state.specs.Vol.{numbers_fit};
ghost use Rattle.def_step.specs.Replay as replay;
ghost use Rattle.ic_ckpt.specs.Views.{seen};
ghost use Rattle.ic_replay.specs.declared.refusals.ReplayRefused.TheVariants.{Misfit};
ghost use Rattle.ic_replay.specs.Playing.{ArePlayed, StopPlaying};
ghost use Rattle.ic_replay.specs.Quiet.{are_quiet, up_to_waiting};

use crate::fitting::fits_at_rest;
use ic_base::{ComId, Items, Program, Record, Records, Steps};
use ic_ckpt::State;
use ic_gate::EncodedRecords;
use std::alloc::{AllocError, Global};
use std::sync::ledger::Ledger;

/// The place behind one of the records.
pub fn behind(records: &EncodedRecords, place: usize) -> usize
    requires { place < length records.now }
    ensures { result ≡ place + 1 }
{
    records.len().min(place) + 1
}

/// The record at a place. None exactly past the last.
pub fn record_at(
    alloc: Global,
    records: &EncodedRecords,
    place: usize,
) -> Result<Option<Record>, AllocError>
    ensures { IfOk result (λ stored. slice_get records.now place ≡ stored) }
{
    if place < records.len() {
        Ok(Some(records.record(alloc, place)?))
    } else {
        Ok(None)
    }
}

/// Whether the records from one on, up to the next that waits, play no handler.
pub fn are_quiet(records: &EncodedRecords, from: usize) -> bool
    ensures { result ≡ are_quiet (drop from records.now) }
{
    for i in from..records.len() {
        // A Take waits; the others up to Outcome play a handler.
        let tag = records.tag(i);
        if tag <= 5 {
            return tag == 1;
        }
    }
    true
}

/// Whether a record waits for the content of a message.
fn waits(stored: &Record) -> bool
    ensures { result ≡ is_some (replay.waits_for stored.now) }
{
    match stored {
        Record::Take { .. } => true,
        _ => false,
    }
}

/// The records from one on, up to and with the first that waits.
pub fn records_to_waiting(
    alloc: Global,
    records: &EncodedRecords,
    from: usize,
) -> Result<Records, AllocError>
    ensures { IfOk result (λ run. run ≡ up_to_waiting (drop from records.now)) }
{
    let mut run = Items::new(alloc);
    for i in from..records.len() {
        let stored = records.record(alloc, i)?;
        let last = waits(&stored);
        run.push(stored)?;
        if last {
            break;
        }
    }
    Ok(run)
}

/// Plays records that play no handler, from the `first` on, until one waits: the run has them. Answers the number of that
/// record with the record, or how many there are. It takes no memory.
pub fn pass_records<L: Ledger>(
    program: &Program,
    com: ComId,
    records: &EncodedRecords,
    first: usize,
    run: &[Record],
    state: &mut State,
    steps: &mut Steps<L>,
) -> Result<(usize, Option<Record>), usize>
    requires fields { All Fits records.now }
    requires within { first ≤ length records.now }
    requires run { run.now ≡ up_to_waiting (drop first records.now) }
    requires limits { numbers_fit (seen state.old) ≡ true }
    requires quiet { are_quiet (drop first records.now) ≡ true }
    ensures played { IfOk result (λ passed. ArePlayed program.now «com» records.now (seen state.old) first (seen state.new) passed.0) }
    ensures waiting { IfOk result (λ passed. slice_get records.now passed.0 ≡ passed.1) }
    ensures steps { IfOk result (λ passed. steps.new + first ≡ steps.old + passed.0) }
    ensures bound { steps.new + first ≤ steps.old + length records.now }
    ensures limits { numbers_fit (seen state.new) ≡ true }
    ensures refused { IfErr result (λ place. StopPlaying program.now «com» records.now (seen state.old) first (Misfit place)) }
{
    for next in first..records.len() {
        let stored = &run[next - first];
        if !fits_at_rest(program, com, state, stored) {
            return Err(next);
        }
        match stored {
            Record::Take { from, k, stamp } => {
                let waiting = Record::Take {
                    from: *from,
                    k: *k,
                    stamp: *stamp,
                };
                return Ok((next, Some(waiting)));
            }
            Record::Released { to, k } => {
                state.outbox.installed(*to, *k);
            }
            Record::Shown { m } => {
                state.shelf.shown(*m);
            }
            _ => {}
        }
        steps.tick();
    }
    Ok((records.len(), None))
}
