ghost use Rattle.std.specs.Prelude.{◌≡◌, ◌+◌, ◌<◌, ◌≤◌, true, length, drop, slice_get, All, IfOk, IfErr, Err};
ghost use Rattle.def_log.specs.Spelling.{Fits};
ghost use Rattle.def_state.specs.Vol.{numbers_fit};
ghost use Rattle.ic_ckpt.specs.Views.{seen};
ghost use Rattle.ic_replay.specs.declared.refusals.ReplayRefused.TheVariants.{Memory};
ghost use Rattle.ic_replay.specs.Playing.{IsWaiting, AreFed, StopFeeding};
ghost use Rattle.ic_replay.specs.Quiet.{are_quiet};

use crate::playing::{play_record, play_records};
use crate::quiet::{are_quiet, behind, pass_records, record_at, records_to_waiting};
use crate::refusals::ReplayRefused;
use ic_base::{ComId, Msg, Program, Record, Steps};
use ic_ckpt::State;
use ic_gate::EncodedRecords;
use std::alloc::Global;
use std::sync::ledger::Ledger;

/// Plays the record at a place with the message that it waited for, and those behind it until one waits. Answers the number
/// of that record, or how many there are.
fn feed_records<L: Ledger>(
    alloc: Global,
    program: &Program,
    com: ComId,
    records: &EncodedRecords,
    place: usize,
    msg: Msg,
    state: &mut State,
    steps: &mut Steps<L>,
) -> Result<usize, ReplayRefused>
    requires fields { All Fits records.now }
    requires within { place < length records.now }
    requires waiting { IsWaiting (seen state.old) (drop place records.now) }
    requires limits { numbers_fit (seen state.old) ≡ true }
    ensures fed { IfOk result (AreFed program.now «com» records.now msg (seen state.old) place (seen state.new)) }
    ensures steps { IfOk result (λ next. steps.new + place ≡ steps.old + next) }
    ensures bound { steps.new + place ≤ steps.old + length records.now }
    ensures refused { IfErr result (StopFeeding program.now «com» records.now msg (seen state.old) place) }
{
    let stored = records.record(alloc, place)?;
    if !play_record(alloc, program, com, 0, Some(msg), &stored, state)? {
        return Err(ReplayRefused::Misfit(place));
    }
    steps.tick();
    let first = behind(records, place);
    play_records(alloc, program, com, records, first, state, steps)
}

/// Plays the record at a place with the message that it waited for, and those behind it, which play no handler, until one
/// waits. They are read before the first changes the state; then only that one takes memory.
fn feed_in_place<L: Ledger>(
    alloc: Global,
    program: &Program,
    com: ComId,
    records: &EncodedRecords,
    place: usize,
    msg: Msg,
    state: &mut State,
    steps: &mut Steps<L>,
) -> Result<(usize, Option<Record>), ReplayRefused>
    requires fields { All Fits records.now }
    requires within { place < length records.now }
    requires waiting { IsWaiting (seen state.old) (drop place records.now) }
    requires limits { numbers_fit (seen state.old) ≡ true }
    requires quiet { are_quiet (drop (place + 1) records.now) ≡ true }
    ensures fed { IfOk result (λ fed. AreFed program.now «com» records.now msg (seen state.old) place (seen state.new) fed.0) }
    ensures waiting { IfOk result (λ fed. slice_get records.now fed.0 ≡ fed.1) }
    ensures steps { IfOk result (λ fed. steps.new + place ≡ steps.old + fed.0) }
    ensures bound { steps.new + place ≤ steps.old + length records.now }
    ensures limits { numbers_fit (seen state.new) ≡ true }
    ensures refused { IfErr result (StopFeeding program.now «com» records.now msg (seen state.old) place) }
    ensures memory { result ≡ Err Memory → seen state.new ≡ seen state.old }
{
    let first = behind(records, place);
    let stored = records.record(alloc, place)?;
    let run = records_to_waiting(alloc, records, first)?;
    if !play_record(alloc, program, com, 0, Some(msg), &stored, state)? {
        return Err(ReplayRefused::Misfit(place));
    }
    steps.tick();
    match pass_records(program, com, records, first, run.as_slice(), state, steps) {
        Ok(passed) => Ok(passed),
        Err(misfit) => Err(ReplayRefused::Misfit(misfit)),
    }
}

/// The same on a copy of the state, which takes its place in the end: what stands behind the record takes memory too.
fn feed_aside<L: Ledger>(
    alloc: Global,
    program: &Program,
    com: ComId,
    records: &EncodedRecords,
    place: usize,
    msg: Msg,
    state: &mut State,
    steps: &mut Steps<L>,
) -> Result<(usize, Option<Record>), ReplayRefused>
    requires fields { All Fits records.now }
    requires within { place < length records.now }
    requires waiting { IsWaiting (seen state.old) (drop place records.now) }
    requires limits { numbers_fit (seen state.old) ≡ true }
    ensures fed { IfOk result (λ fed. AreFed program.now «com» records.now msg (seen state.old) place (seen state.new) fed.0) }
    ensures waiting { IfOk result (λ fed. slice_get records.now fed.0 ≡ fed.1) }
    ensures steps { IfOk result (λ fed. steps.new + place ≡ steps.old + fed.0) }
    ensures bound { steps.new + place ≤ steps.old + length records.now }
    ensures limits { numbers_fit (seen state.new) ≡ true }
    ensures refused { IfErr result (StopFeeding program.now «com» records.now msg (seen state.old) place) }
    ensures memory { result ≡ Err Memory → seen state.new ≡ seen state.old }
{
    let mut aside = state.copy(alloc)?;
    let next = feed_records(alloc, program, com, records, place, msg, &mut aside, steps)?;
    let waiting = record_at(alloc, records, next)?;
    *state = aside;
    Ok((next, waiting))
}

/// Plays the record at a place with the message that it waited for, and those behind it until one waits. Answers the number
/// of that record with the record, or how many there are.
pub fn feed_at<L: Ledger>(
    alloc: Global,
    program: &Program,
    com: ComId,
    records: &EncodedRecords,
    place: usize,
    msg: Msg,
    state: &mut State,
    steps: &mut Steps<L>,
) -> Result<(usize, Option<Record>), ReplayRefused>
    requires fields { All Fits records.now }
    requires within { place < length records.now }
    requires waiting { IsWaiting (seen state.old) (drop place records.now) }
    requires limits { numbers_fit (seen state.old) ≡ true }
    ensures fed { IfOk result (λ fed. AreFed program.now «com» records.now msg (seen state.old) place (seen state.new) fed.0) }
    ensures waiting { IfOk result (λ fed. slice_get records.now fed.0 ≡ fed.1) }
    ensures steps { IfOk result (λ fed. steps.new + place ≡ steps.old + fed.0) }
    ensures bound { steps.new + place ≤ steps.old + length records.now }
    ensures limits { numbers_fit (seen state.new) ≡ true }
    ensures refused { IfErr result (StopFeeding program.now «com» records.now msg (seen state.old) place) }
    ensures memory { result ≡ Err Memory → seen state.new ≡ seen state.old }
{
    if are_quiet(records, behind(records, place)) {
        feed_in_place(alloc, program, com, records, place, msg, state, steps)
    } else {
        feed_aside(alloc, program, com, records, place, msg, state, steps)
    }
}
