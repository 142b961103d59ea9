ghost use Rattle.std.specs.Prelude.{◌≡◌, ◌+◌, ◌≤◌, true, length, drop, All, IfOk, IfErr, OnErr, None, Some};
ghost use Rattle.def_log.specs.Spelling.{Fits};
ghost use Rattle.def_state.specs.Fits.{fits};
ghost use Rattle.def_state.specs.Vol.{numbers_fit, standing};
ghost use Rattle.ic_ckpt.specs.Views.{seen};
ghost use Rattle.ic_replay.specs.Preparing.{has_content};
ghost use Rattle.ic_replay.specs.Applying.{TakesNew};
ghost use Rattle.ic_replay.specs.Playing.{IsDone, ArePlayed, StopPlaying};

use crate::applying::apply;
use crate::fitting::fits;
use crate::limits::keeps_limits;
use crate::prepared::prepare;
use crate::refusals::ReplayRefused;
use ic_base::{ComId, Msg, Program, Record, Steps};
use ic_ckpt::State;
use ic_gate::EncodedRecords;
use std::alloc::{AllocError, Global};
use std::sync::ledger::Ledger;

/// Does what a record does that ends at position `at` of the log. False where a number would pass its limit; the state is
/// then as before.
pub fn play_record(
    alloc: Global,
    program: &Program,
    com: ComId,
    at: u64,
    content: Option<Msg>,
    stored: &Record,
    state: &mut State,
) -> Result<bool, AllocError>
    requires limits { numbers_fit (seen state.old) ≡ true }
    requires content { has_content content stored.now ≡ true }
    requires new { TakesNew (seen state.old) stored.now }
    ensures step { IfOk result (IsDone program.now «com» at content (seen state.old) stored.now (seen state.new)) }
    ensures memory { OnErr result (seen state.new ≡ seen state.old) }
{
    let prepared = prepare(alloc, program, com, state, stored, content)?;
    if !keeps_limits(state, stored, &prepared) {
        return Ok(false);
    }
    prepared.reserve(stored, state)?;
    apply(alloc, com, at, stored, prepared, state);
    Ok(true)
}

/// Plays records from the `first` on, until one waits for the message that it takes by identity. Answers the number of
/// that record, or how many there are.
pub fn play_records<L: Ledger>(
    alloc: Global,
    program: &Program,
    com: ComId,
    records: &EncodedRecords,
    first: usize,
    state: &mut State,
    steps: &mut Steps<L>,
) -> Result<usize, ReplayRefused>
    requires fields { All Fits records.now }
    requires within { first ≤ length records.now }
    requires limits { numbers_fit (seen state.old) ≡ true }
    ensures played { IfOk result (ArePlayed program.now «com» records.now (seen state.old) first (seen state.new)) }
    ensures steps { IfOk result (λ next. steps.new + first ≡ steps.old + next) }
    ensures bound { steps.new + first ≤ steps.old + length records.now }
    ensures refused { IfErr result (StopPlaying program.now «com» records.now (seen state.old) first) }
{
    for next in first..records.len() {
        let stored = records.record(alloc, next)?;
        if !fits(alloc, program, com, state, &stored)? {
            return Err(ReplayRefused::Misfit(next));
        }
        if let Record::Take { .. } = stored {
            return Ok(next);
        }
        if !play_record(alloc, program, com, 0, None, &stored, state)? {
            return Err(ReplayRefused::Misfit(next));
        }
        steps.tick();
    }
    Ok(records.len())
}
