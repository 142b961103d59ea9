ghost use Rattle.std.specs.Prelude.{◌≡◌, ◌+◌, ◌≤◌, true, length, All, IfSome, IfNone, IfErr, OnOk};
ghost use Rattle.def_log.specs.Spelling.{Fits};
ghost use Rattle.def_standby.specs.Standbys.{contents_among, is_missing};
ghost use Rattle.def_state.specs.Vol.{numbers_fit};
ghost use Rattle.ic_ckpt.specs.Views.{seen};
ghost use Rattle.ic_standby.specs.Onward.{IsAtHand, PlaysThrough, StopsShort};

use ic_base::{ComId, Msg, Program, Record, Steps};
use ic_ckpt::State;
use ic_replay::{ReplayRefused, fits, play_record};
use std::alloc::Global;
use std::sync::ledger::Ledger;

/// The first of these messages to a component that has this sender and number.
fn content_among(msgs: &[Msg], com: ComId, from: ComId, k: u64) -> Option<Msg>
    ensures { result ≡ contents_among «com» msgs.now from k }
{
    for msg in msgs {
        if from.0 == msg.from.0 && k == msg.k && com.0 == msg.to.0 {
            return Some(*msg);
        }
    }
    None
}

/// The content of the message that a record takes by identity, which other records have none of. None where it isn't among these
/// messages.
pub(crate) fn content_at_hand(msgs: &[Msg], com: ComId, stored: &Record) -> Option<Option<Msg>>
    ensures some { IfSome result (IsAtHand (contents_among «com» msgs.now) stored.now) }
    ensures none { IfNone result (is_missing (contents_among «com» msgs.now) stored.now ≡ true) }
{
    match stored {
        Record::Take { from, k, .. } => match content_among(msgs, com, *from, *k) {
            Some(msg) => Some(Some(msg)),
            None => None,
        },
        Record::TakeWhole { .. }
        | Record::Input { .. }
        | Record::Value { .. }
        | Record::Outcome { .. }
        | Record::Released { .. }
        | Record::Shown { .. }
        | Record::Checkpoint { .. }
        | Record::Epoch { .. }
        | Record::Decided { .. } => Some(None),
    }
}

/// Plays all records behind the first `have`, from the state that those made, each that takes a message by identity with that
/// one of `msgs`. One whose message isn't there is told as a misfit.
pub fn play_through<L: Ledger>(
    alloc: Global,
    program: &Program,
    com: ComId,
    records: &[Record],
    have: usize,
    msgs: &[Msg],
    state: &mut State,
    steps: &mut Steps<L>,
) -> Result<(), ReplayRefused>
    requires fields { All Fits records.now }
    requires within { have ≤ length records.now }
    requires limits { numbers_fit (seen state.old) ≡ true }
    ensures through { OnOk result (PlaysThrough program.now «com» (contents_among «com» msgs.now) (seen state.old) have records.now (seen state.new)) }
    ensures steps { OnOk result (steps.new + have ≡ steps.old + length records.now) }
    ensures bound { steps.new + have ≤ steps.old + length records.now }
    ensures refused { IfErr result (StopsShort program.now «com» (contents_among «com» msgs.now) (seen state.old) have records.now) }
{
    for next in have..records.len() {
        let stored = &records[next];
        if !fits(alloc, program, com, state, stored)? {
            return Err(ReplayRefused::Misfit(next));
        }
        let Some(content) = content_at_hand(msgs, com, stored) else {
            return Err(ReplayRefused::Misfit(next));
        };
        if !play_record(alloc, program, com, 0, content, stored, state)? {
            return Err(ReplayRefused::Misfit(next));
        }
        steps.tick();
    }
    Ok(())
}
