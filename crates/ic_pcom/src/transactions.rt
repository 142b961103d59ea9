ghost use Rattle.std.specs.Prelude.{◌≡◌, ◌≤◌, ◌∷◌, ℕ, ℤ, IfOk, IfSome};
ghost use Rattle.ic_base.specs.declared.messages.Decision.TheVariants.{Committed};
ghost use Rattle.ic_base.specs.declared.limits.TheConstants.{GREATEST_NUMBER};
ghost use Rattle.def_step.specs.Pcom as step;
ghost use Rattle.ic_base.specs.declared.messages.Session.{Session};
ghost use Rattle.ic_base.specs.declared.record.Record.TheVariants.{Value};
ghost use Rattle.ic_ckpt.specs.Views.{seen};
ghost use Rattle.ic_pcom.specs.Effects.{effects_of};

use crate::effects::{Effects, StepKind};
use crate::messages::alone;
use ic_base::{AbortCause, ComId, Decision, Program, Record, Records, Session};
use ic_ckpt::State;
use ic_replay::prepare;
use std::alloc::{AllocError, Global};

/// The line of the `need` at which the part fails with the answer of this record.
fn fails_with(
    alloc: Global,
    program: &Program,
    com: ComId,
    state: &State,
    stored: &Record,
) -> Result<Option<u32>, AllocError>
    ensures { IfOk result (λ line. (n place : ℕ) (session : Session) (value : ℤ) → stored.now ≡ Value n place session value → line ≡ step.fails_with program.now «com» (seen state.now) value) }
{
    let prepared = prepare(alloc, program, com, state, stored, None)?;
    Ok(prepared.failed_line())
}

/// The records of an answer: its value, and the outcome where a `need` then fails.
fn reply_records(
    alloc: Global,
    state: &State,
    value: Record,
    line: Option<u32>,
) -> Result<Records, AllocError>
    requires clock { state.now.clock ≤ GREATEST_NUMBER }
    ensures { IfOk result (λ records. records ≡ value ∷ step.need_records (seen state.now) line) }
{
    let mut records = alone(alloc, value)?;
    if let Some(line) = line {
        records.push(Record::Outcome {
            stamp: state.clock + 1,
            n: state.txn.begun(),
            abort: Some(AbortCause::Need(line)),
        })?;
    }
    Ok(records)
}

/// The awaited answer of a Tcom is recorded, and with it a failed `need`.
pub(crate) fn on_reply(
    alloc: Global,
    program: &Program,
    com: ComId,
    state: &State,
    n: u64,
    place: u16,
    session: Session,
    answer: Option<i64>,
) -> Result<Effects, AllocError>
    requires clock { state.now.clock ≤ GREATEST_NUMBER }
    ensures { IfOk result (λ e. effects_of e ≡ step.on_reply program.now «com» (seen state.now) n place session answer) }
{
    let nothing_more = Effects::just_tail(alloc);
    let Some(value) = answer else {
        return Ok(nothing_more);
    };
    let stored = Record::Value {
        n,
        place,
        session,
        value,
    };
    let line = fails_with(alloc, program, com, state, &stored)?;
    let aborted = match line {
        Some(line) => Some((state.txn.begun(), AbortCause::Need(line))),
        None => None,
    };
    Ok(Effects {
        word: StepKind::Changed,
        adds: reply_records(alloc, state, stored, line)?,
        aborted,
        ..nothing_more
    })
}

/// The outcome that is awaited is recorded: a commit above its stamp, an abort at the next one.
pub(crate) fn on_outcome(
    alloc: Global,
    state: &State,
    decision: Option<Decision>,
) -> Result<Effects, AllocError>
    requires clock { state.now.clock ≤ GREATEST_NUMBER }
    requires stamp { IfSome decision (λ d. (stamp : ℕ) → d ≡ Committed stamp → stamp ≤ GREATEST_NUMBER) }
    ensures { IfOk result (λ e. effects_of e ≡ step.on_outcome (seen state.now) decision) }
{
    let nothing_more = Effects::just_tail(alloc);
    let Some(decision) = decision else {
        return Ok(nothing_more);
    };
    let n = state.txn.begun();
    let (stamp, abort) = match decision {
        Decision::Committed(stamp) => (state.clock.max(stamp) + 1, None),
        Decision::Aborted(cause) => (state.clock + 1, Some(cause)),
    };
    let aborted = match abort {
        Some(cause) => Some((n, cause)),
        None => None,
    };
    Ok(Effects {
        word: StepKind::Changed,
        adds: alone(alloc, Record::Outcome { stamp, n, abort })?,
        aborted,
        ..nothing_more
    })
}
