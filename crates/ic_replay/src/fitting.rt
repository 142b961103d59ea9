ghost use Rattle.std.specs.Prelude.{◌≡◌, true, IfOk, option_and_then};
ghost use Rattle.def_state.specs.Fits as fits;
ghost use Rattle.def_state.specs.Hist.{hand_plays};
ghost use Rattle.def_state.specs.Vol.{standing};
ghost use Rattle.ic_ckpt.specs.Views.{seen};
ghost use Rattle.ic_replay.specs.Quiet.{ends_none};

use crate::declared::{has_handler, is_immediate, is_other_pcom};
use crate::prepared::hand_played;
use ic_base::{AbortCause, ComId, Played, Program, Record};
use ic_ckpt::State;
use std::alloc::{AllocError, Global};

/// Whether a record may stand next, so that it is no misfit (docs/FORMATS.md, "Misfits"). The image of a checkpoint
/// isn't looked at.
pub fn fits(
    alloc: Global,
    program: &Program,
    com: ComId,
    state: &State,
    stored: &Record,
) -> Result<bool, AllocError>
    ensures { IfOk result (λ fit. fit ≡ fits.fits program.now «com» (standing program.now «com» (seen state.now)) stored.now) }
{
    match stored {
        Record::Outcome { stamp, n, abort } => Ok(
            state.clock < *stamp
                && *n == state.txn.begun()
                && may_end(state, failed_line(alloc, program, com, state)?, *abort),
        ),
        _ => Ok(fits_at_rest(program, com, state, stored)),
    }
}

/// Whether a record that ends no transaction may stand next.
pub(crate) fn fits_at_rest(program: &Program, com: ComId, state: &State, stored: &Record) -> bool
    requires { ends_none stored.now ≡ true }
    ensures { result ≡ fits.fits program.now «com» (standing program.now «com» (seen state.now)) stored.now }
{
    match stored {
        Record::Take { from, k, stamp } => {
            state.clock < *stamp && may_take(program, com, state, false, *from, *k)
        }
        Record::TakeWhole {
            from,
            k,
            stamp,
            handler,
            args,
        } => {
            state.clock < *stamp
                && may_take(program, com, state, true, *from, *k)
                && has_handler(program, com, *handler, *args)
        }
        Record::Input {
            stamp,
            handler,
            args,
        } => {
            state.clock < *stamp
                && state.hand.is_none()
                && has_handler(program, com, *handler, *args)
        }
        Record::Value {
            n,
            place,
            session,
            ..
        } => *n == state.txn.begun() && state.txn.awaits(*place, *session),
        Record::Released { to, k } => state.outbox.holds(*to, *k),
        Record::Shown { m } => state.shelf.oldest() == Some(*m),
        Record::Checkpoint { .. } => state.hand.is_none(),
        Record::Epoch { .. } | Record::Decided { .. } | Record::Outcome { .. } => false,
    }
}

/// Whether a message may be taken, whole at an immediate component and by its identity at another.
fn may_take(program: &Program, com: ComId, state: &State, whole: bool, from: ComId, k: u64) -> bool
    ensures { result ≡ fits.may_take program.now «com» (standing program.now «com» (seen state.now)) whole from k }
{
    state.hand.is_none()
        && is_immediate(program, com) == whole
        && is_other_pcom(program, com, from)
        && state.inbox.is_new(from, k)
}

/// The line of the `need` that fails with the answers that the open transaction has got, if one does.
fn failed_line(
    alloc: Global,
    program: &Program,
    com: ComId,
    state: &State,
) -> Result<Option<u32>, AllocError>
    ensures { IfOk result (λ line. line ≡ option_and_then (λ hand. fits.failed_line (hand_plays program.now «com» state.now.vars state.now.answers hand)) state.now.hand) }
{
    match hand_played(
        alloc,
        program,
        com,
        &state.vars,
        &state.hand,
        &state.answers,
    )? {
        Some(Played::NeedFails(_, line)) => Ok(Some(line)),
        _ => Ok(None),
    }
}

/// Whether the open transaction may end so: committed while its commit is awaited, for a failed `need` where one fails,
/// for another cause where none does.
fn may_end(state: &State, failed: Option<u32>, abort: Option<AbortCause>) -> bool
    ensures { result ≡ fits.may_end (seen state.now).txn.stage failed abort }
{
    match abort {
        None => state.txn.is_committing(),
        Some(AbortCause::Need(line)) => !state.txn.is_idle() && failed == Some(line),
        Some(AbortCause::Held(_, _)) => !state.txn.is_idle() && failed.is_none(),
        Some(AbortCause::Epoch(_, _)) => !state.txn.is_idle() && failed.is_none(),
    }
}
