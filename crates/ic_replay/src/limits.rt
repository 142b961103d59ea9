ghost use Rattle.std.specs.Prelude.{◌≡◌, ℕ, true, length, nat_le, count_by};
ghost use Rattle.ic_base.specs.declared.limits.TheConstants.{GREATEST_NUMBER};
ghost use Rattle.ic_base.specs.declared.messages.ComId.{ComId};
ghost use Rattle.ic_base.specs.Programs.{same_com};
ghost use Rattle.def_state.specs.Vol.{Vol, numbers_fit, come_to};
ghost use Rattle.ic_ckpt.specs.Views.{seen};
ghost use Rattle.ic_replay.specs.declared.prepared.Prepared as prepared;
ghost use Rattle.ic_replay.specs.Applying.{applied, entered};
ghost use Rattle.ic_replay.specs.Limits.{are_within, links_behind};

use crate::Prepared;
use crate::prepared::entered_txn;
use ic_base::limits::GREATEST_NUMBER;
use ic_base::{ComId, Played, Record, Send};
use ic_ckpt::State;
use ic_out::Outbox;

/// Whether no number passes its limit once the record is applied (docs/RULES.md, "Limits").
pub fn keeps_limits(state: &State, stored: &Record, prepared: &Prepared) -> bool
    requires { numbers_fit (seen state.now) ≡ true }
    ensures { (c : ComId) (at : ℕ) → result ≡ numbers_fit (applied c at prepared.now (seen state.now) stored.now) }
{
    if !has_stamp_within(stored) {
        return false;
    }
    match &prepared.played {
        Some(played) => is_play_within(state, stored, played),
        None => true,
    }
}

/// Whether no number passes its limit where a handler comes to this, once the record is entered.
fn is_play_within(state: &State, stored: &Record, played: &Played) -> bool
    requires { numbers_fit (seen state.now) ≡ true }
    ensures { (c : ComId) (at : ℕ) (p : prepared.Prepared) → nat_le (entered at p (seen state.now) stored.now).clock GREATEST_NUMBER ≡ true → result ≡ numbers_fit (come_to c at (entered at p (seen state.now) stored.now) played.now) }
{
    match played {
        Played::Ends(_, sends, outs) => {
            let made = state.shelf.made().saturating_add(outs.len() as u64);
            made <= GREATEST_NUMBER && are_sends_within(&state.outbox, sends.as_slice())
        }
        Played::Asks(_, _) => {
            !entered_txn(state, stored).is_idle() || state.txn.begun() < GREATEST_NUMBER
        }
        Played::Ready(_) | Played::NeedFails(_, _) => true,
    }
}

/// Whether the stamp of a record, if it has one, is within the limit.
fn has_stamp_within(stored: &Record) -> bool
    ensures { (at : ℕ) (p : prepared.Prepared) (v : Vol) → nat_le v.clock GREATEST_NUMBER ≡ true → result ≡ nat_le (entered at p v stored.now).clock GREATEST_NUMBER }
{
    match stored {
        Record::Take { stamp, .. } => *stamp <= GREATEST_NUMBER,
        Record::TakeWhole { stamp, .. } => *stamp <= GREATEST_NUMBER,
        Record::Input { stamp, .. } => *stamp <= GREATEST_NUMBER,
        Record::Outcome { stamp, .. } => *stamp <= GREATEST_NUMBER,
        _ => true,
    }
}

/// Whether the numbers of what is sent are within the limit.
fn are_sends_within(outbox: &Outbox, sends: &[Send]) -> bool
    requires { are_within outbox.now.seen.links ≡ true }
    ensures { result ≡ are_within (links_behind outbox.now.seen.links sends.now) }
{
    for i in 0..sends.len() {
        let to = sends[i].to;
        let before = sends_to(to, &sends[..i]) as u64;
        if outbox.sent(to).saturating_add(before) >= GREATEST_NUMBER {
            return false;
        }
    }
    true
}

/// How many of these sends go to a component.
fn sends_to(to: ComId, sends: &[Send]) -> usize
    ensures { result ≡ count_by (λ s. same_com to s.to) sends.now }
{
    sends.iter().filter(|send| to.0 == send.to.0).count()
}
