ghost use Rattle.std.specs.Prelude.{◌≡◌, ◌+◌, ◌<◌, ◌≤◌, ℕ, true, false, length, IsTrue, Some};
ghost use Rattle.ic_base.specs.declared.limits.TheConstants.{GREATEST_NUMBER};
ghost use Rattle.def_state.specs.Outbox as sent;
ghost use Rattle.def_state.specs.Shelf as shown;
ghost use Rattle.def_state.specs.Vol as vol;
ghost use Rattle.def_state.specs.Vol.{numbers_fit};
ghost use Rattle.ic_txn.specs.Replies.{has_next_place};
ghost use Rattle.ic_ckpt.specs.Views.{seen, HasRoom};
ghost use Rattle.ic_replay.specs.Preparing.{has_place};
ghost use Rattle.ic_replay.specs.Applying.{entered, applied, sends_of, outs_of, receipts_of, TakesNew};
ghost use Rattle.ic_replay.specs.Limits.{are_within};

use crate::Prepared;
use def_plain::InHand;
use ic_base::{ComId, Items, Msg, Out, Played, Record, Send, Vals};
use ic_ckpt::State;
use ic_edge::Shelf;
use ic_out::Outbox;
use std::alloc::Global;

/// Applies a record that ends at position `at` of the log, as it was prepared. It takes no memory.
pub fn apply(
    alloc: Global,
    com: ComId,
    at: u64,
    stored: &Record,
    prepared: Prepared,
    state: &mut State,
)
    requires room { HasRoom state.old (length (sends_of prepared.played)) (receipts_of stored.now) (length (outs_of prepared.played)) }
    requires new { TakesNew (seen state.old) stored.now }
    requires place { IsTrue (has_place (seen state.old) stored.now) }
    requires limits { numbers_fit (applied «com» at prepared (seen state.old) stored.now) ≡ true }
    ensures applied { seen state.new ≡ applied «com» at prepared (seen state.old) stored.now }
    ensures room { (a b c : ℕ) → HasRoom state.old (length (sends_of prepared.played) + a) (receipts_of stored.now + b) (length (outs_of prepared.played) + c) → HasRoom state.new a b c }
{
    let Prepared {
        hand,
        answers,
        played,
    } = prepared;
    enter(at, stored, hand, answers, state);
    if let Some(played) = played {
        come_to(alloc, com, at, played, state);
    }
}

/// Enters a record; no handler is played on yet.
fn enter(at: u64, stored: &Record, hand: Option<InHand>, answers: Vals, state: &mut State)
    requires room { receipts_of stored.now ≤ state.old.inbox.spare }
    requires new { TakesNew (seen state.old) stored.now }
    ensures entered { seen state.new ≡ entered at (record { hand = hand; answers = answers; played = None }) (seen state.old) stored.now }
    ensures room { (a b c : ℕ) → HasRoom state.old a (receipts_of stored.now + b) c → HasRoom state.new a b c }
{
    match stored {
        Record::Take { from, k, stamp } => {
            state.inbox.took(*from, *k, at, false);
            take_up(*stamp, hand, answers, state);
        }
        Record::TakeWhole { from, k, stamp, .. } => {
            state.inbox.took(*from, *k, at, true);
            take_up(*stamp, hand, answers, state);
        }
        Record::Input { stamp, .. } => take_up(*stamp, hand, answers, state),
        Record::Value { session, .. } => {
            state.answers = answers;
            state.txn.take_reply(*session);
        }
        Record::Outcome { stamp, .. } => {
            take_up(*stamp, hand, answers, state);
            state.txn.end();
            state.ended_at = at;
            state.owes_drop = true;
        }
        Record::Released { to, k } => {
            state.outbox.installed(*to, *k);
        }
        Record::Shown { m } => {
            state.shelf.shown(*m);
        }
        Record::Checkpoint { .. } | Record::Epoch { .. } | Record::Decided { .. } => {}
    }
}

/// Has this in hand from a stamp on.
fn take_up(stamp: u64, hand: Option<InHand>, answers: Vals, state: &mut State)
    ensures taken_up { state.new ≡ record state.old { clock = stamp; hand = hand; answers = answers } }
{
    state.clock = stamp;
    state.hand = hand;
    state.answers = answers;
}

/// The message in hand has come to this.
fn come_to(alloc: Global, com: ComId, at: u64, played: Played, state: &mut State)
    requires room { HasRoom state.old (length (sends_of (Some played))) 0 (length (outs_of (Some played))) }
    requires place { IsTrue (has_next_place state.old.txn.stage) }
    requires limits { numbers_fit (vol.come_to «com» at (seen state.old) played) ≡ true }
    ensures come { seen state.new ≡ vol.come_to «com» at (seen state.old) played }
    ensures room { (a b c : ℕ) → HasRoom state.old (length (sends_of (Some played)) + a) b (length (outs_of (Some played)) + c) → HasRoom state.new a b c }
{
    match played {
        Played::Ends(vars, sends, outs) => {
            state.vars = vars;
            state.hand = None;
            state.answers = Items::new(alloc);
            send_all(com, state.clock, at, sends.as_slice(), &mut state.outbox);
            add_all(at, outs.as_slice(), &mut state.shelf);
        }
        Played::Asks(tcom, request) => {
            if state.txn.is_idle() {
                state.txn.begin(tcom, request);
            } else {
                state.txn.ask(request);
            }
        }
        Played::Ready(_) => state.txn.ready(),
        Played::NeedFails(_, _) => {}
    }
}

/// Holds what a handling sent, in order, each the next message on its link.
fn send_all(com: ComId, clock: u64, at: u64, sends: &[Send], outbox: &mut Outbox)
    requires room { length sends.now ≤ outbox.old.spare }
    requires limits { are_within (sent.send_all «com» clock at outbox.old.seen sends.now).links ≡ true }
    ensures sent { outbox.new.seen ≡ sent.send_all «com» clock at outbox.old.seen sends.now }
    ensures room { outbox.old.spare ≤ outbox.new.spare + length sends.now }
{
    for send in sends {
        let k = outbox.sent(send.to) + 1;
        let msg = Msg {
            from: com,
            to: send.to,
            k,
            stamp: clock,
            handler: send.handler,
            args: send.args,
        };
        outbox.add(msg, at);
    }
}

/// Numbers what a handling put out, in order.
fn add_all(at: u64, outs: &[Out], shelf: &mut Shelf)
    requires room { length outs.now ≤ shelf.old.spare }
    requires limits { (shown.add_all at shelf.old.shelf outs.now).made ≤ GREATEST_NUMBER }
    ensures added { shelf.new.shelf ≡ shown.add_all at shelf.old.shelf outs.now }
    ensures room { shelf.old.spare ≤ shelf.new.spare + length outs.now }
{
    for out in outs {
        shelf.add(*out, at);
    }
}
