ghost use Rattle.std.specs.Prelude.{◌≡◌, ◌++◌, map, option_to_list, IfOk, ◌+◌, ◌≤◌, ◌&&◌, nat_le, not, cond, length, option_map, None};
ghost use Rattle.def_state.specs.Outbox.{unstable, due_messages, all_put};
ghost use Rattle.ic_base.specs.declared.messages.Packet.TheVariants.{Data};
ghost use Rattle.def_step.specs.Pcom as step;
ghost use Rattle.ic_ckpt.specs.Views.{seen};
ghost use Rattle.def_state.specs.Shelf.{next_due};
ghost use Rattle.ic_pcom.specs.Effects.{effects_of, OfPcom};
ghost use Rattle.std.specs.Vec.{vec_capacity};
ghost use Rattle.def_state.specs.Inbox.{acks, all_told};
ghost use Rattle.def_state.specs.Txn.{pending};
ghost use Rattle.ic_in.specs.Views.{seen_ack};

use crate::effects::Effects;
use crate::messages::alone;
use ic_base::{ComId, Items, Level, Msg, Packet, Packets, Record};
use ic_ckpt::State;
use ic_in::{Ack, Inbox};
use ic_out::Outbox;
use std::alloc::{AllocError, Global};

/// Messages as packets.
fn data_packets(alloc: Global, messages: &[Msg]) -> Result<Vec<Packet>, AllocError>
    ensures { IfOk result (λ packets. packets.items ≡ map Data messages.now) }
{
    let packets = messages.iter().map(|msg| Packet::Data(*msg));
    packets.collect(alloc)
}

/// The messages that are due without a stable mark, as packets.
fn unstable(alloc: Global, state: &State, forced: u64) -> Result<Packets, AllocError>
    ensures { IfOk result (λ packets. packets ≡ map Data (unstable (seen state.now).outbox forced)) }
{
    let messages = state.outbox.all_unstable(alloc, forced)?;
    let packets = data_packets(alloc, messages.as_slice())?;
    Ok(Items::from_vec(packets))
}

/// The packets, and behind them one more where there is one.
fn followed_by(mut packets: Packets, packet: Option<Packet>) -> Result<Packets, AllocError>
    ensures { IfOk result (λ all. all ≡ packets ++ option_to_list packet) }
{
    if let Some(packet) = packet {
        packets.push(packet)?;
    }
    Ok(packets)
}

/// The Drop of the last transaction that ended, once its outcome is forced.
pub(crate) fn last_drop(com: ComId, state: &State, forced: u64) -> Option<Packet>
    ensures { OfPcom (λ p. step.last_drop «com» p ≡ option_to_list result) (seen state.now) forced }
{
    if forced < state.ended_at {
        return None;
    }
    let (to, n) = state.txn.last()?;
    Some(Packet::Drop { from: com, to, n })
}

/// What isn't known to have arrived: the messages that are due without a stable mark, in order; the Drop of the last
/// transaction; the request or Commit that is pending.
fn all_owed(alloc: Global, com: ComId, state: &State, forced: u64) -> Result<Packets, AllocError>
    ensures { IfOk result (λ packets. OfPcom (λ p. step.all_owed «com» p ≡ packets) (seen state.now) forced) }
{
    let messages = unstable(alloc, state, forced)?;
    let packets = followed_by(messages, last_drop(com, state, forced))?;
    followed_by(packets, state.txn.pending(com, state.clock))
}

/// Puts out again all that isn't known to have arrived.
pub fn on_resend(
    alloc: Global,
    com: ComId,
    state: &State,
    forced: u64,
) -> Result<Effects, AllocError>
    ensures { IfOk result (λ e. OfPcom (λ p. effects_of e ≡ record step.nothing_at_all { answers = step.all_owed «com» p }) (seen state.now) forced) }
{
    Ok(Effects {
        answers: all_owed(alloc, com, state, forced)?,
        ..Effects::nothing(alloc)
    })
}

/// Shows the oldest output that is due, and records that.
pub fn on_emit(alloc: Global, state: &State, forced: u64) -> Result<Effects, AllocError>
    ensures { IfOk result (λ e. effects_of e ≡ step.on_emit (next_due (seen state.now).shelf forced)) }
{
    match state.shelf.next_due(forced) {
        Some(output) => Ok(Effects {
            adds: alone(alloc, Record::Shown { m: output.m })?,
            shown: Some(output),
            ..Effects::just_tail(alloc)
        }),
        None => Ok(Effects::nothing(alloc)),
    }
}

/// The packet that tells a sender the level of a receipt.
fn ack_packet(com: ComId, ack: Ack) -> Packet
    ensures { result ≡ step.ack_packet «com» (seen_ack ack) }
{
    let (from, to, k) = (com, ack.to, ack.k);
    match ack.level {
        Level::Installed => Packet::Installed { from, to, k },
        _ => Packet::Stable { from, to, k },
    }
}

/// Tells the senders what there is to tell.
fn put_acks(com: ComId, inbox: &mut Inbox, forced: u64, packets: &mut Vec<Packet>)
    requires room { length packets.old.items + length (acks inbox.old.seen forced) ≤ vec_capacity packets.old }
    ensures packets { packets.new.items ≡ packets.old.items ++ map (step.ack_packet «com») (acks inbox.old.seen forced) }
    ensures told { inbox.new.seen ≡ all_told inbox.old.seen forced }
    ensures capacity { vec_capacity packets.new ≡ vec_capacity packets.old }
{
    while let Some(ack) = inbox.next_ack(forced) {
        packets.push_reserved(ack_packet(com, ack));
    }
}

/// Puts out the messages that are due.
fn put_messages(outbox: &mut Outbox, forced: u64, packets: &mut Vec<Packet>)
    requires room { length packets.old.items + length (due_messages outbox.old.seen forced) ≤ vec_capacity packets.old }
    ensures packets { packets.new.items ≡ packets.old.items ++ map Data (due_messages outbox.old.seen forced) }
    ensures put { outbox.new.seen ≡ all_put outbox.old.seen forced }
    ensures capacity { vec_capacity packets.new ≡ vec_capacity packets.old }
{
    while let Some(msg) = outbox.next_due(forced) {
        packets.push_reserved(Packet::Data(msg));
    }
}

/// Puts out a packet, where there is one.
fn put(packet: Option<Packet>, packets: &mut Vec<Packet>)
    requires room { length packets.old.items + length (option_to_list packet) ≤ vec_capacity packets.old }
    ensures packets { packets.new.items ≡ packets.old.items ++ option_to_list packet }
    ensures capacity { vec_capacity packets.new ≡ vec_capacity packets.old }
{
    if let Some(packet) = packet {
        packets.push_reserved(packet);
    }
}

/// The Drop that is owed, once its outcome is forced. It is owed no longer.
fn owed_drop(com: ComId, state: &mut State, forced: u64) -> Option<Packet>
    ensures few { length (option_to_list result) ≤ cond state.old.owes_drop 1 0 }
    ensures drop { result ≡ cond (state.old.owes_drop && nat_le state.old.ended_at forced) (option_map (step.drop_packet «com») state.old.txn.last) None }
    ensures paid { state.new ≡ record state.old { owes_drop = state.old.owes_drop && not (state.old.owes_drop && nat_le state.old.ended_at forced) } }
{
    if !state.owes_drop || forced < state.ended_at {
        return None;
    }
    state.owes_drop = false;
    let (to, n) = state.txn.last()?;
    Some(Packet::Drop { from: com, to, n })
}

/// The request or the Commit that a step came to.
fn came_to(com: ComId, state: &State, came: bool) -> Option<Packet>
    ensures few { length (option_to_list result) ≤ cond came 1 0 }
    ensures packet { result ≡ cond came (pending «com» (seen state.now).txn state.now.clock) None }
{
    if came {
        state.txn.pending(com, state.clock)
    } else {
        None
    }
}

/// Puts out what a step puts out behind its answers, over a log that is forced up to here: what there is to tell of
/// receipts, the messages that are due, the Drop that is owed, and the request or Commit that the step came to
/// (docs/RULES.md, "Putting out"). It takes no memory.
pub fn put_out(com: ComId, state: &mut State, forced: u64, came: bool, packets: &mut Vec<Packet>)
    requires room { length packets.old.items + length (acks (seen state.old).inbox forced) + length (due_messages (seen state.old).outbox forced) + cond (seen state.old).owes_drop 1 0 + cond came 1 0 ≤ vec_capacity packets.old }
    ensures packets { OfPcom (λ p. packets.new.items ≡ packets.old.items ++ step.tail_packets «com» came p) (seen state.old) forced }
    ensures marked { OfPcom (λ p. seen state.new ≡ (step.after_tail p).vol) (seen state.old) forced }
{
    put_acks(com, &mut state.inbox, forced, packets);
    put_messages(&mut state.outbox, forced, packets);
    put(owed_drop(com, state, forced), packets);
    put(came_to(com, state, came), packets);
}
