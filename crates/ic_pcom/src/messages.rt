ghost use Rattle.std.specs.Prelude.{◌≡◌, ◌≤◌, ℕ, [], ◌∷◌, map, option_to_list, IfOk};
ghost use Rattle.ic_base.specs.declared.messages.Packet.TheVariants.{Data};
ghost use Rattle.def_state.specs.Outbox.{fetch};
ghost use Rattle.ic_base.specs.declared.limits.TheConstants.{GREATEST_NUMBER};
ghost use Rattle.def_step.specs.Pcom as step;
ghost use Rattle.ic_ckpt.specs.Views.{seen};
ghost use Rattle.ic_pcom.specs.Effects.{AreEffects};

use crate::effects::{Effects, StepKind};
use ic_base::{ComId, Items, Level, Msg, Packet, Packets, Program, Record, Records, is_immediate};
use ic_ckpt::State;
use std::alloc::{AllocError, Global};

/// One packet alone.
pub(crate) fn only(alloc: Global, packet: Packet) -> Result<Packets, AllocError>
    ensures { IfOk result (λ packets. packets ≡ packet ∷ []) }
{
    let mut packets = Vec::with_capacity(alloc, 1)?;
    packets.push(packet)?;
    Ok(Items::from_vec(packets))
}

/// One record alone.
pub(crate) fn alone(alloc: Global, record: Record) -> Result<Records, AllocError>
    ensures { IfOk result (λ records. records ≡ «record» ∷ []) }
{
    let mut records = Vec::with_capacity(alloc, 1)?;
    records.push(record)?;
    Ok(Items::from_vec(records))
}

/// What the sender of a message that isn't new is told: the level of its receipt.
fn level_answer(alloc: Global, com: ComId, msg: Msg, level: Level) -> Result<Packets, AllocError>
    ensures { IfOk result (λ packets. packets ≡ step.level_answer «com» msg level) }
{
    let (from, to, k) = (com, msg.from, msg.k);
    match level {
        Level::Nothing | Level::Taken => Ok(Items::new(alloc)),
        Level::Stable => only(alloc, Packet::Stable { from, to, k }),
        Level::Installed => only(alloc, Packet::Installed { from, to, k }),
    }
}

/// The record of a message that is taken: with its content at an immediate component, else by its identity. Its stamp is
/// above the message's and the component's own (Lamport 1978).
fn take_record(program: &Program, com: ComId, state: &State, msg: Msg) -> Record
    requires clock { state.now.clock ≤ GREATEST_NUMBER }
    requires stamp { msg.stamp ≤ GREATEST_NUMBER }
    ensures { result ≡ step.take_record program.now «com» (seen state.now) msg }
{
    let stamp = state.clock.max(msg.stamp) + 1;
    let (from, k) = (msg.from, msg.k);
    if is_immediate(program, com) {
        Record::TakeWhole {
            from,
            k,
            stamp,
            handler: msg.handler,
            args: msg.args,
        }
    } else {
        Record::Take { from, k, stamp }
    }
}

/// A new message is taken unless another one is in hand; one that isn't new is answered by its level.
pub(crate) fn on_data(
    alloc: Global,
    program: &Program,
    com: ComId,
    state: &State,
    forced: u64,
    msg: Msg,
) -> Result<Effects, AllocError>
    requires clock { state.now.clock ≤ GREATEST_NUMBER }
    requires stamp { msg.stamp ≤ GREATEST_NUMBER }
    ensures { IfOk result (AreEffects (λ p. step.on_data program.now «com» p msg) (seen state.now) forced) }
{
    let nothing_more = Effects::just_tail(alloc);
    if !state.inbox.is_new(msg.from, msg.k) {
        let level = state.inbox.level(msg.from, msg.k, forced);
        return Ok(Effects {
            answers: level_answer(alloc, com, msg, level)?,
            ..nothing_more
        });
    }
    if state.hand.is_some() {
        return Ok(Effects {
            word: StepKind::Busy,
            ..Effects::nothing(alloc)
        });
    }
    Ok(Effects {
        word: StepKind::Took,
        content: Some(msg),
        adds: alone(alloc, take_record(program, com, state, msg))?,
        forces: is_immediate(program, com),
        ..nothing_more
    })
}

/// A message of its own is known to be stable at its receiver.
pub(crate) fn on_stable(alloc: Global, state: &State, to: ComId, k: u64) -> Effects
    ensures { (forced : ℕ) → AreEffects (λ p. step.on_stable p (record { peer = to; k = k })) (seen state.now) forced result }
{
    let word = if state.outbox.may_become_stable(to, k) {
        StepKind::Changed
    } else {
        StepKind::Same
    };
    Effects {
        marks: Some((to, k)),
        word,
        ..Effects::just_tail(alloc)
    }
}

/// A message of its own is known to be needed by no replay: it is released.
pub(crate) fn on_installed(
    alloc: Global,
    state: &State,
    to: ComId,
    k: u64,
) -> Result<Effects, AllocError>
    ensures { IfOk result (λ e. (forced : ℕ) → AreEffects (λ p. step.on_installed p (record { peer = to; k = k })) (seen state.now) forced e) }
{
    let nothing_more = Effects::just_tail(alloc);
    if !state.outbox.holds(to, k) {
        return Ok(nothing_more);
    }
    Ok(Effects {
        adds: alone(alloc, Record::Released { to, k })?,
        word: StepKind::Changed,
        ..nothing_more
    })
}

/// The message that is asked for, where it is held and due.
pub(crate) fn fetched(
    alloc: Global,
    state: &State,
    forced: u64,
    to: ComId,
    k: u64,
) -> Result<Packets, AllocError>
    ensures { IfOk result (λ packets. packets ≡ map Data (option_to_list (fetch (seen state.now).outbox (record { peer = to; k = k }) forced))) }
{
    match state.outbox.fetch(to, k, forced) {
        Some(msg) => only(alloc, Packet::Data(msg)),
        None => Ok(Items::new(alloc)),
    }
}

/// Answers a receiver that asks for a message again.
pub(crate) fn on_fetch(
    alloc: Global,
    state: &State,
    forced: u64,
    to: ComId,
    k: u64,
) -> Result<Effects, AllocError>
    ensures { IfOk result (AreEffects (λ p. step.on_fetch p (record { peer = to; k = k })) (seen state.now) forced) }
{
    Ok(Effects {
        answers: fetched(alloc, state, forced, to, k)?,
        ..Effects::just_tail(alloc)
    })
}
