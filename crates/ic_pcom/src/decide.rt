ghost use Rattle.std.specs.Prelude.{◌≡◌, ◌≤◌, ℕ, true, IfOk};
ghost use Rattle.ic_base.specs.declared.limits.TheConstants.{GREATEST_NUMBER};
ghost use Rattle.ic_base.specs.declared.messages.ComId.{ComId};
ghost use Rattle.ic_base.specs.declared.scenario.Program.{Program};
ghost use Rattle.def_step.specs.Packets.{fits_pcom};
ghost use Rattle.def_step.specs.Pcom as step;
ghost use Rattle.ic_ckpt.specs.Views.{seen};
ghost use Rattle.ic_pcom.specs.Effects.{effects_of, AreEffects};
ghost use Rattle.def_step.specs.Packets as packets;

use crate::effects::{Effects, StepKind};
use crate::messages::{alone, on_data, on_fetch, on_installed, on_stable};
use crate::transactions::{on_outcome, on_reply};
use ic_base::limits::GREATEST_NUMBER;
use ic_base::{
    AbortCause, Args, ComId, Decision, Packet, Program, Record, Session, has_handler, is_a_pcom,
    is_a_tcom, is_number, is_other_pcom, session_fits,
};
use ic_ckpt::State;
use std::alloc::{AllocError, Global};

/// What a packet that fits comes to.
fn on_fitting(
    alloc: Global,
    program: &Program,
    com: ComId,
    state: &State,
    forced: u64,
    packet: &Packet,
) -> Result<Effects, AllocError>
    requires clock { state.now.clock ≤ GREATEST_NUMBER }
    requires fits { fits_pcom program.now «com» packet.now ≡ true }
    ensures { IfOk result (AreEffects (λ p. step.on_packet program.now «com» p packet.now) (seen state.now) forced) }
{
    match *packet {
        Packet::Data(msg) => on_data(alloc, program, com, state, forced, msg),
        Packet::Stable { from, k, .. } => Ok(on_stable(alloc, state, from, k)),
        Packet::Installed { from, k, .. } => on_installed(alloc, state, from, k),
        Packet::Fetch { from, k, .. } => on_fetch(alloc, state, forced, from, k),
        Packet::OpReply {
            n,
            place,
            session,
            ..
        } => {
            let mut txn = state.txn;
            let answer = txn.reply(packet);
            on_reply(alloc, program, com, state, n, place, session, answer)
        }
        Packet::Outcome { .. } => on_outcome(alloc, state, state.txn.outcome(packet)),
        _ => Ok(Effects::nothing(alloc)),
    }
}

/// What a packet comes to; one that doesn't fit comes to nothing (docs/RULES.md, "Packets that fit").
pub fn on_packet(
    alloc: Global,
    program: &Program,
    com: ComId,
    state: &State,
    forced: u64,
    packet: &Packet,
) -> Result<Effects, AllocError>
    requires clock { state.now.clock ≤ GREATEST_NUMBER }
    ensures { IfOk result (AreEffects (λ p. step.decide program.now «com» p (step.Gets packet.now)) (seen state.now) forced) }
{
    if fits_pcom(program, com, packet) {
        on_fitting(alloc, program, com, state, forced, packet)
    } else {
        Ok(Effects::nothing(alloc))
    }
}

/// An input is taken unless a message or another input is in hand.
pub fn on_input(
    alloc: Global,
    state: &State,
    handler: u8,
    args: Args,
) -> Result<Effects, AllocError>
    requires clock { state.now.clock ≤ GREATEST_NUMBER }
    ensures { IfOk result (λ e. (program : Program) (c : ComId) (forced : ℕ) → AreEffects (λ p. step.decide program c p (step.Gives handler args)) (seen state.now) forced e) }
{
    if state.hand.is_some() {
        return Ok(Effects::nothing(alloc));
    }
    let stamp = state.clock + 1;
    Ok(Effects {
        word: StepKind::Took,
        adds: alone(
            alloc,
            Record::Input {
                stamp,
                handler,
                args,
            },
        )?,
        forces: true,
        ..Effects::just_tail(alloc)
    })
}

/// The log is to be forced.
pub fn on_force(alloc: Global) -> Effects
    ensures { (program : Program) (c : ComId) (p : step.Pcom) → effects_of result ≡ step.decide program c p step.Forces }
{
    Effects {
        forces: true,
        ..Effects::just_tail(alloc)
    }
}

/// Whether the packet is one that the Pcom c may get (docs/RULES.md, "Packets that fit").
pub(crate) fn fits_pcom(program: &Program, c: ComId, p: &Packet) -> bool
    ensures { result ≡ packets.fits_pcom program.now c p.now }
{
    match *p {
        Packet::Data(msg) => {
            is_other_pcom(program, c, msg.from)
                && is_number(msg.k)
                && msg.stamp <= GREATEST_NUMBER
                && has_handler(program, c, msg.handler, msg.args)
        }
        Packet::Stable { from, k, .. }
        | Packet::Installed { from, k, .. }
        | Packet::Fetch { from, k, .. } => is_other_pcom(program, c, from) && is_number(k),
        Packet::OpReply {
            from,
            n,
            session,
            ..
        } => is_a_tcom(program, from) && is_number(n) && session_fits(session),
        Packet::Outcome {
            from,
            n,
            session,
            decision,
            ..
        } => {
            is_a_tcom(program, from)
                && is_number(n)
                && awaited_session_fits(session)
                && decision_fits(program, decision)
        }
        _ => false,
    }
}

fn awaited_session_fits(session: Option<Session>) -> bool
    ensures { result ≡ packets.if_session_fits session }
{
    match session {
        None => true,
        Some(session) => session_fits(session),
    }
}

fn decision_fits(program: &Program, decision: Decision) -> bool
    ensures { result ≡ packets.decision_fits program.now decision }
{
    match decision {
        Decision::Committed(stamp) => stamp <= GREATEST_NUMBER,
        Decision::Aborted(cause) => cause_fits(program, cause),
    }
}

// A Tcom never aborts for a failed `need`.
fn cause_fits(program: &Program, cause: AbortCause) -> bool
    ensures { result ≡ packets.cause_fits program.now cause }
{
    match cause {
        AbortCause::Need(_) => false,
        AbortCause::Held(holder, n) => is_a_pcom(program, holder) && is_number(n),
        AbortCause::Epoch(old, present) => old <= GREATEST_NUMBER && present <= GREATEST_NUMBER,
    }
}
