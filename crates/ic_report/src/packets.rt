ghost use Rattle.std.specs.Prelude.{◌≡◌, ◌∷◌, [], OnOk};
ghost use Rattle.def_report.specs.Words.{cause_words, decision_words, packet_words, sender_of, receiver_of, fate_word, answer_words};
ghost use Rattle.ic_report.specs.Said.{said};

use crate::names::name_of;
use crate::writing::{add_number, add_numbered, add_word};
use ic_base::{AbortCause, Answer, ComId, Decision, Fate, Packet, Program};
use std::alloc::AllocError;

/// Appends why a transaction was aborted.
pub(crate) fn add_cause(
    out: &mut Vec<u8>,
    program: &Program,
    cause: &AbortCause,
) -> Result<(), AllocError>
    ensures { OnOk result (out.new.items ≡ said out.old.items (cause_words program.now cause.now)) }
{
    match cause {
        AbortCause::Need(line) => {
            add_word(out, b"need")?;
            add_number(out, u64::from(*line))?;
            Ok(())
        }
        AbortCause::Held(holder, n) => {
            add_word(out, b"held")?;
            add_word(out, name_of(program, *holder))?;
            add_number(out, *n)?;
            Ok(())
        }
        AbortCause::Epoch(old, present) => {
            add_word(out, b"epoch")?;
            add_number(out, *old)?;
            add_number(out, *present)?;
            Ok(())
        }
    }
}

fn add_decision(out: &mut Vec<u8>, program: &Program, decision: &Decision) -> Result<(), AllocError>
    ensures { OnOk result (out.new.items ≡ said out.old.items (decision_words program.now decision.now)) }
{
    match decision {
        Decision::Committed(_) => {
            add_word(out, b"committed")?;
            Ok(())
        }
        Decision::Aborted(cause) => {
            add_word(out, b"aborted")?;
            add_cause(out, program, cause)?;
            Ok(())
        }
    }
}

/// Appends the name and the numbers of a packet.
pub(crate) fn add_packet(
    out: &mut Vec<u8>,
    program: &Program,
    packet: &Packet,
) -> Result<(), AllocError>
    ensures { OnOk result (out.new.items ≡ said out.old.items (packet_words program.now packet.now)) }
{
    match packet {
        Packet::Data(message) => add_numbered(out, b"data", message.k),
        Packet::Stable { k, .. } => add_numbered(out, b"stable", *k),
        Packet::Installed { k, .. } => add_numbered(out, b"installed", *k),
        Packet::Fetch { k, .. } => add_numbered(out, b"fetch", *k),
        Packet::Op { n, place, .. } => {
            add_numbered(out, b"op", *n)?;
            add_number(out, u64::from(*place))?;
            Ok(())
        }
        Packet::OpReply { n, place, .. } => {
            add_numbered(out, b"reply", *n)?;
            add_number(out, u64::from(*place))?;
            Ok(())
        }
        Packet::Commit { n, .. } => add_numbered(out, b"commit", *n),
        Packet::Outcome { n, decision, .. } => {
            add_numbered(out, b"outcome", *n)?;
            add_decision(out, program, decision)?;
            Ok(())
        }
        Packet::Drop { n, .. } => add_numbered(out, b"drop", *n),
    }
}

pub(crate) fn sender_of(packet: &Packet) -> ComId
    ensures { result ≡ sender_of packet.now }
{
    match packet {
        Packet::Data(message) => message.from,
        Packet::Stable { from, .. } => *from,
        Packet::Installed { from, .. } => *from,
        Packet::Fetch { from, .. } => *from,
        Packet::Op { from, .. } => *from,
        Packet::OpReply { from, .. } => *from,
        Packet::Commit { from, .. } => *from,
        Packet::Outcome { from, .. } => *from,
        Packet::Drop { from, .. } => *from,
    }
}

pub(crate) fn receiver_of(packet: &Packet) -> ComId
    ensures { result ≡ receiver_of packet.now }
{
    match packet {
        Packet::Data(message) => message.to,
        Packet::Stable { to, .. } => *to,
        Packet::Installed { to, .. } => *to,
        Packet::Fetch { to, .. } => *to,
        Packet::Op { to, .. } => *to,
        Packet::OpReply { to, .. } => *to,
        Packet::Commit { to, .. } => *to,
        Packet::Outcome { to, .. } => *to,
        Packet::Drop { to, .. } => *to,
    }
}

fn fate_word(fate: Fate) -> &'static [u8]
    ensures { result.now ≡ fate_word fate }
{
    match fate {
        Fate::Down => b"down",
        Fate::Stopped => b"stopped",
        Fate::Taken => b"taken",
        Fate::Fed => b"fed",
        Fate::Busy => b"busy",
        Fate::Used => b"used",
        Fate::Ignored => b"ignored",
        Fate::Lost => b"lost",
    }
}

// Two words.
fn add_pair(out: &mut Vec<u8>, first: &[u8], second: &[u8]) -> Result<(), AllocError>
    ensures { OnOk result (out.new.items ≡ said out.old.items (first.now ∷ second.now ∷ [])) }
{
    add_word(out, first)?;
    add_word(out, second)?;
    Ok(())
}

/// Appends the answer of an event.
pub(crate) fn add_answer(
    out: &mut Vec<u8>,
    program: &Program,
    answer: &Answer,
) -> Result<(), AllocError>
    ensures { OnOk result (out.new.items ≡ said out.old.items (answer_words program.now answer.now)) }
{
    match answer {
        Answer::Taken => add_word(out, b"taken"),
        Answer::Kept => add_word(out, b"kept"),
        Answer::Lost => add_word(out, b"lost"),
        Answer::MissedDown => add_pair(out, b"missed", b"down"),
        Answer::MissedReplaying => add_pair(out, b"missed", b"replaying"),
        Answer::MissedBusy => add_pair(out, b"missed", b"busy"),
        Answer::Empty => add_word(out, b"empty"),
        Answer::Unknown => add_word(out, b"unknown"),
        Answer::Packet(number, packet, fate) => {
            add_number(out, u64::from(*number))?;
            add_packet(out, program, packet)?;
            add_word(out, fate_word(*fate))?;
            Ok(())
        }
        Answer::Down => add_word(out, b"down"),
        Answer::Replaying => add_word(out, b"replaying"),
        Answer::Busy => add_word(out, b"busy"),
        Answer::Idle => add_word(out, b"idle"),
        Answer::Stopped => add_word(out, b"stopped"),
        Answer::Ended => add_word(out, b"done"),
        Answer::Already => add_word(out, b"already"),
        Answer::Up => add_word(out, b"up"),
    }
}
