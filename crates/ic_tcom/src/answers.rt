ghost use Rattle.std.specs.Prelude.{◌≡◌};
ghost use Rattle.ic_base.specs.declared.messages.Packet.TheVariants as packet;
ghost use Rattle.def_step.specs.Tcom as step;

use crate::sitting::Sitting;
use crate::transaction::Transaction;
use ic_base::{AbortCause, Decision, Packet, Record, Session};

/// What becomes of a packet.
#[derive(Debug, Drop)]
pub enum Serving {
    /// It is answered so, or by nothing, and nothing is to be recorded.
    Answered(Option<Packet>),
    /// It is to be decided: once the record is forced it is entered, and only then the packet is put out. Nothing has
    /// changed yet.
    Decides(Record, Packet),
    /// A stamp or a counter would pass its limit. Nothing has changed.
    Full,
}

/// The packet that tells a decision.
pub(crate) fn outcome(
    on: Transaction,
    place: u16,
    session: Option<Session>,
    decision: Decision,
) -> Packet
    ensures { result ≡ packet.Outcome on.tcom on.peer on.n place session decision }
{
    Packet::Outcome {
        from: on.tcom,
        to: on.peer,
        n: on.n,
        place,
        session,
        decision,
    }
}

/// The answer to a packet whose session isn't of the present epoch.
pub(crate) fn of_epoch_before(on: Transaction, place: u16, session: Session, present: u64) -> Packet
    ensures { (x : step.Tcom) → x.book.epoch ≡ present → step.of_old_epoch on.tcom on.peer on.n place session x ≡ step.answers_with x result }
{
    let cause = AbortCause::Epoch(session.epoch, present);
    outcome(on, place, Some(session), Decision::Aborted(cause))
}

/// The answer to a request whose key another session holds.
pub(crate) fn held_by(
    on: Transaction,
    place: u16,
    session: Option<Session>,
    other: &Sitting,
) -> Packet
    ensures { (x : step.Tcom) → step.held_by on.tcom on.peer on.n place session x other.now ≡ step.answers_with x result }
{
    let (holder, number) = other.serves();
    let cause = AbortCause::Held(holder, number);
    outcome(on, place, session, Decision::Aborted(cause))
}
