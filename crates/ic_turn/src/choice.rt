ghost use Rattle.std.specs.Prelude.{◌≡◌, true, Some};
ghost use Rattle.ic_base.specs.declared.messages.ComId.{ComId};
ghost use Rattle.def_live.specs.Turns.{IsOwn, is_own, event_of};
ghost use Rattle.ic_turn.specs.Choices.{choice_of};
ghost use Rattle.ic_turn.specs.Works as definition;
ghost use Rattle.ic_work.specs.Working.{work_of};

use ic_base::{ComId, Event, Packet, Stop, What};
use ic_node::Call;
use ic_work::Work;

/// What a turn comes to (docs/RULES.md, "Live runs").
#[derive(Clone, Copy, Debug)]
pub enum Choice {
    /// An event with no word of the list.
    Unlisted(What),
    /// The delivery of a packet.
    Brings(Packet),
    /// The next event of the list.
    Lists(Event),
}

/// The work of an event of the component's own.
fn own_work(c: ComId, what: &What) -> Work
    requires { is_own c what.now ≡ true }
    ensures { definition.asked_by what.now ≡ Some (work_of result) }
{
    match *what {
        What::Input(_, handler, args) => Work::Calls(0, Call::Gives(handler, args)),
        What::Force(_) => Work::Calls(0, Call::Forces),
        What::Checkpoint(_) => Work::Calls(0, Call::Checkpoints),
        What::Resend(_) => Work::Calls(0, Call::Resends),
        What::Emit(_) => Work::Calls(0, Call::Emits),
        What::Crash(_) => Work::Crashes,
        What::Recover(_) => Work::Recovers,
        What::Deliver(_, _) => unreachable!(),
        What::Lose(_, _) => unreachable!(),
        What::Packet(_) => unreachable!(),
    }
}

/// The work of a choice of a component.
pub(crate) fn work_of(c: ComId, choice: &Choice) -> Work
    requires { IsOwn c (choice_of choice.now) }
    ensures { definition.work_of (choice_of choice.now) ≡ Some (work_of result) }
{
    match choice {
        Choice::Unlisted(what) => own_work(c, what),
        Choice::Brings(packet) => Work::Calls(1, Call::Gets(*packet)),
        Choice::Lists(event) => own_work(c, &event.what),
    }
}

/// The stop of the event of a choice. An event of the list alone has one.
pub(crate) fn stop_of(choice: &Choice) -> Option<Stop>
    ensures { (c : ComId) → result ≡ (event_of c (choice_of choice.now)).stop }
{
    match choice {
        Choice::Lists(event) => event.stop,
        _ => None,
    }
}
