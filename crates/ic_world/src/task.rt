ghost use Rattle.std.specs.Prelude.{◌≡◌, List, Some};
ghost use Rattle.ic_base.specs.declared.messages.ComId.{ComId};
ghost use Rattle.ic_base.specs.declared.messages.Output.{Output};
ghost use Rattle.def_step.specs.World.{Node, packet_at};
ghost use Rattle.ic_network.specs.Networks.{in_world};
ghost use Rattle.ic_world.specs.Tasks as definition;
ghost use Rattle.ic_world.specs.Working.{told_task, with_network};

use ic_base::{Answer, ComId, Fate, What};
use ic_network::{Network, receiver_of};
use ic_node::Call;
use ic_work::Work;

/// What an event asks of a component; or what it is answered where it asks nothing of any.
#[derive(Clone, Copy, Debug)]
pub enum Task {
    Asks(ComId, Work),
    Answers(Answer),
}

/// The task of an event. A packet that is delivered or lost waits no longer.
pub(crate) fn task_of(network: &mut Network, what: &What) -> Task
    ensures task { (nodes : List Node) (showings : List (ComId × Output)) → definition.task_of (with_network nodes showings network.old.network) what.now ≡ told_task (with_network nodes showings network.new.network) result }
    ensures packets { network.new.network.packets ≡ network.old.network.packets }
{
    match *what {
        What::Input(c, handler, args) => Task::Asks(c, Work::Calls(0, Call::Gives(handler, args))),
        What::Deliver(from, to) => match network.oldest_of(from, to) {
            Some(number) => delivered(network, number),
            None => Task::Answers(Answer::Empty),
        },
        What::Lose(from, to) => match network.oldest_of(from, to) {
            Some(number) => lost(network, number),
            None => Task::Answers(Answer::Empty),
        },
        What::Packet(number) => delivered(network, number),
        What::Force(c) => Task::Asks(c, Work::Calls(0, Call::Forces)),
        What::Checkpoint(c) => Task::Asks(c, Work::Calls(0, Call::Checkpoints)),
        What::Resend(c) => Task::Asks(c, Work::Calls(0, Call::Resends)),
        What::Emit(c) => Task::Asks(c, Work::Calls(0, Call::Emits)),
        What::Crash(c) => Task::Asks(c, Work::Crashes),
        What::Recover(c) => Task::Asks(c, Work::Recovers),
    }
}

/// The packet of a number goes to its receiver.
fn delivered(network: &mut Network, number: u32) -> Task
    ensures task { (nodes : List Node) (showings : List (ComId × Output)) → definition.delivered (with_network nodes showings network.old.network) number (packet_at (in_world network.old.network) number) ≡ told_task (with_network nodes showings network.new.network) result }
    ensures packets { network.new.network.packets ≡ network.old.network.packets }
{
    match network.packet(number) {
        Some(packet) => {
            network.take_off(number);
            Task::Asks(
                receiver_of(&packet),
                Work::Calls(number, Call::Gets(packet)),
            )
        }
        None => Task::Answers(Answer::Unknown),
    }
}

/// The packet of a number goes to nobody.
fn lost(network: &mut Network, number: u32) -> Task
    ensures task { (nodes : List Node) (showings : List (ComId × Output)) → definition.lost (with_network nodes showings network.old.network) number (packet_at (in_world network.old.network) number) ≡ told_task (with_network nodes showings network.new.network) result }
    ensures packets { network.new.network.packets ≡ network.old.network.packets }
{
    match network.packet(number) {
        Some(packet) => {
            network.take_off(number);
            Task::Answers(Answer::Packet(number, packet, Fate::Lost))
        }
        None => Task::Answers(Answer::Empty),
    }
}
