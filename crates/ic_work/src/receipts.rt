ghost use Rattle.std.specs.Prelude.{◌≡◌};
ghost use Rattle.ic_base.specs.declared.messages.Packet.TheVariants.{Data};
ghost use Rattle.def_step.specs.Calls.{takes_one};
ghost use Rattle.def_step.specs.Packets.{fits_pcom};
ghost use Rattle.def_step.specs.Pcom.{Gets, decide};
ghost use Rattle.ic_node.specs.Calling.{call_of};
ghost use Rattle.ic_node.specs.Views.{node_of, com_of};
ghost use Rattle.ic_pcom.specs.Views.{component_of};
ghost use Rattle.ic_work.specs.Working.{work_of, work_receives};

use crate::work::Work;
use ic_base::limits::GREATEST_NUMBER;
use ic_base::{ComId, Msg, Packet, Program, has_handler, is_number, is_other_pcom};
use ic_disk::Disk;
use ic_node::{Call, Component, Node};
use ic_pcom::Pcom;

/// Whether a message is one that the Pcom c may get (docs/RULES.md, "Packets that fit").
fn is_fitting(program: &Program, c: ComId, msg: &Msg) -> bool
    ensures { result ≡ fits_pcom program.now «c» (Data msg.now) }
{
    is_other_pcom(program, c, msg.from)
        && is_number(msg.k)
        && msg.stamp <= GREATEST_NUMBER
        && has_handler(program, c, msg.handler, msg.args)
}

/// Whether a message of a packet is new to a component that has nothing in hand.
fn takes_packet<D: Disk>(program: &Program, c: ComId, pcom: &Pcom<D>, packet: &Packet) -> bool
    ensures { result ≡ takes_one (decide program.now «c» (component_of pcom.now) (Gets packet.now)).word }
{
    match packet {
        Packet::Data(msg) => {
            is_fitting(program, c, msg) && !pcom.has_taken(msg.from, msg.k) && !pcom.in_hand()
        }
        _ => false,
    }
}

/// Whether a component that is up takes what a call gives it.
fn takes<D: Disk>(program: &Program, c: ComId, pcom: &Pcom<D>, call: &Call) -> bool
    ensures { result ≡ takes_one (decide program.now «c» (component_of pcom.now) (call_of call.now)).word }
{
    match call {
        Call::Gives(_, _) => !pcom.in_hand(),
        Call::Gets(packet) => takes_packet(program, c, pcom, packet),
        _ => false,
    }
}

/// Whether the work receives an input or a new message.
pub fn receives<D: Disk>(program: &Program, c: ComId, x: &Component<D>, work: &Work) -> bool
    ensures { result ≡ work_receives program.now «c» (work_of work.now) (node_of x.now) }
{
    match (x.node(), work) {
        (Node::Per(pcom), Work::Calls(_, call)) => {
            !pcom.is_replaying() && takes(program, c, pcom, call)
        }
        _ => false,
    }
}
