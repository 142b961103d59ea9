ghost use Rattle.std.specs.Prelude.{◌≡◌};
ghost use Rattle.def_step.specs.World as world;
ghost use Rattle.ic_node.specs.Calling.{call_of};

use crate::done::{Call, Done};
use crate::pcom_step::pcom_step;
use crate::tcom_step::tcom_step;
use ic_base::{Answer, Fate, Program, Steps, Stop};
use ic_disk::{Disk, TornDisk};
use ic_pcom::{PacketRefused, Pcom};
use ic_tcom::Tcom;
use std::alloc::Global;
use std::mem;
use std::sync::ledger::Ledger;

/// What a component is, and whether it is up.
#[derive(Drop)]
pub enum Node<D: Disk> {
    /// A persistent component that is up.
    Per(Pcom<D>),
    /// A transactional component that is up.
    Tra(Tcom<D>),
    /// The disk of one of these that is down.
    Off(D),
    /// A component outside, which has no disk.
    Ext,
}

/// The answer of a component that is down.
fn answer_down(number: u32, call: &Call) -> Answer
    ensures { result ≡ world.answer_down number (call_of call.now) }
{
    match *call {
        Call::Gives(_, _) => Answer::MissedDown,
        Call::Gets(p) => Answer::Packet(number, p, Fate::Down),
        _ => Answer::Down,
    }
}

impl<D: Disk> Node<D> {
    ghost use Rattle.std.specs.Prelude.{◌≡◌, ◌≤◌, true, length, List, None, IfOk};
    ghost use Rattle.ic_base.specs.declared.limits.TheConstants.{COMPONENTS};
    ghost use Rattle.ic_base.specs.declared.messages.ComId.{ComId};
    ghost use Rattle.ic_base.specs.declared.record.Record.{Record};
    ghost use Rattle.ic_node.specs.Nodes.{node_with, disk_in};
    ghost use Rattle.ic_node.specs.Sittings.{AreWritable};
    ghost use Rattle.ic_node.specs.Standing.{com_in};
    ghost use Rattle.ic_node.specs.Steps.{idle_answer, is_live, HoldsForced, StepsOn, StaysLive, Counts};

    /// Its disk. None exactly of a component outside.
    pub(crate) fn into_disk(self) -> Option<D>
        ensures { result ≡ disk_in self }
    {
        match self {
            Node::Per(pcom) => Some(pcom.crash()),
            Node::Tra(tcom) => Some(tcom.crash()),
            Node::Off(disk) => Some(disk),
            Node::Ext => None,
        }
    }

    /// Puts a node where none with a disk stands.
    pub(crate) fn put(&mut self, node: Node<D>)
        requires outside { disk_in self.old ≡ None }
        ensures { self.new ≡ node }
    {
        let old = mem::replace(self, node);
        let Node::Ext = old else { unreachable!() };
    }

    /// The answer where there is nothing to do for a call.
    pub(crate) fn idle_answer(&self, number: u32, call: &Call) -> Option<Answer>
        ensures { (kept : List Record) → result ≡ idle_answer (node_with kept self.now) number (call_of call.now) }
    {
        match self {
            Node::Per(_) => None,
            Node::Tra(_) => match *call {
                Call::Gets(_) => None,
                _ => Some(Answer::Idle),
            },
            Node::Off(_) => Some(answer_down(number, call)),
            Node::Ext => Some(Answer::Idle),
        }
    }

    /// Makes a call, for which there is something to do.
    pub(crate) fn step<L: Ledger>(
        &mut self,
        alloc: Global,
        program: &Program,
        number: u32,
        call: &Call,
        steps: &mut Steps<L>,
    ) -> Result<Done, PacketRefused>
        requires live { is_live self.old ≡ true }
        requires busy { (kept : List Record) → idle_answer (node_with kept self.old) number (call_of call.now) ≡ None }
        requires few { length program.now.components ≤ COMPONENTS }
        requires fit { ∥ AreWritable self.old ∥₁ }
        ensures step { (c : ComId) (kept : List Record) → HoldsForced D.Disk (node_with kept self.old) (disk_in self.old) → StepsOn D.Disk program.now (com_in c self.old) (node_with kept self.old) (disk_in self.old) number (call_of call.now) (node_with kept self.new) (disk_in self.new) result }
        ensures live { IfOk result (λ done. StaysLive self.old self.new) }
        ensures steps { (kept : List Record) → Counts steps.old steps.new (node_with kept self.old) (node_with kept self.new) result }
    {
        match self {
            Node::Per(pcom) => pcom_step(pcom, alloc, program, number, call, steps),
            Node::Tra(tcom) => {
                let Call::Gets(p) = *call else { unreachable!() };
                tcom_step(tcom, alloc, program, number, &p)
            }
            _ => unreachable!(),
        }
    }
}

impl<D: Disk> Node<TornDisk<D>> {
    ghost use Rattle.std.specs.Prelude.{◌≡◌, Some, None};
    ghost use Rattle.ic_disk.specs.Armings.{set_by};
    ghost use Rattle.ic_node.specs.Nodes.{disk_in};
    ghost use Rattle.ic_node.specs.Steps.{with_script, IsSameNode, reached_on};

    /// Sets a stop of its disk. Its device calls are counted from 1 from here on.
    pub(crate) fn arm(&mut self, stop: Stop)
        ensures disk { disk_in self.new ≡ with_script (Some (set_by stop)) (disk_in self.old) }
        ensures same { IsSameNode self.old self.new }
    {
        match self {
            Node::Per(pcom) => pcom.arm(stop),
            Node::Tra(tcom) => tcom.arm(stop),
            Node::Off(disk) => disk.arm(stop),
            Node::Ext => {}
        }
    }

    /// Takes the stop of its disk away, and tells whether it was reached.
    pub(crate) fn disarm(&mut self) -> bool
        ensures reached { result ≡ reached_on (disk_in self.old) }
        ensures disk { disk_in self.new ≡ with_script None (disk_in self.old) }
        ensures same { IsSameNode self.old self.new }
    {
        match self {
            Node::Per(pcom) => pcom.disarm(),
            Node::Tra(tcom) => tcom.disarm(),
            Node::Off(disk) => disk.disarm(),
            Node::Ext => false,
        }
    }
}
