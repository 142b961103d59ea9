ghost use Rattle.std.specs.Prelude.{◌≡◌};
ghost use Rattle.def_step.specs.World as world;
ghost use Rattle.ic_node.specs.Calling.{call_of};
ghost use Rattle.ic_node.specs.Ending as ending;
ghost use Rattle.ic_node.specs.Loading as loads;
ghost use Rattle.ic_disk.specs.Torns.{or_never};

use crate::Component;
use crate::done::{Call, Done, Ended, NodeRefused};
use crate::load::reloaded;
use crate::node::Node;
use ic_base::{Answer, Fate, Fill, Program, Steps, Stop};
use ic_disk::{Disk, TornDisk};
use ic_gate::{EncodedRecords, LoadWhy};
use ic_pcom::PacketRefused;
use std::alloc::Global;
use std::mem;
use std::sync::ledger::Ledger;

/// A stop that is never reached.
pub(crate) const NEVER: Stop = Stop {
    call: 0,
    keep: 0,
    fill: Fill::Old,
};

/// The stop that is set for a call: one that is never reached where none is asked for.
pub(crate) fn stop_or_never(stop: Option<Stop>) -> Stop
    ensures { result ≡ or_never stop }
{
    match stop {
        Some(stop) => stop,
        None => NEVER,
    }
}

/// The answer of a step that a stop cut off, by whether its batch stands.
pub(crate) fn answer_stopped(number: u32, is_open: bool, call: &Call) -> Answer
    ensures { result ≡ world.answer_stopped number is_open (call_of call.now) }
{
    match *call {
        Call::Gives(_, _) => { if is_open { Answer::Kept } else { Answer::Lost } }
        Call::Gets(p) => Answer::Packet(number, p, Fate::Stopped),
        _ => Answer::Stopped,
    }
}

/// Why a log isn't loaded, as the refusal of an event.
pub(crate) fn refusal_of(why: LoadWhy) -> NodeRefused
    ensures { result ≡ loads.refusal_of why }
{
    match why {
        LoadWhy::Bad(place) => NodeRefused::Bad(place),
        LoadWhy::Foreign(kept) => NodeRefused::Foreign(kept),
        LoadWhy::Failed | LoadWhy::Stopped => NodeRefused::Failed,
        LoadWhy::Memory => NodeRefused::Memory,
    }
}

/// What a refused step comes to on whose disk a stop is set for it alone: nothing where the stop cut it off, else a refusal.
fn refused(why: PacketRefused, is_reached: bool) -> Result<Ended, NodeRefused>
    ensures { result ≡ ending.refusal_of why is_reached }
{
    match why {
        PacketRefused::Full => Err(NodeRefused::Full),
        PacketRefused::Memory => Err(NodeRefused::Memory),
        PacketRefused::Failed => Err(NodeRefused::Failed),
        PacketRefused::Bad(place) => Err(NodeRefused::Bad(place)),
        PacketRefused::Stopped => {
            if is_reached {
                Ok(Ended::Cut)
            } else {
                Err(NodeRefused::Failed)
            }
        }
    }
}

impl<D: Disk> Component<TornDisk<D>> {
    ghost use Rattle.std.specs.Prelude.{◌≡◌, ◌+◌, ◌≤◌, false, length, IfOk, IfErr, OnOk};
    ghost use Rattle.ic_gate.specs.Reading.{load_calls};
    ghost use Rattle.ic_node.specs.Cutting.{is_halted, EndsBy, LiesDown, FailsToLieDown};
    ghost use Rattle.ic_node.specs.DeviceCalls.{EndsWith, made_at};
    ghost use Rattle.ic_node.specs.Ending.{CountsPlayed};
    ghost use Rattle.ic_node.specs.Doing.{MayStep, FailsToDo, would_force};
    ghost use Rattle.ic_node.specs.Meeting.{KeepsDisk, CrashAdds, left_disk};
    ghost use Rattle.ic_node.specs.Standing.{leave_of};
    ghost use Rattle.ic_node.specs.Views.{node_of, disk_of};

    /// Makes a call with its stop armed. Where it isn't done the component is over.
    pub(crate) fn ends<L: Ledger>(
        &mut self,
        alloc: Global,
        program: &Program,
        fingerprint: &[u8; 32],
        number: u32,
        call: &Call,
        stop: Option<Stop>,
        steps: &mut Steps<L>,
    ) -> Result<Ended, NodeRefused>
        requires ready { MayStep program.now self.old stop }
        ensures step { IfOk result (EndsBy D.Disk program.now self.old stop number call.now self.new) }
        ensures disk { KeepsDisk self.old self.new }
        ensures crash { CrashAdds (would_force program.now self.old number call.now) self.old self.new }
        ensures calls { EndsWith program.now self.old stop number call.now self.new result }
        ensures refused { IfErr result (FailsToDo D.Disk program.now fingerprint.now self.old call.now self.new) }
        ensures played { IfOk result (CountsPlayed steps.old steps.new (node_of self.old) (node_of self.new)) }
    {
        if let Some(answer) = self.node.idle_answer(number, call) {
            return Ok(Ended::Done(Done::just(alloc, answer)));
        }
        self.node.arm(stop_or_never(stop));
        let made = self.node.step(alloc, program, number, call, steps);
        let reached = self.node.disarm();
        match made {
            Ok(done) => {
                self.node.arm(NEVER);
                Ok(Ended::Done(done))
            }
            Err(why) => {
                self.over = true;
                refused(why, reached)
            }
        }
    }

    /// The disk behind a stop is switched on and its log loaded once; nothing else is left of the component.
    pub(crate) fn lies_down(
        &mut self,
        alloc: Global,
        fingerprint: &[u8; 32],
    ) -> Result<(), NodeRefused>
        requires halted { is_halted D.Disk (disk_of self.old) }
        ensures step { OnOk result (LiesDown D.Disk fingerprint.now self.old self.new) }
        ensures disk { KeepsDisk self.old self.new }
        ensures crash { left_disk ⟦<TornDisk<D> as Disk>⟧ (disk_of self.old) (disk_of self.new) (leave_of ⟦<TornDisk<D> as Disk>⟧ (disk_of self.old)) }
        ensures calls { made_at self.new ≤ made_at self.old + length load_calls }
        ensures refused { IfErr result (FailsToLieDown D.Disk fingerprint.now self.old (disk_of self.new)) }
    {
        let Some(disk) = mem::replace(&mut self.node, Node::Ext).into_disk() else {
            unreachable!()
        };
        self.kept = EncodedRecords::new(alloc);
        match reloaded(alloc, self.com, disk, fingerprint) {
            Ok((disk, kept)) => {
                self.node.put(Node::Off(disk));
                self.kept = kept;
                self.over = false;
                Ok(())
            }
            Err(refused) => {
                self.node.put(Node::Off(refused.disk));
                self.over = true;
                Err(refusal_of(refused.why))
            }
        }
    }
}
