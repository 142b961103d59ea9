use crate::Component;
use crate::done::{Call, Done, Ended, NodeRefused};
use crate::first::first_node;
use crate::load::loaded;
use crate::node::Node;
use crate::stop::{NEVER, answer_stopped};
use crate::up::{calls_of_load, stop_in_load};
use ic_base::{Answer, ComId, Program, Steps, Stop, is_a_tcom};
use ic_disk::{Disk, TornDisk};
use ic_gate::{EncodedRecords, LoadRefused, Log};
use std::alloc::Global;
use std::mem;
use std::sync::ledger::Ledger;

impl<D: Disk> Component<TornDisk<D>> {
    ghost use Rattle.std.specs.Prelude.{◌≡◌, ◌+◌, ◌<◌, true, false, [], length, is_ok, IfOk, IfErr, Ok};
    ghost use Rattle.def_run.specs.Reports.{played_by};
    ghost use Rattle.def_run.specs.SystemStates.{has_disk};
    ghost use Rattle.ic_node.specs.Beginning.{IsNew, Starts, IsFound, KeepsMade, LeavesMade, FailsToStart, FailsToBeFound};
    ghost use Rattle.ic_node.specs.DeviceCalls.{MakesCalls, step_calls, recovery_calls};
    ghost use Rattle.ic_node.specs.Views.{node_of, com_of, is_over, disk_of};
    ghost use Rattle.ic_node.specs.Meeting.{KeepsDisk, CrashAdds};
    ghost use Rattle.ic_node.specs.Doing.{IsAllowed, MayStep, Does, would_force, FailsToDo};
    ghost use Rattle.ic_node.specs.Recovering.{Recovers, would_begin, Crashes, FailsToRecover};

    /// The component at its declared values, over a fresh log that is made on a blank disk.
    pub fn start(
        alloc: Global,
        program: &Program,
        com: ComId,
        fingerprint: &[u8; 32],
        disk: TornDisk<D>,
    ) -> Result<Component<TornDisk<D>>, LoadRefused<TornDisk<D>>>
        requires there { com.0 < length program.now.components }
        requires has { has_disk program.now «com» ≡ true }
        requires blank { D.tells disk.inner → D.seen disk.inner ≡ [] }
        requires new { IsNew disk }
        ensures step { IfOk result (Starts program.now «com» fingerprint.now) }
        ensures disk { KeepsMade disk result }
        ensures refused { IfErr result (FailsToStart D.Disk disk) }
    {
        let mut disk = disk;
        disk.arm(NEVER);
        let log = Log::create(alloc, disk, fingerprint, com.0)?;
        let node = first_node(alloc, program, com, log)?;
        Ok(Component {
            com,
            node,
            kept: EncodedRecords::new(alloc),
            over: false,
        })
    }

    /// The component that is down over the log that a disk holds, which is loaded once.
    pub fn found(
        alloc: Global,
        com: ComId,
        fingerprint: &[u8; 32],
        disk: TornDisk<D>,
    ) -> Result<Component<TornDisk<D>>, LoadRefused<TornDisk<D>>>
        requires new { IsNew disk }
        ensures step { IfOk result (IsFound «com» fingerprint.now disk) }
        ensures disk { KeepsMade disk result }
        // It writes nothing, so a crash leaves nothing more.
        ensures crash { LeavesMade disk result }
        ensures refused { IfErr result (FailsToBeFound D.Disk disk fingerprint.now «com».0) }
    {
        let (disk, kept) = loaded(alloc, com, disk, fingerprint)?;
        Ok(Component {
            com,
            node: Node::Off(disk),
            kept,
            over: false,
        })
    }

    /// Makes a call. A stop is armed for it alone: where it is reached nothing is put out, the disk is switched on and its log
    /// loaded once, and the component is down (docs/RULES.md, "Several components").
    pub fn does<L: Ledger>(
        &mut self,
        alloc: Global,
        program: &Program,
        fingerprint: &[u8; 32],
        number: u32,
        call: &Call,
        stop: Option<Stop>,
        steps: &mut Steps<L>,
    ) -> Result<Done, NodeRefused>
        requires ready { MayStep program.now self.old stop }
        ensures step { IfOk result (Does program.now self.old stop number call.now self.new) }
        ensures disk { KeepsDisk self.old self.new }
        // A crash at each moment of the event leaves the forced records, or these with all that the call forces.
        ensures crash { CrashAdds (would_force program.now self.old number call.now) self.old self.new }
        ensures calls { MakesCalls (step_calls program.now self.old number call.now) stop (is_ok result) self.old self.new }
        ensures refused { IfErr result (FailsToDo D.Disk program.now fingerprint.now self.old call.now self.new) }
        ensures played { IfOk result (λ done. steps.new ≡ steps.old + played_by (node_of self.old) (node_of self.new)) }
    {
        let before = self.forced();
        match self.ends(alloc, program, fingerprint, number, call, stop, steps)? {
            Ended::Done(done) => Ok(done),
            Ended::Cut => {
                self.lies_down(alloc, fingerprint)?;
                let is_open = self.kept.len() > before;
                Ok(Done::just(alloc, answer_stopped(number, is_open, call)))
            }
        }
    }

    /// Comes up from its log, if it is down. A stop is armed for it alone, as in a call.
    pub fn recovers<L: Ledger>(
        &mut self,
        alloc: Global,
        program: &Program,
        fingerprint: &[u8; 32],
        stop: Option<Stop>,
        steps: &mut Steps<L>,
    ) -> Result<Done, NodeRefused>
        requires going { is_over self.old ≡ false }
        requires stop { IsAllowed stop }
        ensures step { IfOk result (Recovers program.now self.old stop self.new) }
        ensures disk { KeepsDisk self.old self.new }
        // A crash at each moment of the event leaves the records that are there, or these with the next epoch of a Tcom.
        ensures crash { CrashAdds (would_begin program.now self.old) self.old self.new }
        ensures calls { MakesCalls (λ free. recovery_calls program.now (com_of self.old) (node_of self.old)) stop (is_ok result) self.old self.new }
        ensures refused { IfErr result (FailsToRecover D.Disk program.now fingerprint.now self.old stop self.new) }
        ensures played { IfOk result (λ done. steps.new ≡ steps.old + played_by (node_of self.old) (node_of self.new)) }
    {
        if !self.is_down() {
            return Ok(Done::just(alloc, Answer::Already));
        }
        if let Some(stop) = stop_in_load(calls_of_load(program, self.com), stop) {
            return self.stops_in_load(alloc, program, fingerprint, stop);
        }
        if is_a_tcom(program, self.com) {
            return self.tcom_recovers(alloc, program, fingerprint, stop);
        }
        self.pcom_recovers(alloc, program, fingerprint, stop, steps)
    }

    /// A crash: its disk alone is left, with the records that it holds.
    pub fn crashes(&mut self, alloc: Global) -> Result<Done, NodeRefused>
        requires going { is_over self.old ≡ false }
        ensures step { IfOk result (Crashes self.old self.new) }
        ensures disk { disk_of self.new ≡ disk_of self.old }
        ensures refused { IfErr result (λ why. why ≡ NodeRefused.Memory) }
    {
        match mem::replace(&mut self.node, Node::Ext) {
            Node::Per(pcom) => {
                let (disk, own) = pcom.crash_with_records();
                self.node.put(Node::Off(disk));
                self.over = true;
                let before = mem::replace(&mut self.kept, EncodedRecords::new(alloc));
                self.kept = before.followed_by(own)?;
                self.over = false;
                Ok(Done::just(alloc, Answer::Ended))
            }
            Node::Tra(tcom) => {
                let (disk, kept) = tcom.crash_with_records();
                self.node.put(Node::Off(disk));
                self.kept = kept;
                Ok(Done::just(alloc, Answer::Ended))
            }
            Node::Off(disk) => {
                self.node.put(Node::Off(disk));
                Ok(Done::just(alloc, Answer::Down))
            }
            Node::Ext => Ok(Done::just(alloc, Answer::Down)),
        }
    }
}
