use crate::Component;
use crate::checkpoint::{before_own, reads_same, through_last};
use crate::done::{Done, NodeRefused};
use crate::load::reloaded;
use crate::node::Node;
use crate::stop::{refusal_of, stop_or_never};
use crate::up::{Recovery, cut_load, done_up, pcom_up, tcom_up};
use ic_base::{Answer, Program, Steps, Stop};
use ic_disk::{Disk, TornDisk};
use ic_gate::{EncodedRecords, LoadRefused};
use std::alloc::Global;
use std::mem;
use std::sync::ledger::Ledger;

impl<D: Disk> Component<TornDisk<D>> {
    ghost use Rattle.std.specs.Prelude.{◌≡◌, ◌+◌, ◌≤◌, true, false, length, Some, None, is_ok, IfOk, IfErr};
    ghost use Rattle.def_run.specs.Reports.{played_by};
    ghost use Rattle.ic_base.specs.Programs.{is_a_tcom};
    ghost use Rattle.def_step.specs.Settle.{is_down};
    ghost use Rattle.def_step.specs.World.{is_reached, load_calls};
    ghost use Rattle.ic_gate.specs.Reading as reading;
    ghost use Rattle.ic_node.specs.DeviceCalls.{MakesCalls, recovery_calls};
    ghost use Rattle.ic_node.specs.Doing.{IsAllowed};
    ghost use Rattle.ic_node.specs.Loading as loads;
    ghost use Rattle.ic_node.specs.Meeting.{KeepsDisk, CrashAdds};
    ghost use Rattle.ic_node.specs.Nodes.{disk_in};
    ghost use Rattle.ic_node.specs.Recovering.{Recovers, would_begin, FailsToRecover};
    ghost use Rattle.ic_node.specs.Views.{node_of, com_of, is_over, disk_of};

    /// It is over, and its disk alone is left.
    pub(crate) fn refuses(&mut self, refused: LoadRefused<TornDisk<D>>) -> NodeRefused
        requires outside { disk_in self.old.node ≡ None }
        ensures why { result ≡ loads.refusal_of refused.why }
        ensures disk { disk_of self.new ≡ Some refused.disk }
    {
        self.node.put(Node::Off(refused.disk));
        self.over = true;
        refusal_of(refused.why)
    }

    /// A stop cuts the load off: the log is loaded behind it, and the component stays down. The records that it kept are given up before.
    pub(crate) fn stops_in_load(
        &mut self,
        alloc: Global,
        program: &Program,
        fingerprint: &[u8; 32],
        stop: Stop,
    ) -> Result<Done, NodeRefused>
        requires going { is_over self.old ≡ false }
        requires down { is_down (node_of self.old) ≡ true }
        requires first { 1 ≤ stop.call }
        requires within { stop.call ≤ load_calls program.now (com_of self.old) }
        ensures step { IfOk result (Recovers program.now self.old (Some stop) self.new) }
        ensures disk { KeepsDisk self.old self.new }
        ensures crash { CrashAdds (would_begin program.now self.old) self.old self.new }
        ensures calls { MakesCalls (λ free. recovery_calls program.now (com_of self.old) (node_of self.old)) (Some stop) (is_ok result) self.old self.new }
        ensures refused { IfErr result (FailsToRecover D.Disk program.now fingerprint.now self.old (Some stop) self.new) }
        ensures played { IfOk result (λ done. played_by (node_of self.old) (node_of self.new) ≡ 0) }
    {
        let node = mem::replace(&mut self.node, Node::Ext);
        let Node::Off(disk) = node else {
            unreachable!()
        };
        self.kept = EncodedRecords::new(alloc);
        match cut_load(alloc, program, self.com, disk, fingerprint, stop) {
            Ok((disk, kept)) => {
                self.node.put(Node::Off(disk));
                self.kept = kept;
                Ok(Done::just(alloc, Answer::Stopped))
            }
            Err(refused) => Err(self.refuses(refused)),
        }
    }

    /// A Pcom comes up from its log. Where the disk reads another number of records behind the last checkpoint than it held, its log is bad.
    /// The records behind the checkpoint that it kept are given up before they are read.
    pub(crate) fn pcom_recovers<L: Ledger>(
        &mut self,
        alloc: Global,
        program: &Program,
        fingerprint: &[u8; 32],
        stop: Option<Stop>,
        steps: &mut Steps<L>,
    ) -> Result<Done, NodeRefused>
        requires going { is_over self.old ≡ false }
        requires down { is_down (node_of self.old) ≡ true }
        requires pcom { is_a_tcom program.now (com_of self.old) ≡ false }
        requires stop { IsAllowed stop }
        requires beyond { is_reached stop (length reading.tail_calls) ≡ false }
        ensures step { IfOk result (Recovers program.now self.old stop self.new) }
        ensures disk { KeepsDisk self.old self.new }
        ensures crash { CrashAdds (would_begin program.now self.old) self.old self.new }
        ensures calls { MakesCalls (λ free. recovery_calls program.now (com_of self.old) (node_of self.old)) stop (is_ok result) self.old self.new }
        ensures refused { IfErr result (FailsToRecover D.Disk program.now fingerprint.now self.old stop self.new) }
        ensures played { IfOk result (λ done. steps.new ≡ steps.old + played_by (node_of self.old) (node_of self.new)) }
    {
        let node = mem::replace(&mut self.node, Node::Ext);
        let Node::Off(disk) = node else {
            unreachable!()
        };
        let stop = stop_or_never(stop);
        let kept = mem::replace(&mut self.kept, EncodedRecords::new(alloc));
        let (through, behind) = through_last(alloc, kept);
        match pcom_up(alloc, program, self.com, disk, fingerprint, stop, steps) {
            Ok((pcom, told)) => {
                let same = reads_same(&pcom, behind);
                let done = done_up(&pcom, told);
                self.kept = before_own(alloc, through, &pcom);
                self.node.put(Node::Per(pcom));
                self.over = !same;
                if same {
                    Ok(done)
                } else {
                    Err(NodeRefused::Bad(0))
                }
            }
            Err(refused) => Err(self.refuses(refused)),
        }
    }

    /// A Tcom comes up from its log, in the next epoch. Where its stop cuts the force of that epoch's record off, the log is
    /// loaded once more, and the component stays down. The records that it kept are given up before they are read.
    pub(crate) fn tcom_recovers(
        &mut self,
        alloc: Global,
        program: &Program,
        fingerprint: &[u8; 32],
        stop: Option<Stop>,
    ) -> Result<Done, NodeRefused>
        requires going { is_over self.old ≡ false }
        requires down { is_down (node_of self.old) ≡ true }
        requires tcom { is_a_tcom program.now (com_of self.old) ≡ true }
        requires stop { IsAllowed stop }
        requires beyond { is_reached stop (length reading.load_calls) ≡ false }
        ensures step { IfOk result (Recovers program.now self.old stop self.new) }
        ensures disk { KeepsDisk self.old self.new }
        ensures crash { CrashAdds (would_begin program.now self.old) self.old self.new }
        ensures calls { MakesCalls (λ free. recovery_calls program.now (com_of self.old) (node_of self.old)) stop (is_ok result) self.old self.new }
        ensures refused { IfErr result (FailsToRecover D.Disk program.now fingerprint.now self.old stop self.new) }
        ensures played { IfOk result (λ done. played_by (node_of self.old) (node_of self.new) ≡ 0) }
    {
        let node = mem::replace(&mut self.node, Node::Ext);
        let Node::Off(disk) = node else {
            unreachable!()
        };
        let stop = stop_or_never(stop);
        self.kept = EncodedRecords::new(alloc);
        match tcom_up(alloc, program, self.com, disk, fingerprint, stop) {
            Ok(Recovery::Up(tcom)) => {
                self.node.put(Node::Tra(tcom));
                Ok(Done::just(alloc, Answer::Up))
            }
            Ok(Recovery::Cut(disk)) => match reloaded(alloc, self.com, disk, fingerprint) {
                Ok((disk, kept)) => {
                    self.node.put(Node::Off(disk));
                    self.kept = kept;
                    Ok(Done::just(alloc, Answer::Stopped))
                }
                Err(refused) => Err(self.refuses(refused)),
            },
            Err(refused) => Err(self.refuses(refused)),
        }
    }
}
