ghost use Rattle.std.specs.Prelude.{◌≡◌, ◌+◌, true, IfOk, IfErr, is_ok};
ghost use Rattle.def_standby.specs.Standbys.{contents_among};
ghost use Rattle.def_state.specs.Vol.{numbers_fit};
ghost use Rattle.ic_ckpt.specs.Views.{seen};
ghost use Rattle.ic_disk.specs.Disk.{Keeps, CrashLeaves};
ghost use Rattle.ic_disk.specs.Torns.{is_working};
ghost use Rattle.ic_pcom.specs.Stages.{HasPeers};
ghost use Rattle.ic_pcom.specs.Views.{played_of};
ghost use Rattle.ic_node.specs.DeviceCalls.{MakesLoad};
ghost use Rattle.ic_node.specs.TakingOver.{PcomIsOver, PcomFails, pcom_disk};

use crate::Component;
use crate::done::NodeRefused;
use crate::node::Node;
use crate::stop::NEVER;
use ic_base::{ComId, Msg, Program, Steps};
use ic_ckpt::State;
use ic_disk::{Disk, TornDisk};
use ic_gate::{EncodedRecords, LoadRefused};
use ic_pcom::Pcom;
use std::alloc::Global;
use std::mem;
use std::sync::ledger::Ledger;

/// A Pcom comes up as its standby over its log. No stop is reached.
fn adopted<D: Disk, L: Ledger>(
    alloc: Global,
    program: &Program,
    com: ComId,
    disk: TornDisk<D>,
    fingerprint: &[u8; 32],
    state: State,
    have: u64,
    msgs: &[Msg],
    steps: &mut Steps<L>,
) -> Result<Pcom<TornDisk<D>>, LoadRefused<TornDisk<D>>>
    requires works { is_working ⟦<TornDisk<D> as Disk>⟧ disk ≡ true }
    requires limits { numbers_fit (seen state) ≡ true }
    requires peers { HasPeers (seen state) }
    ensures step { IfOk result (PcomIsOver D.Disk program.now «com» (contents_among «com» msgs.now) (seen state) have disk) }
    ensures disk { Keeps ⟦<TornDisk<D> as Disk>⟧ disk (pcom_disk result) }
    ensures crash { CrashLeaves ⟦<TornDisk<D> as Disk>⟧ disk (pcom_disk result) (⟦<TornDisk<D> as Disk>⟧.may_leave disk) }
    ensures calls { MakesLoad (is_ok result) disk.made (pcom_disk result).made }
    ensures refused { IfErr result (PcomFails D.Disk program.now «com» (contents_among «com» msgs.now) (seen state) have disk fingerprint.now) }
    ensures steps { IfOk result (λ up. steps.new ≡ steps.old + played_of up) }
{
    let mut disk = disk;
    disk.arm(NEVER);
    match Pcom::adopt(
        alloc,
        program,
        com,
        disk,
        fingerprint,
        state,
        have,
        msgs,
        steps,
    ) {
        Ok(mut pcom) => {
            pcom.arm(NEVER);
            Ok(pcom)
        }
        Err(refused) => Err(refused),
    }
}

impl<D: Disk> Component<TornDisk<D>> {
    ghost use Rattle.std.specs.Prelude.{◌≡◌, ◌+◌, true, false, [], IfOk, IfErr, is_ok};
    ghost use Rattle.def_step.specs.Settle.{is_down};
    ghost use Rattle.ic_node.specs.DeviceCalls.{MakesLoad, made_at};
    ghost use Rattle.ic_node.specs.Meeting.{KeepsDisk, CrashAdds};
    ghost use Rattle.ic_node.specs.TakingOver.{TakesOver, FailsToTakeOver};
    ghost use Rattle.ic_node.specs.Views.{node_of, com_of, is_over};

    /// A Pcom that is down comes up as its standby, which has played the first `have` records of its log: those behind them are
    /// played on from that state, each that takes a message by identity with that one of `msgs`. It puts nothing out. Answers
    /// how many records were played.
    pub fn takes_over<L: Ledger>(
        &mut self,
        alloc: Global,
        program: &Program,
        fingerprint: &[u8; 32],
        state: State,
        have: u64,
        msgs: &[Msg],
        steps: &mut Steps<L>,
    ) -> Result<u64, NodeRefused>
        requires going { is_over self.old ≡ false }
        requires down { is_down (node_of self.old) ≡ true }
        requires limits { numbers_fit (seen state) ≡ true }
        requires peers { HasPeers (seen state) }
        ensures step { IfOk result (TakesOver program.now self.old (contents_among (com_of self.old) msgs.now) (seen state) have self.new) }
        ensures disk { KeepsDisk self.old self.new }
        // It writes nothing, so a crash leaves the records that are there.
        ensures crash { CrashAdds [] self.old self.new }
        // It loads the log once.
        ensures calls { MakesLoad (is_ok result) (made_at self.old) (made_at self.new) }
        ensures refused { IfErr result (FailsToTakeOver D.Disk program.now fingerprint.now self.old (contents_among (com_of self.old) msgs.now) (seen state) have self.new) }
        ensures steps { IfOk result (λ played. steps.new ≡ steps.old + played) }
    {
        let node = mem::replace(&mut self.node, Node::Ext);
        let Node::Off(disk) = node else {
            unreachable!()
        };
        self.kept = EncodedRecords::new(alloc);
        match adopted(
            alloc,
            program,
            self.com,
            disk,
            fingerprint,
            state,
            have,
            msgs,
            steps,
        ) {
            Ok(pcom) => {
                let played = pcom.played();
                self.node.put(Node::Per(pcom));
                Ok(played)
            }
            Err(refused) => Err(self.refuses(refused)),
        }
    }
}
