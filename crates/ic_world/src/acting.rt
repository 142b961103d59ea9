ghost use Rattle.std.specs.Prelude.{◌≡◌, ◌+◌, ◌≤◌, ◌<◌, false, true, cond, length, is_ok, IsNone, IfSome, IfOk, IfErr};
ghost use Rattle.ic_base.specs.declared.limits.TheConstants.{COMPONENTS, RECEIPTS};
ghost use Rattle.def_run.specs.Reports.{played_by_all};
ghost use Rattle.ic_node.specs.Doing.{IsAllowed};
ghost use Rattle.def_step.specs.World.{node_at};
ghost use Rattle.ic_world.specs.Acting.{Acts, Admits, ReceivesTooMuch, KeepsOthers, CrashAddsAt, MakesCallsAt, FailsToAct, IsTold, FailsToTell};
ghost use Rattle.ic_world.specs.Allowing.{is_kept};
ghost use Rattle.ic_world.specs.Standing.{ArePlaced, HoldLogs};
ghost use Rattle.ic_world.specs.Views.{components_of, world_of, print_of, received_of, is_over};

use crate::World;
use crate::telling::told;
use ic_base::limits::{PACKETS, RECEIPTS};
use ic_base::{ComId, Event, Program, Steps, Trace, Which, WorldRefused};
use ic_disk::{Disk, TornDisk};
use ic_node::Done;
use ic_work::{Work, does_work, receives, refusal};
use std::alloc::Global;
use std::sync::ledger::Ledger;

/// How many receipts a step adds that receives something, or not.
fn receipts(more: bool) -> u64
    ensures { result ≡ cond «more» 1 0 }
{
    if more { 1 } else { 0 }
}

impl<D: Disk> World<D> {
    /// Whether the work receives something; None where that would be one thing more than may be received.
    fn admits(&self, program: &Program, c: ComId, work: &Work) -> Option<bool>
        requires there { «c».0 < length (components_of self.now) }
        ensures admitted { IfSome result (Admits program.now self.now «c» work.now) }
        ensures refused { IsNone result → ReceivesTooMuch program.now self.now «c» work.now }
    {
        let more = receives(program, c, self.component(c), work);
        if more && self.received == RECEIPTS {
            None
        } else {
            Some(more)
        }
    }

    /// What came of a component's work is put out, shown and told.
    fn tell(
        &mut self,
        alloc: Global,
        event: &Event,
        c: ComId,
        more: bool,
        done: Done,
    ) -> Result<Trace, WorldRefused>
        requires over { is_over self.old ≡ true }
        requires placed { ArePlaced (components_of self.old) }
        requires logs { HoldLogs (print_of self.old) (components_of self.old) }
        requires room { «more» ≡ true → received_of self.old < RECEIPTS }
        ensures step { IfOk result (IsTold self.old event.now c more done self.new) }
        ensures same { components_of self.new ≡ components_of self.old }
        ensures print { print_of self.new ≡ print_of self.old }
        ensures refused { IfErr result (FailsToTell self.old done) }
        ensures ends { IfErr result (λ why. is_over self.new ≡ true) }
    {
        let from = u64::from(self.network.count());
        if from + done.puts.len() as u64 > PACKETS {
            return Err(WorldRefused::Limit(Which::Packets));
        }
        let played = done.played;
        let Ok(trace) = told(alloc, &mut self.network, &mut self.shown, event, c, done) else {
            return Err(WorldRefused::Memory);
        };
        self.received += receipts(more);
        self.played = self.played.saturating_add(played);
        self.over = false;
        Ok(trace)
    }
}

impl<D: Disk> World<TornDisk<D>> {
    /// A component does its work, and what comes of it is put out, shown and told. What it receives is counted before any
    /// device call.
    pub(crate) fn acts<L: Ledger>(
        &mut self,
        alloc: Global,
        program: &Program,
        event: &Event,
        c: ComId,
        work: &Work,
        steps: &mut Steps<L>,
    ) -> Result<Trace, WorldRefused>
        requires going { is_over self.old ≡ false }
        requires few { length program.now.components ≤ COMPONENTS }
        requires stop { IsAllowed event.now.stop }
        requires kept { is_kept (node_at (world_of self.old) «c») ≡ true }
        ensures step { IfOk result (Acts program.now self.old event.now «c» work.now self.new) }
        ensures others { KeepsOthers self.old «c» self.new }
        ensures crash { CrashAddsAt program.now self.old «c» work.now self.new }
        ensures calls { MakesCallsAt program.now self.old «c» work.now event.now.stop (is_ok result) self.new }
        ensures refused { IfErr result (FailsToAct D.Disk program.now self.old event.now «c» work.now self.new) }
        ensures ends { IfErr result (λ why. is_over self.new ≡ true) }
        ensures played { IfOk result (λ t. steps.new ≡ steps.old + played_by_all (world_of self.old).nodes (world_of self.new).nodes) }
    {
        self.over = true;
        let Some(more) = self.admits(program, c, work) else {
            return Err(WorldRefused::Limit(Which::Receipts));
        };
        let (print, x) = (&self.fingerprint, &mut self.components[usize::from(c.0)]);
        match does_work(alloc, program, print, x, work, event.stop, steps) {
            Ok(done) => self.tell(alloc, event, c, more, done),
            Err(why) => Err(refusal(c, why)),
        }
    }
}
