ghost use Rattle.std.specs.Prelude.{◌≡◌, ◌≤◌, ◌<◌, ◌^◌, false, length};
ghost use Rattle.std.proofs.Props.{props};
ghost use Rattle.ic_base.specs.declared.limits.TheConstants.{COMPONENTS, PACKETS, RECEIPTS};
ghost use Rattle.ic_world.specs.Standing.{ArePlaced, HoldLogs};

use crate::task::{Task, task_of};
use crate::telling::answered;
use ic_base::{Event, Program, Steps, Trace, WorldRefused};
use ic_disk::{Disk, TornDisk};
use ic_network::{Network, Shown};
use ic_node::Component;
use std::alloc::Global;
use std::sync::ledger::Ledger;

/// The components of a program, in order of declaration, and the network between them.
///
/// After a refusal it makes no further step, and its disks alone may be taken out.
#[derive(Drop)]
pub struct World<D: Disk> {
    /// The fingerprint of its scenario.
    pub(crate) fingerprint: [u8; 32],
    pub(crate) components: Vec<Component<D>>,
    pub(crate) network: Network,
    pub(crate) shown: Shown,
    /// How many inputs and messages were received.
    pub(crate) received: u64,
    /// How many records recoveries have played.
    pub(crate) played: u64,
    /// Whether a refusal ended it.
    pub(crate) over: bool,
    ghost few: { length components.items ≤ COMPONENTS },
    // Crates above may rely on these four: no more was received than may be, and each component stands in its place while it
    // goes on, over its log.
    pub ghost receipts: { received ≤ RECEIPTS },
    pub ghost plays: { played < 2 ^ 64 },
    pub ghost placed: { over ≡ false → ArePlaced components.items } by { Prim.hlevel props },
    pub ghost logs: { over ≡ false → HoldLogs fingerprint components.items } by { Prim.hlevel props },
    // While it goes on no more packets were put out than may be. Crates above may rely on it.
    pub ghost counted: { over ≡ false → length network.network.packets ≤ PACKETS } by { Prim.hlevel props },
}

impl<D: Disk> World<TornDisk<D>> {
    ghost use Rattle.std.specs.Prelude.{◌≡◌, ◌+◌, true, is_ok, IfOk, IfErr};
    ghost use Rattle.def_run.specs.Reports.{played_by_all};
    ghost use Rattle.ic_node.specs.Doing.{IsAllowed};
    ghost use Rattle.ic_world.specs.Allowing.{GoesOn, is_allowed};
    ghost use Rattle.ic_world.specs.Explaining.{KeepsExplained, CrashLeavesSound};
    ghost use Rattle.ic_world.specs.Views.{world_of};
    ghost use Rattle.ic_world.specs.Stepping.{Steps as StepsTo, KeepsDisks, MakesCalls, CrashLeavesLogs, CrashLeavesFiles, FailsToStep};

    /// Does one event (docs/RULES.md, "Events").
    ///
    /// A stop is armed for the event's component alone. One that is reached is no refusal: nothing is put out, the disk is
    /// switched on and its log loaded once, and the component is down.
    pub fn step<L: Ledger>(
        &mut self,
        alloc: Global,
        program: &Program,
        event: &Event,
        steps: &mut Steps<L>,
    ) -> Result<Trace, WorldRefused>
        requires world { GoesOn program.now self.old }
        requires allowed { is_allowed program.now event.now.what ≡ true }
        requires stop { IsAllowed event.now.stop }
        ensures step { IfOk result (StepsTo program.now self.old event.now self.new) }
        ensures disks { KeepsDisks self.old event.now.what self.new }
        ensures calls { MakesCalls program.now self.old event.now (is_ok result) self.new }
        ensures crash { CrashLeavesLogs program.now self.old event.now.what self.new }
        // What the event forces outlasts each crash from now on: nothing of it waits for a sync.
        ensures durable { IfOk result (λ t. CrashLeavesFiles self.new) }
        ensures explained { IfOk result (λ t. KeepsExplained program.now self.old event.now self.new) }
        // Of a crash of the whole machine, whether the event is done or refused.
        ensures sound { CrashLeavesSound program.now self.old event.now self.new }
        ensures refused { IfErr result (FailsToStep D.Disk program.now self.old event.now self.new) }
        ensures played { IfOk result (λ t. steps.new ≡ steps.old + played_by_all (world_of self.old).nodes (world_of self.new).nodes) }
    {
        match task_of(&mut self.network, &event.what) {
            Task::Asks(c, work) => self.acts(alloc, program, event, c, &work, steps),
            Task::Answers(answer) => Ok(answered(alloc, &self.network, event, answer)),
        }
    }
}
