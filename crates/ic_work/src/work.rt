ghost use Rattle.std.specs.Prelude.{◌≡◌, ◌+◌, is_ok, IfOk, IfErr};
ghost use Rattle.def_run.specs.Reports.{played_by};
ghost use Rattle.ic_node.specs.DeviceCalls.{MakesCalls};
ghost use Rattle.ic_node.specs.Doing.{MayStep};
ghost use Rattle.ic_node.specs.Meeting.{KeepsDisk, CrashAdds};
ghost use Rattle.ic_node.specs.Views.{node_of, com_of};
ghost use Rattle.ic_work.specs.Components.{Works, FailsToWork, would_add, refusal_of};
ghost use Rattle.ic_work.specs.Tasks.{work_calls};
ghost use Rattle.ic_work.specs.Working.{work_of};

use ic_base::{ComId, Program, Steps, Stop, WorldRefused};
use ic_disk::{Disk, TornDisk};
use ic_node::{Call, Component, Done, NodeRefused};
use std::alloc::Global;
use std::sync::ledger::Ledger;

/// What a component is to do.
#[derive(Clone, Copy, Debug)]
pub enum Work {
    /// A call, with the number of the packet that it delivers, or 0.
    Calls(u32, Call),
    Crashes,
    Recovers,
}

/// A refusal of a component as one of the world.
pub fn refusal(c: ComId, why: NodeRefused) -> WorldRefused
    ensures { result ≡ refusal_of «c» why }
{
    match why {
        NodeRefused::Full => WorldRefused::LogFull(c),
        NodeRefused::Bad(place) => WorldRefused::Bad(c, place),
        NodeRefused::Foreign(kept) => WorldRefused::Foreign(c, kept),
        NodeRefused::Failed => WorldRefused::Failed(c),
        NodeRefused::Memory => WorldRefused::Memory,
    }
}

/// A component does its work, with a stop armed for it alone.
pub fn does_work<D: Disk, L: Ledger>(
    alloc: Global,
    program: &Program,
    fingerprint: &[u8; 32],
    x: &mut Component<TornDisk<D>>,
    work: &Work,
    stop: Option<Stop>,
    steps: &mut Steps<L>,
) -> Result<Done, NodeRefused>
    requires ready { MayStep program.now x.old stop }
    ensures step { IfOk result (Works program.now x.old stop work.now x.new) }
    ensures disk { KeepsDisk x.old x.new }
    ensures crash { CrashAdds (would_add program.now x.old work.now) x.old x.new }
    ensures calls { MakesCalls (work_calls program.now (com_of x.old) (node_of x.old) (work_of work.now)) stop (is_ok result) x.old x.new }
    ensures refused { IfErr result (FailsToWork D.Disk program.now fingerprint.now x.old stop work.now x.new) }
    ensures played { IfOk result (λ done. steps.new ≡ steps.old + played_by (node_of x.old) (node_of x.new)) }
{
    match work {
        Work::Calls(number, call) => {
            x.does(alloc, program, fingerprint, *number, call, stop, steps)
        }
        Work::Crashes => x.crashes(alloc),
        Work::Recovers => x.recovers(alloc, program, fingerprint, stop, steps),
    }
}
