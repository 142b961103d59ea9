ghost use Rattle.std.specs.Prelude.{◌≡◌, ◌<◌, true, false, [], Ok, length, IfOk, IfErr};
ghost use Rattle.def_log.specs.Frame.{frame_of};
ghost use Rattle.def_run.specs.SystemStates.{has_disk};
ghost use Rattle.ic_gate.specs.Logs as logs;
ghost use Rattle.ic_node.specs.Firsts.{IsFirst, IsForMemory};

use crate::node::Node;
use ic_base::{ComId, Kind, Program};
use ic_disk::Disk;
use ic_gate::{LoadRefused, Log};
use ic_pcom::Pcom;
use ic_tcom::Tcom;
use std::alloc::Global;

/// What a component with a disk is at the beginning of a run, over a log without a record.
pub(crate) fn first_node<D: Disk>(
    alloc: Global,
    program: &Program,
    com: ComId,
    log: Log<D>,
) -> Result<Node<D>, LoadRefused<D>>
    requires there { com.0 < length program.now.components }
    requires has { has_disk program.now «com» ≡ true }
    requires open { logs.is_closed log ≡ false }
    requires alone { logs.buffered_of log ≡ [] }
    requires none { logs.forced_of log ≡ 0 }
    requires blank { D.tells (logs.disk_of log) → frame_of (D.seen (logs.disk_of log)) ≡ Ok [] }
    ensures step { IfOk result (IsFirst D.Disk program.now «com» log) }
    ensures refused { IfErr result (IsForMemory log) }
{
    match program.components.as_slice()[usize::from(com.0)].kind {
        Kind::Pcom => Ok(Node::Per(Pcom::fresh(alloc, program, com, log)?)),
        Kind::Tcom => Ok(Node::Tra(Tcom::fresh(alloc, program, com, log)?)),
        Kind::Xcom => unreachable!(),
    }
}
