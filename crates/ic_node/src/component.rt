ghost use Rattle.std.specs.Prelude.{◌≡◌, true, false, is_ok, Some};
ghost use Rattle.std.specs.Coded.{Coded-set};
ghost use Rattle.std.proofs.Props.{props};
ghost use Rattle.def_log.specs.Images.{LeavesJust};
ghost use Rattle.def_run.specs.CoreSteps.{forced_of};
ghost use Rattle.ic_node.specs.Nodes.{node_with, disk_in, read_of, told_of};
ghost use Rattle.ic_node.specs.Sittings.{AreWritable};
ghost use Rattle.ic_node.specs.Standing.{works, is_settled, is_open, is_begun, com_in, log_in, owner_on, keeps_of, leave_of, read_or_none};

use crate::node::Node;
use ic_base::ComId;
use ic_disk::Disk;
use ic_gate::EncodedRecords;

/// A component of a program with its disk, if it has one. Between events a stop at call 0 is set on the disk, which is never
/// reached.
#[derive(Drop)]
pub struct Component<D: Disk> {
    pub(crate) com: ComId,
    pub(crate) node: Node<D>,
    /// The records that the disk holds while it is down; those of a Pcom's log before its own while it is up.
    pub(crate) kept: EncodedRecords,
    /// Whether a refusal ended it. It then makes no further step, and its disk alone may be taken out.
    pub(crate) over: bool,
    ghost opened: { over ≡ false → is_open node ≡ true } by { Prim.hlevel props },
    ghost which: { over ≡ false → (com_in «com» node).0 ≡ «com».0 } by { Prim.hlevel props },
    ghost working: { over ≡ false → works D.Disk node ≡ true } by { Prim.hlevel props },
    // Between events its file holds just its forced records. Crates above may rely on it.
    pub ghost on_disk: { over ≡ false → told_of D.Disk (disk_in node) → read_or_none (log_in D.Disk node) ≡ forced_of (Some (node_with kept node)) } by { Prim.hlevel (props, Coded-set kept-code) },
    pub ghost whole: { over ≡ false → told_of D.Disk (disk_in node) → is_ok (log_in D.Disk node) ≡ true } by { Prim.hlevel props },
    // Its file is this component's log.
    pub ghost owned: { over ≡ false → told_of D.Disk (disk_in node) → owner_on D.Disk «com».0 (disk_in node) ≡ «com».0 } by { Prim.hlevel props },
    // A crash leaves just what a read gives, and nothing waits for a sync.
    pub ghost durable: { over ≡ false → keeps_of D.Disk (disk_in node) → LeavesJust (leave_of D.Disk (disk_in node)) (read_of D.Disk (disk_in node)) } by { Prim.hlevel props },
    pub ghost settled: { over ≡ false → is_settled D.Disk node ≡ true } by { Prim.hlevel props },
    ghost begun: { over ≡ false → is_begun kept node ≡ true } by { Prim.hlevel props },
    // What an open session of a Tcom has to write is such as a log has it.
    ghost writable: { over ≡ false → ∥ AreWritable node ∥₁ } by { Prim.hlevel props },
}

impl<D: Disk> Component<D> {
    ghost use Rattle.std.specs.Prelude.{◌≡◌};
    ghost use Rattle.ic_node.specs.Views.{node_of, disk_of, com_of, is_over};

    /// Drops the bytes of its records, while it is up or down. From then on they can't be read: a recovery reads the whole log of a Tcom
    /// again, and of a Pcom the tail.
    pub fn drop_bytes(&mut self)
        ensures same { node_of self.new ≡ node_of self.old }
        ensures which { com_of self.new ≡ com_of self.old }
        ensures over { is_over self.new ≡ is_over self.old }
        ensures disk { disk_of self.new ≡ disk_of self.old }
    {
        self.kept.drop_bytes();
        match &mut self.node {
            Node::Per(pcom) => pcom.drop_bytes(),
            Node::Tra(tcom) => tcom.drop_bytes(),
            Node::Off(_) => {}
            Node::Ext => {}
        }
    }
}
