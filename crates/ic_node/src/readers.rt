ghost use Rattle.std.specs.Prelude.{◌≡◌, ◌<◌, ◌+◌, ◌++◌, length, IfOk};
ghost use Rattle.def_step.specs.Pcom.{all_of};
ghost use Rattle.def_step.specs.Replay.{behind_checkpoint};
ghost use Rattle.ic_pcom.specs.Views.{component_of};
ghost use Rattle.ic_base.specs.declared.limits.TheConstants.{LOG_BYTES};

use crate::Component;
use crate::node::Node;
use ic_base::{ComId, Items, Records};
use ic_disk::Disk;
use ic_gate::EncodedRecords;
use ic_pcom::Pcom;
use std::alloc::{AllocError, Global};

/// How many records these and so many others are.
fn count_both(records: &EncodedRecords, others: usize) -> usize
    requires few { others < LOG_BYTES + LOG_BYTES }
    ensures { result ≡ length records.now + others }
{
    records.len() + others
}

/// How many records are behind the last checkpoint of these and a Pcom's behind them.
fn since_last<D: Disk>(records: &EncodedRecords, pcom: &Pcom<D>) -> usize
    ensures { result ≡ length (behind_checkpoint (records.now ++ all_of (component_of pcom.now).log)) }
{
    let own = pcom.since_checkpoint();
    if own < pcom.forced() + pcom.buffered() {
        return own;
    }
    let passed = records.len() - records.count_behind();
    count_both(records, own) - passed
}

impl<D: Disk> Component<D> {
    ghost use Rattle.std.specs.Prelude.{◌≡◌, true, false, length, Some, IfOk};
    ghost use Rattle.def_run.specs.CoreSteps.{forced_of};
    ghost use Rattle.def_run.specs.Reports.{log_of_node};
    ghost use Rattle.def_step.specs.Settle as settle;
    ghost use Rattle.def_step.specs.World.{External};
    ghost use Rattle.ic_node.specs.Views.{node_of, com_of, is_over, disk_of};

    /// A component outside the system, which has no disk.
    pub fn outside(alloc: Global, com: ComId) -> Component<D>
        ensures node { node_of result ≡ External }
        ensures which { com_of result ≡ «com» }
        ensures going { is_over result ≡ false }
    {
        Component {
            com,
            node: Node::Ext,
            kept: EncodedRecords::new(alloc),
            over: false,
        }
    }

    /// Which component of its program it is.
    pub fn com(&self) -> ComId
        ensures { result ≡ com_of self.now }
    {
        self.com
    }

    /// Whether a refusal ended it.
    pub fn is_over(&self) -> bool
        ensures { result ≡ is_over self.now }
    {
        self.over
    }

    /// What it is, and whether it is up.
    pub fn node(&self) -> &Node<D>
        ensures { result.now ≡ self.now.node }
    {
        &self.node
    }

    /// Its disk. None exactly of a component outside.
    pub fn into_disk(self) -> Option<D>
        ensures { result ≡ disk_of self }
    {
        let Component { node, .. } = self;
        match node {
            Node::Per(pcom) => Some(pcom.crash()),
            Node::Tra(tcom) => Some(tcom.crash()),
            Node::Off(disk) => Some(disk),
            Node::Ext => None,
        }
    }

    /// Whether it is down. A component outside never is.
    pub fn is_down(&self) -> bool
        ensures { result ≡ settle.is_down (node_of self.now) }
    {
        match &self.node {
            Node::Off(_) => true,
            _ => false,
        }
    }

    /// Whether it is a Pcom that replays its log.
    pub fn is_replaying(&self) -> bool
        ensures { result ≡ settle.replays (node_of self.now) }
    {
        match &self.node {
            Node::Per(pcom) => pcom.is_replaying(),
            _ => false,
        }
    }

    /// Whether it is a Pcom with a message or an input in hand.
    pub fn in_hand(&self) -> bool
        ensures { result ≡ settle.has_in_hand (node_of self.now) }
    {
        match &self.node {
            Node::Per(pcom) => pcom.in_hand(),
            _ => false,
        }
    }

    /// Whether it is a Pcom that is up, and an output is due.
    pub fn has_due(&self) -> bool
        ensures { result ≡ settle.has_due (node_of self.now) }
    {
        match &self.node {
            Node::Per(pcom) => pcom.has_due(),
            _ => false,
        }
    }

    /// How many outputs of a Pcom aren't shown.
    pub fn unshown(&self) -> usize
        ensures { result ≡ settle.unshown (node_of self.now) }
    {
        match &self.node {
            Node::Per(pcom) => pcom.unshown(),
            _ => 0,
        }
    }

    /// How many of its records stand in its file.
    pub fn forced(&self) -> usize
        ensures { result ≡ length (forced_of (Some (node_of self.now))) }
    {
        match &self.node {
            Node::Per(pcom) => count_both(&self.kept, pcom.forced()),
            Node::Tra(tcom) => tcom.forced(),
            Node::Off(_) => self.kept.len(),
            Node::Ext => 0,
        }
    }

    /// How many records of a Pcom wait for the next force.
    pub fn buffered(&self) -> usize
        ensures { result ≡ settle.buffered (node_of self.now) }
    {
        match &self.node {
            Node::Per(pcom) => pcom.buffered(),
            _ => 0,
        }
    }

    /// How many records of a Pcom are behind its last checkpoint.
    pub fn since_checkpoint(&self) -> usize
        ensures { result ≡ settle.since_checkpoint (node_of self.now) }
    {
        match &self.node {
            Node::Per(pcom) => since_last(&self.kept, pcom),
            _ => 0,
        }
    }

    /// All its records, forced and buffered; of one that is down, those that its disk holds. Where their bytes were dropped it answers as
    /// where memory runs out.
    pub fn records(&self, alloc: Global) -> Result<Records, AllocError>
        ensures { IfOk result (λ records. records ≡ log_of_node (node_of self.now)) }
    {
        match &self.node {
            Node::Per(pcom) => {
                let mut all = self.kept.records(alloc)?.into_vec();
                let mut own = pcom.records().records(alloc)?.into_vec();
                all.append(&mut own)?;
                Ok(Items::from_vec(all))
            }
            Node::Tra(tcom) => tcom.records().records(alloc),
            Node::Off(_) => self.kept.records(alloc),
            Node::Ext => Ok(Items::new(alloc)),
        }
    }
}
