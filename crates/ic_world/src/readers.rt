ghost use Rattle.std.specs.Prelude.{◌≡◌};
ghost use Rattle.def_step.specs.Settle as settle;
ghost use Rattle.ic_node.specs.Views.{node_of};

use crate::World;
use ic_base::{ComId, Packet, Program, Records, States};
use ic_disk::Disk;
use ic_node::{Component, Node};
use std::alloc::{AllocError, Global};

impl<D: Disk> World<D> {
    ghost use Rattle.std.specs.Prelude.{◌≡◌, ◌<◌, ◌≤◌, false, length, map, option_map, slice_get, Some, None, IfOk};
    ghost use Rattle.ic_base.specs.declared.limits.TheConstants.{COMPONENTS};
    ghost use Rattle.def_plain.specs.History.{history_of};
    ghost use Rattle.def_run.specs.Reports.{logs_of, stand_of};
    ghost use Rattle.def_step.specs.World.{node_at, packet_at};
    ghost use Rattle.def_step.specs.Settle as settle;
    ghost use Rattle.ic_network.specs.Networks.{ends_of};
    ghost use Rattle.ic_world.specs.Reading.{at_node};
    ghost use Rattle.ic_world.specs.Views.{components_of, world_of, played_of, is_over};

    /// How many components there are.
    pub fn size(&self) -> u8
        ensures { result ≡ length (components_of self.now) }
    {
        self.components.len() as u8
    }

    /// How many records recoveries have played since the world was made. It stands still at the greatest u64.
    pub fn played(&self) -> u64
        ensures { result ≡ played_of self.now }
    {
        self.played
    }

    /// Whether a refusal ended it.
    pub fn is_over(&self) -> bool
        ensures { result ≡ is_over self.now }
    {
        self.over
    }

    /// The sender and the receiver of the oldest waiting packet. None exactly where none waits.
    pub fn oldest(&self) -> Option<(ComId, ComId)>
        ensures { result ≡ option_map ends_of (settle.oldest (world_of self.now)) }
    {
        self.network.oldest()
    }

    /// How many packets were put out.
    pub fn put_out(&self) -> u32
        ensures { result ≡ length (world_of self.now).packets }
    {
        self.network.count()
    }

    /// The packet of a number, counted from 1. None exactly where no packet of this number was put out.
    pub fn packet(&self, number: u32) -> Option<Packet>
        ensures { result ≡ packet_at (world_of self.now) number }
    {
        self.network.packet(number)
    }

    /// A component with its disk.
    pub fn component(&self, c: ComId) -> &Component<D>
        requires { c.0 < length (components_of self.now) }
        ensures { slice_get (components_of self.now) c.0 ≡ Some result.now }
    {
        &self.components[usize::from(c.0)]
    }

    /// Its components with their disks, in order.
    pub fn into_components(self) -> Vec<Component<D>>
        ensures { result.items ≡ components_of self }
    {
        self.components
    }

    /// Whether a component is down.
    pub fn is_down(&self, c: ComId) -> bool
        ensures { result ≡ at_node false settle.is_down (node_at (world_of self.now) c) }
    {
        match self.components.get(usize::from(c.0)) {
            Some(x) => x.is_down(),
            None => false,
        }
    }

    /// Whether it is a Pcom that replays its log.
    pub fn is_replaying(&self, c: ComId) -> bool
        ensures { result ≡ at_node false settle.replays (node_at (world_of self.now) c) }
    {
        match self.components.get(usize::from(c.0)) {
            Some(x) => x.is_replaying(),
            None => false,
        }
    }

    /// Whether it is a Pcom with a message or an input in hand.
    pub fn in_hand(&self, c: ComId) -> bool
        ensures { result ≡ at_node false settle.has_in_hand (node_at (world_of self.now) c) }
    {
        match self.components.get(usize::from(c.0)) {
            Some(x) => x.in_hand(),
            None => false,
        }
    }

    /// Whether it is a Pcom that is up, and an output is due.
    pub fn has_due(&self, c: ComId) -> bool
        ensures { result ≡ at_node false settle.has_due (node_at (world_of self.now) c) }
    {
        match self.components.get(usize::from(c.0)) {
            Some(x) => x.has_due(),
            None => false,
        }
    }

    /// How many records of a Pcom wait for the next force.
    pub fn buffered(&self, c: ComId) -> usize
        ensures { result ≡ at_node 0 settle.buffered (node_at (world_of self.now) c) }
    {
        match self.components.get(usize::from(c.0)) {
            Some(x) => x.buffered(),
            None => 0,
        }
    }

    /// How many records of a Pcom are behind its last checkpoint.
    pub fn since_checkpoint(&self, c: ComId) -> usize
        ensures { result ≡ at_node 0 settle.since_checkpoint (node_at (world_of self.now) c) }
    {
        match self.components.get(usize::from(c.0)) {
            Some(x) => x.since_checkpoint(),
            None => 0,
        }
    }

    /// The stamp of the message at which the replay of a Pcom waits.
    pub fn waits_at(&self, c: ComId) -> Option<u64>
        ensures { result ≡ at_node None settle.waits_at (node_at (world_of self.now) c) }
    {
        match self.components.get(usize::from(c.0)) {
            Some(x) => stamp_waiting(x),
            None => None,
        }
    }

    /// All records of each component, forced and buffered; of one that is down, those that its disk holds. Where the bytes of some were
    /// dropped it answers as where memory runs out.
    pub fn logs(&self, alloc: Global) -> Result<Vec<Records>, AllocError>
        ensures { IfOk result (λ logs. logs.items ≡ logs_of (world_of self.now)) }
    {
        let mut logs = Vec::with_capacity(alloc, self.components.len())?;
        for x in &self.components {
            logs.push(x.records(alloc)?)?;
        }
        Ok(logs)
    }

    /// How each component stands.
    pub fn states(&self, alloc: Global) -> Result<States, AllocError>
        ensures { IfOk result (λ states. states ≡ map stand_of (world_of self.now).nodes) }
    {
        let mut states = States::new(alloc);
        for x in &self.components {
            states.push(x.stand(alloc)?)?;
        }
        Ok(states)
    }

    /// How many entries the merged history of its logs has (docs/RULES.md, "The merged history").
    pub fn history_len(&self, program: &Program) -> Result<usize, AllocError>
        requires { length program.now.components ≤ COMPONENTS }
        ensures { IfOk result (λ n. n ≡ length (history_of program.now (logs_of (world_of self.now)))) }
    {
        let declared = program.components.as_slice();
        let count = declared.len().min(self.components.len());
        let mut n: usize = 0;
        for i in 0..count {
            let more = self.components[i].count_entries(declared[i].kind);
            let Some(sum) = n.checked_add(more) else {
                return Err(AllocError);
            };
            n = sum;
        }
        Ok(n)
    }
}

/// The stamp of the message at which the replay of a Pcom waits.
fn stamp_waiting<D: Disk>(x: &Component<D>) -> Option<u64>
    ensures { result ≡ settle.waits_at (node_of x.now) }
{
    match x.node() {
        Node::Per(pcom) => pcom.waits_at(),
        _ => None,
    }
}
