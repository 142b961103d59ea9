ghost use Rattle.std.specs.Prelude.{◌≡◌, false, not};
ghost use Rattle.std.specs.List.{list_any};
ghost use Rattle.def_state.specs.Inbox.{is_taken};
ghost use Rattle.def_state.specs.Outbox.{unstable};
ghost use Rattle.def_step.specs.Pcom.{forced_end};
ghost use Rattle.def_step.specs.Settle as settle;
ghost use Rattle.def_step.specs.World.{node_at};
ghost use Rattle.ic_node.specs.Views.{node_of};
ghost use Rattle.ic_pcom.specs.Views.{component_of};
ghost use Rattle.ic_world.specs.Reading.{at_node};
ghost use Rattle.ic_world.specs.Views.{world_of};

use crate::World;
use ic_base::{ComId, Msg};
use ic_disk::Disk;
use ic_node::{Component, Node};
use ic_pcom::Pcom;

/// Whether a component runs and hasn't taken a message.
fn lacks<D: Disk>(x: &Component<D>, msg: &Msg) -> bool
    ensures { result ≡ settle.passes (λ p. not (is_taken p.vol.inbox (record { peer = msg.now.from; k = msg.now.k }))) (settle.pcom_of (node_of x.now)) }
{
    match x.node() {
        Node::Per(pcom) => !pcom.has_taken(msg.from, msg.k),
        _ => false,
    }
}

impl<D: Disk> World<D> {
    /// Whether the receiver of a message runs and hasn't taken it.
    fn is_missed(&self, msg: &Msg) -> bool
        ensures { result ≡ settle.is_missed (world_of self.now) msg.now }
    {
        match self.components.get(usize::from(msg.to.0)) {
            Some(x) => lacks(x, msg),
            None => false,
        }
    }

    /// Whether a message of a Pcom is due without a stable mark, and its receiver hasn't taken it.
    fn misses_one(&self, pcom: &Pcom<D>) -> bool
        ensures { result ≡ list_any (settle.is_missed (world_of self.now)) (unstable (component_of pcom.now).vol.outbox (forced_end (component_of pcom.now))) }
    {
        for i in 0..pcom.held() {
            let Some(msg) = pcom.unstable(i) else {
                return false;
            };
            if self.is_missed(&msg) {
                return true;
            }
        }
        false
    }

    /// Whether what a component is holds a due message without a stable mark which its receiver hasn't taken.
    fn owes_from(&self, x: &Component<D>) -> bool
        ensures { result ≡ settle.owes (world_of self.now) (node_of x.now) }
    {
        match x.node() {
            Node::Per(pcom) => self.misses_one(pcom),
            _ => false,
        }
    }

    /// Whether it is a Pcom that holds a due message without a stable mark which its receiver hasn't taken.
    pub fn owes(&self, c: ComId) -> bool
        ensures { result ≡ at_node false (settle.owes (world_of self.now)) (node_at (world_of self.now) c) }
    {
        match self.components.get(usize::from(c.0)) {
            Some(x) => self.owes_from(x),
            None => false,
        }
    }
}
