ghost use Rattle.std.specs.Prelude.{◌≡◌, IfOk};
ghost use Rattle.def_run.specs.Reports as reports;
ghost use Rattle.ic_pcom.specs.Views.{component_of};
ghost use Rattle.def_step.specs.World.{Runs};

use crate::Component;
use crate::node::Node;
use ic_base::{Stand, Vals};
use ic_disk::Disk;
use ic_pcom::Pcom;
use std::alloc::{AllocError, Global};

/// A component that is up, with a copy of its values.
fn up(alloc: Global, values: &[i64]) -> Result<Stand, AllocError>
    ensures { IfOk result (λ stand. stand ≡ Stand.Up values.now) }
{
    Ok(Stand::Up(Vals::from_vec(Vec::from_slice(alloc, values)?)))
}

/// How a Pcom that isn't down stands.
fn stand_of<D: Disk>(alloc: Global, pcom: &Pcom<D>) -> Result<Stand, AllocError>
    ensures { IfOk result (λ stand. stand ≡ reports.stand_of (Runs (component_of pcom.now))) }
{
    match pcom.vars() {
        Some(values) => up(alloc, values.as_slice()),
        None => Ok(Stand::Replaying),
    }
}

impl<D: Disk> Component<D> {
    ghost use Rattle.std.specs.Prelude.{◌≡◌, IfOk};
    ghost use Rattle.def_run.specs.Reports as reports;
    ghost use Rattle.ic_node.specs.Views.{node_of};

    /// How it stands, with a copy of its values where it is up.
    pub fn stand(&self, alloc: Global) -> Result<Stand, AllocError>
        ensures { IfOk result (λ stand. stand ≡ reports.stand_of (node_of self.now)) }
    {
        match &self.node {
            Node::Per(pcom) => stand_of(alloc, pcom),
            Node::Tra(tcom) => up(alloc, tcom.values()),
            Node::Off(_) => Ok(Stand::Down),
            Node::Ext => Ok(Stand::External),
        }
    }
}
