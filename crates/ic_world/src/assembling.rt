use crate::World;
use ic_base::{Program, Showings};
use ic_disk::Disk;
use ic_network::{Network, Shown};
use ic_node::Component;
use std::alloc::Global;

impl<D: Disk> World<D> {
    ghost use Rattle.std.specs.Prelude.{◌≡◌, ◌≤◌, length, IfOk, IfErr};
    ghost use Rattle.ic_base.specs.declared.limits.TheConstants.{COMPONENTS};
    ghost use Rattle.ic_world.specs.Allowing.{IsMadeFor};
    ghost use Rattle.ic_world.specs.Assembling.{assembled, Assembles};
    ghost use Rattle.ic_world.specs.Standing.{ArePlaced, HoldLogs};

    /// The world of a program's components, one for each in order, which stand over their logs. In its network no packet was put
    /// out, and these outputs were shown before. Where memory is wanting, the components are handed back.
    pub fn assemble(
        alloc: Global,
        program: &Program,
        fingerprint: [u8; 32],
        components: Vec<Component<D>>,
        shown: Showings,
    ) -> Result<World<D>, Vec<Component<D>>>
        requires few { length program.now.components ≤ COMPONENTS }
        requires count { length components.items ≡ length program.now.components }
        requires placed { ArePlaced components.items }
        requires logs { HoldLogs fingerprint components.items }
        requires made { IsMadeFor program.now (assembled components.items shown) }
        ensures step { IfOk result (Assembles program.now fingerprint components.items shown) }
        ensures refused { IfErr result (λ back. back.items ≡ components.items) }
    {
        let Ok(network) = Network::new(alloc) else {
            return Err(components);
        };
        let Ok(shown) = Shown::of(alloc, shown) else {
            return Err(components);
        };
        Ok(World {
            fingerprint,
            components,
            network,
            shown,
            received: 0,
            played: 0,
            over: false,
        })
    }
}
