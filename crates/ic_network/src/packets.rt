ghost use Rattle.std.specs.Prelude.{◌≡◌, ◌<◌, Some};
ghost use Rattle.def_step.specs.Packets as definitions;
ghost use Rattle.def_step.specs.World as world;
ghost use Rattle.ic_network.specs.Networks.{are_components, lane_between};
ghost use Rattle.ic_network.specs.declared.lanes.TheConstants.{LANES};

use ic_base::limits::COMPONENTS;
use ic_base::{ComId, Packet};

/// The component that puts a packet out.
pub fn sender_of(packet: &Packet) -> ComId
    ensures { result ≡ definitions.sender_of packet.now }
{
    match packet {
        Packet::Data(msg) => msg.from,
        Packet::Stable { from, .. } => *from,
        Packet::Installed { from, .. } => *from,
        Packet::Fetch { from, .. } => *from,
        Packet::Op { from, .. } => *from,
        Packet::OpReply { from, .. } => *from,
        Packet::Commit { from, .. } => *from,
        Packet::Outcome { from, .. } => *from,
        Packet::Drop { from, .. } => *from,
    }
}

/// The component to which a packet goes.
pub fn receiver_of(packet: &Packet) -> ComId
    ensures { result ≡ definitions.receiver_of packet.now }
{
    match packet {
        Packet::Data(msg) => msg.to,
        Packet::Stable { to, .. } => *to,
        Packet::Installed { to, .. } => *to,
        Packet::Fetch { to, .. } => *to,
        Packet::Op { to, .. } => *to,
        Packet::OpReply { to, .. } => *to,
        Packet::Commit { to, .. } => *to,
        Packet::Outcome { to, .. } => *to,
        Packet::Drop { to, .. } => *to,
    }
}

/// Whether a packet goes between these components.
pub(crate) fn goes(packet: &Packet, from: ComId, to: ComId) -> bool
    ensures { result ≡ world.goes from to (Some packet.now) }
{
    sender_of(packet) == from && receiver_of(packet) == to
}

/// Whether both are among the components that a scenario may have.
pub(crate) fn are_components(from: ComId, to: ComId) -> bool
    ensures { result ≡ are_components from.0 to.0 }
{
    usize::from(from.0) < COMPONENTS && usize::from(to.0) < COMPONENTS
}

/// The lane of a pair of components: every pair that a scenario may have has one of its own.
pub(crate) fn lane_of(from: ComId, to: ComId) -> u16
    ensures lane { result ≡ lane_between from.0 to.0 }
    ensures below { result < LANES }
{
    if are_components(from, to) {
        (usize::from(from.0) * COMPONENTS + usize::from(to.0)) as u16
    } else {
        (COMPONENTS * COMPONENTS) as u16
    }
}
