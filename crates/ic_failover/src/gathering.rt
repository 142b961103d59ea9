ghost use Rattle.std.specs.Prelude.{◌≡◌, filter_map, option_and_then, IfOk, Some};
ghost use Rattle.def_facts.specs.Logs.{message_in};
ghost use Rattle.def_run.specs.CoreSteps.{forced_of};
ghost use Rattle.ic_node.specs.Views.{node_of};
ghost use Rattle.ic_world.specs.Views.{world_of};

use ic_base::{Items, Msg, Msgs, Packet, Record};
use ic_disk::Disk;
use ic_node::Component;
use ic_world::World;
use std::alloc::{AllocError, Global};

/// The records of a component that stand in its file.
pub(crate) fn forced_records<D: Disk>(
    alloc: Global,
    component: &Component<D>,
) -> Result<Vec<Record>, AllocError>
    ensures { IfOk result (λ records. records.items ≡ forced_of (Some (node_of component.now))) }
{
    let mut records = component.records(alloc)?.into_vec();
    records.truncate(component.forced());
    Ok(records)
}

/// The message that a packet brings.
fn message_of(packet: Option<Packet>) -> Option<Msg>
    ensures { result ≡ option_and_then message_in packet }
{
    match packet {
        Some(Packet::Data(msg)) => Some(msg),
        _ => None,
    }
}

/// All messages that were put out, in order.
pub(crate) fn messages<D: Disk>(alloc: Global, world: &World<D>) -> Result<Msgs, AllocError>
    ensures { IfOk result (λ msgs. msgs ≡ filter_map message_in (world_of world.now).packets) }
{
    let mut msgs = Items::new(alloc);
    for number in 0..world.put_out() {
        let Some(msg) = message_of(world.packet(number + 1)) else {
            continue;
        };
        msgs.push(msg)?;
    }
    Ok(msgs)
}
