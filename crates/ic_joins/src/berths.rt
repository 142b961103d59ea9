ghost use Rattle.std.specs.Prelude.{◌≡◌, ◌++◌, ◌∷◌, [], filter, is_some, IfOk, OnOk};
ghost use Rattle.ic_node.specs.Views.{disk_of};
ghost use Rattle.ic_world.specs.Views.{components_of};

use ic_base::Items;
use ic_disk::Disk;
use ic_node::{Component, Node};
use ic_world::World;
use std::alloc::{AllocError, Global};

/// Whether a component has a disk. One outside has none.
fn has_disk<D: Disk>(x: &Component<D>) -> bool
    ensures { result ≡ is_some (disk_of x.now) }
{
    match x.node() {
        Node::Per(_) => true,
        Node::Tra(_) => true,
        Node::Off(_) => true,
        Node::Ext => false,
    }
}

/// A component goes behind these, if it has a disk.
fn add_berth<D: Disk + Drop>(
    berths: &mut Items<Component<D>>,
    x: Component<D>,
) -> Result<(), AllocError>
    ensures { OnOk result (berths.new ≡ berths.old ++ filter (λ z. is_some (disk_of z)) (x ∷ [])) }
{
    if !has_disk(&x) {
        return Ok(());
    }
    berths.push(x)?;
    Ok(())
}

/// The components of a world that have a disk, in order.
pub fn berths_of<D: Disk + Drop>(
    alloc: Global,
    world: World<D>,
) -> Result<Items<Component<D>>, AllocError>
    ensures { IfOk result (λ berths. berths ≡ filter (λ x. is_some (disk_of x)) (components_of world)) }
{
    let mut berths = Items::new(alloc);
    let mut components = world.into_components().into_iter();
    while let Some(x) = components.next() {
        add_berth(&mut berths, x)?;
    }
    Ok(berths)
}
