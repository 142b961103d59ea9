ghost use Rattle.std.specs.Prelude.{◌≡◌, ◌++◌, map, length, OnOk, IfOk};
ghost use Rattle.ic_base.specs.declared.messages.ComId.{ComId};
ghost use Rattle.ic_base.specs.declared.messages.Output.{Output};
ghost use Rattle.ic_joins.specs.Showing.{showings_of};

use ic_base::{ComId, Items, Output, Showings};
use ic_disk::Disk;
use ic_node::Component;
use ic_turn::Progress;
use std::alloc::{AllocError, Global};

/// The outputs that a component showed go behind these.
fn add_showings(showings: &mut Showings, c: ComId, outputs: &[Output]) -> Result<(), AllocError>
    ensures { OnOk result (showings.new ≡ showings.old ++ map (λ (o : Output). («c», o)) outputs.now) }
{
    for output in outputs {
        showings.push((c, *output))?;
    }
    Ok(())
}

/// What the components of a live run showed, in order of component and showing.
pub fn showings_of<D: Disk>(
    alloc: Global,
    components: &[Component<D>],
    progresses: &[Progress],
) -> Result<Showings, AllocError>
    requires { length progresses.now ≡ length components.now }
    ensures { IfOk result (λ showings. showings ≡ showings_of components.now progresses.now) }
{
    let mut showings = Items::new(alloc);
    for at in 0..components.len() {
        add_showings(&mut showings, components[at].com(), progresses[at].shown())?;
    }
    Ok(showings)
}
