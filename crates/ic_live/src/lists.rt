ghost use Rattle.std.specs.Prelude.{◌≡◌, ◌++◌, ◌∷◌, [], OnOk, IfOk};
ghost use Rattle.def_live.specs.Turns as definition;
ghost use Rattle.ic_live.specs.Berthed.{list_of};

use ic_base::{ComId, Event, Items, What};
use std::alloc::{AllocError, Global};

/// Whether an event is one of a component's own, and so no delivery and no loss.
fn is_own(c: ComId, what: &What) -> bool
    ensures { result ≡ definition.is_own c what.now }
{
    match *what {
        What::Input(d, _, _) => c.0 == d.0,
        What::Force(d) => c.0 == d.0,
        What::Checkpoint(d) => c.0 == d.0,
        What::Resend(d) => c.0 == d.0,
        What::Emit(d) => c.0 == d.0,
        What::Crash(d) => c.0 == d.0,
        What::Recover(d) => c.0 == d.0,
        What::Deliver(_, _) => false,
        What::Lose(_, _) => false,
        What::Packet(_) => false,
    }
}

/// An event goes behind these, if it is the component's own.
fn add_own(list: &mut Items<Event>, c: ComId, event: &Event) -> Result<(), AllocError>
    ensures { OnOk result (list.new ≡ list.old ++ list_of c (event.now ∷ [])) }
{
    if !is_own(c, &event.what) {
        return Ok(());
    }
    list.push(*event)?;
    Ok(())
}

/// The list of a component: the events of a plan that are its own, in order (docs/RULES.md, "Live runs").
pub(crate) fn list_of(alloc: Global, c: ComId, plan: &[Event]) -> Result<Items<Event>, AllocError>
    ensures { IfOk result (λ list. list ≡ list_of c plan.now) }
{
    let mut list = Items::new(alloc);
    for event in plan {
        add_own(&mut list, c, event)?;
    }
    Ok(list)
}
