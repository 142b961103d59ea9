ghost use Rattle.std.specs.Prelude.{◌≡◌, ◌++◌, flat_map, OnOk, IfOk};
ghost use Rattle.ic_turn.specs.Progresses.{left_of};

use ic_base::{Event, Items};
use ic_turn::Progress;
use std::alloc::{AllocError, Global};

/// The events that a component left of its list go behind these.
fn add_left(events: &mut Items<Event>, progress: &Progress) -> Result<(), AllocError>
    ensures { OnOk result (events.new ≡ events.old ++ left_of progress.now) }
{
    let all = progress.events();
    for i in progress.answers().len()..all.len() {
        events.push(all[i])?;
    }
    Ok(())
}

/// The events that are left, in order of component and list.
pub fn events_left(alloc: Global, progresses: &[Progress]) -> Result<Items<Event>, AllocError>
    ensures { IfOk result (λ events. events ≡ flat_map left_of progresses.now) }
{
    let mut events = Items::new(alloc);
    for progress in progresses {
        add_left(&mut events, progress)?;
    }
    Ok(events)
}
