ghost use Rattle.std.specs.Prelude.{◌≡◌, option_map};
ghost use Rattle.def_run.specs.SystemStates.{without_stop};
ghost use Rattle.ic_base.specs.declared.events.What.TheVariants.{Resend};
ghost use Rattle.def_step.specs.Settle as definition;
ghost use Rattle.ic_world.specs.Views.{world_of};

use crate::outstanding::{Outstanding, lowest, soonest};
use ic_base::{Event, What};
use ic_disk::Disk;
use ic_world::World;

/// What is resent: by the component that replays and waits at the least stamp; else by one with a message or an input in
/// hand; else by one whose message isn't taken.
fn next_resend<D: Disk>(world: &World<D>) -> Option<What>
    ensures { result ≡ definition.or_else (option_map Resend (definition.soonest (world_of world.now))) (definition.or_else (option_map Resend (definition.lowest definition.has_in_hand (world_of world.now))) (option_map Resend (definition.lowest (definition.owes (world_of world.now)) (world_of world.now)))) }
{
    if let Some(com) = soonest(world) {
        Some(What::Resend(com))
    } else if let Some(com) = lowest(world, Outstanding::Transaction) {
        Some(What::Resend(com))
    } else {
        let com = lowest(world, Outstanding::Message)?;
        Some(What::Resend(com))
    }
}

/// What is next at the end of a run.
fn next_what<D: Disk>(world: &World<D>) -> Option<What>
    ensures { result ≡ definition.next_event (world_of world.now) }
{
    if let Some(com) = lowest(world, Outstanding::Recovery) {
        Some(What::Recover(com))
    } else if let Some((from, to)) = world.oldest() {
        Some(What::Deliver(from, to))
    } else if let Some(com) = lowest(world, Outstanding::Output) {
        Some(What::Emit(com))
    } else if let Some(com) = lowest(world, Outstanding::Records) {
        Some(What::Force(com))
    } else {
        next_resend(world)
    }
}

/// The event that settles a world (docs/RULES.md, "Settling"): what is down recovers; the oldest packet is delivered; an output
/// that is due is shown; buffered records are forced; and then what may be lost is resent. None exactly where nothing of this is left.
pub fn next_event<D: Disk>(world: &World<D>) -> Option<Event>
    ensures { result ≡ option_map without_stop (definition.next_event (world_of world.now)) }
{
    let what = next_what(world)?;
    Some(Event { what, stop: None })
}
