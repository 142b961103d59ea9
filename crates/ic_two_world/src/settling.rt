ghost use Rattle.std.specs.Prelude.{◌≡◌, ◌↔◌, ◌≤◌, None, length, map, option_map, slice_get};
ghost use Rattle.ic_base.specs.declared.limits.TheConstants.{COMPONENTS};
ghost use Rattle.def_two.specs.World as definition;
ghost use Rattle.ic_seat.specs.Seats.{site_of};
ghost use Rattle.ic_two_world.specs.Views.{world_of, IsGoing, done_if_up_in, without_stop};

use crate::TwoWorld;
use def_two::{Event2, What2};
use ic_disk::Disk;
use ic_moves::{receiver_of, sender_of};
use ic_seat::Seat;

/// The lowest of these components that is down.
fn lowest_down<D: Disk>(seats: &[Seat<D>]) -> Option<u8>
    requires { length seats.now ≤ COMPONENTS }
    ensures { result ≡ definition.lowest_from 0 (map site_of seats.now) }
{
    for c in 0..seats.len() {
        if seats[c].is_down() {
            return Some(c as u8);
        }
    }
    None
}

/// Whether each begun move is Done by both its books, as far as the chief, the first of these, has heard. One that is down has nothing
/// to do.
fn done_if_up<D: Disk>(seats: &[Seat<D>]) -> bool
    ensures { result ≡ done_if_up_in (slice_get seats.now 0) }
{
    match seats.first() {
        Some(Seat::Chief(chief)) => chief.is_all_done(),
        Some(Seat::Book(_) | Seat::Down(_, _)) | None => true,
    }
}

/// The event that settles a world: what is down recovers, the oldest packet is delivered, and the chief sends again while a move isn't
/// Done by both its books. None exactly where nothing of this is left.
pub fn next_event2<D: Disk>(world: &TwoWorld<D>) -> Option<Event2>
    requires { IsGoing D.Disk world.now }
    ensures next { result ≡ option_map without_stop (definition.next_event2 (world_of world.now)) }
    ensures none { (result ≡ None) ↔ definition.IsSettled2 (world_of world.now) }
{
    let seats = world.seats.as_slice();
    let what = if let Some(c) = lowest_down(seats) {
        What2::Recover(c)
    } else if let Some(p) = world.network.oldest() {
        What2::Deliver(sender_of(p), receiver_of(p))
    } else if done_if_up(seats) {
        return None;
    } else {
        What2::Resend(0)
    };
    Some(Event2 { what, stop: None })
}
