ghost use Rattle.std.specs.Prelude.{◌≡◌, slice_get};
ghost use Rattle.ic_two_world.specs.Views.{ruling_if_up_in, value_if_up_in};

use crate::TwoWorld;
use crate::stepping::begun_if_up;
use def_two::Ruling;
use ic_disk::Disk;
use ic_seat::Seat;

/// The decision on move n, if the chief, the first of these, is up and has one.
fn ruling_if_up<D: Disk>(seats: &[Seat<D>], n: u64) -> Option<Ruling>
    ensures { result ≡ ruling_if_up_in n (slice_get seats.now 0) }
{
    match seats.first() {
        Some(Seat::Chief(chief)) => chief.ruling(n),
        Some(Seat::Book(_) | Seat::Down(_, _)) | None => None,
    }
}

/// The value of a key, if the component in this place is a book that is up and has the key.
fn value_if_up<D: Disk>(seats: &[Seat<D>], place: usize, key: u16) -> Option<u64>
    ensures { result ≡ value_if_up_in key (slice_get seats.now place) }
{
    match seats.get(place) {
        Some(Seat::Book(book)) => book.value(key),
        Some(Seat::Chief(_) | Seat::Down(_, _)) | None => None,
    }
}

impl<D: Disk> TwoWorld<D> {
    ghost use Rattle.std.specs.Prelude.{◌≡◌};
    ghost use Rattle.def_two.specs.World as definition;
    ghost use Rattle.ic_two_world.specs.Views.{openings_of, world_of, IsGoing};

    /// How many moves were begun; 0 where the chief is down.
    pub fn begun(&self) -> u64
        requires { IsGoing D.Disk self.now }
        ensures { result ≡ definition.begun (world_of self.now) }
    {
        begun_if_up(self.seats.as_slice()).unwrap_or(0)
    }

    /// The decision on move n; None where there is none, and where the chief is down.
    pub fn ruling(&self, n: u64) -> Option<Ruling>
        requires { IsGoing D.Disk self.now }
        ensures { result ≡ definition.ruling (world_of self.now) n }
    {
        ruling_if_up(self.seats.as_slice(), n)
    }

    /// The value of a key of a book; None where there is no such key, and where the book is down.
    pub fn value(&self, book: u8, key: u16) -> Option<u64>
        requires { IsGoing D.Disk self.now }
        ensures { result ≡ definition.value (openings_of self.now) (world_of self.now) book key }
    {
        value_if_up(self.seats.as_slice(), usize::from(book), key)
    }
}
