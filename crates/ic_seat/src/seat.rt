use def_two::Records2;
use ic_disk::Disk;
use ic_two::{Book, Chief};

/// A component of moves: the chief or a book that is up, or the disk of one that is down, with the records that it holds where they
/// are known. Behind a reached stop they aren't, since nothing is loaded.
#[derive(Drop)]
pub enum Seat<D: Disk> {
    Chief(Chief<D>),
    Book(Book<D>),
    Down(D, Option<Records2>),
}

impl<D: Disk> Seat<D> {
    ghost use Rattle.std.specs.Prelude.{◌≡◌, true, false, not};
    ghost use Rattle.def_two.specs.Chief.{nothing_heard};
    ghost use Rattle.ic_seat.specs.Seats.{site_of, heard_in, disk_in, is_up, is_open};

    /// Whether it is down.
    pub fn is_down(&self) -> bool
        ensures { result ≡ not (is_up self.now) }
    {
        match self {
            Seat::Down(_, _) => true,
            _ => false,
        }
    }

    /// Its disk.
    pub fn into_disk(self) -> D
        ensures { result ≡ disk_in self }
    {
        match self {
            Seat::Chief(chief) => chief.crash(),
            Seat::Book(book) => book.crash(),
            Seat::Down(disk, _) => disk,
        }
    }

    /// It goes down. What its disk holds is known, and nothing else is left.
    pub fn crash(self) -> Seat<D>
        ensures disk { disk_in result ≡ disk_in self }
        ensures site { site_of result ≡ record { up = false; log = (site_of self).log } }
        ensures heard { heard_in result ≡ nothing_heard }
        ensures open { is_open result ≡ true }
    {
        match self {
            Seat::Chief(chief) => {
                let (disk, records) = chief.into_parts();
                Seat::Down(disk, Some(records))
            }
            Seat::Book(book) => {
                let (disk, records) = book.into_parts();
                Seat::Down(disk, Some(records))
            }
            Seat::Down(disk, kept) => Seat::Down(disk, kept),
        }
    }
}
