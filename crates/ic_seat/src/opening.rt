ghost use Rattle.std.specs.Prelude.{◌≡◌, ◌≤◌, ◌<◌, [], false, length, is_ok, Ok, IfOk, IfErr};
ghost use Rattle.def_log.specs.Frame.{frame_of};
ghost use Rattle.def_two.specs.Moves.{nth_book};
ghost use Rattle.ic_disk.specs.Disk.{Keeps};
ghost use Rattle.ic_gate.specs.Logs as logs;
ghost use Rattle.ic_moves.specs.Chiefs.{openings_of};
ghost use Rattle.ic_two.specs.Books.{IsForMemory};
ghost use Rattle.ic_disk.specs.Disk.{Makes};
ghost use Rattle.ic_gate.specs.Calls.{IsFault};
ghost use Rattle.ic_gate.specs.Creating.{create_calls};
ghost use Rattle.ic_seat.specs.Opening.{IsFirst, IsMade, FailsToMake, IsOn, Starts, FailsToStart};
ghost use Rattle.ic_seat.specs.Recovering.{disk_loaded};
ghost use Rattle.ic_seat.specs.Seats.{disk_in, is_up, Stands};

use crate::Seat;
use crate::serving::NEVER;
use def_two::Books;
use ic_disk::{Disk, TornDisk};
use ic_gate::{LoadRefused, LoadWhy, Log};
use ic_two::{Book, Chief};
use std::alloc::Global;

/// The opening values of a book.
pub(crate) fn values_of(books: &Books, book: u8) -> &[u64]
    requires some { 0 < book }
    requires there { book ≤ length books.now }
    ensures { result.now ≡ nth_book (openings_of books.now) book }
{
    books.as_slice()[usize::from(book - 1)].1.as_slice()
}

/// The chief, component 0, or the book of this number, over a log without a record.
fn first<D: Disk>(
    alloc: Global,
    books: &Books,
    c: u8,
    log: Log<D>,
) -> Result<Seat<D>, LoadRefused<D>>
    requires there { c ≤ length books.now }
    requires open { logs.is_closed log ≡ false }
    requires alone { logs.buffered_of log ≡ [] }
    requires blank { D.tells (logs.disk_of log) → frame_of (D.seen (logs.disk_of log)) ≡ Ok [] }
    ensures step { IfOk result (IsFirst (openings_of books.now) c log) }
    ensures refused { IfErr result (IsForMemory log) }
{
    if c == 0 {
        return Ok(Seat::Chief(Chief::fresh(alloc, log)));
    }
    match Book::fresh(alloc, values_of(books, c), c, log) {
        Ok(book) => Ok(Seat::Book(book)),
        Err(refused) => Err(refused),
    }
}

/// A component that is down begins over a log that is made on its disk.
fn made<D: Disk>(
    alloc: Global,
    books: &Books,
    c: u8,
    fingerprint: &[u8; 32],
    disk: D,
) -> Result<Seat<D>, LoadRefused<D>>
    requires there { c ≤ length books.now }
    requires blank { D.tells disk → D.seen disk ≡ [] }
    ensures step { IfOk result (IsMade D.Disk (openings_of books.now) c fingerprint.now disk) }
    ensures disk { Keeps D.Disk disk (disk_loaded result) }
    ensures calls { Makes D.Disk (create_calls fingerprint.now c) (is_ok result) (IsFault result) disk (disk_loaded result) }
    ensures refused { IfErr result (FailsToMake D.Disk disk) }
{
    let log = Log::create(alloc, disk, fingerprint, c)?;
    first(alloc, books, c, log)
}

impl<D: Disk> Seat<TornDisk<D>> {
    /// A component that is down, with its disk.
    pub fn on(alloc: Global, disk: D) -> Seat<TornDisk<D>>
        ensures { IsOn D.Disk disk result }
    {
        let mut disk = TornDisk::new(alloc, disk);
        disk.arm(NEVER);
        Seat::Down(disk, None)
    }

    /// The chief, component 0, or the book of this number comes up over a log that is made on its blank disk.
    pub fn begin(
        self,
        alloc: Global,
        books: &Books,
        c: u8,
        fingerprint: &[u8; 32],
    ) -> (Seat<TornDisk<D>>, Result<(), LoadWhy>)
        requires there { c ≤ length books.now }
        requires down { is_up self ≡ false }
        requires stands { Stands ⟦<TornDisk<D> as Disk>⟧ self }
        requires blank { D.tells (disk_in self).inner → D.seen (disk_in self).inner ≡ [] }
        ensures step { IfOk result.1 (λ u. Starts D.Disk (openings_of books.now) c fingerprint.now self result.0) }
        ensures disk { Keeps ⟦<TornDisk<D> as Disk>⟧ (disk_in self) (disk_in result.0) }
        ensures refused { IfErr result.1 (FailsToStart D.Disk self result.0) }
    {
        match self {
            Seat::Down(disk, kept) => {
                let mut disk = disk;
                disk.arm(NEVER);
                match made(alloc, books, c, fingerprint, disk) {
                    Ok(seat) => (seat, Ok(())),
                    Err(refused) => (Seat::Down(refused.disk, kept), Err(refused.why)),
                }
            }
            _ => unreachable!(),
        }
    }
}
