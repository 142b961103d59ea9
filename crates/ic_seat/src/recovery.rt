ghost use Rattle.std.specs.Prelude.{◌≡◌, ◌≤◌, ◌&&◌, false, is_ok, length, IfOk, IfErr};
ghost use Rattle.def_two.specs.Refusals.{misfit2};
ghost use Rattle.ic_disk.specs.Disk.{Keeps, CrashLeaves, Makes};
ghost use Rattle.ic_gate.specs.Calls.{IsFault};
ghost use Rattle.ic_gate.specs.Reading.{load_calls};
ghost use Rattle.ic_moves.specs.Chiefs.{openings_of};
ghost use Rattle.ic_two.specs.Loading.{RefusesToComeUp};
ghost use Rattle.ic_seat.specs.Recovering.{ComesUp, Recovers, FailsToRecover, disk_loaded, is_halt};
ghost use Rattle.ic_seat.specs.Seats.{disk_in, is_up, Stands};
ghost use Rattle.ic_seat.specs.Serving.{IsAllowed};

use crate::call::load_refusal;
use crate::opening::values_of;
use crate::serving::{NEVER, stop_or_never};
use crate::{Seat, SeatRefused};
use def_two::{Books, Records2};
use ic_base::Stop;
use ic_disk::{Disk, TornDisk};
use ic_gate::{LoadRefused, LoadWhy};
use ic_two::{Book, Chief};
use std::alloc::Global;

/// The chief, component 0, or the book of this number that its log on a disk stands for.
fn loaded<D: Disk>(
    alloc: Global,
    books: &Books,
    c: u8,
    disk: D,
    fingerprint: &[u8; 32],
) -> Result<Seat<D>, LoadRefused<D>>
    requires there { c ≤ length books.now }
    ensures step { IfOk result (ComesUp D.Disk (openings_of books.now) c disk fingerprint.now) }
    ensures disk { Keeps D.Disk disk (disk_loaded result) }
    // It writes nothing, so a crash leaves nothing more.
    ensures crash { CrashLeaves D.Disk disk (disk_loaded result) (D.may_leave disk) }
    ensures calls { Makes D.Disk load_calls (is_ok result) (IsFault result) disk (disk_loaded result) }
    ensures refused { IfErr result (λ refused. RefusesToComeUp D.Disk (misfit2 (openings_of books.now) c) disk fingerprint.now c refused.disk refused.why) }
{
    if c == 0 {
        return match Chief::recover(alloc, books, disk, fingerprint) {
            Ok(chief) => Ok(Seat::Chief(chief)),
            Err(refused) => Err(refused),
        };
    }
    match Book::recover(alloc, values_of(books, c), c, disk, fingerprint) {
        Ok(book) => Ok(Seat::Book(book)),
        Err(refused) => Err(refused),
    }
}

/// Whether a load was cut off by its stop.
fn is_cut(reached: bool, why: LoadWhy) -> bool
    ensures { result ≡ (reached && is_halt why) }
{
    match why {
        LoadWhy::Stopped => reached,
        _ => false,
    }
}

/// What is down comes up from its log, or stays down behind a stop that is reached within the load.
fn come_up<D: Disk>(
    alloc: Global,
    books: &Books,
    c: u8,
    disk: TornDisk<D>,
    kept: Option<Records2>,
    fingerprint: &[u8; 32],
    stop: Option<Stop>,
) -> (Seat<TornDisk<D>>, Result<(), SeatRefused>)
    requires there { c ≤ length books.now }
    requires stands { Stands ⟦<TornDisk<D> as Disk>⟧ (Seat.Down disk kept) }
    requires stop { IsAllowed stop }
    ensures step { IfOk result.1 (λ u. Recovers D.Disk (openings_of books.now) c fingerprint.now (Seat.Down disk kept) stop result.0) }
    ensures disk { Keeps ⟦<TornDisk<D> as Disk>⟧ disk (disk_in result.0) }
    ensures crash { CrashLeaves ⟦<TornDisk<D> as Disk>⟧ disk (disk_in result.0) (⟦<TornDisk<D> as Disk>⟧.may_leave disk) }
    ensures refused { IfErr result.1 (FailsToRecover D.Disk (openings_of books.now) c fingerprint.now (Seat.Down disk kept) result.0) }
{
    let mut disk = disk;
    disk.arm(stop_or_never(stop));
    match loaded(alloc, books, c, disk, fingerprint) {
        Ok(seat) => {
            let mut seat = seat;
            seat.arm(NEVER);
            (seat, Ok(()))
        }
        Err(refused) => {
            let mut disk = refused.disk;
            let reached = disk.disarm();
            if is_cut(reached, refused.why) && disk.is_stopped() {
                disk.power_on();
                disk.arm(NEVER);
                (Seat::Down(disk, kept), Ok(()))
            } else {
                (Seat::Down(disk, kept), Err(load_refusal(refused.why)))
            }
        }
    }
}

impl<D: Disk> Seat<TornDisk<D>> {
    /// Comes up from its log, if it is down. It is loaded with a stop that is set on its disk for it alone. Where the stop is reached,
    /// it stays down.
    pub fn recover(
        self,
        alloc: Global,
        books: &Books,
        c: u8,
        fingerprint: &[u8; 32],
        stop: Option<Stop>,
    ) -> (Seat<TornDisk<D>>, Result<(), SeatRefused>)
        requires there { c ≤ length books.now }
        requires stands { Stands ⟦<TornDisk<D> as Disk>⟧ self }
        requires stop { IsAllowed stop }
        ensures step { IfOk result.1 (λ u. Recovers D.Disk (openings_of books.now) c fingerprint.now self stop result.0) }
        ensures disk { Keeps ⟦<TornDisk<D> as Disk>⟧ (disk_in self) (disk_in result.0) }
        // It writes nothing, so a crash leaves nothing more.
        ensures crash { is_up self ≡ false → CrashLeaves ⟦<TornDisk<D> as Disk>⟧ (disk_in self) (disk_in result.0) (⟦<TornDisk<D> as Disk>⟧.may_leave (disk_in self)) }
        ensures refused { IfErr result.1 (FailsToRecover D.Disk (openings_of books.now) c fingerprint.now self result.0) }
    {
        match self {
            Seat::Down(disk, kept) => come_up(alloc, books, c, disk, kept, fingerprint, stop),
            seat => (seat, Ok(())),
        }
    }
}
