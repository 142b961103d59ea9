ghost use Rattle.std.specs.Prelude.{◌≡◌, false, true};
ghost use Rattle.ic_two.specs.Books as books;
ghost use Rattle.ic_two.specs.ChiefLogs as chiefs;
ghost use Rattle.ic_seat.specs.Seats.{call_of, is_up, is_open, MayBegin};
ghost use Rattle.ic_seat.specs.Steps.{StepsOver};

use crate::{Call2, Seat};
use def_two::Asks;
use ic_base::{Items, Stop};
use ic_disk::{Disk, TornDisk};
use ic_gate::StepRefused;
use ic_two::{Book, Chief};
use std::alloc::Global;

/// Makes a call at a chief.
fn chief_step<D: Disk>(
    chief: &mut Chief<D>,
    alloc: Global,
    call: &Call2,
) -> Result<Asks, StepRefused>
    requires open { chiefs.is_closed chief.old ≡ false }
    requires may { MayBegin (Seat.Chief chief.old) (call_of call.now) }
    ensures { StepsOver (Seat.Chief chief.old) (call_of call.now) (Seat.Chief chief.new) result }
{
    // Its size is that of the log in its file.
    chief.size();
    match *call {
        Call2::Begins(m) => chief.begin(alloc, m),
        Call2::Hears(p) => chief.on_packet(alloc, &p),
        Call2::Resends => match chief.resend(alloc) {
            Ok(puts) => Ok(puts),
            Err(_) => Err(StepRefused::Memory),
        },
    }
}

/// Makes a call at a book, which only gets packets. The room for its answer is made first.
fn book_step<D: Disk>(book: &mut Book<D>, alloc: Global, call: &Call2) -> Result<Asks, StepRefused>
    requires open { books.is_closed book.old ≡ false }
    ensures { StepsOver (Seat.Book book.old) (call_of call.now) (Seat.Book book.new) result }
{
    // Its size is that of the log in its file.
    book.size();
    let Ok(mut puts) = Vec::with_capacity(alloc, 1) else {
        return Err(StepRefused::Memory);
    };
    let Call2::Hears(p) = *call else {
        return Ok(Items::from_vec(puts));
    };
    match book.on_packet(alloc, &p) {
        Ok(answer) => {
            if let Some(packet) = answer {
                puts.push_reserved(packet);
            }
            Ok(Items::from_vec(puts))
        }
        Err(why) => Err(why),
    }
}

impl<D: Disk> Seat<D> {
    /// Makes a call at a component that is up.
    pub(crate) fn step(&mut self, alloc: Global, call: &Call2) -> Result<Asks, StepRefused>
        requires up { is_up self.old ≡ true }
        requires open { is_open self.old ≡ true }
        requires may { MayBegin self.old (call_of call.now) }
        ensures { StepsOver self.old (call_of call.now) self.new result }
    {
        match self {
            Seat::Chief(chief) => chief_step(chief, alloc, call),
            Seat::Book(book) => book_step(book, alloc, call),
            Seat::Down(_, _) => unreachable!(),
        }
    }
}

impl<D: Disk> Seat<TornDisk<D>> {
    ghost use Rattle.std.specs.Prelude.{◌≡◌, Some, None};
    ghost use Rattle.ic_disk.specs.Armings.{set_by};
    ghost use Rattle.ic_disk.specs.TornDisks.{is_reached};
    ghost use Rattle.ic_seat.specs.Seats.{site_of, disk_in, is_up};
    ghost use Rattle.ic_seat.specs.Steps.{IsSameSeat};

    /// Sets a stop of its disk. Its device calls are counted from 1 from here on.
    pub(crate) fn arm(&mut self, stop: Stop)
        ensures disk { disk_in self.new ≡ record (disk_in self.old) { script = Some (set_by stop) } }
        ensures site { is_up self.old ≡ true → site_of self.new ≡ site_of self.old }
        ensures same { IsSameSeat self.old self.new }
    {
        match self {
            Seat::Chief(chief) => chief.arm(stop),
            Seat::Book(book) => book.arm(stop),
            Seat::Down(disk, _) => disk.arm(stop),
        }
    }

    /// Takes the stop of its disk away, and tells whether it was reached.
    pub(crate) fn disarm(&mut self) -> bool
        ensures reached { result ≡ is_reached (disk_in self.old).script }
        ensures disk { disk_in self.new ≡ record (disk_in self.old) { script = None } }
        ensures site { is_up self.old ≡ true → site_of self.new ≡ site_of self.old }
        ensures same { IsSameSeat self.old self.new }
    {
        match self {
            Seat::Chief(chief) => chief.disarm(),
            Seat::Book(book) => book.disarm(),
            Seat::Down(disk, _) => disk.disarm(),
        }
    }
}
