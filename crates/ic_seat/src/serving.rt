ghost use Rattle.std.specs.Prelude.{◌≡◌, IfOk, IfErr};
ghost use Rattle.ic_disk.specs.Torns.{or_never};

use crate::call::step_refusal;
use crate::{Call2, Seat, SeatRefused};
use def_two::Asks;
use ic_base::{Fill, Items, Stop};
use ic_disk::{Disk, TornDisk};
use std::alloc::Global;

/// The stop that is never reached.
pub(crate) const NEVER: Stop = Stop {
    call: 0,
    keep: 0,
    fill: Fill::Old,
};

/// The stop that is set for a call: one that is never reached where none is asked for.
pub(crate) fn stop_or_never(stop: Option<Stop>) -> Stop
    ensures { result ≡ or_never stop }
{
    match stop {
        Some(stop) => stop,
        None => NEVER,
    }
}

impl<D: Disk> Seat<TornDisk<D>> {
    ghost use Rattle.std.specs.Prelude.{◌≡◌, true, false, []};
    ghost use Rattle.ic_disk.specs.Disk.{Keeps, CrashLeaves};
    ghost use Rattle.ic_seat.specs.Seats.{call_of, disk_in, is_up, Stands, MayBegin};
    ghost use Rattle.ic_seat.specs.Serving.{IsAllowed, LiesDown, Serves, FailsToServe};
    ghost use Rattle.ic_seat.specs.Steps.{IsBeforeOrServed};

    /// Where its disk stands stopped by its stop, it is switched on, and the component is down. Nothing is loaded. Tells whether it is.
    fn lies_down(self) -> (Seat<TornDisk<D>>, bool)
        ensures stood { result.1 ≡ (disk_in self).stopped }
        ensures lost { result.1 ≡ true → (disk_in self).held ≡ [] }
        ensures down { result.1 ≡ true → LiesDown D.Disk self result.0 }
        ensures disk { result.1 ≡ false → disk_in result.0 ≡ disk_in self }
    {
        let mut disk = self.into_disk();
        let stopped = disk.is_stopped();
        if stopped {
            disk.power_on();
            disk.arm(NEVER);
        }
        (Seat::Down(disk, None), stopped)
    }

    /// Makes a call with a stop that is set on its disk for it alone. Where the stop is reached, it is down, and nothing is put out.
    /// One that is down does nothing.
    pub fn serve(
        self,
        alloc: Global,
        call: &Call2,
        stop: Option<Stop>,
    ) -> (Seat<TornDisk<D>>, Result<Asks, SeatRefused>)
        requires stands { Stands ⟦<TornDisk<D> as Disk>⟧ self }
        requires may { MayBegin self (call_of call.now) }
        requires stop { IsAllowed stop }
        ensures step { IfOk result.1 (Serves D.Disk self stop (call_of call.now) result.0) }
        ensures disk { Keeps ⟦<TornDisk<D> as Disk>⟧ (disk_in self) (disk_in result.0) }
        // A crash at each moment of the call leaves the old records, or these and that of the step.
        ensures crash { is_up self ≡ true → CrashLeaves ⟦<TornDisk<D> as Disk>⟧ (disk_in self) (disk_in result.0) (IsBeforeOrServed self (call_of call.now)) }
        ensures refused { IfErr result.1 (FailsToServe D.Disk self (call_of call.now) result.0) }
    {
        let mut seat = self;
        if seat.is_down() {
            return (seat, Ok(Items::new(alloc)));
        }
        seat.arm(stop_or_never(stop));
        let made = seat.step(alloc, call);
        let reached = seat.disarm();
        match made {
            Ok(puts) => {
                seat.arm(NEVER);
                (seat, Ok(puts))
            }
            Err(why) => match step_refusal(why, reached) {
                Some(refused) => (seat, Err(refused)),
                None => {
                    let (seat, down) = seat.lies_down();
                    if down {
                        (seat, Ok(Items::new(alloc)))
                    } else {
                        (seat, Err(SeatRefused::Failed))
                    }
                }
            },
        }
    }
}
