ghost use Rattle.std.specs.Prelude.{◌≡◌, ◌≤◌, ◌<◌, ◌+◌, ℕ, Some, length, slice_get, slice_set, IfErr, OnOk, OnErr};
ghost use Rattle.std.specs.List.{insert};
ghost use Rattle.std.specs.Vec.{vec_len, vec_capacity};
ghost use Rattle.ic_base.specs.declared.limits.TheConstants.{PACKETS};
ghost use Rattle.ic_moves.specs.Chiefs.{openings_of};
ghost use Rattle.ic_moves.specs.Networks.{with_puts};
ghost use Rattle.ic_disk.specs.TornDisks.{Torn};
ghost use Rattle.ic_seat.specs.Seats.{call_of, Stands, MayBegin};
ghost use Rattle.ic_seat.specs.Serving.{IsAllowed};
ghost use Rattle.ic_two_world.specs.Acting.{refusal_of, CannotPut, Acts, FailsToAct, ComesUpThere, FailsToComeUp, GoesDownThere};

use def_two::{Books, Packet2, TwoRefused};
use ic_base::Stop;
use ic_base::limits::PACKETS;
use ic_disk::{Disk, TornDisk};
use ic_moves::Network2;
use ic_seat::{Call2, Seat, SeatRefused};
use std::alloc::Global;

/// A refusal of a component as one of the world.
fn refusal(c: u8, why: SeatRefused) -> TwoRefused
    ensures { result ≡ refusal_of c why }
{
    match why {
        SeatRefused::Full => TwoRefused::LogFull(c),
        SeatRefused::Bad(place) => TwoRefused::Bad(c, place),
        SeatRefused::Foreign(kept) => TwoRefused::Foreign(c, kept),
        SeatRefused::Failed => TwoRefused::Failed(c),
        SeatRefused::Memory => TwoRefused::Memory,
    }
}

/// Puts packets out, whose numbers may not pass their limit.
fn put(network: &mut Network2, puts: &[Packet2]) -> Result<(), TwoRefused>
    requires few { length network.old.packets ≤ PACKETS }
    ensures put { OnOk result (network.new ≡ with_puts network.old puts.now) }
    ensures few { OnOk result (length network.new.packets ≤ PACKETS) }
    ensures refused { IfErr result (CannotPut network.old puts.now) }
{
    if PACKETS - (network.count() as u64) < puts.len() as u64 {
        return Err(TwoRefused::Packets);
    }
    match network.put(puts) {
        Ok(()) => Ok(()),
        Err(_) => Err(TwoRefused::Memory),
    }
}

/// Puts a component back in the place from which it was taken out.
pub(crate) fn put_back<D: Disk + Drop>(seats: &mut Vec<Seat<D>>, place: usize, seat: Seat<D>)
    requires within { place ≤ vec_len seats.old }
    requires room { vec_len seats.old < vec_capacity seats.old }
    ensures { seats.new.items ≡ insert seats.old.items place seat }
{
    if seats.insert(place, seat).is_err() {
        unreachable!()
    }
}

/// The component in a place makes a call with a stop, and what it answers is put out. Nothing happens where there is none.
pub(crate) fn act<D: Disk + Drop>(
    alloc: Global,
    seats: &mut Vec<Seat<TornDisk<D>>>,
    network: &mut Network2,
    c: u8,
    call: &Call2,
    stop: Option<Stop>,
) -> Result<(), TwoRefused>
    requires stand { (k : ℕ) (x : _) → slice_get seats.old.items k ≡ Some x → Stands ⟦<TornDisk<D> as Disk>⟧ x }
    requires may { (x : _) → slice_get seats.old.items c ≡ Some x → MayBegin x (call_of call.now) }
    requires stop { IsAllowed stop }
    requires few { length network.old.packets ≤ PACKETS }
    ensures step { OnOk result (Acts D.Disk seats.old.items network.old c stop (call_of call.now) seats.new.items network.new) }
    ensures refused { IfErr result (FailsToAct D.Disk seats.old.items network.old c stop (call_of call.now) seats.new.items) }
{
    let place = usize::from(c);
    if seats.len() <= place {
        return Ok(());
    }
    let (seat, made) = seats.remove(place).serve(alloc, call, stop);
    put_back(seats, place, seat);
    match made {
        Ok(puts) => put(network, puts.as_slice()),
        Err(why) => Err(refusal(c, why)),
    }
}

/// The component in a place, which is there, comes up from its log, if it is down.
pub(crate) fn come_up<D: Disk + Drop>(
    alloc: Global,
    books: &Books,
    fingerprint: &[u8; 32],
    seats: &mut Vec<Seat<TornDisk<D>>>,
    c: u8,
    stop: Option<Stop>,
) -> Result<(), TwoRefused>
    requires stand { (k : ℕ) (x : _) → slice_get seats.old.items k ≡ Some x → Stands ⟦<TornDisk<D> as Disk>⟧ x }
    requires there { c < length seats.old.items }
    requires book { c ≤ length books.now }
    requires stop { IsAllowed stop }
    ensures step { OnOk result (ComesUpThere D.Disk (openings_of books.now) fingerprint.now seats.old.items c stop seats.new.items) }
    ensures refused { IfErr result (FailsToComeUp D.Disk (openings_of books.now) fingerprint.now seats.old.items c seats.new.items) }
{
    let place = usize::from(c);
    let (seat, made) = seats
        .remove(place)
        .recover(alloc, books, c, fingerprint, stop);
    put_back(seats, place, seat);
    match made {
        Ok(()) => Ok(()),
        Err(why) => Err(refusal(c, why)),
    }
}

/// The component in a place, which is there, goes down.
pub(crate) fn go_down<D: Disk + Drop>(seats: &mut Vec<Seat<TornDisk<D>>>, c: u8)
    requires there { c < length seats.old.items }
    ensures { GoesDownThere D.Disk seats.old.items c seats.new.items }
{
    let place = usize::from(c);
    let seat = seats.remove(place).crash();
    put_back(seats, place, seat);
}
