ghost use Rattle.std.specs.Prelude.{◌≡◌, ◌≤◌, ◌+◌, ◌++◌, [], suc, length, IfOk, OnOk, IfErr};
ghost use Rattle.std.specs.Vec.{vec_len, vec_capacity};
ghost use Rattle.ic_base.specs.declared.limits.TheConstants.{COMPONENTS};
ghost use Rattle.ic_moves.specs.Chiefs.{openings_of};
ghost use Rattle.ic_two_world.specs.Opening.{start_why, disks_under, AreOn, AreBlank, AreBegun, FailsToBegin};

use crate::acting::put_back;
use def_two::{Books, TwoWhy};
use ic_base::Items;
use ic_disk::{Disk, TornDisk};
use ic_gate::LoadWhy;
use ic_seat::Seat;
use std::alloc::{AllocError, Global};

/// Why a component's log isn't made, as the refusal of a world.
fn refusal(c: u8, why: LoadWhy) -> TwoWhy
    ensures { result ≡ start_why c why }
{
    match why {
        LoadWhy::Memory => TwoWhy::Memory,
        _ => TwoWhy::Failed(c),
    }
}

/// The same books in a list of their own.
pub(crate) fn copy_of(alloc: Global, books: &Books) -> Result<Books, AllocError>
    ensures { IfOk result (λ copy. copy ≡ books.now) }
{
    let mut copy = Items::new(alloc);
    for (name, values) in books.as_slice() {
        copy.push((name.copy(alloc)?, values.copy(alloc)?))?;
    }
    Ok(copy)
}

/// A component that is down on each disk.
pub(crate) fn put_on<D: Disk + Drop>(
    alloc: Global,
    disks: &mut Vec<D>,
    seats: &mut Vec<Seat<TornDisk<D>>>,
)
    requires none { seats.old.items ≡ [] }
    requires room { length disks.old.items ≤ vec_capacity seats.old }
    ensures on { AreOn D.Disk disks.old.items seats.new.items }
    ensures empty { disks.new.items ≡ [] }
    ensures capacity { vec_capacity disks.new ≡ vec_capacity disks.old }
{
    disks.reverse();
    while let Some(disk) = disks.pop() {
        seats.push_reserved(Seat::on(alloc, disk));
    }
}

/// The disks below components go behind these, in order.
pub(crate) fn take_back<D: Disk + Drop>(back: &mut Vec<D>, seats: Vec<Seat<TornDisk<D>>>)
    requires { vec_len back.old + length seats.items ≤ vec_capacity back.old }
    ensures { back.new.items ≡ back.old.items ++ disks_under seats.items }
{
    let mut seats = seats;
    seats.reverse();
    while let Some(seat) = seats.pop() {
        back.push_reserved(seat.into_disk().into_inner());
    }
}

/// All components come up over logs that are made on their disks. The first that doesn't is told.
pub(crate) fn begin_all<D: Disk + Drop>(
    alloc: Global,
    books: &Books,
    fingerprint: &[u8; 32],
    seats: &mut Vec<Seat<TornDisk<D>>>,
) -> Result<(), TwoWhy>
    requires count { length seats.old.items ≡ suc (length books.now) }
    requires few { length seats.old.items ≤ COMPONENTS }
    requires on { AreOn D.Disk (disks_under seats.old.items) seats.old.items }
    requires blank { AreBlank D.Disk (disks_under seats.old.items) }
    ensures step { OnOk result (AreBegun D.Disk (openings_of books.now) fingerprint.now (disks_under seats.old.items) seats.new.items) }
    ensures refused { IfErr result (FailsToBegin D.Disk (disks_under seats.old.items) seats.new.items) }
    ensures long { length fingerprint.now ≡ 32 }
{
    for place in 0..seats.len() {
        let c = place as u8;
        let (seat, made) = seats.remove(place).begin(alloc, books, c, fingerprint);
        put_back(seats, place, seat);
        if let Err(why) = made {
            return Err(refusal(c, why));
        }
    }
    Ok(())
}
