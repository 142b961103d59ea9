ghost use Rattle.std.specs.Prelude.{◌≡◌, OnOk, IfErr, slice_get};
ghost use Rattle.def_two.specs.Runs.{IsEvent2};
ghost use Rattle.def_two.specs.World.{packet_at};
ghost use Rattle.def_two.specs.declared.script.What2.TheVariants as whats;
ghost use Rattle.ic_seat.specs.Serving.{IsAllowed};
ghost use Rattle.ic_two_world.specs.Stepping.{Steps2, FailsToStep2, IsSameScript, Delivers, FailsToDeliver, with_stop};
ghost use Rattle.ic_two_world.specs.Views.{openings_of, world_of, IsGoing, begun_if_up_in};

use crate::TwoWorld;
use crate::acting::{act, come_up, go_down};
use def_two::{Event2, Move, TwoRefused, What2};
use ic_base::Stop;
use ic_base::limits::GREATEST_NUMBER;
use ic_disk::{Disk, TornDisk};
use ic_moves::receiver_of;
use ic_seat::{Call2, Seat};
use std::alloc::Global;

/// How many moves were begun, if the chief, the first of these, is up.
pub(crate) fn begun_if_up<D: Disk>(seats: &[Seat<D>]) -> Option<u64>
    ensures { result ≡ begun_if_up_in (slice_get seats.now 0) }
{
    match seats.first() {
        Some(Seat::Chief(chief)) => Some(chief.begun() as u64),
        Some(Seat::Book(_) | Seat::Down(_, _)) | None => None,
    }
}

impl<D: Disk + Drop> TwoWorld<TornDisk<D>> {
    /// A move begins, if the chief is up.
    fn begin(
        &mut self,
        alloc: Global,
        from: u8,
        source: u16,
        to: u8,
        target: u16,
        amount: u64,
        stop: Option<Stop>,
    ) -> Result<(), TwoRefused>
        requires going { IsGoing ⟦<TornDisk<D> as Disk>⟧ self.old }
        requires event { IsEvent2 (openings_of self.old) (with_stop (whats.Move from source to target amount) stop) }
        ensures step { OnOk result (Steps2 D.Disk self.old (with_stop (whats.Move from source to target amount) stop) self.new) }
        ensures refused { IfErr result (FailsToStep2 D.Disk self.old (with_stop (whats.Move from source to target amount) stop) self.new) }
    {
        let Some(begun) = begun_if_up(self.seats.as_slice()) else {
            return Ok(());
        };
        if begun >= GREATEST_NUMBER {
            return Err(TwoRefused::LogFull(0));
        }
        let m = Move {
            n: begun + 1,
            from,
            source,
            to,
            target,
            amount,
        };
        act(
            alloc,
            &mut self.seats,
            &mut self.network,
            0,
            &Call2::Begins(m),
            stop,
        )
    }

    /// The packet of a number waits no longer, and goes to its receiver.
    fn deliver(&mut self, alloc: Global, number: u32, stop: Option<Stop>) -> Result<(), TwoRefused>
        requires going { IsGoing ⟦<TornDisk<D> as Disk>⟧ self.old }
        requires stop { IsAllowed stop }
        ensures same { IsSameScript D.Disk self.old self.new }
        ensures step { OnOk result (Delivers D.Disk self.old number stop (packet_at (world_of self.old) number) self.new) }
        ensures refused { IfErr result (FailsToDeliver D.Disk self.old number stop (packet_at (world_of self.old) number) self.new) }
    {
        let Some(p) = self.network.packet(number) else {
            return Ok(());
        };
        self.network.take_off(number);
        act(
            alloc,
            &mut self.seats,
            &mut self.network,
            receiver_of(p),
            &Call2::Hears(p),
            stop,
        )
    }

    /// The oldest waiting packet from the one to the other is delivered, if there is one.
    fn deliver_oldest(
        &mut self,
        alloc: Global,
        from: u8,
        to: u8,
        stop: Option<Stop>,
    ) -> Result<(), TwoRefused>
        requires going { IsGoing ⟦<TornDisk<D> as Disk>⟧ self.old }
        requires stop { IsAllowed stop }
        ensures step { OnOk result (Steps2 D.Disk self.old (with_stop (whats.Deliver from to) stop) self.new) }
        ensures refused { IfErr result (FailsToStep2 D.Disk self.old (with_stop (whats.Deliver from to) stop) self.new) }
    {
        match self.network.oldest_of(from, to) {
            Some(number) => self.deliver(alloc, number, stop),
            None => Ok(()),
        }
    }

    /// The oldest waiting packet from the one to the other is lost, if there is one.
    fn lose(&mut self, from: u8, to: u8)
        requires { IsGoing ⟦<TornDisk<D> as Disk>⟧ self.old }
        ensures { (stop : _) → IsAllowed stop → Steps2 D.Disk self.old (with_stop (whats.Lose from to) stop) self.new }
    {
        if let Some(number) = self.network.oldest_of(from, to) {
            self.network.take_off(number);
        }
    }

    /// The component goes down, if it is there and up.
    fn crash(&mut self, c: u8)
        requires { IsGoing ⟦<TornDisk<D> as Disk>⟧ self.old }
        ensures { (stop : _) → IsAllowed stop → Steps2 D.Disk self.old (with_stop (whats.Crash c) stop) self.new }
    {
        if usize::from(c) < self.seats.len() {
            go_down(&mut self.seats, c);
        }
    }

    /// The component comes up from its log, if it is there and down.
    fn recover(&mut self, alloc: Global, c: u8, stop: Option<Stop>) -> Result<(), TwoRefused>
        requires going { IsGoing ⟦<TornDisk<D> as Disk>⟧ self.old }
        requires stop { IsAllowed stop }
        ensures step { OnOk result (Steps2 D.Disk self.old (with_stop (whats.Recover c) stop) self.new) }
        ensures refused { IfErr result (FailsToStep2 D.Disk self.old (with_stop (whats.Recover c) stop) self.new) }
    {
        if self.seats.len() <= usize::from(c) {
            return Ok(());
        }
        come_up(
            alloc,
            &self.books,
            &self.fingerprint,
            &mut self.seats,
            c,
            stop,
        )
    }

    /// The component sends again, if it is the chief and up.
    fn resend(&mut self, alloc: Global, c: u8, stop: Option<Stop>) -> Result<(), TwoRefused>
        requires going { IsGoing ⟦<TornDisk<D> as Disk>⟧ self.old }
        requires stop { IsAllowed stop }
        ensures step { OnOk result (Steps2 D.Disk self.old (with_stop (whats.Resend c) stop) self.new) }
        ensures refused { IfErr result (FailsToStep2 D.Disk self.old (with_stop (whats.Resend c) stop) self.new) }
    {
        act(
            alloc,
            &mut self.seats,
            &mut self.network,
            c,
            &Call2::Resends,
            stop,
        )
    }

    /// Does one event (docs/RULES.md, "Moves over two books").
    ///
    /// A stop is armed for the event's component alone. One that is reached is no refusal: nothing is put out, the disk is switched
    /// on, and the component is down.
    pub fn step(&mut self, alloc: Global, event: &Event2) -> Result<(), TwoRefused>
        requires going { IsGoing ⟦<TornDisk<D> as Disk>⟧ self.old }
        requires event { IsEvent2 (openings_of self.old) event.now }
        ensures step { OnOk result (Steps2 D.Disk self.old event.now self.new) }
        ensures refused { IfErr result (FailsToStep2 D.Disk self.old event.now self.new) }
    {
        match event.what {
            What2::Move {
                from,
                source,
                to,
                target,
                amount,
            } => self.begin(alloc, from, source, to, target, amount, event.stop),
            What2::Deliver(from, to) => self.deliver_oldest(alloc, from, to, event.stop),
            What2::Packet(number) => self.deliver(alloc, number, event.stop),
            What2::Lose(from, to) => {
                self.lose(from, to);
                Ok(())
            }
            What2::Crash(c) => {
                self.crash(c);
                Ok(())
            }
            What2::Recover(c) => self.recover(alloc, c, event.stop),
            What2::Resend(c) => self.resend(alloc, c, event.stop),
        }
    }
}
