ghost use Rattle.std.specs.Prelude.{◌≡◌, ◌+◌, ◌<◌, ◌≤◌, length, option_map, OnOk, IfOk};
ghost use Rattle.def_step.specs.World as world;
ghost use Rattle.def_step.specs.Settle as settle;
ghost use Rattle.ic_network.specs.Networks.{empty_network, in_world, with_put, with_puts, without_wait_in, ends_of};

use crate::lanes::{Lanes, push_reserved};
use crate::packets::{are_components, goes, lane_of, receiver_of, sender_of};
use ic_base::{ComId, Packet};
use std::alloc::{AllocError, Global};
use std::marker::Model;

/// The modelled network: every packet that was put out, numbered from 1, and which of them wait (docs/RULES.md, "The
/// network").
///
/// Contracts see it as the packets and the numbers of those that wait, the oldest first, and for how many more packets
/// there is room. Between components that a scenario may have a call costs the same however many packets there are, but
/// that all calls together pass each packet a few times.
#[derive(Drop)]
pub struct Network {
    packets: Vec<Packet>,
    lanes: Lanes,
    /// How many packets wait.
    waiting: usize,
}

impl Model for Network {
    ghost use Rattle.std.specs.Prelude.{min, ◌-◌};
    ghost use Rattle.std.specs.Vec.{vec_len, vec_capacity};
    ghost use Rattle.ic_network.specs.Networks.{RoomyNetwork, IsSorted};
    ghost use Rattle.ic_network.specs.Lanes.{numbers_from};

    ghost Value = { RoomyNetwork };

    ghost view = { λ s. record {
      network = record { packets = s.packets.items; waiting = numbers_from 1 s.lanes.waits };
      spare = min (vec_capacity s.packets - vec_len s.packets) s.lanes.spare;
    } };

    ghost invariant = { λ s. IsSorted s.packets.items s.lanes.lanes s.lanes.waits s.waiting };
}

impl Network {
    /// No packet was put out, and there is room for none.
    pub fn new(alloc: Global) -> Result<Network, AllocError>
        ensures { IfOk result (λ n. n.network ≡ empty_network) }
    {
        Ok(Network {
            packets: Vec::new(alloc),
            lanes: Lanes::new(alloc)?,
            waiting: 0,
        })
    }

    /// Makes room for n more packets. It is refused too where more than 2^32 - 2 packets would be put out.
    pub fn reserve(&mut self, n: usize) -> Result<(), AllocError>
        ensures same { self.new.network ≡ self.old.network }
        ensures room { OnOk result (n ≤ self.new.spare) }
        ensures kept { self.old.spare ≤ self.new.spare }
    {
        self.packets.reserve(n)?;
        self.lanes.reserve(n)
    }

    /// How many packets were put out.
    pub fn count(&self) -> u32
        ensures count { result ≡ length self.now.network.packets }
        ensures next { result + 1 < 4294967296 }
    {
        self.lanes.count()
    }

    /// How many packets wait.
    pub fn waiting(&self) -> usize
        ensures { result ≡ length self.now.network.waiting }
    {
        self.waiting
    }

    /// Puts a packet out: it is numbered behind all earlier ones, and waits.
    pub fn put(&mut self, packet: &Packet)
        requires room { 0 < self.old.spare }
        ensures put { self.new.network ≡ with_put self.old.network packet.now }
        ensures room { self.old.spare ≤ self.new.spare + 1 }
    {
        self.lanes
            .push(lane_of(sender_of(packet), receiver_of(packet)));
        push_reserved(&mut self.packets, *packet);
        self.waiting += 1;
    }

    /// Puts packets out, in order.
    pub fn put_all(&mut self, packets: &[Packet])
        requires room { length packets.now ≤ self.old.spare }
        ensures put { self.new.network ≡ with_puts self.old.network packets.now }
        ensures room { self.old.spare ≤ self.new.spare + length packets.now }
    {
        for packet in packets {
            self.put(packet);
        }
    }

    /// The packet of a number, counted from 1. None exactly where no packet of this number was put out.
    pub fn packet(&self, number: u32) -> Option<Packet>
        ensures { result ≡ world.packet_at (in_world self.now.network) number }
    {
        if number == 0 {
            return None;
        }
        self.packets.get(number as usize - 1).copied()
    }

    /// The sender and the receiver of the oldest waiting packet. None exactly where none waits.
    pub fn oldest(&self) -> Option<(ComId, ComId)>
        ensures { result ≡ option_map ends_of (settle.oldest (in_world self.now.network)) }
    {
        let packet = self.packet(self.lanes.oldest()?)?;
        Some((sender_of(&packet), receiver_of(&packet)))
    }

    /// The number of the oldest waiting packet between two components. None exactly where none waits.
    pub fn oldest_of(&self, from: ComId, to: ComId) -> Option<u32>
        ensures { result ≡ world.oldest_of (in_world self.now.network) from to }
    {
        if are_components(from, to) {
            self.lanes.oldest_on(lane_of(from, to))
        } else {
            self.walk(from, to)
        }
    }

    /// The same, looked for among all packets: for a pair that no scenario has.
    fn walk(&self, from: ComId, to: ComId) -> Option<u32>
        ensures { result ≡ world.oldest_of (in_world self.now.network) from to }
    {
        for place in 0..self.count() {
            if self.lanes.does_wait(place + 1) && goes(&self.packets[place as usize], from, to) {
                return Some(place + 1);
            }
        }
        None
    }

    /// The packet of this number waits no longer. Nothing changes where it didn't wait.
    pub fn take_off(&mut self, number: u32)
        ensures off { self.new.network ≡ without_wait_in self.old.network number }
        ensures room { self.new.spare ≡ self.old.spare }
    {
        if self.lanes.take_off(number) {
            self.waiting -= 1;
        }
    }
}
