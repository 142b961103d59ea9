ghost use Rattle.std.specs.Prelude.{◌≡◌, ◌⊎◌, ◌+◌, ◌*◌, ◌<◌, ◌≤◌, ◌^◌, true, false, ℕ, length, find, get_or, slice_get, slice_set, option_and_then, IfOk, OnOk, OnErr};
ghost use Rattle.ic_network.specs.Lanes.{is_waiting};
ghost use Rattle.def_two.specs.World as world;
ghost use Rattle.ic_moves.specs.Networks.{empty_network, with_puts, without, waits_between, pair_of};

use def_two::Packet2;
use std::alloc::{AllocError, Global};
use std::marker::Model;

/// How many places the table of pairs has.
const PAIRS: usize = 256;

/// The network of a world: all packets that were ever put out, numbered from 1 in that order, and which of them wait.
///
/// All calls together pass each packet once for each pair of components of a script, so what an event costs doesn't grow with the run.
#[derive(Drop)]
pub struct Network2 {
    packets: Vec<Packet2>,
    /// Whether each packet waits.
    waits: Vec<bool>,
    /// For each pair of components below 16 a place below which no packet waits between them.
    passed: Vec<usize>,
    /// A place below which no packet waits.
    first: usize,
}

impl Model for Network2 {
    ghost use Rattle.ic_network.specs.Lanes.{numbers_from};
    ghost use Rattle.ic_moves.specs.Networks.{Network, IsKept};

    ghost Value = { Network };

    ghost view = { λ s. record { packets = s.packets.items; waiting = numbers_from 1 s.waits.items } };

    ghost invariant = { λ s. IsKept s.packets.items s.waits.items s.passed.items s.first };
}

/// Who sends a packet: the chief, 0, or a book.
pub fn sender_of(p: Packet2) -> u8
    ensures { result ≡ world.sender_of p }
{
    match p {
        Packet2::Ask { .. } => 0,
        Packet2::Verdict { .. } => 0,
        Packet2::Vote { book, .. } => book,
        Packet2::Done { book, .. } => book,
    }
}

/// To whom a packet goes: the chief, 0, or a book.
pub fn receiver_of(p: Packet2) -> u8
    ensures { result ≡ world.receiver_of p }
{
    match p {
        Packet2::Ask { book, .. } => book,
        Packet2::Verdict { book, .. } => book,
        Packet2::Vote { .. } => 0,
        Packet2::Done { .. } => 0,
    }
}

/// The packet in a place.
fn packet_in(packets: &[Packet2], at: usize) -> Option<Packet2>
    ensures { result ≡ slice_get packets.now at }
{
    packets.get(at).copied()
}

/// The place that the table keeps for a pair of components; 0 for one that has none.
fn place_in(passed: &[usize], from: u8, to: u8) -> usize
    requires { length passed.now ≡ 256 }
    ensures { (result ≡ 0) ⊎ ((from < 16) × (to < 16) × (result ≡ get_or passed.now (pair_of from to) 0)) }
{
    if from < 16 && to < 16 {
        passed[usize::from(from) * 16 + usize::from(to)]
    } else {
        0
    }
}

/// Keeps a place for a pair of components, if the table has one for it.
fn keep_place(passed: &mut Vec<usize>, from: u8, to: u8, at: usize)
    requires { length passed.old.items ≡ 256 }
    ensures { (passed.new.items ≡ passed.old.items) ⊎ ((from < 16) × (to < 16) × (passed.new.items ≡ slice_set passed.old.items (pair_of from to) at)) }
{
    if from < 16 && to < 16 {
        passed[usize::from(from) * 16 + usize::from(to)] = at;
    }
}

/// The first place from this one on at which a packet waits, or the end.
fn first_waiting(waits: &[bool], from: usize) -> usize
    ensures passed { (k : ℕ) → from ≤ k → k < result → is_waiting waits.now k ≡ false }
    ensures here { result < length waits.now → (from ≤ result) × (is_waiting waits.now result ≡ true) }
    ensures within { result ≤ length waits.now }
{
    for i in from..waits.len() {
        if waits[i] {
            return i;
        }
    }
    waits.len()
}

/// The first place from this one on at which a packet waits that goes from the one to the other, or the end.
fn first_between(packets: &[Packet2], waits: &[bool], from: u8, to: u8, start: usize) -> usize
    requires { length waits.now ≡ length packets.now }
    ensures passed { (k : ℕ) → start ≤ k → k < result → waits_between packets.now waits.now from to k ≡ false }
    ensures here { result < length waits.now → (start ≤ result) × (waits_between packets.now waits.now from to result ≡ true) }
    ensures within { result ≤ length waits.now }
{
    for i in start..waits.len() {
        if waits[i] && (sender_of(packets[i]) == from && receiver_of(packets[i]) == to) {
            return i;
        }
    }
    waits.len()
}

impl Network2 {
    /// A network without a packet.
    pub fn new(alloc: Global) -> Result<Network2, AllocError>
        ensures { IfOk result (λ n. n ≡ empty_network) }
    {
        Ok(Network2 {
            packets: Vec::new(alloc),
            waits: Vec::new(alloc),
            passed: vec![in alloc; 0; PAIRS]?,
            first: 0,
        })
    }

    /// How many packets were put out.
    pub fn count(&self) -> usize
        ensures { result ≡ length self.now.packets }
    {
        self.packets.len()
    }

    /// The packet with this number.
    pub fn packet(&self, number: u32) -> Option<Packet2>
        ensures { result ≡ world.nth self.now.packets number }
    {
        if number == 0 {
            return None;
        }
        packet_in(self.packets.as_slice(), number as usize - 1)
    }

    /// The number of the oldest waiting packet from the one to the other. The place up to which none waits is kept.
    pub fn oldest_of(&mut self, from: u8, to: u8) -> Option<u32>
        requires few { length self.old.packets < 2 ^ 32 }
        ensures found { result ≡ find (λ i. world.goes from to (world.nth self.old.packets i)) self.old.waiting }
        ensures same { self.new ≡ self.old }
    {
        let start = place_in(self.passed.as_slice(), from, to);
        let at = first_between(
            self.packets.as_slice(),
            self.waits.as_slice(),
            from,
            to,
            start,
        );
        keep_place(&mut self.passed, from, to, at);
        if at < self.packets.len() {
            Some(at as u32 + 1)
        } else {
            None
        }
    }

    /// The oldest waiting packet.
    pub fn oldest(&self) -> Option<Packet2>
        ensures { result ≡ option_and_then (world.nth self.now.packets) (world.first_number self.now.waiting) }
    {
        let at = first_waiting(self.waits.as_slice(), self.first);
        packet_in(self.packets.as_slice(), at)
    }

    /// The packet with this number no longer waits.
    pub fn take_off(&mut self, number: u32)
        ensures { self.new ≡ without self.old number }
    {
        if number == 0 || self.waits.len() < number as usize {
            return;
        }
        self.waits[number as usize - 1] = false;
        self.first = first_waiting(self.waits.as_slice(), self.first);
    }

    /// Puts packets out behind all earlier ones; they wait. Want of memory changes nothing.
    pub fn put(&mut self, puts: &[Packet2]) -> Result<(), AllocError>
        ensures put { OnOk result (self.new ≡ with_puts self.old puts.now) }
        ensures same { OnErr result (self.new ≡ self.old) }
    {
        self.packets.reserve(puts.len())?;
        self.waits.reserve(puts.len())?;
        for p in puts {
            self.packets.push_reserved(*p);
            self.waits.push_reserved(true);
        }
        Ok(())
    }
}
