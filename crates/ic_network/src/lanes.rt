ghost use Rattle.std.specs.Prelude.{◌≡◌, ◌+◌, ◌-◌, ◌<◌, ◌≤◌, ◌++◌, ◌∷◌, ◌==◌, [], true, cond, length, find, slice_set, slice_index_or, OnOk, IfOk};
ghost use Rattle.std.specs.Vec.{vec_len, vec_capacity};
ghost use Rattle.ic_network.specs.declared.lanes.TheConstants.{LANES};
ghost use Rattle.def_step.specs.Settle.{first_number};
ghost use Rattle.ic_network.specs.Lanes.{numbers_from, is_on, is_waiting, is_waiting_on, waits_as, without_wait, if_some, IsFirst};

use ic_base::limits::COMPONENTS;
use std::alloc::{AllocError, Global};
use std::marker::Model;

/// How many lanes there are: one for each pair of a scenario's components, and the last one for all other pairs.
pub const LANES: usize = COMPONENTS * COMPONENTS + 1;

/// How many numbers there may be: each is below the greatest u32, so that the next one is a u32 too.
pub const NUMBERS: usize = 4_294_967_294;

/// Numbers from 1 on, each on one lane, and which of them wait.
///
/// The oldest number that waits, of all and of each lane, is kept at every call, so it is read at once. The next number
/// on the same lane is kept for each number, and those that no longer wait are passed when the oldest one is taken off.
/// So all calls together pass each number at most twice.
#[derive(Drop)]
pub struct Lanes {
    /// The lane of each number.
    lanes: Vec<u16>,
    /// Whether each number waits.
    waits: Vec<bool>,
    /// For each number the next one on its lane, 0 where there is none.
    next: Vec<u32>,
    /// For each lane the oldest number that waits, 0 where there is none.
    firsts: Vec<u32>,
    /// For each lane its last number, 0 where there is none.
    lasts: Vec<u32>,
    /// The oldest number of all that waits, 0 where there is none.
    oldest: u32,
}

impl Model for Lanes {
    ghost use Rattle.std.specs.Prelude.{min, ◌-◌};
    ghost use Rattle.std.specs.Vec.{vec_len, vec_capacity};
    ghost use Rattle.ic_network.specs.Lanes as state;

    ghost Value = { state.Lanes };

    ghost use Rattle.ic_network.specs.Kept.{IsKept};
    ghost use Rattle.ic_network.specs.declared.lanes.TheConstants.{NUMBERS};

    ghost view = { λ s. record {
      lanes = s.lanes.items;
      waits = s.waits.items;
      spare = min (min (vec_capacity s.lanes - vec_len s.lanes) (vec_capacity s.waits - vec_len s.waits)) (min (vec_capacity s.next - vec_len s.next) (NUMBERS - vec_len s.lanes));
    } };

    ghost invariant = { λ s. IsKept s.lanes.items s.waits.items s.next.items s.firsts.items s.lasts.items s.oldest };
}

impl Lanes {
    /// No number, and room for none.
    pub fn new(alloc: Global) -> Result<Lanes, AllocError>
        ensures { IfOk result (λ l. (l.lanes ≡ []) × (l.waits ≡ [])) }
    {
        Ok(Lanes {
            lanes: Vec::new(alloc),
            waits: Vec::new(alloc),
            next: Vec::new(alloc),
            firsts: vec![in alloc; 0; LANES]?,
            lasts: vec![in alloc; 0; LANES]?,
            oldest: 0,
        })
    }

    /// Makes room for n more numbers. It is refused too where the numbers run out.
    pub fn reserve(&mut self, n: usize) -> Result<(), AllocError>
        ensures lanes { self.new.lanes ≡ self.old.lanes }
        ensures waits { self.new.waits ≡ self.old.waits }
        ensures room { OnOk result (n ≤ self.new.spare) }
        ensures kept { self.old.spare ≤ self.new.spare }
    {
        if NUMBERS - self.lanes.len() < n {
            return Err(AllocError);
        }
        self.lanes.reserve(n)?;
        self.waits.reserve(n)?;
        self.next.reserve(n)
    }

    /// How many numbers there are.
    pub fn count(&self) -> u32
        ensures count { result ≡ length self.now.lanes }
        ensures next { result + 1 < 4294967296 }
    {
        self.lanes.len() as u32
    }

    /// The next number comes on this lane, and waits.
    pub fn push(&mut self, lane: u16)
        requires room { 0 < self.old.spare }
        requires lane { lane < LANES }
        ensures lanes { self.new.lanes ≡ self.old.lanes ++ lane ∷ [] }
        ensures waits { self.new.waits ≡ self.old.waits ++ true ∷ [] }
        ensures room { self.old.spare ≤ self.new.spare + 1 }
    {
        let number = self.count() + 1;
        let place = usize::from(lane);
        push_reserved(&mut self.lanes, lane);
        push_reserved(&mut self.waits, true);
        push_reserved(&mut self.next, 0);
        link(&mut self.next, self.lasts[place], number);
        self.lasts[place] = number;
        self.firsts[place] = first_of(self.firsts[place], number);
        self.oldest = first_of(self.oldest, number);
    }

    /// Whether a number waits; 0 and one that hasn't come don't.
    pub fn does_wait(&self, number: u32) -> bool
        ensures { result ≡ waits_as self.now.waits number }
    {
        if number == 0 {
            return false;
        }
        match self.waits.get(number as usize - 1) {
            Some(waits) => *waits,
            None => false,
        }
    }

    /// The oldest number that waits behind this one, 0 where there is none.
    fn behind(&self, number: u32) -> u32
        ensures { IsFirst (is_waiting self.now.waits) number (length self.now.waits) result }
    {
        for i in number as usize..self.waits.len() {
            if self.waits[i] {
                return i as u32 + 1;
            }
        }
        0
    }

    /// The oldest number that waits behind this one on its lane, 0 where there is none.
    fn behind_on_lane(&self, number: u32) -> u32
        requires there { 0 < number }
        requires come { number ≤ length self.now.lanes }
        ensures { IsFirst (is_waiting_on self.now.lanes self.now.waits (slice_index_or self.now.lanes (number - 1) 0)) number (length self.now.waits) result }
    {
        let mut at = self.next[number as usize - 1];
        while at != 0 {
            if self.waits[at as usize - 1] {
                return at;
            }
            at = self.next[at as usize - 1];
        }
        0
    }

    /// The lane of a number.
    fn lane(&self, number: u32) -> usize
        requires there { 0 < number }
        requires come { number ≤ length self.now.lanes }
        ensures lane { result ≡ slice_index_or self.now.lanes (number - 1) 0 }
        ensures below { result < LANES }
    {
        usize::from(self.lanes[number as usize - 1])
    }

    /// The oldest number of all that waits once this one doesn't, 0 where there is none.
    fn oldest_without(&self, number: u32) -> u32
        ensures { IsFirst (is_waiting (without_wait number self.now.waits)) 0 (length self.now.waits) result }
    {
        if self.oldest == number {
            self.behind(number)
        } else {
            self.oldest
        }
    }

    /// The oldest number on the lane of this one that waits once this one doesn't, 0 where there is none.
    fn first_without(&self, number: u32) -> u32
        requires there { 0 < number }
        requires come { number ≤ length self.now.lanes }
        ensures { IsFirst (is_waiting_on self.now.lanes (without_wait number self.now.waits) (slice_index_or self.now.lanes (number - 1) 0)) 0 (length self.now.waits) result }
    {
        let first = self.firsts[self.lane(number)];
        if first == number {
            self.behind_on_lane(number)
        } else {
            first
        }
    }

    /// The number waits no longer. One that doesn't wait, 0 and one that hasn't come change nothing. Tells whether it waited.
    pub fn take_off(&mut self, number: u32) -> bool
        ensures waited { result ≡ waits_as self.old.waits number }
        ensures lanes { self.new.lanes ≡ self.old.lanes }
        ensures waits { self.new.waits ≡ without_wait number self.old.waits }
        ensures room { self.new.spare ≡ self.old.spare }
    {
        if !self.does_wait(number) {
            return false;
        }
        let oldest = self.oldest_without(number);
        let first = self.first_without(number);
        let lane = self.lane(number);
        self.waits[number as usize - 1] = false;
        self.oldest = oldest;
        self.firsts[lane] = first;
        true
    }

    /// The oldest number that waits.
    pub fn oldest(&self) -> Option<u32>
        ensures { result ≡ first_number (numbers_from 1 self.now.waits) }
    {
        some_number(self.oldest)
    }

    /// The oldest number that waits on a lane.
    pub fn oldest_on(&self, lane: u16) -> Option<u32>
        requires { lane < LANES }
        ensures { result ≡ find (λ i. is_on self.now.lanes lane (i - 1)) (numbers_from 1 self.now.waits) }
    {
        some_number(self.firsts[usize::from(lane)])
    }
}

/// Appends an element for which there is room.
pub(crate) fn push_reserved<T: Drop>(list: &mut Vec<T>, x: T)
    requires { vec_len list.old < vec_capacity list.old }
    ensures items { list.new.items ≡ list.old.items ++ x ∷ [] }
    ensures len { vec_len list.new ≡ vec_len list.old + 1 }
    ensures capacity { vec_capacity list.old ≤ vec_capacity list.new }
{
    if list.push(x).is_err() {
        unreachable!()
    }
}

/// The first of two numbers that isn't 0.
fn first_of(first: u32, other: u32) -> u32
    ensures { result ≡ cond (first == 0) other first }
{
    if first == 0 { other } else { first }
}

/// The number, or none where it is 0.
fn some_number(number: u32) -> Option<u32>
    ensures { result ≡ if_some number }
{
    if number == 0 { None } else { Some(number) }
}

/// Puts a number behind the last one of its lane, where there is one.
fn link(next: &mut Vec<u32>, last: u32, number: u32)
    requires { last ≤ length next.old.items }
    ensures items { next.new.items ≡ cond (last == 0) next.old.items (slice_set next.old.items (last - 1) number) }
    ensures len { vec_len next.new ≡ vec_len next.old }
    ensures capacity { vec_capacity next.new ≡ vec_capacity next.old }
{
    if last != 0 {
        next[last as usize - 1] = number;
    }
}
