ghost use Rattle.std.specs.Prelude.{◌≡◌, ◌+◌, ◌<◌, ◌≤◌, [], length, map, All, slice_get, option_map, OnOk, IfOk};
ghost use Rattle.std.specs.List.{AllPairs};
ghost use Rattle.ic_base.specs.declared.limits.TheConstants.{GREATEST_NUMBER};
ghost use Rattle.def_state.specs.Shelf as shelf;
ghost use Rattle.def_state.specs.Shelf.{empty_shelf};
ghost use Rattle.ic_edge.specs.RoomyShelf.{due_at_once, of_image};

use crate::waiting::Waiting;
use ic_base::{Out, Output, Outputs};
use std::alloc::{AllocError, Global};
use std::collections::VecDeque;
use std::marker::Model;

/// The outputs that aren't shown, in the order in which they were made, and how many were made.
///
/// An output is shown only when the records that cause it are forced (docs/RULES.md, "Outputs"). Contracts also see
/// for how many more outputs there is room.
#[derive(Drop)]
pub struct Shelf {
    waiting: VecDeque<Waiting>,
    made: u64,
}

impl Model for Shelf {
    ghost use Rattle.std.specs.Prelude.{◌-◌, ◌<◌, ◌≤◌, All};
    ghost use Rattle.std.specs.List.{AllPairs};
    ghost use Rattle.std.specs.VecDeque.{deque_len, deque_capacity};
    ghost use Rattle.ic_edge.specs.RoomyShelf.{RoomyShelf};

    ghost Value = { RoomyShelf };

    ghost view = { λ s. record { shelf = record { waiting = s.waiting.items; made = s.made }; spare = deque_capacity s.waiting - deque_len s.waiting } };

    ghost invariant = { λ s. AllPairs (λ x y. x.output.m < y.output.m) s.waiting.items × All (λ w. w.output.m ≤ s.made) s.waiting.items };
}

// These outputs, all due.
fn kept_at_once(alloc: Global, outputs: &[Output]) -> Result<Vec<Waiting>, AllocError>
    ensures { IfOk result (λ v. v.items ≡ map due_at_once outputs.now) }
{
    let kept = outputs.iter().map(|output| Waiting {
        output: *output,
        at: 0,
    });
    kept.collect(alloc)
}

impl Shelf {
    /// Nothing made yet.
    pub fn new(alloc: Global) -> Shelf
        ensures { result.shelf ≡ empty_shelf }
    {
        Shelf {
            waiting: VecDeque::new(alloc),
            made: 0,
        }
    }

    /// Makes room for n more outputs.
    pub fn reserve(&mut self, n: usize) -> Result<(), AllocError>
        ensures same { self.new.shelf ≡ self.old.shelf }
        ensures room { OnOk result (n ≤ self.new.spare) }
        ensures kept { self.old.spare ≤ self.new.spare }
    {
        self.waiting.reserve(n)
    }

    /// Gives an output the next number. It is due once the log is forced up to `at`.
    pub fn add(&mut self, out: Out, at: u64)
        requires room { 0 < self.old.spare }
        requires limit { self.old.shelf.made < GREATEST_NUMBER }
        ensures added { self.new.shelf ≡ shelf.add self.old.shelf out at }
        ensures spare { self.new.spare + 1 ≡ self.old.spare }
    {
        self.made += 1;
        let output = Output {
            m: self.made,
            to: out.to,
            args: out.args,
        };
        self.waiting.push_back_reserved(Waiting { output, at });
    }

    /// The oldest output that is due.
    pub fn next_due(&self, forced: u64) -> Option<Output>
        ensures { result ≡ shelf.next_due self.now.shelf forced }
    {
        let due = self.waiting.iter().find(|waiting| waiting.at <= forced)?;
        Some(due.output)
    }

    /// The number of the oldest output that isn't shown.
    pub fn oldest(&self) -> Option<u64>
        ensures { result ≡ shelf.oldest self.now.shelf }
    {
        Some(self.waiting.front()?.output.m)
    }

    /// Takes the output of this number off, and answers whether it was there.
    pub fn shown(&mut self, m: u64) -> bool
        ensures was_there { result ≡ shelf.is_waiting self.old.shelf m }
        ensures taken_off { self.new.shelf ≡ shelf.shown self.old.shelf m }
        ensures kept { self.old.spare ≤ self.new.spare }
    {
        match self
            .waiting
            .binary_search_by_key(&m, |waiting| waiting.output.m)
        {
            Ok(place) => {
                let _shown = self.waiting.remove(place);
                true
            }
            Err(_) => false,
        }
    }

    /// How many outputs aren't shown.
    pub fn len(&self) -> usize
        ensures { result ≡ length self.now.shelf.waiting }
    {
        self.waiting.len()
    }

    /// How many outputs were made.
    pub fn made(&self) -> u64
        ensures { result ≡ self.now.shelf.made }
    {
        self.made
    }

    /// The output at this place of those that aren't shown, from 0 and oldest first.
    pub fn waiting(&self, i: usize) -> Option<Output>
        ensures { result ≡ option_map (λ w. w.output) (slice_get self.now.shelf.waiting i) }
    {
        Some(self.waiting.get(i)?.output)
    }

    /// The shelf that an image speaks of, with all that it holds due (docs/FORMATS.md, "The image").
    pub fn from_parts(alloc: Global, made: u64, waiting: &Outputs) -> Result<Shelf, AllocError>
        requires rising { AllPairs (λ x y. x.m < y.m) waiting.now }
        requires counted { All (λ x. x.m ≤ made) waiting.now }
        ensures { IfOk result (λ s. s.shelf ≡ of_image made waiting.now) }
    {
        let waiting = kept_at_once(alloc, waiting.as_slice())?;
        Ok(Shelf {
            waiting: VecDeque::from_vec(waiting),
            made,
        })
    }

    /// The same once more.
    pub fn copy(&self, alloc: Global) -> Result<Shelf, AllocError>
        ensures { IfOk result (λ s. s.shelf ≡ self.now.shelf) }
    {
        let (front, back) = self.waiting.as_slices();
        let mut waiting = front.to_vec(alloc)?;
        waiting.extend_from_slice(back)?;
        Ok(Shelf {
            waiting: VecDeque::from_vec(waiting),
            made: self.made,
        })
    }
}
