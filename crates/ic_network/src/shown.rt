ghost use Rattle.std.specs.Prelude.{◌≡◌, ◌+◌, ◌<◌, ◌≤◌, ◌++◌, ◌∷◌, [], OnOk, IfOk};
ghost use Rattle.std.specs.List.{list_any};
ghost use Rattle.def_step.specs.World.{same_showing};

use crate::lanes::push_reserved;
use ic_base::{ComId, Output, Showings};
use std::alloc::{AllocError, Global};
use std::collections::HashSet;
use std::marker::Model;

/// The outputs that were shown, in order (docs/RULES.md, "Outputs"). Whether one was shown is looked up by its
/// component and number.
#[derive(Drop)]
pub struct Shown {
    list: Vec<(ComId, Output)>,
    /// The component and the number of each.
    numbers: HashSet<(u8, u64)>,
}

impl Model for Shown {
    ghost use Rattle.std.specs.Prelude.{min, ◌-◌};
    ghost use Rattle.std.specs.Vec.{vec_len, vec_capacity};
    ghost use Rattle.std.specs.HashSet as set;
    ghost use Rattle.ic_network.specs.Showings.{RoomyShowings, AreIndexed};

    ghost Value = { RoomyShowings };

    ghost view = { λ s. record { showings = s.list.items; spare = min (vec_capacity s.list - vec_len s.list) (set.spare s.numbers) } };

    ghost invariant = { λ s. AreIndexed s.numbers s.list.items };
}

impl Shown {
    /// No output, and room for none.
    pub fn new(alloc: Global) -> Shown
        ensures { result.showings ≡ [] }
    {
        Shown {
            list: Vec::new(alloc),
            numbers: HashSet::new(alloc),
        }
    }

    /// These outputs, shown before.
    pub fn of(alloc: Global, showings: Showings) -> Result<Shown, AllocError>
        ensures { IfOk result (λ s. s.showings ≡ showings) }
    {
        let mut shown = Shown::new(alloc);
        shown.reserve(showings.len())?;
        for (from, output) in showings.as_slice() {
            shown.add(*from, *output);
        }
        Ok(shown)
    }

    /// Makes room for n more outputs.
    pub fn reserve(&mut self, n: usize) -> Result<(), AllocError>
        ensures same { self.new.showings ≡ self.old.showings }
        ensures room { OnOk result (n ≤ self.new.spare) }
        ensures kept { self.old.spare ≤ self.new.spare }
    {
        self.list.reserve(n)?;
        self.numbers.reserve(n)
    }

    /// Whether the output of a component with this number was shown.
    pub fn was_shown(&self, from: ComId, m: u64) -> bool
        ensures { result ≡ list_any (same_showing from m) self.now.showings }
    {
        self.numbers.contains(&(from.0, m))
    }

    /// A component shows an output.
    pub fn add(&mut self, from: ComId, output: Output)
        requires room { 0 < self.old.spare }
        ensures added { self.new.showings ≡ self.old.showings ++ (from, output) ∷ [] }
        ensures room { self.old.spare ≤ self.new.spare + 1 }
    {
        if self.numbers.insert((from.0, output.m)).is_err() {
            unreachable!()
        }
        push_reserved(&mut self.list, (from, output));
    }
}
