ghost use Rattle.std.specs.Prelude.{◌≡◌, ◌+◌, ◌<◌, ◌≤◌, [], length, OnOk, IfOk, slice_get, nat_lt, option_to_list};
ghost use Rattle.std.specs.List.{prefix_len, list_any};
ghost use Rattle.ic_base.specs.Programs.{same_com};
ghost use Rattle.def_state.specs.Names.{number_of, put_number};

use ic_base::ComId;
use std::alloc::{AllocError, Global};
use std::marker::Model;

/// Numbers kept for some components, by rising component. A component for which none is kept counts as 0.
#[derive(Drop)]
pub struct Counts {
    numbers: Vec<(ComId, u64)>,
}

impl Model for Counts {
    ghost use Rattle.std.specs.Prelude.{◌-◌};
    ghost use Rattle.std.specs.Vec.{vec_capacity, vec_len};
    ghost use Rattle.def_state.specs.Names.{Numbers};
    ghost use Rattle.ic_index.specs.Room.{WithRoom};

    ghost Value = { WithRoom Numbers };

    ghost view = { λ s. record { seen = s.numbers.items; spare = vec_capacity s.numbers - vec_len s.numbers } };
}

impl Counts {
    /// No number, and room for none.
    pub fn new(alloc: Global) -> Counts
        ensures { result.seen ≡ [] }
    {
        Counts {
            numbers: Vec::new(alloc),
        }
    }

    /// These numbers.
    pub fn from_vec(numbers: Vec<(ComId, u64)>) -> Counts
        ensures { result.seen ≡ numbers.items }
    {
        Counts { numbers }
    }

    /// A copy of these numbers.
    pub fn from_list(alloc: Global, numbers: &[(ComId, u64)]) -> Result<Counts, AllocError>
        ensures { IfOk result (λ counts. counts.seen ≡ numbers.now) }
    {
        Ok(Counts {
            numbers: numbers.to_vec(alloc)?,
        })
    }

    /// Makes room for n more components.
    pub fn reserve(&mut self, n: usize) -> Result<(), AllocError>
        ensures same { self.new.seen ≡ self.old.seen }
        ensures room { OnOk result (n ≤ self.new.spare) }
        ensures kept { self.old.spare ≤ self.new.spare }
    {
        self.numbers.reserve(n)
    }

    /// The number of a component.
    pub fn get(&self, com: ComId) -> u64
        ensures { result ≡ number_of 0 self.now.seen «com» }
    {
        for (c, n) in &self.numbers {
            if c.0 == com.0 {
                return *n;
            }
        }
        0
    }

    /// The i-th component for which a number is kept, with its number. None exactly past the end.
    pub fn at(&self, i: usize) -> Option<(ComId, u64)>
        ensures { result ≡ slice_get self.now.seen i }
    {
        self.numbers.get(i).copied()
    }

    /// Keeps the number for the component.
    pub fn put(&mut self, com: ComId, n: u64)
        requires { 0 < self.old.spare }
        ensures put { self.new.seen ≡ put_number «com» n self.old.seen }
        ensures room { self.old.spare ≤ self.new.spare + 1 }
    {
        let i = self.place(com);
        if self.is_at(i, com) {
            self.numbers[i] = (com, n);
        } else if self.numbers.insert(i, (com, n)).is_err() {
            unreachable!()
        }
    }

    /// Whether the i-th number is the component's.
    fn is_at(&self, i: usize, com: ComId) -> bool
        ensures { result ≡ list_any (λ x. same_com «com» x.0) (option_to_list (slice_get self.now.seen i)) }
    {
        match self.numbers.get(i) {
            Some(x) => com.0 == x.0.0,
            None => false,
        }
    }

    /// How many components come before this one.
    fn place(&self, com: ComId) -> usize
        ensures below { result ≡ prefix_len (λ x. nat_lt x.0.0 «com».0) self.now.seen }
        ensures within { result ≤ length self.now.seen }
    {
        self.numbers.iter().take_while(|x| x.0.0 < com.0).count()
    }

    /// An equal value.
    pub fn copy(&self, alloc: Global) -> Result<Counts, AllocError>
        ensures { IfOk result (λ copy. copy.seen ≡ self.now.seen) }
    {
        Ok(Counts {
            numbers: self.numbers.clone()?,
        })
    }
}
