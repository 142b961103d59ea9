ghost use Rattle.std.specs.Prelude.{◌≡◌, ◌<◌, ◌≤◌, [], length, nat_le, OnOk};
ghost use Rattle.std.specs.List.{position_or_len};
ghost use Rattle.def_state.specs.Names.{number_of, put_number};

use ic_base::ComId;
use std::alloc::{AllocError, Global};
use std::marker::Model;

/// The least transaction number that is still served, for each Pcom of which one is kept; 1 for any other.
///
/// They stand in the order of the Pcoms, so there is at most one for each, and a search goes over few.
#[derive(Drop)]
pub(crate) struct Least {
    numbers: Vec<(ComId, u64)>,
}

impl Model for Least {
    ghost use Rattle.std.specs.Prelude.{◌-◌, vec_len, vec_capacity};
    ghost use Rattle.def_state.specs.Names.{Numbers};
    ghost use Rattle.ic_tcom.specs.Roomy.{Roomy};
    ghost use Rattle.ic_tcom.specs.Served.{AreInOrder};

    ghost Value = { Roomy Numbers };

    ghost view = { λ s. record { held = s.numbers.items; spare = vec_capacity s.numbers - vec_len s.numbers } };

    ghost invariant = { λ s. AreInOrder s.numbers.items };
}

impl Least {
    pub(crate) fn new(alloc: Global) -> Least
        ensures { result.held ≡ [] }
    {
        Least {
            numbers: Vec::new(alloc),
        }
    }

    /// Makes room for one more Pcom.
    pub(crate) fn reserve(&mut self) -> Result<(), AllocError>
        ensures same { self.new.held ≡ self.old.held }
        ensures room { OnOk result (0 < self.new.spare) }
    {
        self.numbers.reserve(1)
    }

    /// The least number that is served of a Pcom.
    pub(crate) fn of(&self, c: ComId) -> u64
        ensures { result ≡ number_of 1 self.now.held c }
    {
        match self.numbers.iter().find(|kept| c == kept.0) {
            Some(kept) => kept.1,
            None => 1,
        }
    }

    /// Keeps this number for a Pcom.
    pub(crate) fn put(&mut self, c: ComId, n: u64)
        requires { 0 < self.old.spare }
        ensures { self.new.held ≡ put_number c n self.old.held }
    {
        let place = place_of(&self.numbers, c);
        if place < self.numbers.len() && self.numbers[place].0 == c {
            self.numbers[place] = (c, n);
        } else {
            let _kept = self.numbers.insert(place, (c, n));
        }
    }
}

// The place of a Pcom among others in order.
fn place_of(numbers: &[(ComId, u64)], c: ComId) -> usize
    ensures place { result ≡ position_or_len (λ x. nat_le c.0 x.0.0) numbers.now }
    ensures within { result ≤ length numbers.now }
{
    match numbers.iter().position(|kept| c.0 <= kept.0.0) {
        Some(place) => place,
        None => numbers.len(),
    }
}
