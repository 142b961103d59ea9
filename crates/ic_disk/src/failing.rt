ghost use Rattle.std.specs.Prelude.{◌≡◌, ◌≤◌, ◌||◌, not, IfOk};
ghost use Rattle.std.specs.Bool.{OnTrue};
ghost use Rattle.ic_disk.specs.Causes.{Rose};
ghost use Rattle.ic_disk.specs.Calls.{no_calls, fails_next, after_call};

use std::alloc::{AllocError, Global};
use std::marker::Model;

/// Counts calls, of which some fail by their numbers.
#[derive(Drop)]
pub(crate) struct Calls {
    failing: Vec<u64>,
    made: u64,
    faults: u64,
}

impl Model for Calls {
    ghost use Rattle.ic_disk.specs.Calls.{Tally};

    ghost Value = { Tally };

    ghost view = { λ s. record { failing = s.failing.items; made = s.made; faults = s.faults } };
}

impl Calls {
    pub(crate) fn new(alloc: Global, failing: &[u64]) -> Result<Calls, AllocError>
        ensures { IfOk result (λ c. c ≡ no_calls failing.now) }
    {
        let failing = Vec::from_slice(alloc, failing)?;
        Ok(Calls {
            failing,
            made: 0,
            faults: 0,
        })
    }

    /// How many of them failed.
    pub(crate) fn faults(&self) -> u64
        ensures { result ≡ self.now.faults }
    {
        self.faults
    }

    /// Counts one more call, and answers whether it fails: by its number, or since it can't be done.
    pub(crate) fn fails(&mut self, possible: bool) -> bool
        ensures failed { result ≡ (fails_next self.old || not possible) }
        ensures counted { self.new ≡ after_call result self.old }
        ensures later { self.old.faults ≤ self.new.faults }
        ensures rose { OnTrue result (Rose self.old.faults self.new.faults) }
    {
        self.made = self.made.saturating_add(1);
        let failed = self.failing.contains(&self.made) || !possible;
        if failed {
            self.faults = self.faults.saturating_add(1);
        }
        failed
    }
}
