ghost use Rattle.std.specs.Prelude.{◌≡◌, map, IfOk};
ghost use Rattle.std.specs.List.{position, zip};
ghost use Rattle.ic_disk.specs.Causes.{has_risen};

use crate::Disk;
use std::alloc::{AllocError, Global};
use std::marker::Model;

/// How often the device of each disk had failed when it was asked.
#[derive(Drop)]
pub struct FaultCounts {
    counts: Vec<u64>,
}

impl Model for FaultCounts {
    ghost use Rattle.std.specs.Prelude.{ℕ, List};

    ghost Value = { List ℕ };

    ghost view = { λ s. s.counts.items };
}

impl FaultCounts {
    /// The counts of these disks, in their order.
    pub fn of<D: Disk>(alloc: Global, disks: &[D]) -> Result<FaultCounts, AllocError>
        ensures { IfOk result (λ f. f ≡ map D.faults disks.now) }
    {
        let counts = disks.iter().map(|disk| disk.fault_count()).collect(alloc)?;
        Ok(FaultCounts { counts })
    }

    /// The place of the first disk whose device has failed since. A count that stands at its last value counts as risen.
    pub fn first_risen<D: Disk>(&self, disks: &[D]) -> Option<usize>
        ensures { result ≡ position (λ p. has_risen p.0 (D.faults p.1)) (zip self.now disks.now) }
    {
        self.counts.iter().zip(disks).position(|(before, disk)| before.saturating_add(1)
            <= disk.fault_count())
    }
}
