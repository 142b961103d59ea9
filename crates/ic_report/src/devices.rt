ghost use Rattle.std.specs.Prelude.{◌≡◌, IfOk};
ghost use Rattle.ic_disk.specs.Causes.{has_risen};
ghost use Rattle.ic_report.specs.Devices.{counts_of, status_since};

use crate::PRINT_FAILED;
use ic_disk::{Disk, FaultCounts, Sink, Texts};
use std::alloc::{AllocError, Global};
use std::marker::Model;

/// The status of a call whose texts failed.
const TEXTS_FAILED: u8 = 8;

/// The status of a call one of whose disks failed.
const DISK_FAILED: u8 = 10;

/// How often the devices of a call had failed before it.
#[derive(Drop)]
pub struct DeviceCounts {
    texts: u64,
    output: u64,
    disks: FaultCounts,
}

impl Model for DeviceCounts {
    ghost use Rattle.ic_report.specs.Devices.{Counts};

    ghost Value = { Counts };

    ghost view = { λ s. record { texts = s.texts; output = s.output; disks = s.disks } };
}

/// Whether a count rose. One that stands at its last value counts as risen.
fn has_risen(before: u64, now: u64) -> bool
    ensures { result ≡ has_risen before now }
{
    before.saturating_add(1) <= now
}

impl DeviceCounts {
    /// The counts as they stand.
    pub fn of<T: Texts, K: Sink, D: Disk>(
        alloc: Global,
        texts: &T,
        out: &K,
        disks: &[D],
    ) -> Result<DeviceCounts, AllocError>
        ensures { IfOk result (λ counts. counts ≡ counts_of T.Texts K.Sink D.Disk texts.now out.now disks.now) }
    {
        Ok(DeviceCounts {
            texts: texts.fault_count(),
            output: out.fault_count(),
            disks: FaultCounts::of(alloc, disks)?,
        })
    }

    /// The status of a call that did all it was asked for: 0, or that of a fault where a count rose all the same.
    pub fn status<T: Texts, K: Sink, D: Disk>(&self, texts: &T, out: &K, disks: &[D]) -> u8
        ensures { result ≡ status_since T.Texts K.Sink D.Disk self.now texts.now out.now disks.now }
    {
        if has_risen(self.texts, texts.fault_count()) {
            TEXTS_FAILED
        } else if self.disks.first_risen(disks).is_some() {
            DISK_FAILED
        } else if has_risen(self.output, out.fault_count()) {
            PRINT_FAILED
        } else {
            0
        }
    }
}
