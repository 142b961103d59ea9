ghost use Rattle.std.specs.Prelude.{◌≡◌, ◌≤◌, ◌⊎◌, ◌+◌, true, false, length, IfOk, IfErr};
ghost use Rattle.ic_disk.specs.Disk.{Keeps, CrashLeaves};
ghost use Rattle.ic_gate.specs.Reading.{load_calls};
ghost use Rattle.ic_node.specs.Loading.{IsLoaded, FailsToLoad, disk_loaded};

use crate::stop::NEVER;
use ic_base::ComId;
use ic_disk::{Disk, TornDisk};
use ic_gate::{EncodedRecords, LoadRefused, LoadWhy, load_encoded};
use std::alloc::Global;

/// The records of a component's log that a disk holds, which is loaded once, and the disk. From here on a stop that is never reached is
/// set on it.
pub(crate) fn loaded<D: Disk>(
    alloc: Global,
    com: ComId,
    disk: TornDisk<D>,
    fingerprint: &[u8; 32],
) -> Result<(TornDisk<D>, EncodedRecords), LoadRefused<TornDisk<D>>>
    requires runs { disk.stopped ≡ false }
    ensures step { IfOk result (IsLoaded D.Disk disk fingerprint.now «com».0) }
    ensures disk { Keeps ⟦<TornDisk<D> as Disk>⟧ disk (disk_loaded result) }
    // It writes nothing, so a crash leaves nothing more.
    ensures crash { CrashLeaves ⟦<TornDisk<D> as Disk>⟧ disk (disk_loaded result) (⟦<TornDisk<D> as Disk>⟧.may_leave disk) }
    ensures calls { (disk_loaded result).made ≤ disk.made + length load_calls }
    ensures refused { IfErr result (FailsToLoad D.Disk disk fingerprint.now «com».0) }
{
    let mut disk = disk;
    disk.arm(NEVER);
    let (log, kept) = load_encoded(alloc, disk, fingerprint, com.0)?;
    Ok((log.into_disk(), kept))
}

/// The same behind a stop: the disk is switched on first, and what waited for a sync is lost.
pub(crate) fn reloaded<D: Disk>(
    alloc: Global,
    com: ComId,
    disk: TornDisk<D>,
    fingerprint: &[u8; 32],
) -> Result<(TornDisk<D>, EncodedRecords), LoadRefused<TornDisk<D>>>
    requires halted { (disk.stopped ≡ true) ⊎ D.stopped disk.inner }
    ensures step { IfOk result (IsLoaded D.Disk disk fingerprint.now «com».0) }
    ensures disk { Keeps ⟦<TornDisk<D> as Disk>⟧ disk (disk_loaded result) }
    ensures crash { CrashLeaves ⟦<TornDisk<D> as Disk>⟧ disk (disk_loaded result) (⟦<TornDisk<D> as Disk>⟧.may_leave disk) }
    ensures calls { (disk_loaded result).made ≤ disk.made + length load_calls }
    ensures refused { IfErr result (FailsToLoad D.Disk disk fingerprint.now «com».0) }
{
    if !disk.is_stopped() {
        return Err(LoadRefused {
            disk,
            why: LoadWhy::Stopped,
        });
    }
    let mut disk = disk;
    disk.power_on();
    loaded(alloc, com, disk, fingerprint)
}
