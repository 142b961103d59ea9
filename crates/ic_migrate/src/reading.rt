ghost use Rattle.std.specs.Prelude.{◌≡◌, ◌⊎◌, OnOk, IfOk, IfErr, length};
ghost use Rattle.ic_base.specs.declared.refusals.StartWhy.TheVariants.{Memory};
ghost use Rattle.ic_disk.specs.Disk.{Keeps, CrashLeaves};
ghost use Rattle.ic_opening.specs.Disks.{EachMeets, HasFailed, IsOnlyRead};
ghost use Rattle.ic_migrate.specs.NewLogs.{IsMigrated, IsNewLogOf, AreNewLogsOf};
ghost use Rattle.ic_migrate.specs.Refusals.{why_of_load, IsNoLog, AreNoLogs};

use ic_base::{Bytes, ComId, StartWhy};
use ic_disk::Disk;
use ic_former::{FormerLog, LoadWhy, migrated_log, read_former};
use std::alloc::Global;

/// Why the log of a component isn't read.
fn why_of_load(com: ComId, why: LoadWhy) -> StartWhy
    ensures { result ≡ why_of_load «com» why }
{
    match why {
        LoadWhy::Bad(place) => StartWhy::Bad(com, place),
        LoadWhy::Foreign(kept) => StartWhy::Foreign(com, kept),
        LoadWhy::Failed | LoadWhy::Stopped => StartWhy::Failed(com),
        LoadWhy::Memory => StartWhy::Memory,
    }
}

/// The new log of a component that stands for one of the former format.
fn migrated_bytes(
    alloc: Global,
    fingerprint: &[u8; 32],
    owner: u8,
    log: &FormerLog,
) -> Result<Bytes, StartWhy>
    ensures log { IfOk result (IsMigrated fingerprint.now owner log.now.batches) }
    ensures refused { IfErr result (λ why. why ≡ Memory) }
{
    match migrated_log(alloc, fingerprint, owner, log) {
        Ok(bytes) => Ok(Bytes::from_vec(bytes)),
        Err(_) => Err(StartWhy::Memory),
    }
}

/// The new log of a component, whose log of the former format stands on a disk.
fn read_one<D: Disk>(
    alloc: Global,
    com: ComId,
    fingerprint: &[u8; 32],
    disk: &mut D,
) -> Result<Bytes, StartWhy>
    ensures disk { Keeps D.Disk disk.old disk.new }
    ensures crash { CrashLeaves D.Disk disk.old disk.new (D.may_leave disk.old) }
    ensures bytes { D.tells disk.old → (D.seen disk.new ≡ D.seen disk.old) ⊎ HasFailed D.Disk disk.old disk.new }
    ensures same { D.tells disk.old → OnOk result (D.seen disk.new ≡ D.seen disk.old) }
    ensures log { IfOk result (λ log. IsNewLogOf D.Disk fingerprint.now «com» disk.old log) }
    ensures refused { IfErr result (IsNoLog D.Disk fingerprint.now «com» disk.old disk.new) }
{
    match read_former(alloc, disk, fingerprint) {
        Ok(log) => migrated_bytes(alloc, fingerprint, com.0, &log),
        Err(why) => Err(why_of_load(com, why)),
    }
}

/// The new logs of these components, in order, up to the first whose log of the former format is refused.
pub fn read_all<D: Disk>(
    alloc: Global,
    coms: &[ComId],
    fingerprint: &[u8; 32],
    disks: &mut [D],
) -> Result<Vec<Bytes>, StartWhy>
    requires { length disks.old ≡ length coms.now }
    ensures disks { EachMeets (λ i old new. IsOnlyRead D.Disk old new) disks.old disks.new }
    ensures same { OnOk result (EachMeets (λ i old new. D.tells old → D.seen new ≡ D.seen old) disks.old disks.new) }
    ensures logs { IfOk result (λ logs. AreNewLogsOf D.Disk fingerprint.now coms.now disks.old logs.items) }
    ensures refused { IfErr result (AreNoLogs D.Disk fingerprint.now coms.now disks.old disks.new) }
{
    let Ok(mut logs) = Vec::with_capacity(alloc, coms.len()) else {
        return Err(StartWhy::Memory);
    };
    for i in 0..coms.len() {
        let log = read_one(alloc, coms[i], fingerprint, &mut disks[i])?;
        logs.push_reserved(log);
    }
    Ok(logs)
}
