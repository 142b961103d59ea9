ghost use Rattle.std.specs.Prelude.{◌≡◌, ◌≤◌, [], length, take, OnOk, IfErr};
ghost use Rattle.ic_base.specs.declared.refusals.StartWhy.TheVariants.{Memory};
ghost use Rattle.def_former.specs.Opening.{unopened};
ghost use Rattle.ic_disk.specs.Disk.{Keeps, CrashLeaves};
ghost use Rattle.ic_opening.specs.Disks.{EachMeets, IsOnlyRead};
ghost use Rattle.ic_opening.specs.NewLogs.{IsNewLog, AreNewLogs};
ghost use Rattle.ic_opening.specs.Refusals.{IsNotWritten, AreNotWritten};
ghost use Rattle.ic_opening.specs.Stages.{room_for, HasRoom, MayHoldPart, HoldsUnopened, MayHold, Holds, has_room, may_hold_part, holds_unopened, may_hold, holds, AreBlankWithRoom, AreUnopened};

use crate::{write_first_letter, write_unopened};
use ic_base::{Bytes, ComId, StartWhy};
use ic_disk::Disk;
use std::alloc::Global;

/// The room that the three writes of a log take beside its bytes: 32 for each, and its first letter once more.
const BESIDE: usize = 97;

/// Makes room for a log on its disk.
fn reserve_one<D: Disk>(alloc: Global, log: &[u8], disk: &mut D) -> Result<(), StartWhy>
    requires { IsNewLog log.now }
    ensures room { OnOk result (HasRoom D.Disk log.now disk.old disk.new) }
    ensures disk { Keeps D.Disk disk.old disk.new }
    ensures crash { CrashLeaves D.Disk disk.old disk.new (D.may_leave disk.old) }
    ensures seen { D.tells disk.old → D.seen disk.new ≡ D.seen disk.old }
    ensures refused { IfErr result (λ why. why ≡ Memory) }
{
    match disk.reserve(alloc, log.len() + BESIDE) {
        Ok(()) => Ok(()),
        Err(_) => Err(StartWhy::Memory),
    }
}

/// Makes room for the logs on their disks.
pub fn reserve_all<D: Disk>(alloc: Global, logs: &[Bytes], disks: &mut [D]) -> Result<(), StartWhy>
    requires disks { length disks.old ≡ length logs.now }
    requires new { AreNewLogs logs.now }
    ensures disks { EachMeets (λ i old new. IsOnlyRead D.Disk old new) disks.old disks.new }
    ensures room { OnOk result (EachMeets (has_room D.Disk logs.now) disks.old disks.new) }
    ensures refused { IfErr result (λ why. why ≡ Memory) }
{
    for i in 0..logs.len() {
        reserve_one(alloc, logs[i].as_slice(), &mut disks[i])?;
    }
    Ok(())
}

/// Writes all of a component's log but its first letter.
fn write_one<D: Disk>(com: ComId, log: &[u8], disk: &mut D) -> Result<(), StartWhy>
    requires log { IsNewLog log.now }
    requires empty { D.tells disk.old → D.seen disk.old ≡ [] }
    requires room { room_for log.now ≤ D.spare disk.old }
    ensures part { MayHoldPart D.Disk disk.old disk.new }
    ensures holds { OnOk result (HoldsUnopened D.Disk log.now disk.old disk.new) }
    ensures refused { IfErr result (IsNotWritten D.Disk «com» disk.old disk.new) }
{
    match write_unopened(disk, log) {
        Ok(()) => Ok(()),
        Err(_) => Err(StartWhy::Failed(com)),
    }
}

/// Writes all of the logs but their first letters, each on its disk, in order.
pub fn write_all<D: Disk>(coms: &[ComId], logs: &[Bytes], disks: &mut [D]) -> Result<(), StartWhy>
    requires logs { length logs.now ≡ length coms.now }
    requires disks { length disks.old ≡ length coms.now }
    requires new { AreNewLogs logs.now }
    requires ready { AreBlankWithRoom D.Disk logs.now disks.old }
    ensures disks { EachMeets (may_hold_part D.Disk logs.now) disks.old disks.new }
    ensures written { OnOk result (EachMeets (holds_unopened D.Disk logs.now) disks.old disks.new) }
    ensures refused { IfErr result (AreNotWritten D.Disk coms.now disks.old disks.new) }
{
    for i in 0..coms.len() {
        write_one(coms[i], logs[i].as_slice(), &mut disks[i])?;
    }
    Ok(())
}

/// Writes the first letter of a component's log.
fn open_one<D: Disk>(com: ComId, log: &[u8], disk: &mut D) -> Result<(), StartWhy>
    requires log { IsNewLog log.now }
    requires unopened { D.tells disk.old → D.seen disk.old ≡ unopened log.now }
    requires room { 33 ≤ D.spare disk.old }
    ensures may { MayHold D.Disk log.now disk.old disk.new }
    ensures holds { OnOk result (Holds D.Disk log.now disk.old disk.new) }
    ensures refused { IfErr result (IsNotWritten D.Disk «com» disk.old disk.new) }
{
    match write_first_letter(disk, log) {
        Ok(()) => Ok(()),
        Err(_) => Err(StartWhy::Failed(com)),
    }
}

/// Writes the first letters of the logs, each on its disk, in order.
pub fn open_all<D: Disk>(coms: &[ComId], logs: &[Bytes], disks: &mut [D]) -> Result<(), StartWhy>
    requires logs { length logs.now ≡ length coms.now }
    requires disks { length disks.old ≡ length coms.now }
    requires new { AreNewLogs logs.now }
    requires ready { AreUnopened D.Disk logs.now disks.old }
    ensures disks { EachMeets (may_hold D.Disk logs.now) disks.old disks.new }
    ensures written { OnOk result (EachMeets (holds D.Disk logs.now) disks.old disks.new) }
    ensures refused { IfErr result (AreNotWritten D.Disk coms.now disks.old disks.new) }
{
    for i in 0..coms.len() {
        open_one(coms[i], logs[i].as_slice(), &mut disks[i])?;
    }
    Ok(())
}
