ghost use Rattle.std.specs.Prelude.{◌≡◌, ◌+◌, ◌-◌, ◌≤◌, ◌++◌, true, [], length, take, drop, replicate, IfOk, OnOk, Err};
ghost use Rattle.def_log.specs.Torn.{all_written};
ghost use Rattle.def_log.specs.Images.{Elapses};
ghost use Rattle.ic_disk.specs.Causes.{IsCaused};
ghost use Rattle.ic_disk.specs.Disk.{Keeps};
ghost use Rattle.ic_disk.specs.TornDisks.{AreReached, AreShort};
ghost use Rattle.ic_disk.specs.declared.disk.DiskError.TheVariants.{Memory};

use crate::overlay::show_over;
use crate::write_list::WriteList;
use crate::{Disk, DiskError};
use std::alloc::{AllocError, Global};

// Bytes, and zeros behind them.
fn padded(alloc: Global, bytes: &[u8], count: usize) -> Result<Vec<u8>, AllocError>
    requires { length bytes.now ≤ count }
    ensures { IfOk result (λ v. v.items ≡ bytes.now ++ replicate (count - length bytes.now) 0) }
{
    let zeros = vec![in alloc; 0u8; count - bytes.len()]?;
    let mut padded = Vec::from_slice(alloc, bytes)?;
    padded.extend_from_slice(&zeros)?;
    Ok(padded)
}

/// So many bytes of a disk from an offset on, with the writes that wait over them. The disk is read once, as far as the writes
/// don't tell what stands behind.
pub(crate) fn read_over<D: Disk>(
    alloc: Global,
    disk: &mut D,
    held: &WriteList,
    at: u64,
    count: usize,
) -> Result<Vec<u8>, DiskError>
    requires short { AreShort held.now.writes }
    requires reached { D.tells disk.old → AreReached (D.seen disk.old) held.now.writes }
    requires range { D.tells disk.old → at + count ≤ length (all_written (D.seen disk.old) held.now.writes) }
    ensures disk { Keeps D.Disk disk.old disk.new }
    ensures bytes { D.tells disk.old → IfOk result (λ v. v.items ≡ take count (drop at (all_written (D.seen disk.old) held.now.writes))) }
    ensures count { IfOk result (λ v. length v.items ≡ count) }
    ensures seen { D.tells disk.old → OnOk result (D.seen disk.new ≡ D.seen disk.old) }
    ensures memory { D.tells disk.old → result ≡ Err Memory → D.seen disk.new ≡ D.seen disk.old }
    ensures settled { held.now.writes ≡ [] → D.settled disk.old ≡ true → OnOk result (D.settled disk.new ≡ true) }
    ensures unmoved { D.tells disk.old → held.now.writes ≡ [] → D.settled disk.old ≡ true → D.seen disk.new ≡ D.seen disk.old }
    ensures crash { D.keeps disk.old → Elapses D.moment D.left_since D.may_leave (D.may_leave disk.old) disk.old disk.new }
    ensures calls { D.calls disk.new ≤ D.calls disk.old + 1 }
    ensures spare { D.spare disk.old ≤ D.spare disk.new }
    ensures cause { IsCaused (D.faults disk.old) (D.faults disk.new) (D.stopped disk.new) result }
{
    if held.is_empty() {
        return disk.read_at(alloc, at, count);
    }
    let Some(end) = at.checked_add(count as u64) else {
        return Err(DiskError::Memory);
    };
    let least = held.least_below(end);
    let from = at.min(least);
    let part = (least - from).min(count as u64) as usize;
    let below = disk.read_at(alloc, from, part)?;
    let mut shown = padded(alloc, &below, count)?;
    show_over(&mut shown, at as usize, held);
    Ok(shown)
}
