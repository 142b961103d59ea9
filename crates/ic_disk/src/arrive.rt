ghost use Rattle.std.specs.Prelude.{◌≡◌, ◌≢◌, ◌+◌, ◌<◌, ◌≤◌, ◌^◌, ◌==◌, min, if◌then◌else◌, [], length, take, sum_by, OnOk, Err};
ghost use Rattle.ic_base.specs.declared.events.Fill.TheVariants.{Old};
ghost use Rattle.def_log.specs.Torn.{written, torn};
ghost use Rattle.def_log.specs.Images.{TornFrom, Elapses};
ghost use Rattle.ic_disk.specs.Causes.{IsCaused};
ghost use Rattle.ic_disk.specs.Disk.{Keeps};
ghost use Rattle.ic_disk.specs.Past.{writes_of};
ghost use Rattle.ic_disk.specs.TornDisks.{need, AreShort, CanArrive, arrivals, TornBy};
ghost use Rattle.ic_disk.specs.declared.disk.DiskError.TheVariants.{Memory};

use crate::{Disk, DiskError};

// Writes the first so many bytes, where there is one.
fn write_front<D: Disk>(disk: &mut D, at: usize, bytes: &[u8], keep: usize) -> Result<(), DiskError>
    requires place { D.tells disk.old → 0 < min (length bytes.now) keep → at ≤ length (D.seen disk.old) }
    requires fits { at + length bytes.now < 2 ^ 64 }
    requires spare { length bytes.now + 32 ≤ D.spare disk.old }
    ensures disk { Keeps D.Disk disk.old disk.new }
    ensures written { D.tells disk.old → OnOk result (D.seen disk.new ≡ written (D.seen disk.old) at (take keep bytes.now)) }
    ensures crash { D.keeps disk.old → Elapses D.moment D.left_since D.may_leave
        (TornFrom at (length bytes.now) (D.may_leave disk.old)) disk.old disk.new }
    ensures room { D.spare disk.old ≤ D.spare disk.new + (length bytes.now + 32) }
    ensures calls { OnOk result (D.calls disk.new ≡ D.calls disk.old + (if min (length bytes.now) keep == 0 then 0 else 1)) }
    ensures at_most { D.calls disk.new ≤ D.calls disk.old + 1 }
    ensures cause { IsCaused (D.faults disk.old) (D.faults disk.new) (D.stopped disk.new) result }
    ensures no_memory { result ≢ Err Memory }
{
    let count = bytes.len().min(keep);
    if count == 0 {
        return Ok(());
    }
    disk.write_at(at as u64, &bytes[..count])
}

/// Writes the first so many bytes of these writes, in order: each has an offset and a length, and their bytes stand in a row.
pub(crate) fn arrive<D: Disk>(
    disk: &mut D,
    places: &[(usize, usize)],
    bytes: &[u8],
    keep: usize,
) -> Result<(), DiskError>
    requires whole { sum_by (λ place. place.1) places.now ≡ length bytes.now }
    requires short { AreShort (writes_of places.now bytes.now) }
    requires reached { D.tells disk.old → CanArrive keep (D.seen disk.old) (writes_of places.now bytes.now) }
    requires room { need (writes_of places.now bytes.now) ≤ D.spare disk.old }
    ensures disk { Keeps D.Disk disk.old disk.new }
    ensures written { D.tells disk.old → OnOk result (D.seen disk.new ≡ torn (D.seen disk.old) (writes_of places.now bytes.now) keep Old) }
    ensures crash { D.keeps disk.old → Elapses D.moment D.left_since D.may_leave
        (TornBy (writes_of places.now bytes.now) (D.may_leave disk.old)) disk.old disk.new }
    ensures room { D.spare disk.old ≤ D.spare disk.new + need (writes_of places.now bytes.now) }
    ensures calls { OnOk result (D.calls disk.new ≡ D.calls disk.old + arrivals keep (writes_of places.now bytes.now)) }
    ensures at_most { D.calls disk.new ≤ D.calls disk.old + length places.now }
    ensures idle { writes_of places.now bytes.now ≡ [] → disk.new ≡ disk.old }
    ensures cause { IsCaused (D.faults disk.old) (D.faults disk.new) (D.stopped disk.new) result }
    ensures no_memory { result ≢ Err Memory }
{
    let Some((&(at, count), others)) = places.split_first() else {
        return Ok(());
    };
    let (front, rest) = bytes.split_at(count);
    write_front(disk, at, front, keep)?;
    arrive(disk, others, rest, keep - count.min(keep))
}
