ghost use Rattle.std.specs.Prelude.{◌≡◌, ◌≢◌, ◌+◌, ◌≤◌, true, [], length, OnOk, Err};
ghost use Rattle.ic_base.specs.declared.events.Fill.TheVariants.{Old};
ghost use Rattle.def_log.specs.Torn.{all_written, torn};
ghost use Rattle.def_log.specs.Images.{LeavesJust, Elapses};
ghost use Rattle.ic_disk.specs.Causes.{IsCaused};
ghost use Rattle.ic_disk.specs.Disk.{Keeps};
ghost use Rattle.ic_disk.specs.TornDisks.{need, AreReached, AreShort, CanArrive, arrivals, TornBy};
ghost use Rattle.ic_disk.specs.declared.disk.DiskError.TheVariants.{Memory};

use crate::arrive::arrive;
use crate::write_list::WriteList;
use crate::{Disk, DiskError};

/// Makes the first so many bytes of writes, in order, and syncs.
pub(crate) fn flush<D: Disk>(disk: &mut D, held: &WriteList, keep: usize) -> Result<(), DiskError>
    requires short { AreShort held.now.writes }
    requires reached { D.tells disk.old → CanArrive keep (D.seen disk.old) held.now.writes }
    requires room { need held.now.writes ≤ D.spare disk.old }
    ensures disk { Keeps D.Disk disk.old disk.new }
    ensures written { D.tells disk.old → OnOk result (D.seen disk.new ≡ torn (D.seen disk.old) held.now.writes keep Old) }
    ensures settled { OnOk result (D.settled disk.new ≡ true) }
    ensures durable { D.keeps disk.old → OnOk result (LeavesJust (D.may_leave disk.new) (D.seen disk.new)) }
    ensures unmoved { D.tells disk.old → D.settled disk.old ≡ true → held.now.writes ≡ [] → D.seen disk.new ≡ D.seen disk.old }
    ensures crash { D.keeps disk.old → Elapses D.moment D.left_since D.may_leave
        (TornBy held.now.writes (D.may_leave disk.old)) disk.old disk.new }
    ensures room { D.spare disk.old ≤ D.spare disk.new + need held.now.writes }
    ensures calls { OnOk result (D.calls disk.new ≡ D.calls disk.old + arrivals keep held.now.writes + 1) }
    ensures at_most { D.calls disk.new ≤ D.calls disk.old + length held.now.writes + 1 }
    ensures cause { IsCaused (D.faults disk.old) (D.faults disk.new) (D.stopped disk.new) result }
    ensures no_memory { result ≢ Err Memory }
{
    arrive(disk, &held.places, &held.bytes, keep)?;
    disk.sync()
}

/// Makes writes, in order, and syncs.
pub(crate) fn flush_all<D: Disk>(disk: &mut D, held: &WriteList) -> Result<(), DiskError>
    requires short { AreShort held.now.writes }
    requires reached { D.tells disk.old → AreReached (D.seen disk.old) held.now.writes }
    requires room { need held.now.writes ≤ D.spare disk.old }
    ensures disk { Keeps D.Disk disk.old disk.new }
    ensures written { D.tells disk.old → OnOk result (D.seen disk.new ≡ all_written (D.seen disk.old) held.now.writes) }
    ensures settled { OnOk result (D.settled disk.new ≡ true) }
    ensures durable { D.keeps disk.old → OnOk result (LeavesJust (D.may_leave disk.new) (D.seen disk.new)) }
    ensures unmoved { D.tells disk.old → D.settled disk.old ≡ true → held.now.writes ≡ [] → D.seen disk.new ≡ D.seen disk.old }
    ensures crash { D.keeps disk.old → Elapses D.moment D.left_since D.may_leave
        (TornBy held.now.writes (D.may_leave disk.old)) disk.old disk.new }
    ensures room { D.spare disk.old ≤ D.spare disk.new + need held.now.writes }
    ensures at_most { D.calls disk.new ≤ D.calls disk.old + length held.now.writes + 1 }
    ensures cause { IsCaused (D.faults disk.old) (D.faults disk.new) (D.stopped disk.new) result }
    ensures no_memory { result ≢ Err Memory }
{
    let all = held.count();
    flush(disk, held, all)
}
