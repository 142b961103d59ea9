ghost use Rattle.std.specs.Prelude.{◌≡◌, ◌≢◌, ◌+◌, ◌≤◌, ℕ, List, true, [], length, OnOk, Err};
ghost use Rattle.ic_base.specs.declared.events.Fill.TheVariants.{Old};
ghost use Rattle.def_log.specs.Torn.{torn};
ghost use Rattle.def_log.specs.Images.{MayLeave, Elapses};
ghost use Rattle.ic_disk.specs.Causes.{IsCaused};
ghost use Rattle.ic_disk.specs.Disk.{Keeps};
ghost use Rattle.ic_disk.specs.TornDisks.{need, AreReached, AreShort, CanArrive, TornBy};
ghost use Rattle.ic_disk.specs.declared.disk.DiskError.TheVariants.{Memory};

use crate::flush::flush;
use crate::write_list::WriteList;
use crate::{Disk, DiskError};
use ic_base::Fill;

/// A stop that is set.
#[derive(Clone, Copy)]
pub(crate) struct Armed {
    /// At which device call from now on it is reached, the next one being 1; 0 at none.
    pub(crate) left: u32,
    pub(crate) keep: u32,
    pub(crate) fill: Fill,
    pub(crate) reached: bool,
}

// Makes of the writes those of which the first bytes alone arrive, and tells how many.
fn fit(held: &mut WriteList, armed: Armed) -> usize
    ensures image { (file : List ℕ) → torn file held.new.writes result Old ≡ torn file held.old.writes armed.keep armed.fill }
    ensures reached { (file : List ℕ) → AreReached file held.old.writes → CanArrive result file held.new.writes }
    ensures short { AreShort held.old.writes → AreShort held.new.writes }
    ensures need { need held.new.writes ≡ need held.old.writes }
    ensures count { length held.new.writes ≡ length held.old.writes }
    ensures leaves { (was image : List ℕ) → MayLeave was held.new.writes image → MayLeave was held.old.writes image }
    ensures none { held.old.writes ≡ [] → held.new.writes ≡ [] }
    ensures room { held.old.spare ≤ held.new.spare }
{
    match armed.fill {
        Fill::Old => armed.keep as usize,
        Fill::Byte(byte) => {
            held.fill(armed.keep as usize, byte);
            held.count()
        }
    }
}

/// Writes the image of a stop, of the writes that wait for a sync, and syncs.
pub(crate) fn write_image<D: Disk>(
    disk: &mut D,
    held: &mut WriteList,
    armed: Armed,
) -> Result<(), DiskError>
    requires short { AreShort held.old.writes }
    requires reached { D.tells disk.old → AreReached (D.seen disk.old) held.old.writes }
    requires room { need held.old.writes ≤ D.spare disk.old }
    ensures disk { Keeps D.Disk disk.old disk.new }
    ensures image { D.tells disk.old → OnOk result (D.seen disk.new ≡ torn (D.seen disk.old) held.old.writes armed.keep armed.fill) }
    ensures unmoved { D.tells disk.old → D.settled disk.old ≡ true → held.old.writes ≡ [] → D.seen disk.new ≡ D.seen disk.old }
    ensures crash { D.keeps disk.old → Elapses D.moment D.left_since D.may_leave
        (TornBy held.old.writes (D.may_leave disk.old)) disk.old disk.new }
    ensures spare { D.spare disk.old ≤ D.spare disk.new + need held.old.writes }
    ensures room { held.old.spare ≤ held.new.spare }
    ensures at_most { D.calls disk.new ≤ D.calls disk.old + length held.old.writes + 1 }
    ensures cause { IsCaused (D.faults disk.old) (D.faults disk.new) (D.stopped disk.new) result }
    ensures no_memory { result ≢ Err Memory }
{
    let keep = fit(held, armed);
    flush(disk, held, keep)
}
