ghost use Rattle.std.specs.Prelude.{◌≡◌, ◌<◌, length};
ghost use Rattle.ic_base.specs.declared.limits.TheConstants.{COMPONENTS};
ghost use Rattle.ic_run.specs.Agendas.{MayRun};
ghost use Rattle.ic_run.specs.Completing.{Completes};
ghost use Rattle.ic_run.specs.Runs.{HandsBack, Runs};

use crate::disks::run_over;
use crate::{Opening, put_back, take_disks};
use ic_disk::{Disk, Sink};
use ic_plan::RunTexts;
use ic_report::{NO_MEMORY, Why, end_with};
use std::alloc::Global;
use std::marker::Brand;
use std::sync::ledger::Blank;

/// Runs what texts ask for over the disks, and prints its report. The disk at the place of each Pcom and Tcom is its own; all
/// others aren't touched. The status is 0 where it did all it was asked for (docs/FORMATS.md, "Statuses").
pub fn run_texts<K: Sink, D: Disk + Drop>(
    alloc: Global,
    opening: Opening,
    texts: &RunTexts,
    out: &mut K,
    disks: &mut Vec<D>,
) -> u8
    requires disks { length disks.old.items ≡ COMPONENTS }
    requires may { MayRun texts.now }
    ensures runs { Runs D.Disk K.Sink texts.now opening disks.old.items disks.new.items out.old out.new result }
    ensures disks { HandsBack D.Disk texts.now.program disks.old.items disks.new.items }
    ensures completes { Completes D.Disk K.Sink texts.now opening disks.old.items disks.new.items out.old out.new result }
{
    let Ok(taken) = take_disks(alloc, &texts.program, disks) else {
        return NO_MEMORY;
    };
    let blank = Blank::new(1);
    let (taken, ended) = run_over::<K, D, Brand>(alloc, opening, texts, out, taken, blank);
    put_back(&texts.program, disks, taken);
    match ended {
        Ok(()) => 0,
        Err(why) => end_with(alloc, Some(&texts.program), out, &why),
    }
}
