ghost use Rattle.std.specs.Prelude.{◌≡◌, ◌<◌, length, true, OnOk, IfErr};
ghost use Rattle.std.specs.List.{AllByRecursion};
ghost use Rattle.ic_base.specs.Programs.{is_a_pcom};
ghost use Rattle.ic_base.specs.declared.limits.TheConstants.{COMPONENTS};
ghost use Rattle.ic_failover.specs.Asking.{MayBeOrdered};
ghost use Rattle.ic_failover.specs.Carrying.{GoesOn};
ghost use Rattle.ic_failover.specs.Completing.{Completes};
ghost use Rattle.ic_failover.specs.Runs.{Runs};
ghost use Rattle.ic_failover.specs.Serving.{Serves};
ghost use Rattle.ic_failover.specs.Worlds.{RunsWhole, RunsShort, RunsOver};
ghost use Rattle.ic_run.specs.Ledgers.{IsBlankOf};
ghost use Rattle.ic_run.specs.Runs.{HandsBack};
ghost use Rattle.ic_world.specs.Opening.{disks_in};
ghost use Rattle.law_run.specs.ProgramBytes.{IsFit};

use crate::concluding::conclude;
use crate::side::Side;
use crate::texts::FailoverTexts;
use crate::working::pursue_orders;
use ic_base::Steps;
use ic_disk::{Disk, Sink, TornDisk};
use ic_report::{NO_MEMORY, Why, end_as};
use ic_run::{Opening, Tally, open, put_back, take_disks, why_of_cut, why_of_start};
use ic_standby::Standby;
use ic_world::World;
use std::alloc::Global;
use std::marker::Brand;
use std::sync::ledger::{Blank, Ledger};

/// Does all that texts ask for over a world that was just started, and prints the report.
fn run_world<K: Sink, D: Disk, L: Ledger>(
    alloc: Global,
    texts: &FailoverTexts,
    world: &mut World<TornDisk<D>>,
    out: &mut K,
    steps: &mut Steps<L>,
) -> Result<(), Why>
    requires world { GoesOn texts.now world.old }
    requires orders { AllByRecursion (MayBeOrdered texts.now.program) texts.now.orders.orders }
    ensures done { OnOk result (RunsWhole K.Sink texts.now world.old world.new out.old out.new) }
    ensures short { IfErr result (RunsShort D.Disk K.Sink texts.now world.old world.new out.old out.new) }
{
    let standby = Standby::new(alloc, &texts.program, texts.who)?;
    let side = Side::Stands(standby);
    let (shipped, tally) = match pursue_orders(
        alloc,
        texts,
        world,
        side,
        Tally::none(),
        out,
        steps,
    ) {
        Ok(done) => done,
        Err(cut) => return Err(why_of_cut(&texts.fingerprint, cut)),
    };
    let settled = !texts.orders.halts;
    conclude(alloc, &texts.program, settled, tally, shipped, world, out)
}

/// Runs texts with a standby over the disks of the components, which are handed back in their order. Each record that a recovery
/// plays is counted as one step in a ledger, which is made from a blank.
fn run_over<K: Sink, D: Disk + Drop, L: Ledger>(
    alloc: Global,
    texts: &FailoverTexts,
    out: &mut K,
    disks: Vec<D>,
    blank: Blank,
) -> (Vec<D>, Result<(), Why>)
    requires blank { IsBlankOf L.name L.parts blank.name blank.parts }
    requires fit { IsFit texts.now.program }
    requires pcom { is_a_pcom texts.now.program texts.now.who ≡ true }
    requires orders { AllByRecursion (MayBeOrdered texts.now.program) texts.now.orders.orders }
    requires disks { length disks.items ≡ disks_in texts.now.program.components }
    ensures { RunsOver D.Disk K.Sink texts.now disks.items result.0.items out.old out.new result.1 }
{
    let mut steps: Steps<L> = Steps::from_blank(blank);
    let Ok(mut back) = Vec::with_capacity(alloc, disks.len()) else {
        return (disks, Err(Why::Memory));
    };
    let mut world = match open(
        alloc,
        Opening::Anew,
        &texts.program,
        &texts.fingerprint,
        disks,
    ) {
        Ok(world) => world,
        Err(refused) => {
            let why = why_of_start(&texts.fingerprint, refused.why);
            return (refused.disks, Err(why));
        }
    };
    let ended = run_world(alloc, texts, &mut world, out, &mut steps);
    world.into_disks(&mut back);
    (back, ended)
}

/// Runs what texts ask for over the disks, with a standby of one Pcom, and prints its report. It begins over blank disks; the disk at
/// the place of each Pcom and Tcom is its own, and all others aren't touched. The status is 0 where it did all it was asked for
/// (docs/FORMATS.md, "Statuses"); a last line begins with the name of the program.
pub fn run_failover<K: Sink, D: Disk + Drop>(
    alloc: Global,
    tool: &[u8],
    texts: &FailoverTexts,
    out: &mut K,
    disks: &mut Vec<D>,
) -> u8
    requires disks { length disks.old.items ≡ COMPONENTS }
    requires fit { IsFit texts.now.program }
    requires pcom { is_a_pcom texts.now.program texts.now.who ≡ true }
    requires orders { AllByRecursion (MayBeOrdered texts.now.program) texts.now.orders.orders }
    ensures runs { Runs D.Disk K.Sink tool.now texts.now disks.old.items disks.new.items out.old out.new result }
    ensures disks { HandsBack D.Disk texts.now.program disks.old.items disks.new.items }
    ensures completes { Completes D.Disk K.Sink tool.now texts.now disks.old.items disks.new.items out.old out.new result }
    ensures serves { Serves D.Disk K.Sink texts.now disks.old.items out.old out.new result }
{
    let Ok(taken) = take_disks(alloc, &texts.program, disks) else {
        return NO_MEMORY;
    };
    let blank = Blank::new(1);
    let (taken, ended) = run_over::<K, D, Brand>(alloc, texts, out, taken, blank);
    put_back(&texts.program, disks, taken);
    match ended {
        Ok(()) => 0,
        Err(why) => end_as(alloc, tool, Some(&texts.program), out, &why),
    }
}
