ghost use Rattle.std.specs.Prelude.{◌≡◌, OnOk, IfErr};
ghost use Rattle.std.specs.List.{AllByRecursion};
ghost use Rattle.ic_run.specs.Agendas.{MayCome};
ghost use Rattle.ic_run.specs.Whys as whys;
ghost use Rattle.ic_run.specs.Worlds.{RunsWhole, RunsShort};
ghost use Rattle.ic_world.specs.Allowing.{GoesOn};
ghost use Rattle.ic_world.specs.Views.{received_of, played_of};

use crate::concluding::conclude;
use crate::whys::why_of_world;
use crate::{Agenda, Cut, Tally, pursue};
use ic_base::Steps;
use ic_disk::{Disk, Sink, TornDisk};
use ic_plan::RunTexts;
use ic_report::Why;
use ic_world::World;
use std::alloc::Global;
use std::sync::ledger::Ledger;

/// Why a run goes no further, as its last line tells it.
pub fn why_of_cut(given: &[u8; 32], cut: Cut) -> Why
    ensures { result ≡ whys.why_of_cut given.now cut }
{
    match cut {
        Cut::Refused(why) => why_of_world(given, why),
        Cut::Print => Why::Print,
        Cut::Memory => Why::Memory,
    }
}

/// Does all that texts ask for over a world that was just opened, and prints the report.
pub(crate) fn run_world<K: Sink, D: Disk, L: Ledger>(
    alloc: Global,
    texts: &RunTexts,
    world: &mut World<TornDisk<D>>,
    out: &mut K,
    steps: &mut Steps<L>,
) -> Result<(), Why>
    requires world { GoesOn texts.now.program world.old }
    requires events { AllByRecursion (MayCome texts.now.program) texts.now.schedule.events }
    requires received { received_of world.old ≡ 0 }
    requires played { played_of world.old ≡ 0 }
    ensures done { OnOk result (RunsWhole K.Sink texts.now world.old world.new out.old out.new) }
    ensures short { IfErr result (RunsShort D.Disk K.Sink texts.now world.old world.new out.old out.new) }
{
    let agenda = Agenda {
        left: texts.schedule.events.as_slice(),
        halts: texts.schedule.halts,
        last: None,
    };
    let tally = match pursue(
        alloc,
        world,
        &texts.program,
        &texts.policy,
        &agenda,
        texts.policy.report,
        Tally::none(),
        out,
        steps,
    ) {
        Ok(tally) => tally,
        Err(cut) => return Err(why_of_cut(&texts.fingerprint, cut)),
    };
    let settled = !texts.schedule.halts;
    conclude(alloc, &texts.program, settled, tally, world, out)
}
