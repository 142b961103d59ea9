ghost use Rattle.std.specs.Prelude.{◌≡◌, ◌<◌, ◌≤◌, length, IfOk, IfErr};
ghost use Rattle.ic_base.specs.declared.limits.TheConstants.{COMPONENTS};
ghost use Rattle.def_facts.specs.Playable.{IsPlayable};
ghost use Rattle.ic_run.specs.Ledgers.{IsBlankOf};
ghost use Rattle.ic_run.specs.Agendas.{MayRun};
ghost use Rattle.ic_run.specs.Worlds.{Opens, FailsToOpen, RunsOver};
ghost use Rattle.ic_world.specs.Opening.{disks_in};

use crate::Opening;
use crate::whys::why_of_start;
use crate::world::run_world;
use ic_base::{Program, Steps};
use ic_disk::{Disk, Sink, TornDisk};
use ic_plan::RunTexts;
use ic_report::Why;
use ic_world::{StartRefused, World};
use std::alloc::Global;
use std::sync::ledger::{Blank, Ledger};

/// The world of a program over its disks: all up over fresh logs on blank disks, or all down over the logs that stand on them.
pub fn open<D: Disk + Drop>(
    alloc: Global,
    opening: Opening,
    program: &Program,
    fingerprint: &[u8; 32],
    disks: Vec<D>,
) -> Result<World<TornDisk<D>>, StartRefused<D>>
    requires few { length program.now.components ≤ COMPONENTS }
    requires playable { IsPlayable program.now }
    requires disks { length disks.items ≡ disks_in program.now.components }
    ensures step { IfOk result (Opens D.Disk opening program.now fingerprint.now disks.items) }
    ensures refused { IfErr result (FailsToOpen D.Disk opening program.now fingerprint.now disks.items) }
    ensures print { length fingerprint.now ≡ 32 }
{
    match opening {
        Opening::Anew => World::start(alloc, program, *fingerprint, disks),
        Opening::Found => World::found(alloc, program, *fingerprint, disks),
    }
}

/// Runs texts over the disks of the components, which are handed back in their order. Each record that a recovery plays is counted as one
/// step in a ledger, which is made from a blank.
pub(crate) fn run_over<K: Sink, D: Disk + Drop, L: Ledger>(
    alloc: Global,
    opening: Opening,
    texts: &RunTexts,
    out: &mut K,
    disks: Vec<D>,
    blank: Blank,
) -> (Vec<D>, Result<(), Why>)
    requires blank { IsBlankOf L.name L.parts blank.name blank.parts }
    requires may { MayRun texts.now }
    requires disks { length disks.items ≡ disks_in texts.now.program.components }
    ensures { RunsOver D.Disk K.Sink texts.now opening disks.items result.0.items out.old out.new result.1 }
{
    let mut steps: Steps<L> = Steps::from_blank(blank);
    let Ok(mut back) = Vec::with_capacity(alloc, disks.len()) else {
        return (disks, Err(Why::Memory));
    };
    let mut world = match open(alloc, opening, &texts.program, &texts.fingerprint, disks) {
        Ok(world) => world,
        Err(refused) => {
            let why = why_of_start(&texts.fingerprint, refused.why);
            return (refused.disks, Err(why));
        }
    };
    let ended = run_world(alloc, texts, &mut world, out, &mut steps);
    world.into_disks(&mut back);
    (back, ended)
}
