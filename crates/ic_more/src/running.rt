ghost use Rattle.std.specs.Prelude.{◌≡◌, suc, length, [], OnOk, IfErr, IfOk};
ghost use Rattle.std.specs.List.{AllByRecursion};
ghost use Rattle.def_two.specs.Ends.{AreOpenings};
ghost use Rattle.def_two.specs.Runs.{IsEvent2};
ghost use Rattle.ic_script.specs.Reading.{openings_in, the_script};
ghost use Rattle.ic_two_world.specs.Executing.{Executed2};
ghost use Rattle.ic_two_world.specs.Views.{openings_of, print_of, world_of, IsGoing};
ghost use Rattle.ic_more.specs.Ends as ends;
ghost use Rattle.ic_more.specs.Running.{Tells, FailsToTell};
ghost use Rattle.ic_more.specs.Runs.{RunsOver};

use crate::asking::Asked;
use crate::ending::{Fault2, Why2};
use crate::world_lines::world_bytes;
use def_two::{Script, TwoRefused, TwoWhy};
use ic_base::Bytes;
use ic_disk::{Disk, TornDisk};
use ic_two_world::{TwoWorld, execute};
use std::alloc::Global;

/// Why no world begins.
fn why_of_start(why: TwoWhy) -> Why2
    ensures { result ≡ ends.why_of_start why }
{
    match why {
        TwoWhy::NotBlank(c) => Why2::Fault(Fault2::NotBlank(c)),
        TwoWhy::Failed(c) => Why2::Fault(Fault2::Disk(c)),
        TwoWhy::Memory => Why2::Memory,
    }
}

/// Why a run goes no further; `given` is the fingerprint of its script.
fn why_of_step(given: &[u8; 32], why: TwoRefused) -> Why2
    ensures { result ≡ ends.why_of_step given.now why }
{
    match why {
        TwoRefused::Packets => Why2::Fault(Fault2::Packets),
        TwoRefused::LogFull(c) => Why2::Fault(Fault2::LogFull(c)),
        TwoRefused::Bad(c, place) => Why2::Fault(Fault2::Bad(c, place)),
        TwoRefused::Failed(c) => Why2::Fault(Fault2::Disk(c)),
        TwoRefused::Foreign(c, kept) => Why2::Fault(Fault2::Foreign(c, kept, *given)),
        TwoRefused::Memory => Why2::Memory,
    }
}

/// Does all that a script asks for over a world that has just begun, and makes the lines of what came of it.
fn run_world<D: Disk + Drop>(
    alloc: Global,
    asked: &Asked,
    world: &mut TwoWorld<TornDisk<D>>,
) -> Result<Bytes, Why2>
    requires going { IsGoing ⟦<TornDisk<D> as Disk>⟧ world.old }
    requires own { openings_of world.old ≡ openings_in asked.now.script.books }
    requires openings { AreOpenings (openings_of world.old) }
    requires events { AllByRecursion (IsEvent2 (openings_of world.old)) asked.now.script.events }
    ensures done { IfOk result (Tells D.Disk (the_script asked.now.script) world.old world.new) }
    ensures short { IfErr result (FailsToTell D.Disk (the_script asked.now.script) asked.now.fingerprint world.old world.new) }
{
    match execute(alloc, world, asked.script.events.as_slice()) {
        Ok(()) => Ok(world_bytes(alloc, &asked.script, world)?),
        Err(why) => Err(why_of_step(&asked.fingerprint, why)),
    }
}

/// Runs a script over the disks of its components, which are handed back in their order, and makes the lines of what came of it.
pub(crate) fn run_over<D: Disk + Drop>(
    alloc: Global,
    asked: &Asked,
    disks: Vec<D>,
) -> (Vec<D>, Result<Bytes, Why2>)
    requires long { length asked.now.fingerprint ≡ 32 }
    requires openings { AreOpenings (openings_in asked.now.script.books) }
    requires events { AllByRecursion (IsEvent2 (openings_in asked.now.script.books)) asked.now.script.events }
    requires disks { length disks.items ≡ suc (length asked.now.script.books) }
    ensures { RunsOver D.Disk (the_script asked.now.script) asked.now.fingerprint disks.items result.0.items result.1 }
{
    let Ok(mut back) = Vec::with_capacity(alloc, disks.len()) else {
        return (disks, Err(Why2::Memory));
    };
    let mut world = match TwoWorld::start(alloc, &asked.script, asked.fingerprint, disks) {
        Ok(world) => world,
        Err(refused) => return (refused.disks, Err(why_of_start(refused.why))),
    };
    let lines = run_world(alloc, asked, &mut world);
    world.into_disks(&mut back);
    (back, lines)
}
