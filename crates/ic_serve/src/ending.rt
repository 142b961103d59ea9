ghost use Rattle.std.specs.Prelude.{◌≡◌, ◌≤◌, ◌+◌, ◌∷◌, [], true, length, IfOk, IfErr, OnOk};
ghost use Rattle.std.specs.List.{AllByRecursion};
ghost use Rattle.def_report.specs.Summaries.{summary_lines};
ghost use Rattle.def_syntax.specs.Allowed.{IsSmall};
ghost use Rattle.ic_base.specs.declared.limits.TheConstants.{COMPONENTS};
ghost use Rattle.ic_report.specs.Outputs.{Puts};
ghost use Rattle.ic_run.specs.Agendas.{MayCome};
ghost use Rattle.ic_run.specs.Summaries.{summed, FailsToTell};
ghost use Rattle.ic_serve.specs.Serving.{IsSettledFrom};
ghost use Rattle.ic_serve.specs.Worlds.{IsGivenUp, FailsToGiveUp, checkpoints_of};
ghost use Rattle.ic_world.specs.Allowing.{GoesOn};
ghost use Rattle.ic_world.specs.Views.{world_of, played_of};

use crate::service::Service;
use crate::stretch::settle;
use crate::summing::summary_of;
use crate::used::Used;
use ic_base::{ComId, Event, Kind, Program, Steps, What};
use ic_disk::{Disk, Sink, TornDisk};
use ic_plan::ServedTexts;
use ic_report::{Why, print};
use ic_world::World;
use std::alloc::{AllocError, Global};
use std::sync::ledger::Ledger;

/// A checkpoint of each Pcom, in order.
fn checkpoints(alloc: Global, program: &Program) -> Result<Vec<Event>, AllocError>
    requires { IsSmall program.now }
    ensures events { IfOk result (λ events. events.items ≡ checkpoints_of program.now) }
    ensures may { IfOk result (λ events. AllByRecursion (MayCome program.now) events.items) }
{
    let components = program.components.as_slice();
    let mut events = Vec::with_capacity(alloc, components.len())?;
    for i in 0..components.len() {
        if let Kind::Pcom = components[i].kind {
            events.push(Event {
                what: What::Checkpoint(ComId(i as u8)),
                stop: None,
            })?;
        }
    }
    Ok(events)
}

/// Readies a world to be renewed over its disks: each Pcom has a checkpoint, so that a recovery is short.
pub(crate) fn give_up<D: Disk, L: Ledger>(
    alloc: Global,
    texts: &ServedTexts,
    world: &mut World<TornDisk<D>>,
    service: &mut Service,
    steps: &mut Steps<L>,
) -> Result<(), Why>
    requires world { GoesOn texts.now.program world.old }
    requires small { IsSmall texts.now.program }
    ensures given_up { OnOk result (IsGivenUp D.Disk texts.now service.old service.new world.old world.new) }
    ensures world { OnOk result (IsSettledFrom texts.now.program world.old world.new) }
    ensures cut { IfErr result (FailsToGiveUp D.Disk texts.now service.old world.old world.new) }
{
    let events = checkpoints(alloc, &texts.program)?;
    settle(alloc, texts, events.as_slice(), world, service, steps)?;
    let Some(played) = service.played.checked_add(world.played()) else {
        return Err(Why::Memory);
    };
    service.played = played;
    service.used = Used::none();
    Ok(())
}

/// Prints what a served run came to.
pub(crate) fn conclude<K: Sink, D: Disk>(
    alloc: Global,
    program: &Program,
    world: &World<D>,
    out: &mut K,
    service: &Service,
) -> Result<(), Why>
    requires { length program.now.components ≤ COMPONENTS }
    ensures printed { OnOk result (Puts K.Sink (summary_lines program.now (summed program.now true service.now.tally (service.now.played + played_of world.now) (world_of world.now)) ∷ []) out.old out.new) }
    ensures refused { IfErr result (FailsToTell K.Sink (summary_lines program.now (summed program.now true service.now.tally (service.now.played + played_of world.now) (world_of world.now)) ∷ []) out.old out.new) }
{
    let lines = summary_of(alloc, program, service.tally, service.played, world)?;
    match print(out, lines.as_slice()) {
        Ok(()) => Ok(()),
        Err(_) => Err(Why::Print),
    }
}
