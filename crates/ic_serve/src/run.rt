ghost use Rattle.std.specs.Prelude.{◌≡◌, ◌≤◌, ◌<◌, List, length, IfOk, IfErr, IfSome};
ghost use Rattle.def_facts.specs.Playable.{IsPlayable};
ghost use Rattle.def_syntax.specs.Allowed.{IsSmall};
ghost use Rattle.ic_base.specs.declared.limits.TheConstants.{COMPONENTS};
ghost use Rattle.ic_run.specs.Ledgers.{IsBlankOf};
ghost use Rattle.ic_run.specs.Runs.{HandsBack};
ghost use Rattle.ic_serve.specs.Opening.{Opens};
ghost use Rattle.ic_serve.specs.Reading.{MayBeServed};
ghost use Rattle.ic_serve.specs.Runs.{ServesOver, OverDisks, Runs};
ghost use Rattle.ic_serve.specs.Worlds.{MayComeFirst, ServesWorld, StopsWorld};
ghost use Rattle.ic_run.specs.Running.{KeepsAll};
ghost use Rattle.ic_world.specs.Allowing.{GoesOn};
ghost use Rattle.ic_world.specs.Opening.{AllKept, disks_in, disks_under};
ghost use Rattle.ic_world.specs.Views.{components_of, print_of};

use crate::ending::{conclude, give_up};
use crate::line::Line;
use crate::opening::open;
use crate::service::Service;
use crate::stretch::{First, serve_rest, take_up};
use ic_base::Steps;
use ic_disk::{Disk, Sink, TornDisk};
use ic_lines::Lines;
use ic_plan::ServedTexts;
use ic_report::{NO_MEMORY, Why, end_as};
use ic_run::{put_back, take_disks, why_of_start};
use ic_world::World;
use std::alloc::Global;
use std::marker::Brand;
use std::sync::ledger::{Blank, Ledger};

/// Serves lines over a world that was just opened, from what comes first on. Behind the last line the summary is printed; a line that is
/// answered first over the next world is handed back.
fn serve_world<I: Lines, K: Sink, D: Disk, L: Ledger>(
    alloc: Global,
    texts: &ServedTexts,
    lines: &mut I,
    first: &First,
    world: &mut World<TornDisk<D>>,
    out: &mut K,
    service: &mut Service,
    steps: &mut Steps<L>,
) -> Result<Option<Line>, Why>
    requires world { GoesOn texts.now.program world.old }
    requires small { IsSmall texts.now.program }
    requires count { length (components_of world.old) ≤ COMPONENTS }
    requires line { MayComeFirst texts.now.program first.now }
    ensures serves { IfOk result (ServesWorld D.Disk K.Sink texts.now I.Lines first.now (record { source = lines.old; service = service.old; world = world.old; out = out.old }) (record { source = lines.new; service = service.new; world = world.new; out = out.new })) }
    ensures line { IfOk result (λ next. IfSome next (MayBeServed texts.now.program)) }
    ensures disks { KeepsAll world.old world.new }
    ensures short { IfErr result (StopsWorld D.Disk K.Sink texts.now I.Lines first.now (record { source = lines.old; service = service.old; world = world.old; out = out.old }) (record { source = lines.new; service = service.new; world = world.new; out = out.new })) }
{
    take_up(alloc, texts, first, world, out, service, steps)?;
    match serve_rest(alloc, texts, lines, world, out, service, steps)? {
        Some(line) => {
            give_up(alloc, texts, world, service, steps)?;
            Ok(Some(line))
        }
        None => {
            conclude(alloc, &texts.program, world, out, service)?;
            Ok(None)
        }
    }
}

/// Serves all lines over a world that was just opened, which is renewed where its limits come near.
fn serve_worlds<I: Lines, K: Sink, D: Disk, L: Ledger>(
    alloc: Global,
    texts: &ServedTexts,
    lines: &mut I,
    world: &mut World<TornDisk<D>>,
    out: &mut K,
    service: &mut Service,
    steps: &mut Steps<L>,
) -> Result<(), Why>
    requires world { GoesOn texts.now.program world.old }
    requires small { IsSmall texts.now.program }
    requires count { length (components_of world.old) ≡ length texts.now.program.components }
    requires print { print_of world.old ≡ texts.now.fingerprint }
    requires long { length texts.now.fingerprint ≡ 32 }
    ensures serves { (disks : List D) → Opens D.Disk texts.now.program texts.now.fingerprint disks world.old → ServesOver D.Disk K.Sink texts.now I.Lines (record { source = lines.old; service = service.old; disks = disks; out = out.old }) (record { source = lines.new; service = service.new; disks = disks_under (components_of world.new); out = out.new }) result }
    ensures kept { AllKept D.Disk (disks_under (components_of world.old)) (disks_under (components_of world.new)) }
{
    let opening = First::Opening;
    let Some(next) = serve_world(alloc, texts, lines, &opening, world, out, service, steps)? else {
        return Ok(());
    };
    let mut line = next;
    for _ in 0..u64::MAX {
        world.renew(alloc)?;
        let first = First::Line(line);
        match serve_world(alloc, texts, lines, &first, world, out, service, steps)? {
            Some(next) => line = next,
            None => return Ok(()),
        }
    }
    Err(Why::Memory)
}

/// Opens a world over the disks and serves all lines over it; the disks are handed back in their order. Each record that a recovery plays
/// is counted as one step in a ledger, which is made from a blank.
fn serve_over<I: Lines, K: Sink, D: Disk + Drop, L: Ledger>(
    alloc: Global,
    texts: &ServedTexts,
    lines: &mut I,
    out: &mut K,
    disks: Vec<D>,
    blank: Blank,
) -> (Vec<D>, Result<(), Why>)
    requires blank { IsBlankOf L.name L.parts blank.name blank.parts }
    requires small { IsSmall texts.now.program }
    requires playable { IsPlayable texts.now.program }
    requires disks { length disks.items ≡ disks_in texts.now.program.components }
    ensures serves { OverDisks D.Disk K.Sink texts.now I.Lines lines.old disks.items out.old lines.new result.0.items out.new result.1 }
    ensures kept { AllKept D.Disk disks.items result.0.items }
{
    let mut steps: Steps<L> = Steps::from_blank(blank);
    let mut service = Service::new(alloc);
    let Ok(mut back) = Vec::with_capacity(alloc, disks.len()) else {
        return (disks, Err(Why::Memory));
    };
    let mut world = match open(alloc, &texts.program, &texts.fingerprint, disks) {
        Ok(world) => world,
        Err(refused) => {
            let why = why_of_start(&texts.fingerprint, refused.why);
            return (refused.disks, Err(why));
        }
    };
    let ended = serve_worlds(
        alloc,
        texts,
        lines,
        &mut world,
        out,
        &mut service,
        &mut steps,
    );
    world.into_disks(&mut back);
    (back, ended)
}

/// Serves lines over the disks, one by one until none is left, and prints what came of it.
pub(crate) fn serve_lines<I: Lines, K: Sink, D: Disk + Drop>(
    alloc: Global,
    texts: &ServedTexts,
    lines: &mut I,
    out: &mut K,
    disks: &mut Vec<D>,
) -> u8
    requires small { IsSmall texts.now.program }
    requires playable { IsPlayable texts.now.program }
    requires disks { length disks.old.items ≡ COMPONENTS }
    ensures runs { Runs D.Disk K.Sink texts.now I.Lines lines.old disks.old.items out.old lines.new disks.new.items out.new result }
    ensures disks { HandsBack D.Disk texts.now.program disks.old.items disks.new.items }
{
    let Ok(taken) = take_disks(alloc, &texts.program, disks) else {
        return NO_MEMORY;
    };
    let blank = Blank::new(1);
    let (taken, ended) = serve_over::<I, K, D, Brand>(alloc, texts, lines, out, taken, blank);
    put_back(&texts.program, disks, taken);
    match ended {
        Ok(()) => 0,
        Err(why) => end_as(alloc, b"icserve", Some(&texts.program), out, &why),
    }
}
