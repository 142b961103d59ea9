ghost use Rattle.std.specs.Prelude.{◌≡◌, ◌≤◌, length, None, IfOk, IfErr, OnOk};
ghost use Rattle.std.specs.List.{AllByRecursion};
ghost use Rattle.def_step.specs.Settle.{next_event};
ghost use Rattle.def_syntax.specs.Allowed.{IsSmall};
ghost use Rattle.ic_base.specs.declared.limits.TheConstants.{COMPONENTS};
ghost use Rattle.ic_run.specs.Agendas.{MayCome};
ghost use Rattle.ic_serve.specs.Fronts.{RefusesLogs};
ghost use Rattle.ic_serve.specs.Reading.{line_as, MayBeServed, ReadsNext, FailsToRead};
ghost use Rattle.ic_serve.specs.Serving.{IsSettledFrom, IsServed, FailsToServe};
ghost use Rattle.ic_serve.specs.Worlds.{Settles, FailsToSettle, Loads, MayComeFirst, AnswersFirst, FailsToAnswerFirst, IsTakenUp, FailsToTakeUp, HasServed, FailsToServeOn};
ghost use Rattle.ic_settle.specs.Policies.{intervals_of};
ghost use Rattle.ic_world.specs.Allowing.{GoesOn};
ghost use Rattle.ic_world.specs.Views.{components_of, world_of};

use crate::answering::answer;
use crate::fronts::front_of;
use crate::gathering::gather;
use crate::line::{Line, line_of};
use crate::service::Service;
use crate::serving::do_line;
use crate::telling::Form;
use ic_base::{Event, Fault, Program, Steps};
use ic_disk::{Disk, Sink, TornDisk};
use ic_lines::{LineError, Lines, Read};
use ic_plan::ServedTexts;
use ic_report::Why;
use ic_run::{Agenda, why_of_cut};
use ic_world::World;
use std::alloc::Global;
use std::sync::ledger::Ledger;

/// The most bytes of a line, without the byte 10 that ends it.
const LINE_BYTES: usize = 4096;

/// What is answered first over a world.
#[derive(Clone, Copy)]
pub(crate) enum First {
    /// That the run is open.
    Opening,
    /// A line for which the world was renewed.
    Line(Line),
}

/// Does these events and what settles the world, with the events of the policy.
pub(crate) fn settle<D: Disk, L: Ledger>(
    alloc: Global,
    texts: &ServedTexts,
    events: &[Event],
    world: &mut World<TornDisk<D>>,
    service: &mut Service,
    steps: &mut Steps<L>,
) -> Result<(), Why>
    requires world { GoesOn texts.now.program world.old }
    requires events { AllByRecursion (MayCome texts.now.program) events.now }
    ensures done { OnOk result (Settles D.Disk texts.now events.now service.old service.new world.old world.new) }
    ensures world { OnOk result (IsSettledFrom texts.now.program world.old world.new) }
    ensures cut { IfErr result (FailsToSettle D.Disk texts.now events.now service.old world.old world.new) }
{
    let agenda = Agenda {
        left: events,
        halts: false,
        last: None,
    };
    match gather(
        alloc,
        world,
        &texts.program,
        &texts.policy,
        &agenda,
        Form::Following,
        service,
        steps,
    ) {
        Ok(()) => Ok(()),
        Err(cut) => Err(why_of_cut(&texts.fingerprint, cut)),
    }
}

/// Does what a line asks for, and prints its answer.
fn serve_line<K: Sink, D: Disk, L: Ledger>(
    alloc: Global,
    texts: &ServedTexts,
    line: &Line,
    world: &mut World<TornDisk<D>>,
    out: &mut K,
    service: &mut Service,
    steps: &mut Steps<L>,
) -> Result<(), Why>
    requires world { GoesOn texts.now.program world.old }
    requires settled { next_event (world_of world.old) ≡ None }
    requires line { MayBeServed texts.now.program line.now }
    ensures served { OnOk result (IsServed texts.now.program (intervals_of texts.now.policy) texts.now.policy.report K.Sink (line_as service.old.lines line.now) service.old service.new world.old world.new out.old out.new) }
    ensures world { OnOk result (IsSettledFrom texts.now.program world.old world.new) }
    ensures short { IfErr result (FailsToServe D.Disk texts.now.program (intervals_of texts.now.policy) texts.now.policy.report K.Sink texts.now.fingerprint (line_as service.old.lines line.now) service.old world.old world.new out.old out.new) }
{
    let number = service.lines;
    match do_line(
        alloc,
        world,
        &texts.program,
        &texts.policy,
        number,
        line,
        service,
        steps,
    ) {
        Ok(()) => answer(out, world, number, service),
        Err(cut) => Err(why_of_cut(&texts.fingerprint, cut)),
    }
}

/// Answers what comes first over a settled world.
fn answer_first<K: Sink, D: Disk, L: Ledger>(
    alloc: Global,
    texts: &ServedTexts,
    first: &First,
    world: &mut World<TornDisk<D>>,
    out: &mut K,
    service: &mut Service,
    steps: &mut Steps<L>,
) -> Result<(), Why>
    requires world { GoesOn texts.now.program world.old }
    requires settled { next_event (world_of world.old) ≡ None }
    requires line { MayComeFirst texts.now.program first.now }
    ensures answers { OnOk result (AnswersFirst D.Disk K.Sink texts.now first.now service.old service.new world.old world.new out.old out.new) }
    ensures world { OnOk result (IsSettledFrom texts.now.program world.old world.new) }
    ensures short { IfErr result (FailsToAnswerFirst D.Disk K.Sink texts.now first.now service.old world.old world.new out.old out.new) }
{
    match first {
        First::Opening => answer(out, world, 0, service),
        First::Line(line) => serve_line(alloc, texts, line, world, out, service, steps),
    }
}

/// Keeps the front that the logs of a world tell of, where the run opens.
fn load<D: Disk>(
    alloc: Global,
    program: &Program,
    first: &First,
    world: &World<TornDisk<D>>,
    service: &mut Service,
) -> Result<(), Why>
    requires few { length program.now.components ≤ COMPONENTS }
    requires count { length (components_of world.now) ≤ COMPONENTS }
    ensures loads { OnOk result (Loads program.now first.now world.now service.old service.new) }
    ensures refused { IfErr result (RefusesLogs program.now world.now) }
{
    match first {
        First::Opening => service.front = front_of(alloc, program, world)?,
        First::Line(_) => {}
    }
    Ok(())
}

/// Settles a world that was just opened, with the front that its logs tell of where the run opens, and answers what comes first.
pub(crate) fn take_up<K: Sink, D: Disk, L: Ledger>(
    alloc: Global,
    texts: &ServedTexts,
    first: &First,
    world: &mut World<TornDisk<D>>,
    out: &mut K,
    service: &mut Service,
    steps: &mut Steps<L>,
) -> Result<(), Why>
    requires world { GoesOn texts.now.program world.old }
    requires count { length (components_of world.old) ≤ COMPONENTS }
    requires line { MayComeFirst texts.now.program first.now }
    ensures up { OnOk result (IsTakenUp D.Disk K.Sink texts.now first.now service.old service.new world.old world.new out.old out.new) }
    ensures world { OnOk result (IsSettledFrom texts.now.program world.old world.new) }
    ensures short { IfErr result (FailsToTakeUp D.Disk K.Sink texts.now first.now service.old world.old world.new out.old out.new) }
{
    load(alloc, &texts.program, first, world, service)?;
    settle(alloc, texts, &[], world, service, steps)?;
    answer_first(alloc, texts, first, world, out, service, steps)
}

/// Reads the next line, and counts it. None where nothing is left.
fn read_next<I: Lines>(
    alloc: Global,
    lines: &mut I,
    service: &mut Service,
) -> Result<Option<Read>, Why>
    ensures read { IfOk result (ReadsNext I.Lines lines.old lines.new service.old service.new) }
    ensures unread { IfErr result (FailsToRead I.Lines lines.old lines.new) }
{
    let read = match lines.next(alloc, LINE_BYTES) {
        Ok(Some(read)) => read,
        Ok(None) => return Ok(None),
        Err(LineError::Failed) => return Err(Why::Fault(Fault::Read)),
        Err(LineError::Memory) => return Err(Why::Memory),
    };
    let Some(number) = service.lines.checked_add(1) else {
        return Err(Why::Memory);
    };
    service.lines = number;
    Ok(Some(read))
}

/// Serves lines until none is left, or until one is read where the limits of the world come near.
pub(crate) fn serve_rest<I: Lines, K: Sink, D: Disk, L: Ledger>(
    alloc: Global,
    texts: &ServedTexts,
    lines: &mut I,
    world: &mut World<TornDisk<D>>,
    out: &mut K,
    service: &mut Service,
    steps: &mut Steps<L>,
) -> Result<Option<Line>, Why>
    requires world { GoesOn texts.now.program world.old }
    requires small { IsSmall texts.now.program }
    requires settled { next_event (world_of world.old) ≡ None }
    ensures served { IfOk result (HasServed D.Disk K.Sink texts.now I.Lines (record { source = lines.old; service = service.old; world = world.old; out = out.old }) (record { source = lines.new; service = service.new; world = world.new; out = out.new })) }
    ensures world { OnOk result (IsSettledFrom texts.now.program world.old world.new) }
    ensures short { IfErr result (FailsToServeOn D.Disk K.Sink texts.now I.Lines (record { source = lines.old; service = service.old; world = world.old; out = out.old }) (record { source = lines.new; service = service.new; world = world.new; out = out.new })) }
{
    for _ in 0..u64::MAX {
        let Some(read) = read_next(alloc, lines, service)? else {
            return Ok(None);
        };
        let Some(line) = line_of(alloc, &texts.program, &read)? else {
            continue;
        };
        if service.used.is_near_a_limit() {
            return Ok(Some(line));
        }
        serve_line(alloc, texts, &line, world, out, service, steps)?;
    }
    Err(Why::Memory)
}
