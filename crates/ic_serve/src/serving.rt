ghost use Rattle.std.specs.Prelude.{IfErr, IfSome, OnOk};
ghost use Rattle.def_serve.specs.Lines as definition;
ghost use Rattle.ic_plan.specs.Served.{event_in, line_seen, request_seen};
ghost use Rattle.ic_run.specs.Agendas.{MayCome};
ghost use Rattle.ic_serve.specs.Gathering.{Gathered, FailsToGather};
ghost use Rattle.ic_serve.specs.Reading.{line_as, MayBeServed};
ghost use Rattle.ic_serve.specs.Serving.{agenda_for, IsDone, FailsToDo};
ghost use Rattle.ic_settle.specs.Policies.{intervals_of};
ghost use Rattle.ic_world.specs.Allowing.{GoesOn};

use crate::answering::{add_bad_line, add_values};
use crate::gathering::{gather, gather_note};
use crate::line::{Line, input_for};
use crate::service::Service;
use crate::telling::Form;
use ic_base::{Event, Policy, Program, Steps, What};
use ic_client::Asked;
use ic_disk::{Disk, TornDisk};
use ic_plan::{Request, ServedLine};
use ic_run::{Agenda, Cut};
use ic_world::World;
use std::alloc::Global;
use std::slice;
use std::sync::ledger::Ledger;

/// Does the event of a line with all that the policy asks for behind it, and settles the world.
fn do_event<D: Disk, L: Ledger>(
    alloc: Global,
    world: &mut World<TornDisk<D>>,
    program: &Program,
    policy: &Policy,
    event: &Event,
    form: Form,
    service: &mut Service,
    steps: &mut Steps<L>,
) -> Result<(), Cut>
    requires world { GoesOn program.now world.old }
    requires event { MayCome program.now event.now }
    ensures done { OnOk result (Gathered program.now (intervals_of policy.now) policy.now.report form (agenda_for event.now) service.old service.new world.old world.new) }
    ensures cut { IfErr result (FailsToGather D.Disk program.now (intervals_of policy.now) policy.now.report form (agenda_for event.now) service.old world.old world.new) }
{
    let agenda = Agenda {
        left: slice::from_ref(event),
        halts: false,
        last: None,
    };
    gather(alloc, world, program, policy, &agenda, form, service, steps)
}

/// Asks the front for a request: a new one is done, and any other is answered with no step.
fn ask<D: Disk, L: Ledger>(
    alloc: Global,
    world: &mut World<TornDisk<D>>,
    program: &Program,
    policy: &Policy,
    request: &Request,
    service: &mut Service,
    steps: &mut Steps<L>,
) -> Result<(), Cut>
    requires world { GoesOn program.now world.old }
    requires event { MayCome program.now (definition.input_for (request_seen request.now)) }
    ensures done { OnOk result (IsDone program.now (intervals_of policy.now) policy.now.report (definition.Asks (request_seen request.now)) service.old service.new world.old world.new) }
    ensures cut { IfErr result (FailsToDo D.Disk program.now (intervals_of policy.now) policy.now.report (definition.Asks (request_seen request.now)) service.old world.old world.new) }
{
    let event = input_for(request);
    match service
        .front
        .ask(request.who, request.handler, request.args)?
    {
        Asked::New => do_event(
            alloc,
            world,
            program,
            policy,
            &event,
            Form::Request,
            service,
            steps,
        ),
        answer => gather_note(alloc, program, &event, &answer, service),
    }
}

/// Does what a line asks for that isn't refused, and settles the world behind it.
fn do_served<D: Disk, L: Ledger>(
    alloc: Global,
    world: &mut World<TornDisk<D>>,
    program: &Program,
    policy: &Policy,
    line: &ServedLine,
    service: &mut Service,
    steps: &mut Steps<L>,
) -> Result<(), Cut>
    requires world { GoesOn program.now world.old }
    requires line { IfSome (event_in line.now) (MayCome program.now) }
    ensures done { OnOk result (IsDone program.now (intervals_of policy.now) policy.now.report (line_seen line.now) service.old service.new world.old world.new) }
    ensures cut { IfErr result (FailsToDo D.Disk program.now (intervals_of policy.now) policy.now.report (line_seen line.now) service.old world.old world.new) }
{
    match line {
        ServedLine::Values => Ok(add_values(alloc, &mut service.piece, program, world)?),
        ServedLine::Asks(request) => ask(alloc, world, program, policy, request, service, steps),
        ServedLine::Gives(request) => {
            let event = input_for(request);
            do_event(
                alloc,
                world,
                program,
                policy,
                &event,
                Form::Own,
                service,
                steps,
            )
        }
        ServedLine::Checkpoints(c) => {
            let event = Event {
                what: What::Checkpoint(*c),
                stop: None,
            };
            do_event(
                alloc,
                world,
                program,
                policy,
                &event,
                Form::Own,
                service,
                steps,
            )
        }
    }
}

/// Does what a line asks for, settles the world behind it, and gathers what is answered.
pub(crate) fn do_line<D: Disk, L: Ledger>(
    alloc: Global,
    world: &mut World<TornDisk<D>>,
    program: &Program,
    policy: &Policy,
    number: u64,
    line: &Line,
    service: &mut Service,
    steps: &mut Steps<L>,
) -> Result<(), Cut>
    requires world { GoesOn program.now world.old }
    requires line { MayBeServed program.now line.now }
    ensures done { OnOk result (IsDone program.now (intervals_of policy.now) policy.now.report (line_as number line.now) service.old service.new world.old world.new) }
    ensures cut { IfErr result (FailsToDo D.Disk program.now (intervals_of policy.now) policy.now.report (line_as number line.now) service.old world.old world.new) }
{
    match line {
        Line::Bad(cause) => Ok(add_bad_line(&mut service.piece, number, *cause)?),
        Line::Served(line) => do_served(alloc, world, program, policy, line, service, steps),
    }
}
