ghost use Rattle.std.specs.Prelude.{◌≡◌, suc, IfErr, OnOk};
ghost use Rattle.def_client.specs.Clients.{item_of, note_lines};
ghost use Rattle.ic_base.specs.declared.report.ReportLevel.TheVariants.{Full};
ghost use Rattle.ic_run.specs.Agendas.{agenda_of, IsReady};
ghost use Rattle.ic_run.specs.Tallies.{IsOneMore};
ghost use Rattle.ic_run.specs.declared.running.Cut.TheVariants.{Memory};
ghost use Rattle.ic_serve.specs.Gathering.{Gathered, FailsToGather, AddsEvent};
ghost use Rattle.ic_serve.specs.Services.{Adds};
ghost use Rattle.ic_settle.specs.Policies.{intervals_of};
ghost use Rattle.ic_world.specs.Allowing.{GoesOn};

use crate::service::Service;
use crate::telling::{Form, event_bytes};
use ic_base::{Event, Policy, Program, ReportLevel, Steps, Trace};
use ic_client::Asked;
use ic_disk::{Disk, TornDisk};
use ic_report::note_bytes;
use ic_run::{Agenda, Cut, advance};
use ic_world::World;
use std::alloc::Global;
use std::sync::ledger::Ledger;

/// Counts an event that was done, lets the front see it, and appends its lines with its number to the piece.
fn gather_event(
    alloc: Global,
    program: &Program,
    policy: &Policy,
    form: Form,
    trace: Trace,
    service: &mut Service,
) -> Result<(), Cut>
    ensures adds { OnOk result (AddsEvent program.now policy.now.report form trace service.old service.new) }
    ensures more { OnOk result (IsOneMore service.old.tally service.new.tally) }
    ensures memory { IfErr result (λ cut. cut ≡ Memory) }
{
    let Some(tally) = service.tally.with(&trace) else {
        return Err(Cut::Memory);
    };
    service.front.see(&trace)?;
    service.tally = tally;
    service.used = service.used.with(&trace);
    let lines = event_bytes(alloc, program, policy.report, form, tally.events, trace)?;
    service.piece.extend_from_slice(lines.as_slice())?;
    Ok(())
}

/// Does all that is to be done of an agenda, with the events of the policy and, unless it halts, those that settle, and appends the
/// lines of each to the piece; those of the first one stand in a form of their own.
pub(crate) fn gather<D: Disk, L: Ledger>(
    alloc: Global,
    world: &mut World<TornDisk<D>>,
    program: &Program,
    policy: &Policy,
    agenda: &Agenda<'_>,
    first: Form,
    service: &mut Service,
    steps: &mut Steps<L>,
) -> Result<(), Cut>
    requires world { GoesOn program.now world.old }
    requires ready { IsReady program.now world.old agenda.now }
    ensures done { OnOk result (Gathered program.now (intervals_of policy.now) policy.now.report first (agenda_of agenda.now) service.old service.new world.old world.new) }
    ensures cut { IfErr result (FailsToGather D.Disk program.now (intervals_of policy.now) policy.now.report first (agenda_of agenda.now) service.old world.old world.new) }
{
    let mut rest = *agenda;
    let mut form = first;
    while let Some(trace) = advance(alloc, world, program, policy, &mut rest, steps)? {
        gather_event(alloc, program, policy, form, trace, service)?;
        form = Form::Following;
    }
    Ok(())
}

/// Numbers a request that is answered with no step, and appends its line to the piece.
pub(crate) fn gather_note(
    alloc: Global,
    program: &Program,
    event: &Event,
    answer: &Asked,
    service: &mut Service,
) -> Result<(), Cut>
    ensures told { OnOk result (Adds (note_lines program.now Full (suc service.old.tally.events) (item_of event.now) answer.now) service.old service.new) }
    ensures memory { IfErr result (λ cut. cut ≡ Memory) }
{
    let Some(tally) = service.tally.noted() else {
        return Err(Cut::Memory);
    };
    service.tally = tally;
    let line = note_bytes(
        alloc,
        program,
        tally.events,
        event,
        answer,
        ReportLevel::Full,
    )?;
    service.piece.extend_from_slice(line.as_slice())?;
    Ok(())
}
