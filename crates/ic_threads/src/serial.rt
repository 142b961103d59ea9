ghost use Rattle.std.specs.Prelude.{◌≡◌, ◌++◌, false, IfOk, IfErr, IfSome, OnOk};
ghost use Rattle.std.specs.List.{AllByRecursion};
ghost use Rattle.ic_run.specs.Agendas.{IsReady, MayCome};
ghost use Rattle.def_step.specs.Settle.{asked_of};
ghost use Rattle.ic_settle.specs.Policies.{intervals_of};
ghost use Rattle.ic_threads.specs.Serial.{is_input_first, shown_by_trace, Advances, FailsToAdvance, DoesLeft, WasCut};
ghost use Rattle.ic_world.specs.Allowing.{GoesOn};

use ic_base::{ComId, Event, Policy, Program, Showings, Steps, Trace, What, WorldRefused};
use ic_disk::{Disk, TornDisk};
use ic_run::{Agenda, Cut, Tally, advance};
use ic_world::World;
use std::alloc::{AllocError, Global};
use std::sync::ledger::Ledger;

/// Whether the next of these events is an input, before which the world is settled.
fn is_input_next(left: &[Event]) -> bool
    ensures { result ≡ is_input_first left.now }
{
    match left.first() {
        Some(event) => matches!(event.what, What::Input(_, _, _)),
        None => false,
    }
}

/// Does the event that is next of those that are left: what the policy asks for behind the event before; else, before an input and at the
/// end, what settles the world; else the next event of the list. None comes exactly where nothing is left to do.
fn advance_left<D: Disk, L: Ledger>(
    alloc: Global,
    world: &mut World<TornDisk<D>>,
    program: &Program,
    policy: &Policy,
    agenda: &mut Agenda<'_>,
    steps: &mut Steps<L>,
) -> Result<Option<Trace>, WorldRefused>
    requires world { GoesOn program.now world.old }
    requires ready { IsReady program.now world.old agenda.old }
    requires settles { agenda.old.halts ≡ false }
    ensures step { IfOk result (Advances program.now (intervals_of policy.now) agenda.old agenda.new world.old world.new) }
    ensures refused { IfErr result (FailsToAdvance D.Disk program.now (intervals_of policy.now) agenda.old world.old world.new) }
    ensures settles { IfOk result (λ o. IfSome o (λ t. agenda.new.halts ≡ false)) }
{
    if !is_input_next(agenda.left) {
        return advance(alloc, world, program, policy, agenda, steps);
    }
    let mut settling = Agenda {
        left: &[],
        halts: false,
        last: agenda.last,
    };
    match advance(alloc, world, program, policy, &mut settling, steps) {
        Ok(Some(trace)) => {
            agenda.last = settling.last;
            Ok(Some(trace))
        }
        Ok(None) => advance(alloc, world, program, policy, agenda, steps),
        Err(why) => Err(why),
    }
}

/// The output that an event of this component shows goes behind these.
fn add_shown(shown: &mut Showings, c: Option<ComId>, trace: &Trace) -> Result<(), AllocError>
    requires { «c» ≡ asked_of trace.now.event.what trace.now.answer }
    ensures { OnOk result (shown.new ≡ shown.old ++ shown_by_trace trace.now) }
{
    let Some(c) = c else {
        return Ok(());
    };
    match &trace.shown {
        Some((output, _)) => {
            shown.push((c, *output))?;
            Ok(())
        }
        None => Ok(()),
    }
}

/// Does all that is left of the lists, the world being settled before each input and at the end. It is counted on from a tally, and what is
/// shown goes behind what was shown before.
pub(crate) fn do_left<D: Disk, L: Ledger>(
    alloc: Global,
    world: &mut World<TornDisk<D>>,
    program: &Program,
    policy: &Policy,
    left: &[Event],
    tally: Tally,
    shown: &mut Showings,
    steps: &mut Steps<L>,
) -> Result<Tally, Cut>
    requires world { GoesOn program.now world.old }
    requires events { AllByRecursion (MayCome program.now) left.now }
    ensures done { IfOk result (DoesLeft program.now (intervals_of policy.now) tally left.now world.old world.new shown.old shown.new) }
    ensures cut { IfErr result (WasCut D.Disk program.now (intervals_of policy.now) left.now world.old world.new) }
{
    let mut agenda = Agenda {
        left,
        halts: false,
        last: None,
    };
    let mut told = tally;
    while let Some(trace) = advance_left(alloc, world, program, policy, &mut agenda, steps)? {
        let Some(now) = told.with(&trace) else {
            return Err(Cut::Memory);
        };
        add_shown(shown, agenda.last, &trace)?;
        told = now;
    }
    Ok(told)
}
