ghost use Rattle.std.specs.Prelude.{◌≡◌, [], map, Ok, IfOk, IfErr};
ghost use Rattle.std.specs.List.{AllByRecursion};
ghost use Rattle.def_client.specs.Clients.{item_of};
ghost use Rattle.def_client.specs.declared.asked.Asked.TheVariants.{New};
ghost use Rattle.ic_base.specs.declared.events.Trace.{Trace};
ghost use Rattle.ic_client.specs.Fronts.{MaySee};
ghost use Rattle.ic_clients.specs.Working.{answered_by, WorkedOff, AllWorkedOff, RanClients, FailsToWork, FailsToWorkAll, ClientsCut};
ghost use Rattle.ic_run.specs.Agendas.{MayCome};
ghost use Rattle.ic_settle.specs.Policies.{intervals_of};
ghost use Rattle.ic_world.specs.Allowing.{GoesOn};

use crate::noting::note;
use crate::pursuing::pursue_seen;
use ic_base::{Event, Policy, Program, ReportLevel, Schedule, Steps, What};
use ic_client::{Asked, Front};
use ic_disk::{Disk, Sink, TornDisk};
use ic_run::{Agenda, Cut, Tally};
use ic_world::World;
use std::alloc::{AllocError, Global};
use std::slice;
use std::sync::ledger::Ledger;

/// What is answered to an event of a schedule with clients: a request is asked of the front, and any other event is new.
fn asked(front: &mut Front, event: &Event) -> Result<Asked, AllocError>
    ensures answer { IfOk result (λ a. a ≡ answered_by event.now.what front.old.taken) }
    ensures may { result ≡ Ok New → (t : Trace) → t.event ≡ event.now → MaySee front.new t }
    ensures same { front.new.taken ≡ front.old.taken }
{
    match event.what {
        What::Input(c, handler, args) => front.ask(c, handler, args),
        _ => Ok(Asked::New),
    }
}

/// Works off an item: a new request, or an event that is none, is done with all that the policy asks for behind it; any other
/// request is answered with no step.
fn work_off<K: Sink, D: Disk, L: Ledger>(
    alloc: Global,
    world: &mut World<TornDisk<D>>,
    program: &Program,
    policy: &Policy,
    event: &Event,
    level: ReportLevel,
    tally: Tally,
    front: &mut Front,
    out: &mut K,
    steps: &mut Steps<L>,
) -> Result<Tally, Cut>
    requires world { GoesOn program.now world.old }
    requires event { MayCome program.now event.now }
    ensures done { IfOk result (WorkedOff K.Sink program.now (intervals_of policy.now) level (item_of event.now) tally front.old.taken front.new.taken world.old world.new out.old out.new) }
    ensures cut { IfErr result (FailsToWork D.Disk K.Sink program.now (intervals_of policy.now) level (item_of event.now) tally front.old.taken world.old world.new out.old out.new) }
{
    match asked(front, event)? {
        Asked::New => {
            let agenda = Agenda {
                left: slice::from_ref(event),
                halts: true,
                last: None,
            };
            pursue_seen(
                alloc, world, program, policy, &agenda, level, tally, front, out, steps,
            )
        }
        answer => note(alloc, program, level, tally, event, &answer, out),
    }
}

/// Works off items in order, from a front that has taken nothing.
fn work_all<K: Sink, D: Disk, L: Ledger>(
    alloc: Global,
    world: &mut World<TornDisk<D>>,
    program: &Program,
    policy: &Policy,
    events: &[Event],
    level: ReportLevel,
    front: &mut Front,
    out: &mut K,
    steps: &mut Steps<L>,
) -> Result<Tally, Cut>
    requires world { GoesOn program.now world.old }
    requires events { AllByRecursion (MayCome program.now) events.now }
    requires front { front.old.taken ≡ [] }
    ensures done { IfOk result (AllWorkedOff K.Sink program.now (intervals_of policy.now) level (map item_of events.now) front.new.taken world.old world.new out.old out.new) }
    ensures cut { IfErr result (FailsToWorkAll D.Disk K.Sink program.now (intervals_of policy.now) level (map item_of events.now) world.old world.new out.old out.new) }
{
    let mut told = Tally::none();
    for event in events {
        told = work_off(
            alloc, world, program, policy, event, level, told, front, out, steps,
        )?;
    }
    Ok(told)
}

/// Works off all items of a schedule with clients, and unless it halts settles the world behind them. Each request is asked of a
/// front that saw all that was done before: it is an event of the world where it is new, and else its line tells what is answered.
/// The lines of each event are printed at once, an input's in the form of its request, and so is the line of each answer; each has
/// a number.
pub fn pursue_clients<K: Sink, D: Disk, L: Ledger>(
    alloc: Global,
    world: &mut World<TornDisk<D>>,
    program: &Program,
    policy: &Policy,
    schedule: &Schedule,
    level: ReportLevel,
    out: &mut K,
    steps: &mut Steps<L>,
) -> Result<Tally, Cut>
    requires world { GoesOn program.now world.old }
    requires events { AllByRecursion (MayCome program.now) schedule.now.events }
    ensures done { IfOk result (RanClients K.Sink program.now (intervals_of policy.now) level (map item_of schedule.now.events) schedule.now.halts world.old world.new out.old out.new) }
    ensures cut { IfErr result (ClientsCut D.Disk K.Sink program.now (intervals_of policy.now) level (map item_of schedule.now.events) schedule.now.halts world.old world.new out.old out.new) }
{
    let mut front = Front::new(alloc);
    let told = work_all(
        alloc,
        world,
        program,
        policy,
        schedule.events.as_slice(),
        level,
        &mut front,
        out,
        steps,
    )?;
    let agenda = Agenda {
        left: &[],
        halts: schedule.halts,
        last: None,
    };
    pursue_seen(
        alloc, world, program, policy, &agenda, level, told, &mut front, out, steps,
    )
}
