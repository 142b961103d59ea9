ghost use Rattle.std.specs.Prelude.{◌⊎◌, [], IfOk, IfErr};
ghost use Rattle.std.specs.List.{AllByRecursion};
ghost use Rattle.def_run.specs.Executions.{whole_agenda};
ghost use Rattle.def_standby.specs.declared.orders.Order.TheVariants.{Run, Ship, TakeOver};
ghost use Rattle.ic_failover.specs.Asking.{MayBeOrdered};
ghost use Rattle.ic_failover.specs.Carrying.{Happened, Carries, CarriesAll, WentThrough, FailsToCarry, FailsToCarryAll, FailsToSettle, GoesOn, intervals_for, telling_for, stage_of};
ghost use Rattle.ic_failover.specs.Sides.{IsOwn};
ghost use Rattle.ic_run.specs.Agendas.{MayCome};
ghost use Rattle.ic_run.specs.Running.{Executed, WasCut};

use crate::shipping::ship;
use crate::side::Side;
use crate::taking::take_over;
use crate::telling::tell;
use crate::texts::FailoverTexts;
use def_standby::Order;
use ic_base::{Event, Steps};
use ic_disk::{Disk, Sink, TornDisk};
use ic_run::{Agenda, Cut, Tally, pursue};
use ic_world::World;
use std::alloc::Global;
use std::slice;
use std::sync::ledger::Ledger;

/// Does these events with all that the policy asks for, as a run does, and prints their lines.
fn run_events<K: Sink, D: Disk, L: Ledger>(
    alloc: Global,
    texts: &FailoverTexts,
    world: &mut World<TornDisk<D>>,
    events: &[Event],
    halts: bool,
    tally: Tally,
    out: &mut K,
    steps: &mut Steps<L>,
) -> Result<Tally, Cut>
    requires world { GoesOn texts.now world.old }
    requires events { AllByRecursion (MayCome texts.now.program) events.now }
    ensures done { IfOk result (Executed K.Sink texts.now.program (intervals_for texts.now) (telling_for texts.now) tally (whole_agenda events.now halts) world.old world.new out.old out.new) }
    ensures cut { IfErr result (WasCut D.Disk K.Sink texts.now.program (intervals_for texts.now) (telling_for texts.now) tally.events (whole_agenda events.now halts) world.old world.new out.old out.new) }
{
    let agenda = Agenda {
        left: events,
        halts,
        last: None,
    };
    pursue(
        alloc,
        world,
        &texts.program,
        &texts.policy,
        &agenda,
        texts.policy.report,
        tally,
        out,
        steps,
    )
}

/// Does an event with all that the policy asks for behind it.
fn carry_out_event<K: Sink, D: Disk, L: Ledger>(
    alloc: Global,
    texts: &FailoverTexts,
    world: &mut World<TornDisk<D>>,
    event: &Event,
    side: Side,
    tally: Tally,
    out: &mut K,
    steps: &mut Steps<L>,
) -> Result<(Side, Tally), Cut>
    requires world { GoesOn texts.now world.old }
    requires event { MayCome texts.now.program event.now }
    requires own { IsOwn texts.now.program texts.now.who side }
    ensures done { IfOk result (λ x. Happened K.Sink texts.now event.now (stage_of world.old side tally out.old) (stage_of world.new x.0 x.1 out.new)) }
    ensures own { IfOk result (λ x. IsOwn texts.now.program texts.now.who x.0) }
    ensures cut { IfErr result (FailsToCarry D.Disk K.Sink texts.now (Run event.now) (stage_of world.old side tally out.old) world.new out.new) }
{
    let events = slice::from_ref(event);
    let tally = run_events(alloc, texts, world, events, true, tally, out, steps)?;
    Ok((side, tally))
}

/// Ships what is forced to the standby, and prints what is told of it.
fn carry_out_shipment<K: Sink, D: Disk, L: Ledger>(
    alloc: Global,
    texts: &FailoverTexts,
    world: &World<TornDisk<D>>,
    side: Side,
    tally: Tally,
    out: &mut K,
    steps: &mut Steps<L>,
) -> Result<(Side, Tally), Cut>
    requires world { GoesOn texts.now world.now }
    requires own { IsOwn texts.now.program texts.now.who side }
    ensures done { IfOk result (λ x. Carries K.Sink texts.now Ship (stage_of world.now side tally out.old) (stage_of world.now x.0 x.1 out.new)) }
    ensures own { IfOk result (λ x. IsOwn texts.now.program texts.now.who x.0) }
    ensures cut { IfErr result (FailsToCarry D.Disk K.Sink texts.now Ship (stage_of world.now side tally out.old) world.now out.new) }
{
    let (side, note) = ship(alloc, world, &texts.program, texts.who, side, steps)?;
    let tally = tell(alloc, texts.policy.report, tally, &Order::Ship, note, out)?;
    Ok((side, tally))
}

/// Lets the standby take over, and prints what is told of it.
fn carry_out_takeover<K: Sink, D: Disk, L: Ledger>(
    alloc: Global,
    texts: &FailoverTexts,
    world: &mut World<TornDisk<D>>,
    side: Side,
    tally: Tally,
    out: &mut K,
    steps: &mut Steps<L>,
) -> Result<(Side, Tally), Cut>
    requires world { GoesOn texts.now world.old }
    requires own { IsOwn texts.now.program texts.now.who side }
    ensures done { IfOk result (λ x. Carries K.Sink texts.now TakeOver (stage_of world.old side tally out.old) (stage_of world.new x.0 x.1 out.new)) }
    ensures own { IfOk result (λ x. IsOwn texts.now.program texts.now.who x.0) }
    ensures cut { IfErr result (FailsToCarry D.Disk K.Sink texts.now TakeOver (stage_of world.old side tally out.old) world.new out.new) }
{
    let (side, note) = take_over(alloc, world, &texts.program, texts.who, side, steps)?;
    let tally = tell(
        alloc,
        texts.policy.report,
        tally,
        &Order::TakeOver,
        note,
        out,
    )?;
    Ok((side, tally))
}

/// Does an order, and prints its lines.
fn carry_out<K: Sink, D: Disk, L: Ledger>(
    alloc: Global,
    texts: &FailoverTexts,
    world: &mut World<TornDisk<D>>,
    order: &Order,
    side: Side,
    tally: Tally,
    out: &mut K,
    steps: &mut Steps<L>,
) -> Result<(Side, Tally), Cut>
    requires world { GoesOn texts.now world.old }
    requires order { MayBeOrdered texts.now.program order.now }
    requires own { IsOwn texts.now.program texts.now.who side }
    ensures done { IfOk result (λ x. Carries K.Sink texts.now order.now (stage_of world.old side tally out.old) (stage_of world.new x.0 x.1 out.new)) }
    ensures own { IfOk result (λ x. IsOwn texts.now.program texts.now.who x.0) }
    ensures cut { IfErr result (FailsToCarry D.Disk K.Sink texts.now order.now (stage_of world.old side tally out.old) world.new out.new) }
{
    match order {
        Order::Run(event) => carry_out_event(alloc, texts, world, event, side, tally, out, steps),
        Order::Ship => carry_out_shipment(alloc, texts, world, side, tally, out, steps),
        Order::TakeOver => carry_out_takeover(alloc, texts, world, side, tally, out, steps),
    }
}

/// Does the orders one after another.
fn carry_out_all<K: Sink, D: Disk, L: Ledger>(
    alloc: Global,
    texts: &FailoverTexts,
    world: &mut World<TornDisk<D>>,
    side: Side,
    tally: Tally,
    out: &mut K,
    steps: &mut Steps<L>,
) -> Result<(Side, Tally), Cut>
    requires world { GoesOn texts.now world.old }
    requires orders { AllByRecursion (MayBeOrdered texts.now.program) texts.now.orders.orders }
    requires own { IsOwn texts.now.program texts.now.who side }
    ensures done { IfOk result (λ x. CarriesAll K.Sink texts.now texts.now.orders.orders (stage_of world.old side tally out.old) (stage_of world.new x.0 x.1 out.new)) }
    ensures world { IfOk result (λ x. GoesOn texts.now world.new) }
    ensures cut { IfErr result (FailsToCarryAll D.Disk K.Sink texts.now (stage_of world.old side tally out.old) world.new out.new) }
{
    let mut now = (side, tally);
    for order in texts.orders.orders.as_slice() {
        let (side, tally) = now;
        now = carry_out(alloc, texts, world, order, side, tally, out, steps)?;
    }
    Ok(now)
}

/// Does all orders, and unless the run halts what settles the world. Answers what was counted, and how many records were shipped.
pub(crate) fn pursue_orders<K: Sink, D: Disk, L: Ledger>(
    alloc: Global,
    texts: &FailoverTexts,
    world: &mut World<TornDisk<D>>,
    side: Side,
    tally: Tally,
    out: &mut K,
    steps: &mut Steps<L>,
) -> Result<(u64, Tally), Cut>
    requires world { GoesOn texts.now world.old }
    requires orders { AllByRecursion (MayBeOrdered texts.now.program) texts.now.orders.orders }
    requires own { IsOwn texts.now.program texts.now.who side }
    ensures done { IfOk result (λ x. WentThrough K.Sink texts.now (stage_of world.old side tally out.old) world.new out.new x.0 x.1) }
    ensures cut { IfErr result (λ cut. FailsToCarryAll D.Disk K.Sink texts.now (stage_of world.old side tally out.old) world.new out.new cut ⊎ FailsToSettle D.Disk K.Sink texts.now (stage_of world.old side tally out.old) world.new out.new cut) }
{
    let (side, told) = carry_out_all(alloc, texts, world, side, tally, out, steps)?;
    let halts = texts.orders.halts;
    let tally = run_events(alloc, texts, world, &[], halts, told, out, steps)?;
    Ok((side.shipped(), tally))
}
