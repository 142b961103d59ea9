ghost use Rattle.std.specs.Prelude.{◌≡◌, ◌&&◌, ◌==◌, ◌%◌, IfOk, option_map};
ghost use Rattle.ic_base.specs.declared.events.What.TheVariants as whats;
ghost use Rattle.ic_base.specs.declared.messages.ComId.{ComId};
ghost use Rattle.ic_base.specs.declared.scenario.Program.{Program};
ghost use Rattle.def_live.specs.Turns as definition;
ghost use Rattle.def_live.specs.Turns.{if_does, would_do, flushes, RESEND_EVERY};
ghost use Rattle.def_run.specs.Executions.{first_of};
ghost use Rattle.def_step.specs.Pcom.{Emits, Forces, Resends};
ghost use Rattle.def_step.specs.World.{Runs};
ghost use Rattle.ic_node.specs.Views.{node_of, com_of};
ghost use Rattle.ic_pcom.specs.Views.{component_of};
ghost use Rattle.ic_turn.specs.Choices.{choice_of, next_of};
ghost use Rattle.ic_turn.specs.Progresses.{left_of, turns_of};

use crate::choice::Choice;
use crate::progress::Progress;
use ic_base::{Event, Packet, What};
use ic_disk::Disk;
use ic_node::{Component, Node};
use ic_pcom::Pcom;
use std::alloc::{AllocError, Global};

/// Whether an input of the list would be missed as busy or replaying, and so stays at its head.
fn must_wait<D: Disk>(x: &Component<D>, event: &Event) -> bool
    ensures { result ≡ definition.must_wait (node_of x.now) event.now }
{
    match event.what {
        What::Input(_, _, _) => x.is_replaying() || x.in_hand(),
        _ => false,
    }
}

/// The next event of the list, if its turn has come.
fn listed<D: Disk>(x: &Component<D>, progress: &Progress) -> Option<Event>
    ensures { result ≡ definition.listed (node_of x.now) (left_of progress.now) }
{
    match progress.next() {
        Some(event) => {
            if must_wait(x, &event) {
                None
            } else {
                Some(event)
            }
        }
        None => None,
    }
}

/// Whether a Pcom would put something out again.
fn would_resend<D: Disk>(alloc: Global, pcom: &Pcom<D>) -> Result<bool, AllocError>
    ensures { IfOk result (λ does. (program : Program) (c : ComId) → does ≡ would_do program c (Runs (component_of pcom.now)) Resends) }
{
    // Where it is closed its component is over, and no turn is made.
    if pcom.is_closed() {
        return Err(AllocError);
    }
    let told = pcom.resend(alloc)?;
    Ok(told.puts.len() != 0)
}

/// Whether a Resend is asked for at the turn of this number, and would do something.
fn resends<D: Disk>(alloc: Global, x: &Component<D>, number: u64) -> Result<bool, AllocError>
    ensures { IfOk result (λ does. (program : Program) → does ≡ ((number % RESEND_EVERY == 0) && would_do program (com_of x.now) (node_of x.now) Resends)) }
{
    if number % 64 != 0 {
        return Ok(false);
    }
    match x.node() {
        Node::Per(pcom) => would_resend(alloc, pcom),
        _ => Ok(false),
    }
}

/// The first that would do something of an Emit and a Force.
fn quick<D: Disk>(x: &Component<D>) -> Option<What>
    ensures { (program : Program) → result ≡ first_of (if_does program (com_of x.now) (node_of x.now) Emits (whats.Emit (com_of x.now))) (if_does program (com_of x.now) (node_of x.now) Forces (whats.Force (com_of x.now))) }
{
    if x.has_due() {
        Some(What::Emit(x.com()))
    } else if 0 < x.buffered() {
        Some(What::Force(x.com()))
    } else {
        None
    }
}

/// The event of a turn at which nothing is asked for, brought or listed.
fn unasked<D: Disk>(
    alloc: Global,
    x: &Component<D>,
    number: u64,
) -> Result<Option<What>, AllocError>
    ensures { IfOk result (λ what. (program : Program) → what ≡ definition.unasked program (com_of x.now) (node_of x.now) number) }
{
    if resends(alloc, x, number)? {
        return Ok(Some(What::Resend(x.com())));
    }
    Ok(quick(x))
}

/// The event that the rule gives, on what the policy asks for and what was brought (docs/RULES.md, "Live runs").
pub fn choose<D: Disk>(
    alloc: Global,
    x: &Component<D>,
    progress: &Progress,
    asked: Option<What>,
    came: Option<Packet>,
) -> Result<Option<Choice>, AllocError>
    ensures { IfOk result (λ choice. (program : Program) → option_map choice_of choice ≡ next_of program (com_of x.now) (node_of x.now) (turns_of progress.now) (left_of progress.now) asked came) }
{
    if let Some(what) = asked {
        return Ok(Some(Choice::Unlisted(what)));
    }
    if let Some(packet) = came {
        return Ok(Some(Choice::Brings(packet)));
    }
    if let Some(event) = listed(x, progress) {
        return Ok(Some(Choice::Lists(event)));
    }
    match unasked(alloc, x, progress.turns)? {
        Some(what) => Ok(Some(Choice::Unlisted(what))),
        None => Ok(None),
    }
}

/// The event of a flush: a Force where it would do something.
pub fn flush_choice<D: Disk>(x: &Component<D>) -> Option<Choice>
    ensures { (program : Program) → option_map choice_of result ≡ option_map definition.Unlisted (flushes program (com_of x.now) (node_of x.now)) }
{
    if x.buffered() == 0 {
        return None;
    }
    Some(Choice::Unlisted(What::Force(x.com())))
}
