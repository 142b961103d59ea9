ghost use Rattle.std.specs.Prelude.{◌≡◌, ◌≤◌, true, false, List, length, cond, IfOk};
ghost use Rattle.ic_base.specs.declared.limits.TheConstants.{COMPONENTS};
ghost use Rattle.ic_base.specs.declared.record.Record.{Record};
ghost use Rattle.def_step.specs.Replay.{has_image};
ghost use Rattle.def_step.specs.World.{Runs};
ghost use Rattle.law_tail.specs.Wholes.{with_earlier};
ghost use Rattle.ic_pcom.specs.Views.{component_of, com_of, disk_of, is_closed, told_nothing};
ghost use Rattle.ic_node.specs.Answering.{before_of, fate_told, answer_by, told_by};
ghost use Rattle.ic_node.specs.Calling.{call_of};
ghost use Rattle.ic_node.specs.PcomStep.{as_packets, as_step, or_memory, IsMade};
ghost use Rattle.ic_node.specs.Steps.{HasForced, StepsOver, Counts};

use crate::done::{Call, Done};
use ic_base::{Answer, Fate, Items, Program, Steps};
use ic_disk::Disk;
use ic_gate::StepRefused;
use ic_pcom::{InputAnswer, PacketRefused, Pcom, Step, packet_refusal};
use std::alloc::{AllocError, Global};
use std::sync::ledger::Ledger;

/// What an answer needs of a Pcom before its step.
#[derive(Clone, Copy, Debug)]
pub(crate) struct Before {
    pub replays: bool,
    pub in_hand: bool,
    /// Nothing waits for the next force.
    pub idle: bool,
}

/// How a Pcom stands before its step.
fn standing<D: Disk>(pcom: &Pcom<D>) -> Before
    ensures { result ≡ before_of (component_of pcom.now) }
{
    Before {
        replays: pcom.is_replaying(),
        in_hand: pcom.in_hand(),
        idle: pcom.buffered() == 0,
    }
}

/// What became of a packet.
fn fate(told: &Step) -> Fate
    ensures { result ≡ fate_told told.now }
{
    if told.took {
        Fate::Taken
    } else if told.fed {
        Fate::Fed
    } else if told.busy {
        Fate::Busy
    } else if told.used {
        Fate::Used
    } else {
        Fate::Ignored
    }
}

/// The answer where nothing is done for a reason, or a call is done.
fn unless(first: bool, one: Answer, second: bool, two: Answer, three: Answer) -> Answer
    ensures { result ≡ cond first one (cond second two three) }
{
    if first {
        one
    } else if second {
        two
    } else {
        three
    }
}

/// The answer of a Pcom to a call.
fn answer(before: Before, number: u32, call: &Call, told: &Step) -> Answer
    ensures { result ≡ answer_by before number (call_of call.now) told.now }
{
    match *call {
        Call::Gives(_, _) => unless(
            before.replays,
            Answer::MissedReplaying,
            before.in_hand,
            Answer::MissedBusy,
            Answer::Taken,
        ),
        Call::Gets(p) => Answer::Packet(number, p, fate(told)),
        Call::Forces => unless(
            false,
            Answer::Idle,
            before.idle,
            Answer::Idle,
            Answer::Ended,
        ),
        Call::Checkpoints => unless(
            before.replays,
            Answer::Replaying,
            before.in_hand,
            Answer::Busy,
            Answer::Ended,
        ),
        Call::Resends => unless(
            false,
            Answer::Idle,
            told.puts.len() == 0,
            Answer::Idle,
            Answer::Ended,
        ),
        Call::Emits => unless(
            before.replays,
            Answer::Replaying,
            told.shown.is_some(),
            Answer::Ended,
            Answer::Idle,
        ),
    }
}

/// What is told of a call that its Pcom did.
fn done(before: Before, number: u32, call: &Call, told: Step, played: u64) -> Done
    ensures { result ≡ told_by before number (call_of call.now) told played }
{
    let answer = answer(before, number, call, &told);
    Done {
        answer,
        puts: told.puts,
        shown: told.shown,
        aborted: told.aborted,
        played,
    }
}
/// What is told of a step that does nothing.
fn nothing(alloc: Global) -> Step
    ensures { result ≡ told_nothing }
{
    Step {
        puts: Items::new(alloc),
        took: false,
        fed: false,
        used: false,
        busy: false,
        shown: None,
        aborted: None,
    }
}

/// A step that is made or refused, as one of a packet.
fn of_packet(made: Result<Step, StepRefused>) -> Result<Step, PacketRefused>
    ensures { result ≡ as_packets made }
{
    match made {
        Ok(told) => Ok(told),
        Err(why) => Err(packet_refusal(why)),
    }
}

/// What is told of an input; of one that is missed, nothing.
fn of_input(alloc: Global, answered: Result<InputAnswer, StepRefused>) -> Result<Step, StepRefused>
    ensures { result ≡ as_step answered }
{
    match answered {
        Ok(InputAnswer::Taken(told)) => Ok(told),
        Ok(InputAnswer::NotTaken(_)) => Ok(nothing(alloc)),
        Err(why) => Err(why),
    }
}

/// A step that wants memory alone.
fn of_memory(made: Result<Step, AllocError>) -> Result<Step, StepRefused>
    ensures { result ≡ or_memory made }
{
    match made {
        Ok(told) => Ok(told),
        Err(_) => Err(StepRefused::Memory),
    }
}

/// Makes a call on a Pcom.
fn stepped<D: Disk, L: Ledger>(
    pcom: &mut Pcom<D>,
    alloc: Global,
    program: &Program,
    call: &Call,
    steps: &mut Steps<L>,
) -> Result<Step, PacketRefused>
    requires open { is_closed pcom.old ≡ false }
    requires few { length program.now.components ≤ COMPONENTS }
    ensures { IsMade program.now pcom.old (call_of call.now) pcom.new steps.old steps.new result }
{
    match *call {
        Call::Gives(handler, args) => {
            of_packet(of_input(alloc, pcom.input(alloc, program, handler, args)))
        }
        Call::Gets(p) => pcom.on_packet(alloc, program, &p, steps),
        Call::Forces => of_packet(pcom.force(alloc)),
        Call::Checkpoints => of_packet(pcom.checkpoint(alloc)),
        Call::Resends => of_packet(of_memory(pcom.resend(alloc))),
        Call::Emits => of_packet(pcom.emit(alloc)),
    }
}

/// Makes a call on a Pcom, and tells what it comes to.
pub(crate) fn pcom_step<D: Disk, L: Ledger>(
    pcom: &mut Pcom<D>,
    alloc: Global,
    program: &Program,
    number: u32,
    call: &Call,
    steps: &mut Steps<L>,
) -> Result<Done, PacketRefused>
    requires open { is_closed pcom.old ≡ false }
    requires few { length program.now.components ≤ COMPONENTS }
    // The records before its own are any that its file has there.
    ensures step { (earlier : List Record) → HasForced D.Disk (Runs (with_earlier earlier (component_of pcom.old))) (disk_of pcom.old)
        → StepsOver D.Disk program.now (com_of pcom.old) (Runs (with_earlier earlier (component_of pcom.old))) (disk_of pcom.old) number (call_of call.now) (Runs (with_earlier earlier (component_of pcom.new))) (disk_of pcom.new) result }
    ensures up { IfOk result (λ done. (is_closed pcom.new ≡ false) × (com_of pcom.new ≡ com_of pcom.old) × (has_image (component_of pcom.old).log.forced ≡ true → has_image (component_of pcom.new).log.forced ≡ true)) }
    ensures steps { Counts steps.old steps.new (Runs (component_of pcom.old)) (Runs (component_of pcom.new)) result }
{
    let before = standing(pcom);
    let so_far = pcom.played();
    match stepped(pcom, alloc, program, call, steps) {
        Ok(told) => {
            let played = pcom.played() - so_far;
            Ok(done(before, number, call, told, played))
        }
        Err(why) => Err(why),
    }
}
