ghost use Rattle.std.specs.Prelude.{◌≡◌, ℕ, ◌+◌, ◌≤◌, ◌||◌, cond, IfOk, IfSome, length, filter, map, option_map, option_to_list};
ghost use Rattle.std.specs.Vec.{vec_capacity};
ghost use Rattle.ic_base.specs.declared.messages.Packet.TheVariants.{Data};
ghost use Rattle.def_state.specs.Outbox.{is_due};
ghost use Rattle.def_step.specs.Pcom as step;
ghost use Rattle.ic_ckpt.specs.Views.{seen};
ghost use Rattle.ic_pcom.specs.Effects.{kind_of};
ghost use Rattle.ic_replay.specs.Replaying.{identity_of};
ghost use Rattle.ic_pcom.specs.Landing.{may_tell, MayReach};
ghost use Rattle.ic_pcom.specs.Telling.{HasRoomFor, most_packets};
ghost use Rattle.ic_pcom.specs.Views.{is_used, told_of, told_nothing};

use crate::StepKind;
use crate::step::Step;
use ic_base::{AbortCause, ComId, Items, Msg, Output, Packet, Packets};
use ic_ckpt::State;
use ic_in::Inbox;
use ic_out::Outbox;
use std::alloc::{AllocError, Global};

/// What tells how much a step may put out behind its answers.
#[derive(Clone, Copy)]
pub(crate) struct Outgoing {
    /// Whether all receipts are covered.
    pub(crate) covers: bool,
    /// Whether the log is forced.
    pub(crate) forces: bool,
    /// How far it is forced before that.
    pub(crate) forced: u64,
    /// How many receipts are added.
    pub(crate) receipts: usize,
    /// How many messages are added.
    pub(crate) messages: usize,
    /// Whether a Drop is owed then.
    pub(crate) drops: bool,
    /// Whether the step came to a new request, or to the end of a part.
    pub(crate) came: bool,
}

impl Step {
    /// Nothing is told.
    pub(crate) fn nothing(alloc: Global) -> Step
        ensures { result ≡ told_nothing }
    {
        Step {
            puts: Items::new(alloc),
            took: false,
            fed: false,
            used: false,
            busy: false,
            shown: None,
            aborted: None,
        }
    }
}

/// Whether a step changed something or put something out.
fn is_used(word: StepKind, puts: &[Packet]) -> bool
    ensures { result ≡ is_used (kind_of word) puts.now }
{
    match word {
        StepKind::Took | StepKind::Fed | StepKind::Busy => false,
        StepKind::Changed => true,
        StepKind::Same => !puts.is_empty(),
    }
}

/// What is told of a step.
pub(crate) fn told(
    word: StepKind,
    puts: Vec<Packet>,
    shown: Option<Output>,
    aborted: Option<(u64, AbortCause)>,
) -> Step
    ensures { (p : step.Pcom) → result ≡ told_of (record { pcom = p; puts = puts.items; word = kind_of word; shown = shown; aborted = aborted }) }
{
    let used = is_used(word, puts.as_slice());
    Step {
        puts: Items::from_vec(puts),
        took: word == StepKind::Took,
        fed: word == StepKind::Fed,
        used,
        busy: word == StepKind::Busy,
        shown,
        aborted,
    }
}

/// The answers of a step, with room for all else that it may put out.
pub(crate) fn with_room(
    answers: Packets,
    state: &State,
    outgoing: Outgoing,
) -> Result<Vec<Packet>, AllocError>
    ensures answers { IfOk result (λ puts. puts.items ≡ answers) }
    ensures room { IfOk result (λ puts. (forced : ℕ) → MayReach outgoing.forces outgoing.forced forced → HasRoomFor outgoing forced (length answers) (vec_capacity puts) (seen state.now)) }
{
    let mut puts = answers.into_vec();
    let Some(n) = packet_room(state, outgoing) else {
        return Err(AllocError);
    };
    puts.reserve_exact(n)?;
    Ok(puts)
}

/// No more of the receipts than this may have something to tell behind a step.
fn most_told(inbox: &Inbox, outgoing: Outgoing) -> usize
    ensures { (forced : ℕ) → MayReach outgoing.forces outgoing.forced forced → length (may_tell outgoing.covers forced inbox.now.seen.receipts) ≤ result }
{
    if outgoing.covers {
        inbox.len()
    } else if outgoing.forces {
        inbox.left_to_tell()
    } else {
        inbox.left_loud(outgoing.forced)
    }
}

/// No more of the messages than this may be due behind a step.
fn most_put(outbox: &Outbox, outgoing: Outgoing) -> usize
    ensures { (forced : ℕ) → MayReach outgoing.forces outgoing.forced forced → length (filter (is_due forced) outbox.now.seen.held) ≤ result }
{
    if outgoing.forces {
        outbox.left_to_put()
    } else {
        outbox.left_due(outgoing.forced)
    }
}

/// How many of the receipts that are added may have something to tell: none where the log isn't forced up to them.
fn added_told(outgoing: Outgoing) -> usize
    ensures { result ≡ cond (outgoing.covers || outgoing.forces) outgoing.receipts 0 }
{
    if outgoing.covers || outgoing.forces {
        outgoing.receipts
    } else {
        0
    }
}

/// How many of the messages that are added may be due: none where the log isn't forced up to them.
fn added_put(outgoing: Outgoing) -> usize
    ensures { result ≡ cond outgoing.forces outgoing.messages 0 }
{
    if outgoing.forces {
        outgoing.messages
    } else {
        0
    }
}

/// No more packets than this may a step put out beside its answers.
fn packet_room(state: &State, outgoing: Outgoing) -> Option<usize>
    ensures { IfSome result (λ n. (forced : ℕ) → MayReach outgoing.forces outgoing.forced forced → most_packets outgoing forced (seen state.now) ≤ n) }
{
    let receipts = most_told(&state.inbox, outgoing).checked_add(added_told(outgoing))?;
    let messages = most_put(&state.outbox, outgoing).checked_add(added_put(outgoing))?;
    let others = usize::from(outgoing.drops) + usize::from(outgoing.came);
    receipts.checked_add(messages)?.checked_add(others)
}

/// The Fetch of the message that a replay needs.
pub(crate) fn fetches(
    alloc: Global,
    com: ComId,
    needs: Option<(ComId, u64)>,
) -> Result<Vec<Packet>, AllocError>
    ensures { IfOk result (λ puts. puts.items ≡ map (step.fetch_packet «com») (option_to_list (option_map identity_of needs))) }
{
    let mut puts = Vec::new(alloc);
    if let Some((to, k)) = needs {
        puts.push(Packet::Fetch { from: com, to, k })?;
    }
    Ok(puts)
}

/// A message that a packet asks for, where there is one.
pub(crate) fn found(alloc: Global, msg: Option<Msg>) -> Result<Vec<Packet>, AllocError>
    ensures { IfOk result (λ puts. puts.items ≡ map Data (option_to_list msg)) }
{
    let mut puts = Vec::new(alloc);
    if let Some(msg) = msg {
        puts.push(Packet::Data(msg))?;
    }
    Ok(puts)
}
