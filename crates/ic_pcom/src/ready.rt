ghost use Rattle.std.specs.Prelude.{◌≡◌, ◌||◌, true, [], length, IfErr, IfOk};
ghost use Rattle.def_state.specs.Vol.{Vol, numbers_fit};
ghost use Rattle.def_step.specs.Pcom as step;
ghost use Rattle.ic_ckpt.specs.Views.{seen};
ghost use Rattle.ic_replay.specs.Applying.{receipts_of, sends_of};
ghost use Rattle.ic_pcom.specs.Deciding.{MayFollow, IsReady};
ghost use Rattle.ic_pcom.specs.Readying.{IsReadied, FailsToReady};
ghost use Rattle.ic_pcom.specs.Telling.{drops_behind};
ghost use Rattle.ic_pcom.specs.declared.plan.Plan.TheVariants.{Adds, AddsNone};

use crate::Effects;
use crate::counted::are_counted;
use crate::plan::Plan;
use crate::telling::{Outgoing, with_room};
use ic_base::{ComId, Items, Packet, Played, Record, Records};
use ic_ckpt::State;
use ic_gate::StepRefused;
use ic_replay::{Prepared, keeps_limits};
use ic_txn::Txn;
use std::alloc::Global;
use std::mem;

/// A planned step once all memory is there that it takes behind its commit.
#[derive(Drop)]
pub(crate) struct Ready {
    /// The plan, without its records and its answers.
    pub(crate) plan: Plan,
    /// The answers, with room for all else that it may put out.
    pub(crate) puts: Vec<Packet>,
    /// Whether it comes to a new request, or to the end of a part.
    pub(crate) came: bool,
    /// Whether the log is forced.
    pub(crate) forces: bool,
}

/// How many messages are sent, where a handler ends.
fn sends(prepared: &Prepared) -> usize
    ensures { result ≡ length (sends_of prepared.now.played) }
{
    match &prepared.played {
        Some(Played::Ends(_, sends, _)) => sends.len(),
        _ => 0,
    }
}

/// How many receipts a record adds.
fn receipts(stored: &Record) -> usize
    ensures { result ≡ receipts_of stored.now }
{
    match stored {
        Record::Take { .. } | Record::TakeWhole { .. } => 1,
        _ => 0,
    }
}

/// Whether a Drop is owed behind a record.
fn drops(stored: &Record, state: &State) -> bool
    ensures { result ≡ drops_behind (seen state.now) stored.now }
{
    match stored {
        Record::Outcome { .. } => true,
        _ => state.owes_drop,
    }
}

/// The place of the request or the Commit that is pending, 0 where none is.
fn place(com: ComId, txn: Txn) -> u16
    ensures { result ≡ step.place_of txn.stage }
{
    match txn.pending(com, 0) {
        Some(Packet::Op { place, .. }) => place,
        Some(Packet::Commit { place, .. }) => place,
        _ => 0,
    }
}

/// Whether a step came to a new request or to the end of a part, and whether it is to be forced: where it asks for that, for
/// the first request of a transaction, and for a Commit (docs/RULES.md, "Forcing").
fn came(com: ComId, before: Txn, txn: Txn, forces: bool) -> (bool, bool)
    ensures came { (v w : Vol) → v.txn ≡ before → w.txn ≡ txn → result.0 ≡ (step.came_to_first v w || step.came_further v w) }
    ensures must { (v w : Vol) → v.txn ≡ before → w.txn ≡ txn → result.1 ≡ (forces || step.must_force v w) }
{
    let first = before.begun() < txn.begun();
    let further = place(com, before) < place(com, txn);
    (
        first || further,
        forces || first || (further && txn.is_committing()),
    )
}

/// Makes a step ready that adds records, over a log that is forced up to here: no number passes its limit, and there is room for all that it leads to.
fn ready_to_add(
    alloc: Global,
    com: ComId,
    forced: u64,
    decided: Effects,
    prepared: Prepared,
    state: &mut State,
) -> Result<(Records, Ready), StepRefused>
    requires limits { numbers_fit (seen state.old) ≡ true }
    requires ready { IsReady (seen state.old) decided }
    ensures same { seen state.new ≡ seen state.old }
    ensures ready { IfOk result (λ r. IsReadied «com» forced (seen state.old) (Adds decided prepared) state.new r.0 r.1) }
    ensures refused { IfErr result (FailsToReady «com» (seen state.old) (Adds decided prepared)) }
{
    let mut decided = decided;
    let adds = mem::replace(&mut decided.adds, Items::new(alloc));
    let answers = mem::replace(&mut decided.answers, Items::new(alloc));
    let stored = &adds.as_slice()[adds.len() - 1];
    if !keeps_limits(state, stored, &prepared) {
        return Err(StepRefused::Full);
    }
    if !are_counted(adds.as_slice()) {
        return Err(StepRefused::Memory);
    }
    let txn = prepared.txn_behind(stored, state);
    let (came, forces) = came(com, state.txn, txn, decided.forces);
    let outgoing = Outgoing {
        covers: decided.covers,
        forces,
        forced,
        receipts: receipts(stored),
        messages: sends(&prepared),
        drops: drops(stored, state),
        came,
    };
    let Ok(puts) = with_room(answers, state, outgoing) else {
        return Err(StepRefused::Memory);
    };
    let Ok(()) = prepared.reserve(stored, state) else {
        return Err(StepRefused::Memory);
    };
    let plan = Plan::Adds(decided, prepared);
    Ok((
        adds,
        Ready {
            plan,
            puts,
            came,
            forces,
        },
    ))
}

/// Makes a step ready that adds no record, over a log that is forced up to here.
fn ready_alone(
    alloc: Global,
    com: ComId,
    forced: u64,
    decided: Effects,
    state: &State,
) -> Result<(Records, Ready), StepRefused>
    requires none { decided.adds ≡ [] }
    requires limits { numbers_fit (seen state.now) ≡ true }
    ensures ready { IfOk result (λ r. IsReadied «com» forced (seen state.now) (AddsNone decided) state.now r.0 r.1) }
    ensures refused { IfErr result (FailsToReady «com» (seen state.now) (AddsNone decided)) }
{
    let mut decided = decided;
    let adds = mem::replace(&mut decided.adds, Items::new(alloc));
    let answers = mem::replace(&mut decided.answers, Items::new(alloc));
    let (came, forces) = came(com, state.txn, state.txn, decided.forces);
    let outgoing = Outgoing {
        covers: decided.covers,
        forces,
        forced,
        receipts: 0,
        messages: 0,
        drops: state.owes_drop,
        came,
    };
    let Ok(puts) = with_room(answers, state, outgoing) else {
        return Err(StepRefused::Memory);
    };
    let plan = Plan::AddsNone(decided);
    Ok((
        adds,
        Ready {
            plan,
            puts,
            came,
            forces,
        },
    ))
}

/// Makes a planned step ready, over a log that is forced up to here: its records, and what is done behind them. It makes no device call, and changes nothing that is
/// seen. Full comes where a number would pass its limit.
pub(crate) fn make_ready(
    alloc: Global,
    com: ComId,
    forced: u64,
    plan: Plan,
    state: &mut State,
) -> Result<(Records, Ready), StepRefused>
    requires limits { numbers_fit (seen state.old) ≡ true }
    requires may { MayFollow (seen state.old) plan }
    ensures same { seen state.new ≡ seen state.old }
    ensures ready { IfOk result (λ r. IsReadied «com» forced (seen state.old) plan state.new r.0 r.1) }
    ensures refused { IfErr result (FailsToReady «com» (seen state.old) plan) }
{
    match plan {
        Plan::Adds(decided, prepared) => ready_to_add(alloc, com, forced, decided, prepared, state),
        Plan::AddsNone(decided) => ready_alone(alloc, com, forced, decided, state),
    }
}
