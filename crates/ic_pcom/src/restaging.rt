ghost use Rattle.std.specs.Prelude.{◌≡◌, ◌+◌, ◌≤◌, [], false, true, length, Some, None, IfErr, OnOk};
ghost use Rattle.std.specs.Vec.{vec_capacity};
ghost use Rattle.def_state.specs.Positions.{end_of};
ghost use Rattle.def_state.specs.Vol.{numbers_fit};
ghost use Rattle.def_step.specs.Pcom as step;
ghost use Rattle.ic_ckpt.specs.Views.{seen};
ghost use Rattle.ic_pcom.specs.Restaging.{IsFed, FailsToBeFed, Rises, RisesTo};
ghost use Rattle.ic_pcom.specs.Stages.{HasPeers, is_up, vol_of, rest_of, places_in, before_of, played_in};

use crate::recovering::fed_to;
use crate::stage::Stage;
use crate::step::Step;
use ic_base::{ComId, Items, Msg, Packet, Program, Steps};
use ic_ckpt::State;
use ic_edge::Shelf;
use ic_in::Inbox;
use ic_out::Outbox;
use ic_replay::ReplayRefused;
use ic_txn::Txn;
use std::alloc::Global;
use std::mem;
use std::sync::ledger::Ledger;

/// A state that holds nothing. It stands for one that is taken out.
fn empty_state(alloc: Global) -> State
    ensures limits { numbers_fit (seen result) ≡ true }
    ensures peers { HasPeers (seen result) }
{
    State {
        vars: Items::new(alloc),
        clock: 0,
        outbox: Outbox::new(alloc),
        inbox: Inbox::new(alloc),
        shelf: Shelf::new(alloc),
        txn: Txn::new(),
        hand: None,
        answers: Items::new(alloc),
        ended_at: 0,
        owes_drop: false,
    }
}

/// Plays the record that waits with its message, and those behind it until one waits. A misfit is told by its place in the
/// file, and nothing is then left of the replay; want of memory tells none, and changes nothing.
pub(crate) fn feed<L: Ledger>(
    alloc: Global,
    program: &Program,
    stage: &mut Stage,
    msg: Msg,
    steps: &mut Steps<L>,
) -> Result<(), Option<u64>>
    requires replays { is_up stage.old ≡ false }
    requires needed { step.needed (rest_of stage.old) ≡ Some (record { peer = msg.from; k = msg.k }) }
    requires places { before_of stage.old + length (rest_of stage.old) ≤ length (places_in stage.old) }
    ensures fed { OnOk result (IsFed program.now msg stage.old stage.new) }
    ensures refused { IfErr result (FailsToBeFed program.now msg stage.old stage.new) }
    ensures steps { OnOk result (steps.new + played_in stage.old ≡ steps.old + played_in stage.new) }
    ensures bound { steps.new ≤ steps.old + length (rest_of stage.old) }
{
    let Stage::Replays(places, replay) = stage else {
        unreachable!()
    };
    match replay.feed(alloc, program, msg, steps) {
        Ok(()) => Ok(()),
        Err(ReplayRefused::Memory) => Err(None),
        Err(ReplayRefused::Misfit(i)) => {
            let place = u64::from(places.as_slice()[i]);
            *stage = Stage::Up(empty_state(alloc));
            Err(Some(place))
        }
    }
}

/// What a component becomes once its replay is fed, and what is told of that: one that is finished is up, and tells its
/// receipts. The log is forced up to here. It takes no memory.
pub(crate) fn rise(
    alloc: Global,
    com: ComId,
    forced: u64,
    stage: &mut Stage,
    puts: Vec<Packet>,
) -> Step
    requires replays { is_up stage.old ≡ false }
    requires waits { step.needed (rest_of stage.old) ≡ None → rest_of stage.old ≡ [] }
    requires limits { numbers_fit (vol_of stage.old) ≡ true }
    requires peers { HasPeers (vol_of stage.old) }
    requires empty { puts.items ≡ [] }
    requires room { length (vol_of stage.old).inbox.receipts ≤ vec_capacity puts }
    ensures stage { (log : step.Log) → end_of log.forced ≡ forced → Rises stage.old stage.new }
    ensures told { (log : step.Log) → end_of log.forced ≡ forced → RisesTo «com» log stage.old stage.new result }
{
    let old = mem::replace(stage, Stage::Up(empty_state(alloc)));
    let Stage::Replays(places, replay) = old else {
        unreachable!()
    };
    let (new, told) = fed_to(com, forced, places, replay, puts);
    *stage = new;
    told
}
