ghost use Rattle.std.specs.Prelude.{◌≡◌, false, length, option_map};
ghost use Rattle.std.specs.Vec.{vec_capacity};
ghost use Rattle.def_state.specs.Positions.{end_of};
ghost use Rattle.def_step.specs.Pcom as step;
ghost use Rattle.ic_ckpt.specs.Views.{seen};
ghost use Rattle.ic_pcom.specs.Effects.{effects_of, identity_of};
ghost use Rattle.ic_pcom.specs.Carrying.{last_in, marked_in, put_with, up};
ghost use Rattle.ic_pcom.specs.Landing.{HasPacketRoom, MayLand, Lands, landed, covered_if, effects_in, answering};

use crate::plan::Plan;
use crate::ready::Ready;
use crate::step::Step;
use crate::telling::told;
use crate::{Effects, put_out};
use ic_base::{ComId, Packet, Record};
use ic_ckpt::State;
use ic_replay::apply;
use std::alloc::Global;

/// A message of its own is known to be stable from now on, where a step says so.
fn mark(state: &mut State, marks: Option<(ComId, u64)>)
    ensures { seen state.new ≡ marked_in (option_map identity_of marks) (seen state.old) }
{
    if let Some((to, k)) = marks {
        state.outbox.stable(to, k);
    }
}

/// Does to the state what was planned: the last record is applied, which ends at this position; where none was added, a message
/// is marked.
fn enter(
    alloc: Global,
    com: ComId,
    at: u64,
    records: &[Record],
    plan: Plan,
    state: &mut State,
) -> Effects
    requires may { MayLand «com» at state.old (last_in records.now) plan }
    ensures state { seen state.new ≡ landed «com» at (seen state.old) records.now plan }
    ensures rest { effects_of result ≡ effects_in plan }
{
    match plan {
        Plan::Adds(decided, prepared) => {
            apply(alloc, com, at, &records[records.len() - 1], prepared, state);
            decided
        }
        Plan::AddsNone(decided) => {
            mark(state, decided.marks);
            decided
        }
    }
}

/// Covers every receipt, where a step asks for that, over a log that ends here.
fn cover_if(end: u64, state: &mut State, is: bool)
    ensures { seen state.new ≡ covered_if is end (seen state.old) }
{
    if is {
        state.inbox.cover(end);
    }
}

/// Puts out what may leave now, unless the step is a quiet one, over a log that is forced up to here. It takes no memory.
fn put_if(
    com: ComId,
    came: bool,
    forced: u64,
    state: &mut State,
    decided: &Effects,
    puts: &mut Vec<Packet>,
)
    requires room { HasPacketRoom false came forced (length puts.old.items) (vec_capacity puts.old) (seen state.old) }
    ensures state { (log : step.Log) → end_of log.forced ≡ forced → up log (seen state.new) ≡ (put_with «com» came (answering (effects_of decided.now) puts.old.items) (up log (seen state.old))).pcom }
    ensures puts { (log : step.Log) → end_of log.forced ≡ forced → puts.new.items ≡ (put_with «com» came (answering (effects_of decided.now) puts.old.items) (up log (seen state.old))).puts }
{
    if decided.is_quiet {
        return;
    }
    put_out(com, state, forced, came, puts);
}

/// What a step does behind its commit, over a log whose records end here and are forced up to there: the state is changed as it
/// was prepared, a checkpoint covers the receipts, and what may leave is put out (docs/RULES.md, "Putting out"). It takes no
/// memory.
pub(crate) fn land(
    alloc: Global,
    com: ComId,
    records: &[Record],
    end: u64,
    forced: u64,
    ready: Ready,
    state: &mut State,
) -> Step
    requires may { MayLand «com» end state.old (last_in records.now) ready.plan }
    requires room { HasPacketRoom (effects_in ready.plan).covers ready.came forced (length ready.puts.items) (vec_capacity ready.puts) (landed «com» end (seen state.old) records.now ready.plan) }
    ensures lands { (log : step.Log) → end_of (step.all_of log) ≡ end → end_of log.forced ≡ forced → Lands «com» ready.came (answering (effects_in ready.plan) ready.puts.items) log (landed «com» end (seen state.old) records.now ready.plan) (seen state.new) result }
{
    let Ready {
        plan,
        puts,
        came,
        ..
    } = ready;
    let mut puts = puts;
    let decided = enter(alloc, com, end, records, plan, state);
    cover_if(end, state, decided.covers);
    put_if(com, came, forced, state, &decided, &mut puts);
    told(decided.word, puts, decided.shown, decided.aborted)
}
