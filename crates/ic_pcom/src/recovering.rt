ghost use Rattle.std.specs.Prelude.{◌≡◌, ◌≤◌, true, [], None, IfOk, length};
ghost use Rattle.std.specs.List.{AllByRecursion};
ghost use Rattle.std.specs.Vec.{vec_capacity};
ghost use Rattle.def_log.specs.Spelling.{Fits};
ghost use Rattle.def_state.specs.Positions.{end_of};
ghost use Rattle.def_state.specs.Vol.{numbers_fit};
ghost use Rattle.def_step.specs.Pcom as step;
ghost use Rattle.ic_pcom.specs.Stages.{HasPeers};
ghost use Rattle.ic_pcom.specs.Standing.{IsStageOf, Stands, IsFedTo};
ghost use Rattle.ic_pcom.specs.Views.{told_of};

use crate::stage::Stage;
use crate::step::Step;
use crate::telling::{fetches, told};
use crate::{Places, StepKind, put_out};
use ic_base::{ComId, Packet};
use ic_gate::EncodedRecords;
use ic_replay::Replay;
use std::alloc::{AllocError, Global};

/// The records of a replay that is begun, and where its component stands: one that is finished gives its state, one that waits
/// puts out the Fetch of its message.
pub(crate) fn stand(
    alloc: Global,
    com: ComId,
    places: Places,
    replay: Replay,
) -> Result<(Stage, EncodedRecords, Step), AllocError>
    requires fit { AllByRecursion Fits replay.records }
    requires peers { HasPeers replay.playing.vol }
    ensures stage { IfOk result (λ stood. IsStageOf places replay stood.0) }
    ensures stands { IfOk result (λ stood. Stands replay stood.0) }
    ensures records { IfOk result (λ stood. stood.1 ≡ replay.records) }
    ensures told { IfOk result (λ stood. (p : step.Pcom) → stood.2 ≡ told_of (step.told p (step.needed_fetch «com» replay.playing.rest) step.nothing_at_all)) }
{
    let puts = fetches(alloc, com, replay.needs())?;
    let told = told(StepKind::Same, puts, None, None);
    if replay.needs().is_some() {
        let records = replay.records().copy(alloc)?;
        return Ok((Stage::Replays(places, replay), records, told));
    }
    let (state, records) = replay.finish();
    Ok((Stage::Up(state), records, told))
}

/// Where a component stands once its replay is fed, and what is told of that: one that is finished tells its receipts. The
/// log is forced up to here. It takes no memory.
pub(crate) fn fed_to(
    com: ComId,
    forced: u64,
    places: Places,
    replay: Replay,
    puts: Vec<Packet>,
) -> (Stage, Step)
    requires waits { step.needed replay.playing.rest ≡ None → replay.playing.rest ≡ [] }
    requires limits { numbers_fit replay.playing.vol ≡ true }
    requires peers { HasPeers replay.playing.vol }
    requires empty { puts.items ≡ [] }
    requires room { length replay.playing.vol.inbox.receipts ≤ vec_capacity puts }
    ensures stage { (log : step.Log) → end_of log.forced ≡ forced → IsStageOf places replay result.0 }
    ensures fed { IsFedTo «com» forced replay result.0 }
    ensures told { (log : step.Log) → end_of log.forced ≡ forced → result.1 ≡ told_of (step.fed «com» (step.stands_at log replay.playing)) }
{
    if replay.needs().is_some() {
        let told = told(StepKind::Fed, puts, None, None);
        return (Stage::Replays(places, replay), told);
    }
    let (state, _) = replay.finish();
    let (mut state, mut puts) = (state, puts);
    put_out(com, &mut state, forced, false, &mut puts);
    (Stage::Up(state), told(StepKind::Fed, puts, None, None))
}
