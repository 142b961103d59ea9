ghost use Rattle.std.specs.Prelude.{◌≡◌, ◌+◌, ◌-◌, ◌≤◌, true, is_ok, length, IfOk, IfErr};
ghost use Rattle.std.specs.List.{AllByRecursion};
ghost use Rattle.def_log.specs.Log.{records_in};
ghost use Rattle.def_standby.specs.Standbys.{contents_among};
ghost use Rattle.def_state.specs.Vol.{numbers_fit};
ghost use Rattle.ic_ckpt.specs.Views.{seen};
ghost use Rattle.ic_disk.specs.Disk.{Keeps, CrashLeaves, Makes};
ghost use Rattle.ic_gate.specs.Calls.{IsFault};
ghost use Rattle.ic_gate.specs.Reading.{load_calls};
ghost use Rattle.ic_wire.specs.Placed.{PlacedFits};
ghost use Rattle.ic_pcom.specs.Adopting.{IsPlayedOn, FailsToPlayOn, Adopts, RefusesToAdopt, disk_kept, behind_in};
ghost use Rattle.ic_pcom.specs.Stages.{HasPeers};
ghost use Rattle.ic_pcom.specs.Views.{played_of};

use crate::Pcom;
use crate::stage::Stage;
use ic_base::{ComId, Msg, Program, Steps};
use ic_ckpt::State;
use ic_disk::Disk;
use ic_gate::{EncodedRecords, LoadRefused, LoadWhy, LoadedRecords, RecordLog, load_records};
use ic_replay::ReplayRefused;
use ic_standby::play_through;
use std::alloc::Global;
use std::sync::ledger::Ledger;

/// Plays the records of a log of this size behind the first `have`, and marks what they regenerated as put out. The records come
/// back.
fn play_on<L: Ledger>(
    alloc: Global,
    program: &Program,
    com: ComId,
    mut state: State,
    have: u64,
    msgs: &[Msg],
    size: u64,
    placed: LoadedRecords,
    steps: &mut Steps<L>,
) -> Result<(State, EncodedRecords), LoadWhy>
    requires fits { AllByRecursion PlacedFits placed }
    requires limits { numbers_fit (seen state) ≡ true }
    ensures played { IfOk result (λ on. IsPlayedOn program.now «com» (contents_among «com» msgs.now) (seen state) have placed (seen on.0) on.1) }
    ensures steps { IfOk result (λ on. steps.new + have ≡ steps.old + length on.1) }
    ensures bound { steps.new ≤ steps.old + (length (records_in placed) - have) }
    ensures refused { IfErr result (FailsToPlayOn program.now «com» (contents_among «com» msgs.now) (seen state) have size placed) }
{
    let (places, records) = placed.into_parts();
    if (records.len() as u64) < have {
        return Err(LoadWhy::Bad(size));
    }
    let played = records.records(alloc)?;
    match play_through(
        alloc,
        program,
        com,
        played.as_slice(),
        have as usize,
        msgs,
        &mut state,
        steps,
    ) {
        Ok(()) => {
            state.outbox.put_all();
            state.owes_drop = false;
            Ok((state, records))
        }
        Err(ReplayRefused::Misfit(i)) => Err(LoadWhy::Bad(u64::from(places.as_slice()[i]))),
        Err(ReplayRefused::Memory) => Err(LoadWhy::Memory),
    }
}

impl<D: Disk> Pcom<D> {
    /// The component as its standby, which has played the first `have` records of its log: the log is read once, and the
    /// records behind these are played on from that state, each that takes a message by identity with that one of `msgs`. It
    /// is up; what is regenerated is put out already, and nothing is told of it. Bad tells as for a recovery, the log's size
    /// where it has fewer records, and the place of a record whose message isn't there.
    pub fn adopt<L: Ledger>(
        alloc: Global,
        program: &Program,
        com: ComId,
        disk: D,
        fingerprint: &[u8; 32],
        state: State,
        have: u64,
        msgs: &[Msg],
        steps: &mut Steps<L>,
    ) -> Result<Pcom<D>, LoadRefused<D>>
        requires limits { numbers_fit (seen state) ≡ true }
        requires peers { HasPeers (seen state) }
        ensures step { IfOk result (Adopts D.Disk program.now «com» disk fingerprint.now (contents_among «com» msgs.now) (seen state) have) }
        ensures disk { Keeps D.Disk disk (disk_kept result) }
        // It writes nothing, so a crash leaves nothing more.
        ensures crash { CrashLeaves D.Disk disk (disk_kept result) (D.may_leave disk) }
        ensures calls { Makes D.Disk load_calls (is_ok result) (IsFault result) disk (disk_kept result) }
        ensures refused { IfErr result (λ refused. RefusesToAdopt D.Disk program.now «com» disk fingerprint.now (contents_among «com» msgs.now) (seen state) have refused.disk refused.why) }
        ensures steps { IfOk result (λ up. steps.new ≡ steps.old + played_of up) }
        ensures bound { D.tells disk → steps.new ≤ steps.old + behind_in have (D.seen disk) }
        ensures stopped { IfErr result (λ refused. refused.why ≡ LoadWhy.Stopped → steps.new ≡ steps.old) }
    {
        let (log, placed) = load_records(alloc, disk, fingerprint, com.0)?;
        let size = log.size();
        match play_on(alloc, program, com, state, have, msgs, size, placed, steps) {
            Ok((state, records)) => {
                let played = records.len() as u64 - have;
                Ok(Pcom {
                    com,
                    log: RecordLog::new(log, records),
                    stage: Stage::Up(state),
                    played,
                    closed: false,
                })
            }
            Err(why) => Err(LoadRefused {
                disk: log.into_disk(),
                why,
            }),
        }
    }
}
