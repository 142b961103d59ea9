ghost use Rattle.std.specs.Prelude.{◌≡◌, ◌+◌, ◌≤◌, is_ok, IfOk, IfErr, length};
ghost use Rattle.ic_disk.specs.Disk.{Keeps, CrashLeaves, Makes};
ghost use Rattle.ic_gate.specs.Calls.{IsFault};
ghost use Rattle.ic_gate.specs.Reading.{tail_calls};
ghost use Rattle.ic_pcom.specs.Recovering.{to_play_in};
ghost use Rattle.ic_pcom.specs.Restorations.{Restores, RefusesToRestore, disk_left};
ghost use Rattle.std.specs.List.{AllByRecursion};
ghost use Rattle.def_log.specs.Log.{records_in};
ghost use Rattle.def_step.specs.Replay.{behind_checkpoint};
ghost use Rattle.ic_replay.specs.Replaying.{Begins};
ghost use Rattle.ic_wire.specs.Placed.{PlacedFits};
ghost use Rattle.ic_pcom.specs.Places.{places_of};
ghost use Rattle.ic_pcom.specs.Plays.{FailsToPlay};

use ic_base::{ComId, Items, Program, Steps};
use ic_disk::Disk;
use ic_gate::{LoadRefused, LoadWhy, LoadedRecords, Log, load_tail_records};
use ic_replay::{Replay, ReplayRefused};
use std::alloc::Global;
use std::sync::ledger::Ledger;

/// Where records stand in their file: the offset of each one's first byte.
pub type Places = Items<u32>;

/// What a recovery makes of a disk.
#[derive(Drop)]
pub struct Restored<D: Disk> {
    /// The log from its tail on, open, with nothing buffered.
    pub log: Log<D>,
    /// The places of its records. A misfit that a replay meets when it is fed is told by the place of its record.
    pub places: Places,
    /// The replay of its records, which has these.
    pub replay: Replay,
}

/// The log of a persistent component that a disk holds, from its tail on, and the replay of its records, which plays those behind
/// the last checkpoint until one waits for a message (docs/RULES.md, "Recovery"). The header and the tail are loaded once. Each
/// record that is played is one step. Bad tells the place at which the tail's frame is refused, of the first byte that begins
/// no record, of the slot whose batch doesn't end with a checkpoint, or of the first record that is a misfit
/// (docs/FORMATS.md, "Misfits"); Foreign the fingerprint that the log holds.
pub fn restore<D: Disk, L: Ledger>(
    alloc: Global,
    program: &Program,
    com: ComId,
    disk: D,
    fingerprint: &[u8; 32],
    steps: &mut Steps<L>,
) -> Result<Restored<D>, LoadRefused<D>>
    ensures step { IfOk result (Restores D.Disk program.now «com» disk fingerprint.now) }
    ensures disk { Keeps D.Disk disk (disk_left result) }
    // It writes nothing, so a crash leaves nothing more.
    ensures crash { CrashLeaves D.Disk disk (disk_left result) (D.may_leave disk) }
    ensures calls { Makes D.Disk tail_calls (is_ok result) (IsFault result) disk (disk_left result) }
    ensures refused { IfErr result (λ refused. RefusesToRestore D.Disk program.now «com» disk fingerprint.now refused.disk refused.why) }
    ensures played { IfOk result (λ restored. steps.new ≡ steps.old + restored.replay.played) }
    // A load that is stopped plays nothing.
    ensures stopped { IfErr result (λ refused. refused.why ≡ LoadWhy.Stopped → steps.new ≡ steps.old) }
    ensures bound { D.tells disk → steps.new ≤ steps.old + to_play_in (D.seen disk) }
{
    let (log, placed) = load_tail_records(alloc, disk, fingerprint, com.0)?;
    match begin(alloc, program, com, placed, steps) {
        Ok((places, replay)) => Ok(Restored {
            log,
            places,
            replay,
        }),
        Err(why) => Err(LoadRefused {
            disk: log.into_disk(),
            why,
        }),
    }
}

/// Begins the replay of records. A misfit among them is told by its place in the file.
pub fn begin<L: Ledger>(
    alloc: Global,
    program: &Program,
    com: ComId,
    placed: LoadedRecords,
    steps: &mut Steps<L>,
) -> Result<(Places, Replay), LoadWhy>
    requires { AllByRecursion PlacedFits placed }
    ensures places { IfOk result (λ begun. begun.0 ≡ places_of placed) }
    ensures begun { IfOk result (λ begun. Begins program.now «com» (records_in placed) begun.1) }
    ensures played { IfOk result (λ begun. steps.new ≡ steps.old + begun.1.played) }
    ensures bound { steps.new ≤ steps.old + length (behind_checkpoint (records_in placed)) }
    ensures refused { IfErr result (FailsToPlay program.now «com» placed) }
{
    let (places, records) = placed.into_parts();
    match Replay::begin(alloc, program, com, records, steps) {
        Ok(replay) => Ok((places, replay)),
        Err(ReplayRefused::Misfit(i)) => Err(LoadWhy::Bad(u64::from(places.as_slice()[i]))),
        Err(ReplayRefused::Memory) => Err(LoadWhy::Memory),
    }
}
