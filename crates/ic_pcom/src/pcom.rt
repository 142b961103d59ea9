ghost use Rattle.std.specs.Prelude.{◌≡◌, ◌+◌, ◌≤◌, true, false, is_ok, length};
ghost use Rattle.std.specs.Coded.{Coded-set, coded_list, coded_ℕ};
ghost use Rattle.std.proofs.Props.{props};
ghost use Rattle.def_log.specs.Images.{LeavesJust};
ghost use Rattle.def_state.specs.Vol.{numbers_fit};
ghost use Rattle.def_step.specs.Room.{is_empty};
ghost use Rattle.ic_gate.specs.Logs as logs;
ghost use Rattle.ic_gate.specs.RecordFiles.{placed_from, records_from};
ghost use Rattle.ic_gate.specs.RecordLogs as records;
ghost use Rattle.ic_pcom.specs.Logs.{places_read};
ghost use Rattle.ic_pcom.specs.Stages.{HasPeers, vol_of, rest_of, is_up, places_in, AreReplayed, ArePlayed};

use crate::recovering::stand;
use crate::stage::Stage;
use crate::step::Step;
use crate::{Restored, restore};
use ic_base::{ComId, Program, Steps};
use ic_ckpt::State;
use ic_disk::Disk;
use ic_gate::{EncodedRecords, LoadRefused, LoadWhy, Log, RecordLog};
use std::alloc::Global;
use std::sync::ledger::Ledger;

/// A component that is deterministic between its inputs, over its log (docs/RULES.md). It is up, or it replays its log until
/// it has each message that it took by identity.
#[derive(Drop)]
pub struct Pcom<D: Disk> {
    pub(crate) com: ComId,
    /// Its records, over its log from where that begins.
    pub(crate) log: RecordLog<D>,
    pub(crate) stage: Stage,
    /// How many records were played since it was recovered.
    pub(crate) played: u64,
    /// Whether it makes no further step, since its disk failed or stopped, or its log is bad.
    pub(crate) closed: bool,
    // While it is open a crash leaves just what a read gives. Crates above may rely on it.
    pub ghost durable: { D.keeps (records.disk_of log) → closed ≡ false → LeavesJust (D.may_leave (records.disk_of log)) (D.seen (records.disk_of log)) } by { Prim.hlevel props },
    // While it is open nothing waits for a sync.
    pub ghost settled: { closed ≡ false → D.settled (records.disk_of log) ≡ true } by { Prim.hlevel props },
    ghost opened: { closed ≡ false → records.is_closed log ≡ false } by { Prim.hlevel props },
    ghost placed: { D.tells (records.disk_of log) → closed ≡ false → is_up stage ≡ false → places_read (placed_from (records.start_of log) (D.seen (records.disk_of log))) ≡ places_in stage } by { Prim.hlevel (props, Coded-set (coded_list coded_ℕ)) },
    ghost limits: { numbers_fit (vol_of stage) ≡ true } by { Prim.hlevel props },
    ghost peers: { HasPeers (vol_of stage) } by { Prim.hlevel props },
    ghost rests: { is_up stage ≡ is_empty (rest_of stage) } by { Prim.hlevel props },
    ghost replays: { is_up stage ≡ false → AreReplayed «com».0 (records.records_of log) stage } by { Prim.hlevel props },
    ghost counted: { is_up stage ≡ false → ArePlayed played (records.records_of log) stage } by { Prim.hlevel props },
}

impl<D: Disk> Pcom<D> {
    ghost use Rattle.std.specs.Prelude.{◌≡◌, ◌+◌, ◌≤◌, [], false, is_ok, length, IfOk, IfErr, Ok};
    ghost use Rattle.def_log.specs.Frame.{frame_of};
    ghost use Rattle.ic_disk.specs.Disk.{Keeps, CrashLeaves, Makes};
    ghost use Rattle.ic_gate.specs.Calls.{IsFault};
    ghost use Rattle.ic_gate.specs.Reading.{tail_calls};
    ghost use Rattle.ic_pcom.specs.Views.{component_of, disk_of, start_of, is_closed, played_of, disk_left, IsSamePcom};
    ghost use Rattle.ic_pcom.specs.Starting.{Starts, IsForMemory};
    ghost use Rattle.ic_pcom.specs.Recovering.{ComesUp, RefusesToComeUp, to_play_in};

    /// A component at its declared values, over a log without a record.
    pub fn fresh(
        alloc: Global,
        program: &Program,
        com: ComId,
        log: Log<D>,
    ) -> Result<Pcom<D>, LoadRefused<D>>
        requires open { logs.is_closed log ≡ false }
        requires alone { logs.buffered_of log ≡ [] }
        requires none { logs.forced_of log ≡ 0 }
        requires blank { D.tells (logs.disk_of log) → frame_of (D.seen (logs.disk_of log)) ≡ Ok [] }
        ensures step { IfOk result (Starts program.now «com» log) }
        ensures refused { IfErr result (IsForMemory log) }
    {
        match State::first(alloc, program, com) {
            Ok(state) => Ok(Pcom {
                com,
                log: RecordLog::new(log, EncodedRecords::new(alloc)),
                stage: Stage::Up(state),
                played: 0,
                closed: false,
            }),
            Err(_) => Err(LoadRefused {
                disk: log.into_disk(),
                why: LoadWhy::Memory,
            }),
        }
    }

    /// The component that its log on a disk stands for: the log's header and its tail are read, and the records behind its last
    /// checkpoint are played until one waits for the content of the message that it takes by identity. It is up, or puts out a
    /// Fetch of that message (docs/RULES.md, "Recover"). What stands before the tail isn't looked at.
    pub fn recover<L: Ledger>(
        alloc: Global,
        program: &Program,
        com: ComId,
        disk: D,
        fingerprint: &[u8; 32],
        steps: &mut Steps<L>,
    ) -> Result<(Pcom<D>, Step), LoadRefused<D>>
        ensures step { IfOk result (λ up. ComesUp D.Disk program.now «com» disk fingerprint.now up.0 up.1) }
        ensures disk { Keeps D.Disk disk (disk_left result) }
        // It writes nothing, so a crash leaves nothing more.
        ensures crash { CrashLeaves D.Disk disk (disk_left result) (D.may_leave disk) }
        ensures calls { Makes D.Disk tail_calls (is_ok result) (IsFault result) disk (disk_left result) }
        ensures refused { IfErr result (λ refused. RefusesToComeUp D.Disk program.now «com» disk fingerprint.now refused.disk refused.why) }
        ensures steps { IfOk result (λ up. steps.new ≡ steps.old + played_of up.0) }
        ensures bound { D.tells disk → steps.new ≤ steps.old + to_play_in (D.seen disk) }
        ensures stopped { IfErr result (λ refused. refused.why ≡ LoadWhy.Stopped → steps.new ≡ steps.old) }
    {
        let restored = restore(alloc, program, com, disk, fingerprint, steps)?;
        let Restored {
            log,
            places,
            replay,
        } = restored;
        let played = replay.played();
        match stand(alloc, com, places, replay) {
            Ok((stage, records, told)) => {
                let up = Pcom {
                    com,
                    log: RecordLog::new(log, records),
                    stage,
                    played,
                    closed: false,
                };
                Ok((up, told))
            }
            Err(_) => Err(LoadRefused {
                disk: log.into_disk(),
                why: LoadWhy::Memory,
            }),
        }
    }

    /// Its disk. Nothing else outlives a crash.
    pub fn crash(self) -> D
        ensures disk { result ≡ disk_of self }
        ensures log { D.tells (disk_of self) → is_closed self ≡ false → records_from (start_of self) (D.seen (disk_of self)) ≡ Ok (component_of self).log.forced }
    {
        self.log.into_disk()
    }

    /// Its disk, with the records that stand there from where its log begins.
    pub fn crash_with_records(self) -> (D, EncodedRecords)
        ensures disk { result.0 ≡ disk_of self }
        ensures records { result.1 ≡ (component_of self).log.forced }
        ensures log { D.tells (disk_of self) → is_closed self ≡ false → records_from (start_of self) (D.seen (disk_of self)) ≡ Ok result.1 }
    {
        self.log.into_parts()
    }

    /// Drops the bytes of its records: those of a replay stay until it ends. From then on they can't be read.
    pub fn drop_bytes(&mut self)
        ensures same { IsSamePcom self.old self.new }
        ensures disk { disk_of self.new ≡ disk_of self.old }
    {
        self.log.drop_bytes();
    }
}
