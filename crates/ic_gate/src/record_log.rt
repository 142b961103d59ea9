ghost use Rattle.std.specs.Prelude.{◌≡◌, ◌+◌, ◌≤◌, false, true, is_ok, length, take, drop};
ghost use Rattle.std.specs.Coded.{Coded-set, coded_list, coded_ℕ};
ghost use Rattle.std.specs.List.{AllByRecursion};
ghost use Rattle.std.proofs.Props.{props};
ghost use Rattle.def_log.specs.Images.{LeavesJust};
ghost use Rattle.def_log.specs.Spelling.{spellings, Fits};
ghost use Rattle.def_state.specs.Positions.{end_of};
ghost use Rattle.def_step.specs.Replay.{behind_checkpoint};
ghost use Rattle.ic_gate.specs.Logs as logs;
ghost use Rattle.ic_gate.specs.RecordFiles.{records_from, read_or_none, refusal_of};

use crate::records::passed_over;
use crate::spelled::SpelledRecords;
use crate::{AppendRefused, EncodedRecords, ForceRefused, Log, StepRefused};
use ic_base::{Record, Stop};
use ic_disk::{Disk, TornDisk};
use std::alloc::Global;
use std::mem;

/// The records of a component over its log (docs/FORMATS.md, "The log"), from where the log begins: those that stand in the file, and
/// those that wait for the next force, which makes them one batch. What stands in the file before them is kept as it is.
#[derive(Drop)]
pub struct RecordLog<D: Disk> {
    log: Log<D>,
    /// All records, in order: those that stand in the file, then those that wait.
    records: EncodedRecords,
    /// How many stand in the file.
    forced: usize,
    /// How many there are up to the last checkpoint, it included.
    passed: usize,
    pub ghost on_disk: { D.tells (logs.disk_of log) → logs.is_closed log ≡ false → read_or_none (records_from (logs.start_of log) (D.seen (logs.disk_of log))) ≡ take forced records } by { Prim.hlevel (props, Coded-set records-code) },
    pub ghost whole: { D.tells (logs.disk_of log) → logs.is_closed log ≡ false → is_ok (records_from (logs.start_of log) (D.seen (logs.disk_of log))) ≡ true } by { Prim.hlevel props },
    // While it is open a crash leaves just what a read gives. Crates above may rely on it.
    pub ghost durable: { D.keeps (logs.disk_of log) → logs.is_closed log ≡ false → LeavesJust (D.may_leave (logs.disk_of log)) (D.seen (logs.disk_of log)) } by { Prim.hlevel props },
    // While it is open nothing waits for a sync.
    pub ghost settled: { logs.is_closed log ≡ false → D.settled (logs.disk_of log) ≡ true } by { Prim.hlevel props },
    ghost waiting: { logs.buffered_of log ≡ spellings (drop forced records) } by { Prim.hlevel (props, Coded-set (coded_list coded_ℕ)) },
    ghost fitting: { ∥ AllByRecursion Fits (drop forced records) ∥₁ },
    ghost few: { forced ≤ length records },
    ghost ended: { logs.forced_of log ≡ end_of (take forced records) } by { Prim.hlevel props },
    ghost counted: { passed + length (behind_checkpoint records) ≡ length records } by { Prim.hlevel props },
}

impl<D: Disk> RecordLog<D> {
    ghost use Rattle.std.specs.Prelude.{◌≡◌, [], ℕ, false, true, is_ok, is_some, length, Ok, Err, Some, IfErr, OnOk, unwrap_or};
    ghost use Rattle.std.specs.List.{AllByRecursion};
    ghost use Rattle.def_log.specs.Gated.{mark_writes};
    ghost use Rattle.def_log.specs.Sizes.{size_in};
    ghost use Rattle.def_log.specs.Spelling.{spellings};
    ghost use Rattle.def_step.specs.Pcom.{all_of};
    ghost use Rattle.def_step.specs.Replay.{behind_checkpoint};
    ghost use Rattle.ic_disk.specs.Disk.{Keeps, Rests, CrashLeaves, Makes};
    ghost use Rattle.ic_gate.specs.Calls.{gated_calls, force_writes};
    ghost use Rattle.ic_wire.specs.Placed.{IsCounted};
    ghost use Rattle.ic_gate.specs.RecordFiles.{IsBeforeOrBehindFrom};
    ghost use Rattle.ic_gate.specs.RecordLogs.{records_of, disk_of, start_of, size_of, used_of, is_closed, IsSameLog};
    ghost use Rattle.ic_gate.specs.RecordCalls.{IsOver, Appends, StaysWhere, FailsToAppend, record_writes, IsMarkedOrNot, WritesBatch, Marks, Forces, KeepsFile, FailsToForce};
    ghost use Rattle.ic_gate.specs.RecordCommits.{Commits, KeepsBytes, FailsToCommit, batch_of};

    /// A log with the records that it holds from its beginning on.
    pub fn new(log: Log<D>, records: EncodedRecords) -> RecordLog<D>
        requires open { logs.is_closed log ≡ false }
        requires alone { logs.buffered_of log ≡ [] }
        requires ended { logs.forced_of log ≡ end_of records }
        requires read { D.tells (logs.disk_of log) → records_from (logs.start_of log) (D.seen (logs.disk_of log)) ≡ Ok records }
        ensures { IsOver log records result }
    {
        let forced = records.len();
        let passed = forced - records.count_behind();
        RecordLog {
            log,
            records,
            forced,
            passed,
        }
    }

    /// Adds records to those that the next force makes a batch, and makes room on the disk for that force. Full comes where
    /// the file would then pass its limit (docs/RULES.md, "Limits"). A refusal changes nothing.
    pub fn append(&mut self, alloc: Global, adds: &[Record]) -> Result<(), StepRefused>
        requires open { is_closed self.old ≡ false }
        requires counted { AllByRecursion IsCounted adds.now }
        ensures step { OnOk result (Appends self.old adds.now self.new) }
        ensures log { StaysWhere self.old self.new }
        ensures disk { Rests D.Disk (disk_of self.old) (disk_of self.new) }
        ensures crash { CrashLeaves D.Disk (disk_of self.old) (disk_of self.new) (D.may_leave (disk_of self.old)) }
        ensures refused { IfErr result (FailsToAppend self.old adds.now self.new) }
    {
        if adds.is_empty() {
            return Ok(());
        }
        let before = self.records.len();
        let Ok(more) = SpelledRecords::of(alloc, adds) else {
            return Err(StepRefused::Memory);
        };
        let Ok(()) = self.records.extend(alloc, adds, &more) else {
            return Err(StepRefused::Memory);
        };
        match self.log.append(alloc, more.bytes()) {
            Ok(()) => {
                self.passed = passed_over(adds, self.records.len(), self.passed);
                Ok(())
            }
            Err(why) => {
                let all = mem::replace(&mut self.records, EncodedRecords::new(alloc));
                self.records = all.first(before);
                Err(refusal(why))
            }
        }
    }

    // Makes what waits a batch that stands in the file.
    fn write_batch(&mut self) -> Result<(), StepRefused>
        requires open { is_closed self.old ≡ false }
        ensures step { OnOk result (WritesBatch self.old self.new) }
        ensures log { KeepsFile self.old self.new }
        ensures disk { Keeps D.Disk (disk_of self.old) (disk_of self.new) }
        // A crash at each moment of the call leaves the old records, or these and all that waited.
        ensures crash { CrashLeaves D.Disk (disk_of self.old) (disk_of self.new) (IsBeforeOrBehindFrom (start_of self.old) (D.seen (disk_of self.old)) (records_of self.old).forced (records_of self.old).buffered) }
        ensures calls { Makes D.Disk (gated_calls (force_writes (size_of self.old) (spellings (records_of self.old).buffered))) (is_ok result) (result ≡ Err StepRefused.Failed) (disk_of self.old) (disk_of self.new) }
        ensures refused { IfErr result (FailsToForce self.old self.new) }
    {
        match self.log.force() {
            Ok(()) => {
                self.forced = self.records.len();
                Ok(())
            }
            Err(ForceRefused::Failed) => Err(StepRefused::Failed),
            Err(ForceRefused::Stopped) => Err(StepRefused::Stopped),
            Err(ForceRefused::Closed) => unreachable!(),
        }
    }

    // Marks the batch that was forced last.
    fn mark_batch(&mut self) -> Result<(), StepRefused>
        requires open { is_closed self.old ≡ false }
        requires last { is_some (logs.last_of self.old.log) ≡ true }
        ensures step { OnOk result (Marks self.old self.new) }
        ensures start { start_of self.new ≡ start_of self.old }
        ensures marked { D.tells (disk_of self.old) → is_closed self.new ≡ false → IsMarkedOrNot self.old (D.seen (disk_of self.new)) }
        ensures disk { Keeps D.Disk (disk_of self.old) (disk_of self.new) }
        ensures crash { CrashLeaves D.Disk (disk_of self.old) (disk_of self.new) (IsMarkedOrNot self.old) }
        ensures calls { Makes D.Disk (gated_calls (mark_writes (used_of self.old) (unwrap_or (logs.last_of self.old.log) 0))) (is_ok result) (result ≡ Err StepRefused.Failed) (disk_of self.old) (disk_of self.new) }
        ensures refused { IfErr result (FailsToForce self.old self.new) }
    {
        match self.log.mark() {
            Ok(()) => Ok(()),
            Err(ForceRefused::Failed) => Err(StepRefused::Failed),
            Err(ForceRefused::Stopped) => Err(StepRefused::Stopped),
            Err(ForceRefused::Closed) => unreachable!(),
        }
    }

    /// Makes what waits a batch that stands in the file, and marks it where it ends with a checkpoint and a slot is free. It takes no
    /// memory. Failed and Stopped close it.
    pub fn force(&mut self) -> Result<(), StepRefused>
        requires open { is_closed self.old ≡ false }
        ensures step { OnOk result (Forces self.old self.new) }
        ensures log { KeepsFile self.old self.new }
        ensures disk { Keeps D.Disk (disk_of self.old) (disk_of self.new) }
        // A crash at each moment of the call leaves the old records, or these and all that waited.
        ensures crash { CrashLeaves D.Disk (disk_of self.old) (disk_of self.new) (IsBeforeOrBehindFrom (start_of self.old) (D.seen (disk_of self.old)) (records_of self.old).forced (records_of self.old).buffered) }
        ensures calls { Makes D.Disk (gated_calls (record_writes (size_of self.old) (used_of self.old) (records_of self.old).buffered)) (is_ok result) (result ≡ Err StepRefused.Failed) (disk_of self.old) (disk_of self.new) }
        ensures refused { IfErr result (FailsToForce self.old self.new) }
    {
        let ends = self.records.end_with_checkpoint(self.forced);
        match self.write_batch() {
            Ok(()) => { if ends { self.mark_batch() } else { Ok(()) } }
            Err(why) => Err(why),
        }
    }

    /// Adds records, and forces all that waits where that is asked for. All memory is taken before the first device call; Full
    /// and Memory change nothing. Failed and Stopped close it.
    pub fn commit(
        &mut self,
        alloc: Global,
        adds: &[Record],
        forces: bool,
    ) -> Result<(), StepRefused>
        requires open { is_closed self.old ≡ false }
        requires counted { AllByRecursion IsCounted adds.now }
        ensures step { OnOk result (Commits self.old adds.now forces self.new) }
        ensures log { KeepsBytes self.old (batch_of self.old adds.now forces) self.new }
        ensures disk { Keeps D.Disk (disk_of self.old) (disk_of self.new) }
        // A crash at each moment of the call leaves the old records, or these and the batch.
        ensures crash { CrashLeaves D.Disk (disk_of self.old) (disk_of self.new) (IsBeforeOrBehindFrom (start_of self.old) (D.seen (disk_of self.old)) (records_of self.old).forced (batch_of self.old adds.now forces)) }
        ensures calls { Makes D.Disk (gated_calls (record_writes (size_of self.old) (used_of self.old) (batch_of self.old adds.now forces))) (is_ok result) (result ≡ Err StepRefused.Failed) (disk_of self.old) (disk_of self.new) }
        ensures refused { IfErr result (FailsToCommit self.old adds.now self.new) }
    {
        match self.append(alloc, adds) {
            Ok(()) => { if forces { self.force() } else { Ok(()) } }
            Err(why) => Err(why),
        }
    }

    /// Drops the bytes of its records (`EncodedRecords::drop_bytes`).
    pub fn drop_bytes(&mut self)
        ensures same { IsSameLog self.old self.new }
        ensures disk { disk_of self.new ≡ disk_of self.old }
    {
        self.records.drop_bytes();
    }

    /// All records, in order.
    pub fn records(&self) -> &EncodedRecords
        ensures { result.now ≡ all_of (records_of self.now) }
    {
        &self.records
    }

    /// How many records stand in the file.
    pub fn forced(&self) -> usize
        ensures { result ≡ length (records_of self.now).forced }
    {
        self.forced
    }

    /// How many records wait for the next force.
    pub fn buffered(&self) -> usize
        ensures { result ≡ length (records_of self.now).buffered }
    {
        self.records.len() - self.forced
    }

    /// How many records are behind the last checkpoint.
    pub fn since_checkpoint(&self) -> usize
        ensures { result ≡ length (behind_checkpoint (all_of (records_of self.now))) }
    {
        self.records.len() - self.passed
    }

    /// The position behind the records that stand in the file.
    pub fn forced_end(&self) -> u64
        ensures { result ≡ end_of (records_of self.now).forced }
    {
        self.log.forced()
    }

    /// The position behind all records.
    pub fn end(&self) -> u64
        ensures { result ≡ end_of (all_of (records_of self.now)) }
    {
        self.log.end()
    }

    /// How many bytes of the file are the log.
    pub fn size(&self) -> u64
        ensures value { result ≡ size_of self.now }
        ensures of_file { D.tells (disk_of self.now) → is_closed self.now ≡ false → (size : ℕ) →
            size_in (D.seen (disk_of self.now)) ≡ Some size → size ≡ result }
    {
        self.log.size()
    }

    /// Whether it takes nothing more, since its disk failed or stopped.
    pub fn is_closed(&self) -> bool
        ensures { result ≡ is_closed self.now }
    {
        self.log.is_closed()
    }

    /// Its disk, with the records that stand there. What waits for a force is lost.
    pub fn into_parts(self) -> (D, EncodedRecords)
        ensures disk { result.0 ≡ disk_of self }
        ensures records { result.1 ≡ (records_of self).forced }
    {
        (self.log.into_disk(), self.records.first(self.forced))
    }

    /// Its disk. What waits for a force is lost.
    pub fn into_disk(self) -> D
        ensures { result ≡ disk_of self }
    {
        self.log.into_disk()
    }
}

impl<D: Disk> RecordLog<TornDisk<D>> {
    ghost use Rattle.std.specs.Prelude.{◌≡◌, Some, None};
    ghost use Rattle.ic_disk.specs.TornDisks.{is_reached};
    ghost use Rattle.ic_disk.specs.Armings.{set_by};
    ghost use Rattle.ic_gate.specs.RecordLogs.{disk_of, IsSameLog};

    /// Sets a stop of the log's disk. Its device calls are counted from 1 from here on.
    pub fn arm(&mut self, stop: Stop)
        ensures disk { disk_of self.new ≡ record (disk_of self.old) { script = Some (set_by stop) } }
        ensures same { IsSameLog self.old self.new }
    {
        self.log.arm(stop);
    }

    /// Takes the stop of the log's disk away, and tells whether it was reached.
    pub fn disarm(&mut self) -> bool
        ensures reached { result ≡ is_reached (disk_of self.old).script }
        ensures disk { disk_of self.new ≡ record (disk_of self.old) { script = None } }
        ensures same { IsSameLog self.old self.new }
    {
        self.log.disarm()
    }
}

/// What a refusal of the log is here; it isn't closed.
pub(crate) fn refusal(why: AppendRefused) -> StepRefused
    requires { ¬ (why ≡ AppendRefused.Closed) }
    ensures { result ≡ refusal_of why }
{
    match why {
        AppendRefused::Closed => unreachable!(),
        AppendRefused::Full => StepRefused::Full,
        AppendRefused::Memory => StepRefused::Memory,
    }
}
