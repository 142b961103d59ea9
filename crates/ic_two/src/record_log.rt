ghost use Rattle.std.specs.Prelude.{◌≡◌, [], true, false, is_ok, Ok};
ghost use Rattle.std.specs.Coded.{Coded-set, coded_list};
ghost use Rattle.std.proofs.Props.{props};
ghost use Rattle.def_log.specs.Images.{LeavesJust};
ghost use Rattle.def_two.specs.Logs.{log2_of};
ghost use Rattle.def_two.specs.contracts.moves.Record2.{the_row};
ghost use Rattle.ic_gate.specs.Logs as logs;
ghost use Rattle.ic_two.specs.Standing.{read_or_none};

use crate::commit::commit;
use crate::spelled::spelled;
use def_two::{Record2, Records2};
use ic_disk::Disk;
use ic_gate::{Log, StepRefused};
use std::alloc::Global;

/// The records of a chief or a book over its log (docs/FORMATS.md, "The log"), each forced as a batch of its own.
#[derive(Drop)]
pub struct RecordLog2<D: Disk> {
    pub(crate) log: Log<D>,
    records: Records2,
    // While it is open its file holds just its records. Crates above may rely on it.
    pub ghost on_disk: { D.tells (logs.disk_of log) → logs.is_closed log ≡ false → read_or_none (log2_of (D.seen (logs.disk_of log))) ≡ records } by { Prim.hlevel (props, Coded-set (coded_list the_row.coded)) },
    pub ghost whole: { D.tells (logs.disk_of log) → logs.is_closed log ≡ false → is_ok (log2_of (D.seen (logs.disk_of log))) ≡ true } by { Prim.hlevel props },
    // While it is open a crash leaves just what a read gives. Crates above may rely on it.
    pub ghost durable: { D.keeps (logs.disk_of log) → logs.is_closed log ≡ false → LeavesJust (D.may_leave (logs.disk_of log)) (D.seen (logs.disk_of log)) } by { Prim.hlevel props },
    // While it is open nothing waits for a sync.
    pub ghost settled: { logs.is_closed log ≡ false → D.settled (logs.disk_of log) ≡ true } by { Prim.hlevel props },
    ghost forced: { logs.is_closed log ≡ false → logs.buffered_of log ≡ [] } by { Prim.hlevel props },
}

impl<D: Disk> RecordLog2<D> {
    ghost use Rattle.std.specs.Prelude.{◌≡◌, [], false, is_ok, Some, Ok, Err, IfErr, OnOk, OnErr};
    ghost use Rattle.def_log.specs.Sizes.{size_in};
    ghost use Rattle.def_two.specs.Records.{spelling2, IsCounted2};
    ghost use Rattle.ic_disk.specs.Disk.{Keeps, CrashLeaves, Makes};
    ghost use Rattle.ic_gate.specs.Calls.{gated_calls, force_writes};
    ghost use Rattle.ic_two.specs.Views.{records_of, disk_of, size_of, is_closed};
    ghost use Rattle.ic_two.specs.RecordLogs.{IsOver, AddsRecord, FailsToAddRecord, IsBeforeOrBehind};

    /// A log with the records that it holds.
    pub(crate) fn new(log: Log<D>, records: Records2) -> RecordLog2<D>
        requires open { logs.is_closed log ≡ false }
        requires alone { logs.buffered_of log ≡ [] }
        requires read { D.tells (logs.disk_of log) → log2_of (D.seen (logs.disk_of log)) ≡ Ok records }
        ensures { IsOver log records result }
    {
        RecordLog2 { log, records }
    }

    /// Adds a record and forces it. All memory is taken before the first device call; Full and Memory change nothing. Failed and
    /// Stopped close it.
    pub(crate) fn commit(&mut self, alloc: Global, r: Record2) -> Result<(), StepRefused>
        requires open { is_closed self.old ≡ false }
        requires counted { IsCounted2 r }
        ensures step { OnOk result (AddsRecord self.old r self.new) }
        ensures disk { Keeps D.Disk (disk_of self.old) (disk_of self.new) }
        // A crash at each moment of the call leaves the old records, or these and the new one.
        ensures crash { CrashLeaves D.Disk (disk_of self.old) (disk_of self.new) (IsBeforeOrBehind (D.seen (disk_of self.old)) (records_of self.old) r) }
        ensures calls { Makes D.Disk (gated_calls (force_writes (size_of self.old) (spelling2 r))) (is_ok result) (result ≡ Err StepRefused.Failed) (disk_of self.old) (disk_of self.new) }
        ensures refused { IfErr result (FailsToAddRecord self.old r self.new) }
        ensures kept { OnErr result (records_of self.new ≡ records_of self.old) }
    {
        let Ok(bytes) = spelled(alloc, r) else {
            return Err(StepRefused::Memory);
        };
        let Ok(()) = self.records.push(r) else {
            return Err(StepRefused::Memory);
        };
        match commit(&mut self.log, alloc, bytes.as_slice()) {
            Ok(()) => Ok(()),
            Err(why) => {
                self.records.pop();
                Err(why)
            }
        }
    }

    /// All records, in order.
    pub fn records(&self) -> &[Record2]
        ensures { result.now ≡ records_of self.now }
    {
        self.records.as_slice()
    }

    /// How many bytes of the file are the log.
    pub fn size(&self) -> u64
        ensures value { result ≡ size_of self.now }
        ensures of_file { D.tells (disk_of self.now) → is_closed self.now ≡ false → size_in (D.seen (disk_of self.now)) ≡ Some result }
    {
        self.log.size()
    }

    /// Whether it takes nothing more, since its disk failed or stopped.
    pub fn is_closed(&self) -> bool
        ensures { result ≡ is_closed self.now }
    {
        self.log.is_closed()
    }

    /// Its disk.
    pub fn into_disk(self) -> D
        ensures { result ≡ disk_of self }
    {
        self.log.into_disk()
    }

    /// Its disk, and all records.
    pub(crate) fn into_parts(self) -> (D, Records2)
        ensures disk { result.0 ≡ disk_of self }
        ensures records { result.1 ≡ records_of self }
    {
        (self.log.into_disk(), self.records)
    }
}
