ghost use Rattle.std.specs.Prelude.{◌≡◌, true, IfOk, IfErr};
ghost use Rattle.std.specs.List.{AllByRecursion};
ghost use Rattle.std.specs.Coded.{Coded-set};
ghost use Rattle.std.proofs.Props.{props};
ghost use Rattle.def_two.specs.Chief as chief;
ghost use Rattle.def_two.specs.Logs.{records2_in};
ghost use Rattle.def_two.specs.Refusals.{chief_misfit};
ghost use Rattle.def_two.specs.contracts.states.Docket.{the_row as docket_row};
ghost use Rattle.ic_moves.specs.Chiefs as cores;
ghost use Rattle.ic_moves.specs.Chiefs.{openings_of, docket_of, AreCounted};
ghost use Rattle.ic_gate.specs.Logs as logs;
ghost use Rattle.ic_two.specs.Reading.{PlacedFits2};
ghost use Rattle.ic_two.specs.Replays.{FailsToPlay};
ghost use Rattle.ic_two.specs.Views as views;

use crate::RecordLog2;
use crate::loading::{load_records, without_places};
use crate::reading::PlacedRecords2;
use crate::replay::chief_behind;
use def_two::{Asks, Books, Move, Packet2, Record2, Records2, Ruling};
use ic_base::Items;
use ic_base::limits::GREATEST_NUMBER;
use ic_disk::Disk;
use ic_gate::{LoadRefused, LoadWhy, Log, StepRefused};
use ic_moves::{ChiefCore, News};
use std::alloc::{AllocError, Global};

/// The chief, the coordinator of moves, over its log. What its log doesn't give is only what it heard in its present life, and each
/// step adds at most one record.
#[derive(Drop)]
pub struct Chief<D: Disk> {
    core: ChiefCore,
    pub(crate) log: RecordLog2<D>,
    ghost state: { docket_of core ≡ chief.docket_of (views.records_of log) } by { Prim.hlevel (props, Coded-set docket_row.coded) },
    ghost counted: { AreCounted core } by { Prim.hlevel props },
}

/// The chief of these books behind the records of its log, and the records alone.
fn played(
    alloc: Global,
    books: &Books,
    placed: PlacedRecords2,
) -> Result<(ChiefCore, Records2), LoadWhy>
    requires fit { AllByRecursion PlacedFits2 placed }
    ensures docket { IfOk result (λ c. docket_of c.0 ≡ chief.docket_of (records2_in placed)) }
    ensures good { IfOk result (λ c. chief.is_chief_log (openings_of books.now) (records2_in placed) ≡ true) }
    ensures heard { IfOk result (λ c. cores.heard_of c.0 ≡ chief.nothing_heard) }
    ensures counted { IfOk result (λ c. AreCounted c.0) }
    ensures records { IfOk result (λ c. c.1 ≡ records2_in placed) }
    ensures refused { IfErr result (FailsToPlay (chief_misfit (openings_of books.now) chief.first_docket placed)) }
{
    let core = chief_behind(alloc, books, placed.as_slice())?;
    let records = without_places(alloc, placed)?;
    Ok((core, records))
}

impl<D: Disk> Chief<D> {
    ghost use Rattle.std.specs.Prelude.{◌≡◌, ◌+◌, [], true, false, is_ok, length, Some, Ok, Err, IfOk, IfErr, OnOk, OnErr};
    ghost use Rattle.def_log.specs.Frame.{frame_of};
    ghost use Rattle.def_two.specs.Chief.{Begins, Hears, Resends};
    ghost use Rattle.def_two.specs.Moves.{is_lawful};
    ghost use Rattle.def_two.specs.Records.{spelling2, IsCounted2};
    ghost use Rattle.ic_gate.specs.Calls.{gated_calls, force_writes};
    ghost use Rattle.ic_disk.specs.Disk.{Keeps, CrashLeaves, Makes};
    ghost use Rattle.ic_moves.specs.Chiefs.{heard_with};
    ghost use Rattle.ic_two.specs.RecordLogs as records;
    ghost use Rattle.ic_two.specs.ChiefLogs.{heard_of, records_of, disk_of, size_of, is_closed, docket_in, Starts, Serves, KeepsLog, FailsToServe, IsBeforeOrServed, step_of, calls_of, HearsOnly, disk_left, ComesUp};
    ghost use Rattle.def_log.specs.Sizes.{size_in};
    ghost use Rattle.ic_two.specs.Loading.{RefusesToComeUp};
    ghost use Rattle.ic_gate.specs.Calls.{IsFault};
    ghost use Rattle.ic_gate.specs.Reading.{load_calls};

    /// A chief over a log without a record.
    pub fn fresh(alloc: Global, log: Log<D>) -> Chief<D>
        requires open { logs.is_closed log ≡ false }
        requires alone { logs.buffered_of log ≡ [] }
        requires blank { D.tells (logs.disk_of log) → frame_of (D.seen (logs.disk_of log)) ≡ Ok [] }
        ensures { Starts log result }
    {
        Chief {
            core: ChiefCore::first(alloc),
            log: RecordLog2::new(log, Items::new(alloc)),
        }
    }

    /// The chief of these books that its log on a disk stands for: the log is read once, and its records are taken in, in order. It
    /// heard nothing yet.
    pub fn recover(
        alloc: Global,
        books: &Books,
        disk: D,
        fingerprint: &[u8; 32],
    ) -> Result<Chief<D>, LoadRefused<D>>
        ensures step { IfOk result (ComesUp D.Disk (openings_of books.now) disk fingerprint.now) }
        ensures disk { Keeps D.Disk disk (disk_left result) }
        // It writes nothing, so a crash leaves nothing more.
        ensures crash { CrashLeaves D.Disk disk (disk_left result) (D.may_leave disk) }
        ensures calls { Makes D.Disk load_calls (is_ok result) (IsFault result) disk (disk_left result) }
        ensures refused { IfErr result (λ refused. RefusesToComeUp D.Disk (chief_misfit (openings_of books.now) chief.first_docket) disk fingerprint.now 0 refused.disk refused.why) }
    {
        let (log, placed) = load_records(alloc, disk, fingerprint, 0)?;
        match played(alloc, books, placed) {
            Ok((core, records)) => Ok(Chief {
                core,
                log: RecordLog2::new(log, records),
            }),
            Err(why) => Err(LoadRefused {
                disk: log.into_disk(),
                why,
            }),
        }
    }

    /// How many moves were begun.
    pub fn begun(&self) -> usize
        ensures { result ≡ length (docket_in self.now).begun }
    {
        self.core.begun.len()
    }

    /// The decision on move n, if there is one.
    pub fn ruling(&self, n: u64) -> Option<Ruling>
        ensures { result ≡ chief.ruling_of (docket_in self.now) n }
    {
        self.core.ruling_of(n)
    }

    /// Whether each begun move is Done by both its books.
    pub fn is_all_done(&self) -> bool
        ensures { result ≡ chief.is_all_done (docket_in self.now) (heard_of self.now) }
    {
        self.core.is_all_done()
    }

    /// Its disk. Nothing else outlives a crash.
    pub fn crash(self) -> D
        ensures { result ≡ disk_of self }
    {
        self.log.into_disk()
    }

    /// Its disk, and the records that it holds.
    pub fn into_parts(self) -> (D, Records2)
        ensures disk { result.0 ≡ disk_of self }
        ensures records { result.1 ≡ records_of self }
    {
        self.log.into_parts()
    }

    /// How many bytes of its file are the log.
    pub fn size(&self) -> u64
        ensures value { result ≡ size_of self.now }
        ensures of_file { D.tells (disk_of self.now) → is_closed self.now ≡ false → size_in (D.seen (disk_of self.now)) ≡ Some result }
    {
        self.log.size()
    }

    /// Whether it makes no further step, since its disk failed or stopped.
    pub fn is_closed(&self) -> bool
        ensures { result ≡ is_closed self.now }
    {
        self.log.is_closed()
    }

    /// Asks each book whose vote on an undecided move isn't known, and sends each decision to the books that haven't answered Done.
    pub fn resend(&self, alloc: Global) -> Result<Asks, AllocError>
        ensures { IfOk result (λ puts. puts ≡ (step_of self.now Resends).puts) }
    {
        self.core.resends(alloc)
    }

    /// Keeps what was heard. Want of memory changes nothing.
    fn note(&mut self, news: News) -> Result<(), StepRefused>
        ensures heard { OnOk result (HearsOnly self.old (heard_with (heard_of self.old) news) self.new) }
        ensures same { IfErr result (λ why. (why ≡ StepRefused.Memory) × HearsOnly self.old (heard_of self.old) self.new) }
    {
        if self.core.reserve().is_err() {
            return Err(StepRefused::Memory);
        }
        self.core.hear(news);
        Ok(())
    }

    /// Adds the next record of its log, forces it and takes it in, and then keeps what was heard.
    fn add(&mut self, alloc: Global, r: Record2, news: News) -> Result<(), StepRefused>
        requires open { is_closed self.old ≡ false }
        requires counted { IsCounted2 r }
        ensures step { OnOk result (records.AddsRecord self.old.log r self.new.log) }
        ensures heard { OnOk result (heard_of self.new ≡ heard_with (heard_of self.old) news) }
        ensures same { OnErr result (heard_of self.new ≡ heard_of self.old) }
        ensures disk { Keeps D.Disk (disk_of self.old) (disk_of self.new) }
        ensures crash { CrashLeaves D.Disk (disk_of self.old) (disk_of self.new) (records.IsBeforeOrBehind (D.seen (disk_of self.old)) (records_of self.old) r) }
        ensures calls { Makes D.Disk (gated_calls (force_writes (size_of self.old) (spelling2 r))) (is_ok result) (result ≡ Err StepRefused.Failed) (disk_of self.old) (disk_of self.new) }
        ensures refused { IfErr result (records.FailsToAddRecord self.old.log r self.new.log) }
    {
        if self.core.reserve().is_err() {
            return Err(StepRefused::Memory);
        }
        match self.log.commit(alloc, r) {
            Ok(()) => {
                self.core.enter(r);
                self.core.hear(news);
                Ok(())
            }
            Err(why) => Err(why),
        }
    }

    /// A move begins: it is recorded, and both its books are asked. Full is also where its number would pass the greatest one.
    pub fn begin(&mut self, alloc: Global, m: Move) -> Result<Asks, StepRefused>
        requires open { is_closed self.old ≡ false }
        requires next { m.n ≡ length (docket_in self.old).begun + 1 }
        requires lawful { is_lawful m ≡ true }
        ensures step { IfOk result (Serves self.old (Begins m) self.new) }
        ensures log { KeepsLog self.old self.new }
        ensures crash { CrashLeaves D.Disk (disk_of self.old) (disk_of self.new) (IsBeforeOrServed self.old (Begins m)) }
        ensures calls { Makes D.Disk (calls_of self.old (Begins m)) (is_ok result) (result ≡ Err StepRefused.Failed) (disk_of self.old) (disk_of self.new) }
        ensures refused { IfErr result (FailsToServe self.old (Begins m) self.new) }
    {
        if m.n > GREATEST_NUMBER {
            return Err(StepRefused::Full);
        }
        match self.core.plan_begin(alloc, m) {
            Err(_) => Err(StepRefused::Memory),
            Ok(plan) => match self.add(alloc, Record2::Begun(m), News::Nothing) {
                Ok(()) => Ok(plan.puts),
                Err(why) => Err(why),
            },
        }
    }

    /// Serves a packet, and answers what is put out. A decision is forced before it is taken in and sent. A packet that isn't a Vote
    /// or a Done on a begun move, from one of its two books, changes nothing and is answered by nothing.
    pub fn on_packet(&mut self, alloc: Global, p: &Packet2) -> Result<Asks, StepRefused>
        requires open { is_closed self.old ≡ false }
        ensures step { IfOk result (Serves self.old (Hears p.now) self.new) }
        ensures log { KeepsLog self.old self.new }
        // A crash at each moment of the call leaves the old records, or these and the decision.
        ensures crash { CrashLeaves D.Disk (disk_of self.old) (disk_of self.new) (IsBeforeOrServed self.old (Hears p.now)) }
        ensures calls { Makes D.Disk (calls_of self.old (Hears p.now)) (is_ok result) (result ≡ Err StepRefused.Failed) (disk_of self.old) (disk_of self.new) }
        ensures refused { IfErr result (FailsToServe self.old (Hears p.now) self.new) }
    {
        match self.core.plan(alloc, *p) {
            Err(_) => Err(StepRefused::Memory),
            Ok(plan) => match plan.adds {
                None => match self.note(plan.news) {
                    Ok(()) => Ok(plan.puts),
                    Err(why) => Err(why),
                },
                Some(r) => match self.add(alloc, r, plan.news) {
                    Ok(()) => Ok(plan.puts),
                    Err(why) => Err(why),
                },
            },
        }
    }
}
