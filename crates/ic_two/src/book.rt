ghost use Rattle.std.specs.Prelude.{◌≡◌, ◌<◌, ◌^◌, ℕ, true, get_or, IfOk, IfErr};
ghost use Rattle.def_two.specs.Logs.{records2_in};
ghost use Rattle.def_two.specs.Refusals.{book_misfit};
ghost use Rattle.ic_two.specs.Replays.{FailsToPlay};
ghost use Rattle.std.specs.Coded.{Coded-set, coded_list};
ghost use Rattle.std.proofs.Props.{props};
ghost use Rattle.def_two.specs.Book.{first_book, book_of, ready_moves, is_book_log};
ghost use Rattle.def_two.specs.contracts.moves.Move.{the_row as move_row};
ghost use Rattle.def_two.specs.contracts.states.BookState.{the_row as state_row};
ghost use Rattle.ic_moves.specs.Cores.{state_of, IsOfLog};
ghost use Rattle.ic_gate.specs.Logs as logs;
ghost use Rattle.ic_two.specs.Views as views;

use crate::RecordLog2;
use crate::loading::{load_records, without_places};
use crate::reading::PlacedRecords2;
use crate::replay::book_behind;
use def_two::{Amounts, Packet2, Record2, Records2};
use ic_base::Items;
use ic_disk::Disk;
use ic_gate::{LoadRefused, LoadWhy, Log, StepRefused};
use ic_moves::BookCore;
use std::alloc::{AllocError, Global};

/// A book, the participant of moves, over its log. What it holds is what its log gives, and each step adds at most one record.
#[derive(Drop)]
pub struct Book<D: Disk> {
    opening: Amounts,
    core: BookCore,
    pub(crate) log: RecordLog2<D>,
    ghost state: { state_of core ≡ book_of core.number opening (views.records_of log) } by { Prim.hlevel (props, Coded-set state_row.coded) },
    ghost ready: { core.ready.items ≡ ready_moves (book_of core.number opening (views.records_of log)) } by { Prim.hlevel (props, Coded-set (coded_list move_row.coded)) },
    // No record of its log is a misfit. Crates above may rely on it.
    pub ghost good: { is_book_log core.number opening (views.records_of log) ≡ true } by { Prim.hlevel props },
    ghost bounded: { (key : ℕ) → get_or opening key 0 < 2 ^ 64 } by { Prim.hlevel props },
}

/// The book over an empty log, with a copy of its opening values.
fn first(alloc: Global, values: &[u64], number: u8) -> Result<(Amounts, BookCore), AllocError>
    ensures opening { IfOk result (λ b. b.0 ≡ values.now) }
    ensures state { IfOk result (λ b. state_of b.1 ≡ first_book values.now) }
    ensures number { IfOk result (λ b. b.1.number ≡ number) }
    ensures of_log { IfOk result (λ b. IsOfLog b.1) }
{
    let opening = Vec::from_slice(alloc, values)?;
    let core = BookCore::first(alloc, number, values)?;
    Ok((Items::from_vec(opening), core))
}

/// The book behind the records of its log, with a copy of its opening values, and the records alone.
fn played(
    alloc: Global,
    values: &[u64],
    number: u8,
    placed: PlacedRecords2,
) -> Result<(Amounts, BookCore, Records2), LoadWhy>
    ensures opening { IfOk result (λ b. b.0 ≡ values.now) }
    ensures number { IfOk result (λ b. b.1.number ≡ number) }
    ensures state { IfOk result (λ b. state_of b.1 ≡ book_of number values.now (records2_in placed)) }
    ensures good { IfOk result (λ b. is_book_log number values.now (records2_in placed) ≡ true) }
    ensures of_log { IfOk result (λ b. IsOfLog b.1) }
    ensures records { IfOk result (λ b. b.2 ≡ records2_in placed) }
    ensures refused { IfErr result (FailsToPlay (book_misfit number (first_book values.now) placed)) }
{
    let core = book_behind(alloc, values, number, placed.as_slice())?;
    let opening = Vec::from_slice(alloc, values)?;
    let records = without_places(alloc, placed)?;
    Ok((Items::from_vec(opening), core, records))
}

impl<D: Disk> Book<D> {
    ghost use Rattle.std.specs.Prelude.{◌≡◌, [], true, false, is_ok, slice_get, Some, Ok, Err, IfOk, IfErr, OnOk};
    ghost use Rattle.def_log.specs.Frame.{frame_of};
    ghost use Rattle.def_two.specs.Book.{book_fits};
    ghost use Rattle.def_two.specs.Records.{payload2_of, spelling2, IsCounted2};
    ghost use Rattle.ic_disk.specs.Disk.{Keeps, CrashLeaves, Makes};
    ghost use Rattle.ic_gate.specs.Calls.{gated_calls, force_writes};
    ghost use Rattle.ic_two.specs.RecordLogs as records;
    ghost use Rattle.ic_two.specs.Books.{number_of, opening_of, records_of, disk_of, size_of, is_closed, holds, step_of, Starts, IsForMemory, IsSameBook, Serves, KeepsLog, FailsToServe, IsBeforeOrServed, calls_of, disk_left, ComesUp};
    ghost use Rattle.def_log.specs.Sizes.{size_in};
    ghost use Rattle.ic_two.specs.Loading.{RefusesToComeUp};
    ghost use Rattle.ic_gate.specs.Reading.{load_calls};
    ghost use Rattle.ic_gate.specs.Calls.{IsFault};

    /// A book with its opening values, over a log without a record.
    pub fn fresh(
        alloc: Global,
        values: &[u64],
        book: u8,
        log: Log<D>,
    ) -> Result<Book<D>, LoadRefused<D>>
        requires open { logs.is_closed log ≡ false }
        requires alone { logs.buffered_of log ≡ [] }
        requires blank { D.tells (logs.disk_of log) → frame_of (D.seen (logs.disk_of log)) ≡ Ok [] }
        ensures step { IfOk result (Starts values.now book log) }
        ensures refused { IfErr result (IsForMemory log) }
    {
        match first(alloc, values, book) {
            Ok((opening, core)) => Ok(Book {
                opening,
                core,
                log: RecordLog2::new(log, Items::new(alloc)),
            }),
            Err(_) => Err(LoadRefused {
                disk: log.into_disk(),
                why: LoadWhy::Memory,
            }),
        }
    }

    /// The book that its log on a disk stands for: the log is read once, and its records are taken in, in order.
    pub fn recover(
        alloc: Global,
        values: &[u64],
        book: u8,
        disk: D,
        fingerprint: &[u8; 32],
    ) -> Result<Book<D>, LoadRefused<D>>
        ensures step { IfOk result (ComesUp D.Disk values.now book disk fingerprint.now) }
        ensures disk { Keeps D.Disk disk (disk_left result) }
        // It writes nothing, so a crash leaves nothing more.
        ensures crash { CrashLeaves D.Disk disk (disk_left result) (D.may_leave disk) }
        ensures calls { Makes D.Disk load_calls (is_ok result) (IsFault result) disk (disk_left result) }
        ensures refused { IfErr result (λ refused. RefusesToComeUp D.Disk (book_misfit book (first_book values.now)) disk fingerprint.now book refused.disk refused.why) }
    {
        let (log, placed) = load_records(alloc, disk, fingerprint, book)?;
        match played(alloc, values, book, placed) {
            Ok((opening, core, records)) => Ok(Book {
                opening,
                core,
                log: RecordLog2::new(log, records),
            }),
            Err(why) => Err(LoadRefused {
                disk: log.into_disk(),
                why,
            }),
        }
    }

    /// The value of a key; None exactly past the last key.
    pub fn value(&self, key: u16) -> Option<u64>
        ensures { result ≡ slice_get (holds self.now).values key }
    {
        self.core.value(key)
    }

    /// Its disk. Nothing else outlives a crash.
    pub fn crash(self) -> D
        ensures { result ≡ disk_of self }
    {
        self.log.into_disk()
    }

    /// Its disk, and the records that it holds.
    pub fn into_parts(self) -> (D, Records2)
        ensures disk { result.0 ≡ disk_of self }
        ensures records { result.1 ≡ records_of self }
    {
        self.log.into_parts()
    }

    /// How many bytes of its file are the log.
    pub fn size(&self) -> u64
        ensures value { result ≡ size_of self.now }
        ensures of_file { D.tells (disk_of self.now) → is_closed self.now ≡ false → size_in (D.seen (disk_of self.now)) ≡ Some result }
    {
        self.log.size()
    }

    /// Whether it makes no further step, since its disk failed or stopped.
    pub fn is_closed(&self) -> bool
        ensures { result ≡ is_closed self.now }
    {
        self.log.is_closed()
    }

    /// Adds the next record of its log, forces it and takes it in.
    fn add(&mut self, alloc: Global, r: Record2) -> Result<(), StepRefused>
        requires open { is_closed self.old ≡ false }
        requires next { book_fits (number_of self.old) (holds self.old) r ≡ true }
        requires counted { IsCounted2 r }
        ensures same { IsSameBook self.old self.new }
        ensures step { OnOk result (records.AddsRecord self.old.log r self.new.log) }
        ensures disk { Keeps D.Disk (disk_of self.old) (disk_of self.new) }
        ensures crash { CrashLeaves D.Disk (disk_of self.old) (disk_of self.new) (records.IsBeforeOrBehind (D.seen (disk_of self.old)) (records_of self.old) r) }
        ensures calls { Makes D.Disk (gated_calls (force_writes (size_of self.old) (spelling2 r))) (is_ok result) (result ≡ Err StepRefused.Failed) (disk_of self.old) (disk_of self.new) }
        ensures refused { IfErr result (records.FailsToAddRecord self.old.log r self.new.log) }
    {
        if self.core.reserve().is_err() {
            return Err(StepRefused::Memory);
        }
        match self.log.commit(alloc, r) {
            Ok(()) => {
                self.core.enter(r);
                Ok(())
            }
            Err(why) => Err(why),
        }
    }

    /// Serves a packet, and answers what is put out. A record is forced before it is taken in and answered. A packet that the book
    /// may not get changes nothing and is answered by nothing.
    pub fn on_packet(&mut self, alloc: Global, p: &Packet2) -> Result<Option<Packet2>, StepRefused>
        requires open { is_closed self.old ≡ false }
        ensures step { IfOk result (Serves self.old p.now self.new) }
        ensures log { KeepsLog self.old self.new }
        // A crash at each moment of the call leaves the old records, or these and that of the step.
        ensures crash { CrashLeaves D.Disk (disk_of self.old) (disk_of self.new) (IsBeforeOrServed self.old p.now) }
        ensures calls { Makes D.Disk (calls_of self.old p.now) (is_ok result) (result ≡ Err StepRefused.Failed) (disk_of self.old) (disk_of self.new) }
        ensures refused { IfErr result (FailsToServe self.old p.now self.new) }
    {
        let plan = self.core.plan(*p);
        match plan.adds {
            None => Ok(plan.puts),
            Some(r) => match self.add(alloc, r) {
                Ok(()) => Ok(plan.puts),
                Err(why) => Err(why),
            },
        }
    }
}
