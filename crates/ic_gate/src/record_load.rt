ghost use Rattle.std.specs.Prelude.{◌≡◌, ◌+◌, ◌<◌, ◌≤◌, [], ◌∷◌, ℕ, List, length, is_ok, IfOk, IfErr, OnOk, Ok, Err};
ghost use Rattle.ic_base.specs.declared.limits.TheConstants.{FIRST_GATE, LOG_BYTES, SLOTS};
ghost use Rattle.ic_base.specs.declared.record.Batch.{Batch};
ghost use Rattle.def_log.specs.Frame.{batches_from, fingerprint_in, owner_in, IsForeign};
ghost use Rattle.def_log.specs.Loads.{placed_log_for};
ghost use Rattle.def_log.specs.Log.{placed_with, ends_with_checkpoint};
ghost use Rattle.def_log.specs.Sizes.{payload_count};
ghost use Rattle.ic_disk.specs.Disk.{Keeps, CrashLeaves, Makes};
ghost use Rattle.ic_gate.specs.Calls.{IsFault};
ghost use Rattle.ic_gate.specs.Readers.{IsReadOn, HoldReadOn, ReadsOn};
ghost use Rattle.ic_gate.specs.Reading.{load_calls};
ghost use Rattle.ic_gate.specs.RecordLoads.{FailsToRead, LoadsRecords, RefusesRecords, disk_loaded};
ghost use Rattle.ic_gate.specs.Refusals.{IsNotForeign, IsOfFile};
ghost use Rattle.ic_gate.specs.Slots.{bad_behind};

use crate::batch_reader::BatchReader;
use crate::directory::{Directory, names, read_directory, slot_place};
use crate::header::check_header;
use crate::load::read_whole;
use crate::reading::{ClosedGate, closed_gate, payload_at};
use crate::write_buffer::WriteBuffer;
use crate::{LoadRefused, LoadWhy, LoadedRecords, Log};
use ic_base::Items;
use ic_base::limits::FIRST_GATE;
use ic_disk::Disk;
use std::alloc::Global;

/// Behind the batch at this place: how many slots are named by batches that end with a checkpoint, or the place of one that isn't.
pub fn named(slots: &[u64], so_far: Result<usize, u64>, at: u64, ends: bool) -> Result<usize, u64>
    requires few { length slots.now ≤ SLOTS }
    requires named { IfOk so_far (λ n. n ≤ length slots.now) }
    ensures named { IfOk result (λ n. n ≤ length slots.now) }
    ensures on { (b : Batch) → b.at ≡ at → ends_with_checkpoint b ≡ ends → (bs : List Batch) →
        bad_behind slots.now result bs ≡ bad_behind slots.now so_far (b ∷ bs) }
{
    match so_far {
        Ok(n) => {
            if !names(slots, n, at) {
                Ok(n)
            } else if ends {
                Ok(n + 1)
            } else {
                Err(slot_place(n))
            }
        }
        Err(place) => Err(place),
    }
}

/// The place of the first slot that isn't named, behind all batches.
pub fn unnamed(slots: &[u64], so_far: Result<usize, u64>) -> Option<u64>
    requires few { length slots.now ≤ SLOTS }
    requires named { IfOk so_far (λ n. n ≤ length slots.now) }
    ensures { result ≡ bad_behind slots.now so_far [] }
{
    match so_far {
        Ok(n) => {
            if n == slots.len() {
                None
            } else {
                Some(slot_place(n))
            }
        }
        Err(place) => Some(place),
    }
}

/// What is read of a log with its records.
#[derive(Drop)]
pub struct LoadedLog {
    pub closed: ClosedGate,
    pub directory: Directory,
    pub reader: BatchReader,
    pub buffered: WriteBuffer,
}

/// The log of a component that a disk holds, with its records, each with its place in the file. It syncs, asks for the length and reads
/// the whole file once (docs/RULES.md, "Recovery"). Bad tells the place at which the frame is refused, or of the first byte
/// that begins no record, or of the first open slot whose batch doesn't end with a checkpoint.
pub fn load_records<D: Disk>(
    alloc: Global,
    disk: D,
    fingerprint: &[u8; 32],
    owner: u8,
) -> Result<(Log<D>, LoadedRecords), LoadRefused<D>>
    ensures step { IfOk result (LoadsRecords D.Disk disk fingerprint.now owner) }
    ensures disk { Keeps D.Disk disk (disk_loaded result) }
    // It writes nothing, so a crash leaves nothing more.
    ensures crash { CrashLeaves D.Disk disk (disk_loaded result) (D.may_leave disk) }
    ensures calls { Makes D.Disk load_calls (is_ok result) (IsFault result) disk (disk_loaded result) }
    ensures refused { IfErr result (λ refused. RefusesRecords D.Disk disk fingerprint.now owner refused.disk refused.why) }
{
    let mut disk = disk;
    match read_records(
        alloc,
        &mut disk,
        fingerprint,
        owner,
        Some(Items::new(alloc)),
    ) {
        Ok(read) => {
            let records = LoadedRecords::of(read.reader);
            let log = Log::over(disk, FIRST_GATE, read.closed, read.directory, read.buffered);
            Ok((log, records))
        }
        Err(why) => Err(LoadRefused { disk, why }),
    }
}

/// What a log on a disk holds, with room for what is buffered, and the places of the records behind these, if places are kept. The frame
/// is looked at before the records.
pub fn read_records<D: Disk>(
    alloc: Global,
    disk: &mut D,
    fingerprint: &[u8; 32],
    owner: u8,
    places: Option<Items<u32>>,
) -> Result<LoadedLog, LoadWhy>
    ensures disk { Keeps D.Disk disk.old disk.new }
    ensures step { IfOk result (λ read. ReadsOn D.Disk disk.old fingerprint.now owner read.closed.at read.closed.forced read.directory places read.reader disk.new) }
    ensures within { IfOk result (λ read. read.closed.at < LOG_BYTES) }
    ensures few { IfOk result (λ read. FIRST_GATE + read.closed.forced ≤ read.closed.at) }
    ensures buffered { IfOk result (λ read. read.buffered ≡ []) }
    ensures crash { CrashLeaves D.Disk disk.old disk.new (D.may_leave disk.old) }
    ensures calls { Makes D.Disk load_calls (is_ok result) (result ≡ Err LoadWhy.Failed) disk.old disk.new }
    ensures refused { IfErr result (RefusesRecords D.Disk disk.old fingerprint.now owner disk.new) }
{
    let bytes = read_whole(alloc, disk)?;
    let (closed, directory, reader) = records_of(alloc, bytes, fingerprint, owner, places)?;
    let buffered = WriteBuffer::new(alloc)?;
    Ok(LoadedLog {
        closed,
        directory,
        reader,
        buffered,
    })
}

// The closed gate, the open slots and the records of a log's bytes. A foreign fingerprint is told before the component's number and the
// batches are looked at.
fn records_of(
    alloc: Global,
    bytes: Vec<u8>,
    fingerprint: &[u8; 32],
    owner: u8,
    places: Option<Items<u32>>,
) -> Result<(ClosedGate, Directory, BatchReader), LoadWhy>
    requires { length bytes.items ≤ LOG_BYTES }
    ensures step { IfOk result (λ read. HoldReadOn bytes.items read.0.at read.0.forced read.1 places read.2) }
    ensures fingerprint { OnOk result (fingerprint_in bytes.items ≡ fingerprint.now) }
    ensures owner { OnOk result (owner_in bytes.items ≡ owner) }
    ensures within { IfOk result (λ read. read.0.at < length bytes.items) }
    ensures few { IfOk result (λ read. FIRST_GATE + read.0.forced ≤ read.0.at) }
    ensures bad { IfErr result (λ why. (place : ℕ) → why ≡ LoadWhy.Bad place →
        placed_log_for owner bytes.items ≡ Err place) }
    ensures not_foreign { IfErr result (λ why. (place : ℕ) → why ≡ LoadWhy.Bad place →
        IsNotForeign fingerprint.now bytes.items) }
    ensures foreign { IfErr result (λ why. (kept : List ℕ) → why ≡ LoadWhy.Foreign kept →
        IsForeign fingerprint.now bytes.items kept) }
    ensures why { IfErr result IsOfFile }
{
    let file: &[u8] = &bytes;
    check_header(file, fingerprint, owner)?;
    let directory = read_directory(alloc, file)?;
    let slots = directory.as_slice();
    let closed = closed_gate(FIRST_GATE, &file[FIRST_GATE as usize..], slots)?;
    let reader = BatchReader::new(alloc, bytes, FIRST_GATE as usize, places);
    let all = records_on(alloc, reader, FIRST_GATE, slots)?;
    Ok((closed, directory, all))
}

/// The records that a reader has, and behind them those of the batches of the bytes that it hasn't looked at, which stand in the file from
/// a gate on, in a log with these open slots.
pub fn records_on(
    alloc: Global,
    reader: BatchReader,
    start: u64,
    slots: &[u64],
) -> Result<BatchReader, LoadWhy>
    requires short { start + length reader.rest ≤ LOG_BYTES }
    requires few { length slots.now ≤ SLOTS }
    ensures read { IfOk result (λ all. (bs : List Batch) → batches_from (length reader.rest) start reader.rest ≡ Ok bs →
        IsReadOn reader (placed_with slots.now bs) (payload_count bs) all) }
    ensures refused { IfErr result (λ why. (bs : List Batch) → batches_from (length reader.rest) start reader.rest ≡ Ok bs →
        FailsToRead (placed_with slots.now bs) why) }
{
    let mut all = reader;
    let mut gate = start;
    let mut so_far = Ok(0);
    while let Some(payload) = payload_at(gate, all.rest())? {
        let count = payload.len();
        let (more, ends) = all.read_on(alloc, gate, count)?;
        all = more;
        so_far = named(slots, so_far, gate + 5, ends);
        gate += 5 + count as u64;
    }
    match unnamed(slots, so_far) {
        Some(place) => Err(LoadWhy::Bad(place)),
        None => Ok(all),
    }
}
