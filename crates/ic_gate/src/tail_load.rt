ghost use Rattle.std.specs.Prelude.{◌≡◌, ◌+◌, ◌<◌, ◌≤◌, [], ℕ, Some, List, length, is_ok, IfOk, IfErr, Ok, Err};
ghost use Rattle.ic_base.specs.declared.limits.TheConstants.{FIRST_GATE, LOG_BYTES};
ghost use Rattle.ic_base.specs.declared.record.Batch.{Batch};
ghost use Rattle.def_log.specs.Changes.{counted};
ghost use Rattle.def_log.specs.Directory.{last_offset};
ghost use Rattle.def_log.specs.Frame.{batches_from};
ghost use Rattle.def_log.specs.Log.{placed_by};
ghost use Rattle.def_log.specs.Sizes.{gate_behind, payload_count};
ghost use Rattle.ic_disk.specs.Disk.{Keeps, CrashLeaves, Makes};
ghost use Rattle.ic_gate.specs.Calls.{IsFault};
ghost use Rattle.ic_gate.specs.Readers.{IsReadOn};
ghost use Rattle.ic_gate.specs.Reading.{tail_calls, batches_behind};
ghost use Rattle.ic_gate.specs.RecordLoads.{FailsToRead, HoldTailRecords, ReadsTailRecords, LoadsTailRecords, RefusesTailRecords, disk_loaded, placed_behind};
ghost use Rattle.ic_gate.specs.Refusals.{IsOfFrame, IsPlace};

use crate::batch_reader::BatchReader;
use crate::directory::Directory;
use crate::reading::{ClosedGate, closed_gate, payload_at};
use crate::record_load::records_on;
use crate::tail::{check_gate, read_tail_bytes};
use crate::write_buffer::WriteBuffer;
use crate::{LoadRefused, LoadWhy, LoadedRecords, Log};
use ic_base::Items;
use ic_disk::Disk;
use std::alloc::Global;

/// What is read of a log by its tail, with the tail's records.
#[derive(Drop)]
struct LoadedTail {
    start: u64,
    closed: ClosedGate,
    directory: Directory,
    records: LoadedRecords,
    buffered: WriteBuffer,
}

/// The log of a component that a disk holds, with the records of its tail, each with its place in the file: from the batch of the last
/// open slot on, or from the first batch where no slot is open. It syncs, asks for the length, and reads the header and the tail alone.
/// Bad tells the place at which the tail's frame is refused, or of the first byte that begins no record, or of the slot whose batch
/// doesn't end with a checkpoint.
pub fn load_tail_records<D: Disk>(
    alloc: Global,
    disk: D,
    fingerprint: &[u8; 32],
    owner: u8,
) -> Result<(Log<D>, LoadedRecords), LoadRefused<D>>
    ensures step { IfOk result (LoadsTailRecords D.Disk disk fingerprint.now owner) }
    ensures disk { Keeps D.Disk disk (disk_loaded result) }
    // It writes nothing, so a crash leaves nothing more.
    ensures crash { CrashLeaves D.Disk disk (disk_loaded result) (D.may_leave disk) }
    ensures calls { Makes D.Disk tail_calls (is_ok result) (IsFault result) disk (disk_loaded result) }
    ensures refused { IfErr result (λ refused. RefusesTailRecords D.Disk disk fingerprint.now owner refused.disk refused.why) }
{
    let mut disk = disk;
    match read_tail_records(alloc, &mut disk, fingerprint, owner) {
        Ok(read) => Ok((
            Log::over(disk, read.start, read.closed, read.directory, read.buffered),
            read.records,
        )),
        Err(why) => Err(LoadRefused { disk, why }),
    }
}

/// What the tail of a log on a disk holds, with room for what is buffered. The frame is looked at before the records.
fn read_tail_records<D: Disk>(
    alloc: Global,
    disk: &mut D,
    fingerprint: &[u8; 32],
    owner: u8,
) -> Result<LoadedTail, LoadWhy>
    ensures disk { Keeps D.Disk disk.old disk.new }
    ensures step { IfOk result (λ read. ReadsTailRecords D.Disk disk.old fingerprint.now owner read.start read.closed.at read.closed.forced read.directory read.records disk.new) }
    ensures within { IfOk result (λ read. read.closed.at < LOG_BYTES) }
    ensures high { IfOk result (λ read. FIRST_GATE ≤ read.start) }
    ensures begun { IfOk result (λ read. read.start ≡ last_offset FIRST_GATE read.directory) }
    ensures few { IfOk result (λ read. read.start + read.closed.forced ≤ read.closed.at) }
    ensures buffered { IfOk result (λ read. read.buffered ≡ []) }
    ensures crash { CrashLeaves D.Disk disk.old disk.new (D.may_leave disk.old) }
    ensures calls { Makes D.Disk tail_calls (is_ok result) (result ≡ Err LoadWhy.Failed) disk.old disk.new }
    ensures refused { IfErr result (RefusesTailRecords D.Disk disk.old fingerprint.now owner disk.new) }
{
    let tail = read_tail_bytes(alloc, disk, fingerprint, owner)?;
    let (closed, records) = tail_of(alloc, tail.slot, tail.start, tail.bytes)?;
    let buffered = WriteBuffer::new(alloc)?;
    Ok(LoadedTail {
        start: tail.start,
        closed,
        directory: tail.directory,
        records,
        buffered,
    })
}

// The closed gate and the records of bytes that stand from a tail's gate on. Where a slot at this place names it, it must be open.
fn tail_of(
    alloc: Global,
    slot: Option<u64>,
    start: u64,
    bytes: Vec<u8>,
) -> Result<(ClosedGate, LoadedRecords), LoadWhy>
    requires short { start + length bytes.items ≤ LOG_BYTES }
    ensures step { IfOk result (λ read. HoldTailRecords slot start bytes.items read.0.at read.0.forced read.1) }
    ensures within { IfOk result (λ read. read.0.at < start + length bytes.items) }
    ensures few { IfOk result (λ read. start + read.0.forced ≤ read.0.at) }
    ensures bad { IfErr result (λ why. (place : ℕ) → why ≡ LoadWhy.Bad place → placed_behind slot start bytes.items ≡ Err place) }
    ensures why { IfErr result IsOfFrame }
{
    let closed = tail_end(slot, start, &bytes)?;
    let reader = BatchReader::new(alloc, bytes, 0, Some(Items::new(alloc)));
    let all = tail_records(alloc, slot, start, reader)?;
    Ok((closed, LoadedRecords::of(all)))
}

// The closed gate behind the batches of bytes that stand from a tail's gate on.
fn tail_end(slot: Option<u64>, start: u64, bytes: &[u8]) -> Result<ClosedGate, LoadWhy>
    requires short { start + length bytes.now ≤ LOG_BYTES }
    ensures at { IfOk result (λ closed. gate_behind start (batches_behind slot start bytes.now) ≡ Some closed.at) }
    ensures forced { IfOk result (λ closed. counted (batches_behind slot start bytes.now) ≡ Some closed.forced) }
    ensures within { IfOk result (λ closed. closed.at < start + length bytes.now) }
    ensures few { IfOk result (λ closed. start + closed.forced ≤ closed.at) }
    ensures bad { IfErr result (λ why. (place : ℕ) → why ≡ LoadWhy.Bad place → batches_behind slot start bytes.now ≡ Err place) }
    ensures why { IfErr result IsPlace }
{
    check_gate(slot, bytes)?;
    closed_gate(start, bytes, &[])
}

// The records that a reader has, and behind them those of the batches of the bytes that it hasn't looked at, which stand in the file from
// a tail's gate on. Bad tells the place of the first byte that begins no record, or of the slot that names the first batch, where this
// doesn't end with a checkpoint.
fn tail_records(
    alloc: Global,
    slot: Option<u64>,
    start: u64,
    reader: BatchReader,
) -> Result<BatchReader, LoadWhy>
    requires short { start + length reader.rest ≤ LOG_BYTES }
    ensures read { IfOk result (λ all. (bs : List Batch) → batches_from (length reader.rest) start reader.rest ≡ Ok bs →
        IsReadOn reader (placed_by slot bs) (payload_count bs) all) }
    ensures refused { IfErr result (λ why. (bs : List Batch) → batches_from (length reader.rest) start reader.rest ≡ Ok bs →
        FailsToRead (placed_by slot bs) why) }
{
    let Some(payload) = payload_at(start, reader.rest())? else {
        return match slot {
            Some(place) => Err(LoadWhy::Bad(place)),
            None => Ok(reader),
        };
    };
    let count = payload.len();
    let (first, ends) = reader.read_on(alloc, start, count)?;
    let all = records_on(alloc, first, start + (5 + count) as u64, &[])?;
    match slot {
        Some(place) if !ends => Err(LoadWhy::Bad(place)),
        _ => Ok(all),
    }
}
