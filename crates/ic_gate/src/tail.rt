ghost use Rattle.std.specs.Prelude.{◌≡◌, ◌<◌, ◌≤◌, ◌+◌, true, [], ℕ, Some, length, take, min, is_ok, IfOk, IfErr, OnOk, Ok, Err};
ghost use Rattle.ic_base.specs.declared.limits.TheConstants.{FIRST_GATE, LOG_BYTES};
ghost use Rattle.def_log.specs.Directory.{last_slot, last_offset};
ghost use Rattle.def_log.specs.Frame.{batches_from};
ghost use Rattle.def_log.specs.Images.{LeavesJust};
ghost use Rattle.ic_disk.specs.Disk.{Keeps, Makes, CrashLeaves};
ghost use Rattle.ic_gate.specs.Gates.{AreBelow};
ghost use Rattle.ic_gate.specs.Reading.{load_calls, tail_calls, HasHeader, batches_behind, HoldsTail, ReadsTail, RefusesToRead, RefusesToLoadTail};
ghost use Rattle.ic_gate.specs.Refusals.{IsOfFrame, IsPlace};

use crate::LoadWhy;
use crate::directory::{Directory, read_directory, slot_place};
use crate::frame::Frame;
use crate::header::check_header;
use crate::reading::read_batches;
use crate::write_buffer::WriteBuffer;
use ic_base::limits::{FIRST_GATE, LOG_BYTES};
use ic_disk::Disk;
use std::alloc::Global;

/// What is read of a log by its tail.
#[derive(Drop)]
pub struct Tail {
    pub frame: Frame,
    pub directory: Directory,
    /// The place of the slot that the tail uses, if it uses one.
    pub slot: Option<u64>,
    pub buffered: WriteBuffer,
}

/// What is read of a log up to its tail, whose bytes aren't looked at yet.
#[derive(Drop)]
pub struct TailBytes {
    /// The gate at which the tail begins.
    pub start: u64,
    /// The place of the slot that the tail uses, if it uses one.
    pub slot: Option<u64>,
    pub directory: Directory,
    pub bytes: Vec<u8>,
}

/// What the tail of a log on a disk holds.
pub fn read_tail<D: Disk>(
    alloc: Global,
    disk: &mut D,
    fingerprint: &[u8; 32],
    owner: u8,
) -> Result<Tail, LoadWhy>
    ensures disk { Keeps D.Disk disk.old disk.new }
    ensures step { IfOk result (λ tail. ReadsTail D.Disk disk.old fingerprint.now owner tail.frame.batches tail.directory tail.frame.start tail.slot disk.new) }
    ensures within { IfOk result (λ tail. tail.frame.gate < LOG_BYTES) }
    ensures high { IfOk result (λ tail. FIRST_GATE ≤ tail.frame.start) }
    ensures begun { IfOk result (λ tail. tail.frame.start ≡ last_offset FIRST_GATE tail.directory) }
    ensures buffered { IfOk result (λ tail. tail.buffered ≡ []) }
    ensures crash { CrashLeaves D.Disk disk.old disk.new (D.may_leave disk.old) }
    ensures calls { Makes D.Disk tail_calls (is_ok result) (result ≡ Err LoadWhy.Failed) disk.old disk.new }
    ensures refused { IfErr result (RefusesToLoadTail D.Disk disk.old fingerprint.now owner disk.new) }
{
    let tail = read_tail_bytes(alloc, disk, fingerprint, owner)?;
    let frame = tail_batches(alloc, tail.slot, tail.start, &tail.bytes)?;
    let buffered = WriteBuffer::new(alloc)?;
    Ok(Tail {
        frame,
        directory: tail.directory,
        slot: tail.slot,
        buffered,
    })
}

/// The bytes of a log on a disk from its tail's gate on. It reads the header, and then these.
pub fn read_tail_bytes<D: Disk>(
    alloc: Global,
    disk: &mut D,
    fingerprint: &[u8; 32],
    owner: u8,
) -> Result<TailBytes, LoadWhy>
    ensures disk { Keeps D.Disk disk.old disk.new }
    ensures step { IfOk result (λ tail. HoldsTail D.Disk disk.old fingerprint.now owner tail.directory tail.start tail.slot tail.bytes.items disk.new) }
    ensures short { IfOk result (λ tail. tail.start + length tail.bytes.items ≤ LOG_BYTES) }
    ensures crash { CrashLeaves D.Disk disk.old disk.new (D.may_leave disk.old) }
    ensures calls { Makes D.Disk tail_calls (is_ok result) (result ≡ Err LoadWhy.Failed) disk.old disk.new }
    ensures refused { IfErr result (RefusesToLoadTail D.Disk disk.old fingerprint.now owner disk.new) }
{
    let (length, directory) = read_header(alloc, disk, fingerprint, owner)?;
    let start = directory.last().unwrap_or(FIRST_GATE);
    let slot = last_slot(&directory);
    if start < FIRST_GATE || length < start {
        return Err(LoadWhy::Bad(slot.unwrap_or(length)));
    }
    let bytes = disk.read_at(alloc, start, (length - start) as usize)?;
    Ok(TailBytes {
        start,
        slot,
        directory,
        bytes,
    })
}

// The length of a disk's file, and the open slots of the header that stands there.
fn read_header<D: Disk>(
    alloc: Global,
    disk: &mut D,
    fingerprint: &[u8; 32],
    owner: u8,
) -> Result<(u64, Directory), LoadWhy>
    ensures disk { Keeps D.Disk disk.old disk.new }
    ensures durable { D.keeps disk.old → OnOk result (LeavesJust (D.may_leave disk.new) (D.seen disk.new)) }
    ensures settled { OnOk result (D.settled disk.new ≡ true) }
    ensures seen { D.tells disk.old → OnOk result (D.seen disk.new ≡ D.seen disk.old) }
    ensures length { D.tells disk.old → IfOk result (λ read. read.0 ≡ length (D.seen disk.old)) }
    ensures short { IfOk result (λ read. read.0 ≤ LOG_BYTES) }
    ensures long { IfOk result (λ read. FIRST_GATE ≤ read.0) }
    ensures header { D.tells disk.old → IfOk result (λ read. HasHeader fingerprint.now owner read.1 (D.seen disk.old)) }
    ensures crash { CrashLeaves D.Disk disk.old disk.new (D.may_leave disk.old) }
    ensures calls { Makes D.Disk load_calls (is_ok result) (result ≡ Err LoadWhy.Failed) disk.old disk.new }
    ensures refused { IfErr result (RefusesToLoadTail D.Disk disk.old fingerprint.now owner disk.new) }
{
    let (length, front) = read_front(alloc, disk)?;
    check_header(&front, fingerprint, owner)?;
    let directory = read_directory(alloc, &front)?;
    Ok((length, directory))
}

// The length of a disk's file that may hold a log, and its first bytes, up to the first gate.
fn read_front<D: Disk>(alloc: Global, disk: &mut D) -> Result<(u64, Vec<u8>), LoadWhy>
    ensures disk { Keeps D.Disk disk.old disk.new }
    ensures durable { D.keeps disk.old → OnOk result (LeavesJust (D.may_leave disk.new) (D.seen disk.new)) }
    ensures settled { OnOk result (D.settled disk.new ≡ true) }
    ensures seen { D.tells disk.old → OnOk result (D.seen disk.new ≡ D.seen disk.old) }
    ensures length { D.tells disk.old → IfOk result (λ read. read.0 ≡ length (D.seen disk.old)) }
    ensures bytes { D.tells disk.old → IfOk result (λ read. read.1.items ≡ take FIRST_GATE (D.seen disk.old)) }
    ensures short { IfOk result (λ read. read.0 ≤ LOG_BYTES) }
    ensures count { IfOk result (λ read. length read.1.items ≡ min read.0 FIRST_GATE) }
    ensures crash { CrashLeaves D.Disk disk.old disk.new (D.may_leave disk.old) }
    ensures calls { Makes D.Disk load_calls (is_ok result) (result ≡ Err LoadWhy.Failed) disk.old disk.new }
    ensures refused { IfErr result (RefusesToRead D.Disk disk.old disk.new) }
{
    disk.sync()?;
    let length = disk.length()?;
    if length > LOG_BYTES {
        return Err(LoadWhy::Bad(LOG_BYTES));
    }
    let front = disk.read_at(alloc, 0, length.min(FIRST_GATE) as usize)?;
    Ok((length, front))
}

// The batches of bytes that stand from a gate on. Where a slot at this place names it, it must be open.
fn tail_batches(alloc: Global, slot: Option<u64>, gate: u64, bytes: &[u8]) -> Result<Frame, LoadWhy>
    requires short { gate + length bytes.now ≤ LOG_BYTES }
    ensures whole { IfOk result (λ frame. batches_behind slot gate bytes.now ≡ Ok frame.batches) }
    ensures start { IfOk result (λ frame. frame.start ≡ gate) }
    ensures within { IfOk result (λ frame. frame.gate < gate + length bytes.now) }
    ensures below { IfOk result (λ frame. AreBelow LOG_BYTES frame.batches) }
    ensures bad { IfErr result (λ why. (place : ℕ) → why ≡ LoadWhy.Bad place → batches_behind slot gate bytes.now ≡ Err place) }
    ensures why { IfErr result IsOfFrame }
{
    check_gate(slot, bytes)?;
    read_batches(alloc, gate, bytes)
}

/// Where a slot at this place names the gate at the front of bytes, it must be open.
pub fn check_gate(slot: Option<u64>, bytes: &[u8]) -> Result<(), LoadWhy>
    ensures open { OnOk result ((gate : ℕ) → batches_behind slot gate bytes.now ≡ batches_from (length bytes.now) gate bytes.now) }
    ensures bad { IfErr result (λ why. (place gate : ℕ) → why ≡ LoadWhy.Bad place → batches_behind slot gate bytes.now ≡ Err place) }
    ensures why { IfErr result IsPlace }
{
    match slot {
        Some(place) if !is_open(bytes) => Err(LoadWhy::Bad(place)),
        _ => Ok(()),
    }
}

// Whether the gate at the front of bytes is open.
fn is_open(bytes: &[u8]) -> bool
    ensures { result ≡ Rattle.ic_gate.specs.Reading.is_open_front bytes.now }
{
    match bytes {
        [first, ..] => *first == 1,
        [] => false,
    }
}

// The place of the last open slot.
fn last_slot(directory: &Directory) -> Option<u64>
    ensures { result ≡ last_slot directory.now }
{
    match directory.len() {
        0 => None,
        n => Some(slot_place(n - 1)),
    }
}
