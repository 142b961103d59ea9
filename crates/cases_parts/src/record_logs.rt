use case_words::{Words, no_call, say, tell};
use ic_disk::MemDisk;
use ic_gate::{EncodedRecords, Log, RecordLog};
use ic_wire::read_records;
use std::alloc::Global;
use std::{io, mem};

/// The fingerprint of its log.
const PRINT: [u8; 32] = [7; 32];

/// A list of records over a log.
pub type MemRecordLog = RecordLog<MemDisk>;

fn created(alloc: Global, capacity: usize, failing: &[u64]) -> Option<MemRecordLog> {
    let disk = MemDisk::new(alloc, b"", capacity, failing).ok()?;
    match Log::create(alloc, disk, &PRINT, 0) {
        Ok(log) => Some(RecordLog::new(log, EncodedRecords::new(alloc))),
        Err(_) => None,
    }
}

/// Adds the records that bytes are.
#[tactic(auto, using(ic_wire::proofs::Counted::all_counted))]
fn append(rt: &HostRuntime, log: &mut MemRecordLog, bytes: &[u8]) -> io::Result<()> {
    match read_records(rt.alloc(), bytes) {
        Ok(records) if !log.is_closed() => { tell(rt, &log.append(rt.alloc(), records.as_slice())) }
        Ok(_) => say(rt, "closed"),
        Err(refused) => tell(rt, &refused),
    }
}

/// Adds the records whose bytes are given.
fn append_given(rt: &HostRuntime, log: &mut MemRecordLog, words: &mut Words<'_>) -> io::Result<()> {
    let bytes = words.bytes(rt.alloc())?;
    append(rt, log, bytes.as_slice())
}

/// Prints how it stands.
fn state(rt: &HostRuntime, log: &MemRecordLog) -> io::Result<()> {
    println!(rt;
        "{} {} {} {} {} {}",
        log.buffered(),
        log.since_checkpoint(),
        log.forced_end(),
        log.end(),
        log.size(),
        log.is_closed()
    )
}

/// Makes a call on one.
fn call(
    rt: &HostRuntime,
    log: &mut MemRecordLog,
    what: &str,
    words: &mut Words<'_>,
) -> io::Result<()> {
    match what {
        "append" => append_given(rt, log, words),
        "force" if !log.is_closed() => tell(rt, &log.force()),
        "state" => state(rt, log),
        other => no_call(rt, other),
    }
}

/// Makes one over a blank disk, if there is one: its capacity, and the calls that fail.
fn begin(
    rt: &HostRuntime,
    place: &mut Option<MemRecordLog>,
    words: &mut Words<'_>,
) -> io::Result<()> {
    let capacity = words.medium() as usize;
    let failing = words.numbers(rt.alloc())?;
    drop(mem::replace(place, created(rt.alloc(), capacity, failing.as_slice())));
    tell(rt, &place.is_some())
}

/// Prints a file and how many records stand there.
fn tell_file(rt: &HostRuntime, file: &[u8], kept: usize) -> io::Result<()> {
    println!(rt; "{} {kept}", hex::encode(rt.alloc(), file)?)
}

/// Prints the file and how many records stand there, and leaves none.
fn crash(rt: &HostRuntime, place: &mut Option<MemRecordLog>) -> io::Result<()> {
    match place.take() {
        Some(log) => {
            let (disk, kept) = log.into_parts();
            tell_file(rt, disk.bytes(), kept.len())
        }
        None => say(rt, "no log"),
    }
}

/// Makes the call of a line on a list of records, where there is one.
pub fn answer(
    rt: &HostRuntime,
    place: &mut Option<MemRecordLog>,
    words: &mut Words<'_>,
) -> io::Result<()> {
    match words.word() {
        "new" => begin(rt, place, words),
        "crash" => crash(rt, place),
        what => match place {
            Some(log) => call(rt, log, what, words),
            None => say(rt, "no log"),
        },
    }
}
