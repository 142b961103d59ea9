use case_words::{Words, no_call, say, tell};
use ic_base::{Fill, Stop};
use ic_disk::{Disk, DiskError, MemDisk, TornDisk};
use ic_gate::{AppendRefused, ForceRefused, LoadWhy, Log};
use std::alloc::{AllocError, Global};
use std::{io, mem};

/// The fingerprint of the logs that are made.
const PRINT: [u8; 32] = [7; 32];

/// The fingerprint of another scenario.
const OTHER: [u8; 32] = [8; 32];

/// A log over a disk in memory that can be stopped.
pub type TornLog = Log<TornDisk<MemDisk>>;

/// A stop: its call, how many bytes arrive, and the fill, where 256 is the old bytes.
fn stop(words: &mut Words<'_>) -> Stop {
    let (call, keep, fill) = (words.medium(), words.medium(), words.place());
    let fill = match u8::try_from(fill) {
        Ok(byte) => Fill::Byte(byte),
        Err(_) => Fill::Old,
    };
    Stop { call, keep, fill }
}

/// A log over a blank disk, some calls of which fail.
fn created(alloc: Global, capacity: usize, failing: &[u64]) -> Result<TornLog, LoadWhy> {
    let disk = MemDisk::new(alloc, b"", capacity, failing)?;
    match Log::create(alloc, TornDisk::new(alloc, disk), &PRINT, 0) {
        Ok(log) => Ok(log),
        Err(refused) => Err(refused.why),
    }
}

/// What adding one byte and forcing it answer, and whether the log is closed then.
#[derive(Drop)]
struct ForcedOne {
    appended: Result<(), AppendRefused>,
    forced: Result<(), ForceRefused>,
    closed: bool,
}

/// Prints the answers and the file.
fn tell_forced(rt: &HostRuntime, told: &ForcedOne, file: &[u8]) -> io::Result<()> {
    let file = hex::encode(rt.alloc(), file)?;
    println!(rt;
        "{:?} {:?} {} {file}",
        told.appended, told.forced, told.closed
    )
}

/// Adds one byte and forces it, and prints the answers and the file.
fn force_one(rt: &HostRuntime, mut log: Log<MemDisk>) -> io::Result<()> {
    let told = ForcedOne {
        appended: log.append(rt.alloc(), &[0xaa]),
        forced: log.force(),
        closed: log.is_closed(),
    };
    tell_forced(rt, &told, log.into_disk().bytes())
}

/// Forces one byte over a disk that holds no write back, and of which some calls fail.
fn straight(rt: &HostRuntime, words: &mut Words<'_>) -> io::Result<()> {
    let failing = words.numbers(rt.alloc())?;
    let disk = MemDisk::new(rt.alloc(), b"", 200, failing.as_slice())?;
    match Log::create(rt.alloc(), disk, &PRINT, 0) {
        Ok(log) => force_one(rt, log),
        Err(_) => say(rt, "no log"),
    }
}

/// Prints the batches of a log that is loaded, or why it isn't.
fn load(
    rt: &HostRuntime,
    place: &mut Option<TornLog>,
    disk: TornDisk<MemDisk>,
    print: &[u8; 32],
) -> io::Result<()> {
    match Log::load(rt.alloc(), disk, print, 0) {
        Ok((log, batches)) => {
            drop(mem::replace(place, Some(log)));
            tell(rt, &batches.as_slice())
        }
        Err(refused) => {
            drop(place.take());
            tell(rt, &refused.why)
        }
    }
}

/// Adds bytes.
fn append(rt: &HostRuntime, log: &mut TornLog, words: &mut Words<'_>) -> io::Result<()> {
    let bytes = words.bytes(rt.alloc())?;
    tell(rt, &log.append(rt.alloc(), bytes.as_slice()))
}

/// So many zeros.
fn zeros(alloc: Global, count: u32) -> Result<Vec<u8>, AllocError> {
    let mut bytes = Vec::new(alloc);
    bytes.resize(count as usize, 0)?;
    Ok(bytes)
}

/// Adds zeros.
fn append_zeros(rt: &HostRuntime, log: &mut TornLog, words: &mut Words<'_>) -> io::Result<()> {
    let bytes = zeros(rt.alloc(), words.medium())?;
    tell(rt, &log.append(rt.alloc(), bytes.as_slice()))
}

/// Sets a stop.
fn arm(rt: &HostRuntime, log: &mut TornLog, words: &mut Words<'_>) -> io::Result<()> {
    log.arm(stop(words));
    say(rt, "armed")
}

/// Prints how it stands.
fn state(rt: &HostRuntime, log: &TornLog) -> io::Result<()> {
    println!(rt;
        "{} {} {} {}",
        log.forced(),
        log.end(),
        log.size(),
        log.is_closed()
    )
}

/// Makes a call on an open log.
fn call(rt: &HostRuntime, log: &mut TornLog, what: &str, words: &mut Words<'_>) -> io::Result<()> {
    match what {
        "append" => append(rt, log, words),
        "zeros" => append_zeros(rt, log, words),
        "force" => tell(rt, &log.force()),
        "arm" => arm(rt, log, words),
        "disarm" => tell(rt, &log.disarm()),
        "state" => state(rt, log),
        other => no_call(rt, other),
    }
}

/// Makes a log on a blank disk.
fn create(
    rt: &HostRuntime,
    place: &mut Option<TornLog>,
    capacity: usize,
    failing: &[u64],
) -> io::Result<()> {
    match created(rt.alloc(), capacity, failing) {
        Ok(log) => {
            drop(mem::replace(place, Some(log)));
            say(rt, "created")
        }
        Err(why) => tell(rt, &why),
    }
}

/// Makes a log on a blank disk: its capacity, and the calls that fail.
fn create_given(
    rt: &HostRuntime,
    place: &mut Option<TornLog>,
    words: &mut Words<'_>,
) -> io::Result<()> {
    let capacity = words.medium() as usize;
    let failing = words.numbers(rt.alloc())?;
    create(rt, place, capacity, failing.as_slice())
}

/// A disk that is full of bytes, some calls of which fail.
fn full(alloc: Global, content: &[u8], words: &mut Words<'_>) -> Result<MemDisk, AllocError> {
    let failing = words.numbers(alloc)?;
    MemDisk::new(alloc, content, content.len(), failing.as_slice())
}

/// A disk: the bytes that fill it, and the calls that fail.
fn disk(alloc: Global, words: &mut Words<'_>) -> Result<MemDisk, AllocError> {
    let content = words.bytes(alloc)?;
    full(alloc, content.as_slice(), words)
}

/// Loads the log over these bytes.
fn open(rt: &HostRuntime, place: &mut Option<TornLog>, words: &mut Words<'_>) -> io::Result<()> {
    let print = if words.flag() { &OTHER } else { &PRINT };
    let disk = disk(rt.alloc(), words)?;
    load(rt, place, TornDisk::new(rt.alloc(), disk), print)
}

/// Prints how a disk was stopped, and its file.
fn tell_cut(rt: &HostRuntime, stopped: &Result<(), DiskError>, file: &[u8]) -> io::Result<()> {
    println!(rt; "{stopped:?} {}", hex::encode(rt.alloc(), file)?)
}

/// The power goes and comes back: prints the file.
fn cut(rt: &HostRuntime, mut disk: TornDisk<MemDisk>) -> io::Result<()> {
    let stopped = disk.sync();
    disk.power_on();
    tell_cut(rt, &stopped, disk.into_inner().bytes())
}

/// The power goes and comes back, where there is a log.
fn crash(rt: &HostRuntime, place: &mut Option<TornLog>) -> io::Result<()> {
    match place.take() {
        Some(log) => cut(rt, log.into_disk()),
        None => say(rt, "no log"),
    }
}

/// Makes the call of a line on a log, where there is one.
pub fn answer(
    rt: &HostRuntime,
    place: &mut Option<TornLog>,
    words: &mut Words<'_>,
) -> io::Result<()> {
    match words.word() {
        "new" => create_given(rt, place, words),
        "straight" => straight(rt, words),
        "open" => open(rt, place, words),
        "crash" => crash(rt, place),
        what => match place {
            Some(log) => call(rt, log, what, words),
            None => say(rt, "no log"),
        },
    }
}
