use crate::telling::{say_bytes, tell_read, tell_text};
use case_words::{Words, no_call, say, tell};
use ic_base::{Bytes, Items, Word};
use ic_disk::{Disk, MemDisk, MemSink, MemTexts, Sink, Texts, TornDisk};
use std::alloc::{AllocError, Global};
use std::{io, mem};

/// A disk, one that holds its writes until a sync, a sink and texts in memory, on which the calls are made, each where there is one.
#[derive(Drop)]
pub struct Devices {
    disk: Option<MemDisk>,
    torn: Option<TornDisk<MemDisk>>,
    sink: Option<MemSink>,
    texts: Option<MemTexts>,
}

/// A disk of these bytes; no write goes past its capacity, and some calls fail.
fn filled(alloc: Global, content: &[u8], words: &mut Words<'_>) -> Result<MemDisk, AllocError> {
    let capacity = words.medium() as usize;
    let failing = words.numbers(alloc)?;
    MemDisk::new(
        alloc,
        content,
        capacity.max(content.len()),
        failing.as_slice(),
    )
}

/// A disk: its bytes, its capacity and the calls that fail.
fn disk(alloc: Global, words: &mut Words<'_>) -> Result<MemDisk, AllocError> {
    let content = words.bytes(alloc)?;
    filled(alloc, content.as_slice(), words)
}

/// Begins another disk.
fn begin_disk(
    rt: &HostRuntime,
    place: &mut Option<MemDisk>,
    words: &mut Words<'_>,
) -> io::Result<()> {
    let disk = disk(rt.alloc(), words)?;
    drop(mem::replace(place, Some(disk)));
    say(rt, "new")
}

/// Reads where the disk has so many bytes there.
fn read(rt: &HostRuntime, disk: &mut MemDisk, words: &mut Words<'_>) -> io::Result<()> {
    let (at, count) = (words.medium(), words.medium());
    let length = disk.bytes().len() as u64;
    if u64::from(at) + u64::from(count) > length {
        return say(rt, "past the end");
    }
    tell_read(rt, disk.read_at(rt.alloc(), u64::from(at), count as usize))
}

/// Writes where the disk has bytes up to there.
fn write(rt: &HostRuntime, disk: &mut MemDisk, at: u32, bytes: &[u8]) -> io::Result<()> {
    let at = u64::from(at);
    if at > disk.bytes().len() as u64 || bytes.len() > 1000 {
        return say(rt, "past the end");
    }
    if disk.reserve(rt.alloc(), bytes.len() + 32).is_err() {
        return say(rt, "no room");
    }
    tell(rt, &disk.write_at(at, bytes))
}

/// Writes bytes at a place.
fn write_given(rt: &HostRuntime, disk: &mut MemDisk, words: &mut Words<'_>) -> io::Result<()> {
    let at = words.medium();
    let bytes = words.bytes(rt.alloc())?;
    write(rt, disk, at, bytes.as_slice())
}

/// Makes a call on the disk.
fn call_disk(
    rt: &HostRuntime,
    disk: &mut MemDisk,
    what: &str,
    words: &mut Words<'_>,
) -> io::Result<()> {
    match what {
        "length" => tell(rt, &disk.length()),
        "sync" => tell(rt, &disk.sync()),
        "read" => read(rt, disk, words),
        "write" => write_given(rt, disk, words),
        "faults" => tell(rt, &disk.fault_count()),
        "bytes" => say_bytes(rt, disk.bytes()),
        other => no_call(rt, other),
    }
}

/// Begins another disk that holds its writes.
fn begin_torn(
    rt: &HostRuntime,
    place: &mut Option<TornDisk<MemDisk>>,
    words: &mut Words<'_>,
) -> io::Result<()> {
    let disk = disk(rt.alloc(), words)?;
    drop(mem::replace(place, Some(TornDisk::new(rt.alloc(), disk))));
    say(rt, "new")
}

/// Reads where the disk has so many bytes there, as it tells its length.
fn read_torn(
    rt: &HostRuntime,
    disk: &mut TornDisk<MemDisk>,
    words: &mut Words<'_>,
) -> io::Result<()> {
    let (at, count) = (words.medium(), words.medium());
    match disk.length() {
        Ok(length) if u64::from(at) + u64::from(count) <= length => tell_read(
            rt,
            disk.read_at(rt.alloc(), u64::from(at), count as usize),
        ),
        Ok(_) => say(rt, "past the end"),
        Err(error) => tell(rt, &error),
    }
}

/// Writes where the disk has bytes up to there, as it tells its length.
fn write_torn(
    rt: &HostRuntime,
    disk: &mut TornDisk<MemDisk>,
    at: u32,
    bytes: &[u8],
) -> io::Result<()> {
    if bytes.len() > 1000 {
        return say(rt, "too many bytes");
    }
    if disk.reserve(rt.alloc(), bytes.len() + 32).is_err() {
        return say(rt, "no room");
    }
    match disk.length() {
        Ok(length) if u64::from(at) <= length => tell(rt, &disk.write_at(u64::from(at), bytes)),
        Ok(_) => say(rt, "past the end"),
        Err(error) => tell(rt, &error),
    }
}

/// Writes bytes at a place.
fn write_torn_given(
    rt: &HostRuntime,
    disk: &mut TornDisk<MemDisk>,
    words: &mut Words<'_>,
) -> io::Result<()> {
    let at = words.medium();
    let bytes = words.bytes(rt.alloc())?;
    write_torn(rt, disk, at, bytes.as_slice())
}

/// Makes a call on the disk that holds its writes.
fn call_torn(
    rt: &HostRuntime,
    disk: &mut TornDisk<MemDisk>,
    what: &str,
    words: &mut Words<'_>,
) -> io::Result<()> {
    match what {
        "read" => read_torn(rt, disk, words),
        "write" => write_torn_given(rt, disk, words),
        other => no_call(rt, other),
    }
}

/// A sink of a capacity, to which some calls fail.
fn sink(alloc: Global, words: &mut Words<'_>) -> Result<MemSink, AllocError> {
    let capacity = words.medium() as usize;
    let failing = words.numbers(alloc)?;
    MemSink::new(alloc, capacity, failing.as_slice())
}

/// Begins another sink.
fn begin_sink(
    rt: &HostRuntime,
    place: &mut Option<MemSink>,
    words: &mut Words<'_>,
) -> io::Result<()> {
    let sink = sink(rt.alloc(), words)?;
    drop(mem::replace(place, Some(sink)));
    say(rt, "new")
}

/// Puts a piece.
fn put(rt: &HostRuntime, sink: &mut MemSink, words: &mut Words<'_>) -> io::Result<()> {
    let piece = words.bytes(rt.alloc())?;
    tell(rt, &sink.put(piece.as_slice()))
}

/// Makes a call on the sink.
fn call_sink(
    rt: &HostRuntime,
    sink: &mut MemSink,
    what: &str,
    words: &mut Words<'_>,
) -> io::Result<()> {
    match what {
        "put" => put(rt, sink, words),
        "bytes" => say_bytes(rt, sink.bytes()),
        other => no_call(rt, other),
    }
}

/// The next bytes.
fn bytes(alloc: Global, words: &mut Words<'_>) -> Result<Bytes, AllocError> {
    Ok(Items::from_vec(words.bytes(alloc)?))
}

/// A name, and the bytes of the text that has it.
fn named(alloc: Global, words: &mut Words<'_>) -> Result<(Word, Bytes), AllocError> {
    let name = bytes(alloc, words)?;
    Ok((name, bytes(alloc, words)?))
}

/// Three texts, each behind its name.
fn held(alloc: Global, words: &mut Words<'_>) -> Result<Vec<(Word, Bytes)>, AllocError> {
    let mut held: Vec<(Word, Bytes)> = Vec::new(alloc);
    for _ in 0..3_u32 {
        held.push(named(alloc, words)?)?;
    }
    Ok(held)
}

/// Texts behind the number of the read that fails.
fn texts(alloc: Global, words: &mut Words<'_>) -> Result<MemTexts, AllocError> {
    let failing = words.number();
    MemTexts::new(alloc, held(alloc, words)?, &[failing])
}

/// Begins other texts.
fn begin_texts(
    rt: &HostRuntime,
    place: &mut Option<MemTexts>,
    words: &mut Words<'_>,
) -> io::Result<()> {
    let texts = texts(rt.alloc(), words)?;
    drop(mem::replace(place, Some(texts)));
    say(rt, "new")
}

/// Reads the text of a name, up to a limit.
fn read_text(rt: &HostRuntime, texts: &mut MemTexts, words: &mut Words<'_>) -> io::Result<()> {
    let name = bytes(rt.alloc(), words)?;
    tell_text(rt, texts.read(rt.alloc(), &name, words.medium() as usize))
}

/// Makes a call on the texts.
fn call_texts(
    rt: &HostRuntime,
    texts: &mut MemTexts,
    what: &str,
    words: &mut Words<'_>,
) -> io::Result<()> {
    match what {
        "read" => read_text(rt, texts, words),
        other => no_call(rt, other),
    }
}

impl Devices {
    /// None.
    pub fn new() -> Devices {
        Devices {
            disk: None,
            torn: None,
            sink: None,
            texts: None,
        }
    }

    /// Makes the call of a line on the disk.
    pub fn on_disk(&mut self, rt: &HostRuntime, words: &mut Words<'_>) -> io::Result<()> {
        match words.word() {
            "new" => begin_disk(rt, &mut self.disk, words),
            what => match &mut self.disk {
                Some(disk) => call_disk(rt, disk, what, words),
                None => say(rt, "no disk"),
            },
        }
    }

    /// Makes the call of a line on the disk that holds its writes.
    pub fn on_torn(&mut self, rt: &HostRuntime, words: &mut Words<'_>) -> io::Result<()> {
        match words.word() {
            "new" => begin_torn(rt, &mut self.torn, words),
            what => match &mut self.torn {
                Some(disk) => call_torn(rt, disk, what, words),
                None => say(rt, "no disk"),
            },
        }
    }

    /// Makes the call of a line on the sink.
    pub fn on_sink(&mut self, rt: &HostRuntime, words: &mut Words<'_>) -> io::Result<()> {
        match words.word() {
            "new" => begin_sink(rt, &mut self.sink, words),
            what => match &mut self.sink {
                Some(sink) => call_sink(rt, sink, what, words),
                None => say(rt, "no sink"),
            },
        }
    }

    /// Makes the call of a line on the texts.
    pub fn on_texts(&mut self, rt: &HostRuntime, words: &mut Words<'_>) -> io::Result<()> {
        match words.word() {
            "new" => begin_texts(rt, &mut self.texts, words),
            what => match &mut self.texts {
                Some(texts) => call_texts(rt, texts, what, words),
                None => say(rt, "no texts"),
            },
        }
    }
}
