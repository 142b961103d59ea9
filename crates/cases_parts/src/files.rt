use crate::telling::{tell_read, tell_text};
use case_words::{Words, no_call, say, tell};
use ic_base::{Items, Word};
use ic_disk::{Access, Disk, FileDisk, FileTexts, HostFolder, Sink, StdSink, TextError, Texts};
use std::alloc::{AllocError, Global};
use std::{fs, io, mem};

/// Two disks over files of one folder, and texts that are files.
#[derive(Drop)]
pub struct Files {
    folder: Option<HostFolder>,
    one: Option<FileDisk>,
    two: Option<FileDisk>,
    texts: FileTexts<HostRuntime>,
}

/// A value that may go to another thread.
fn sendable<T: Send>(value: T) -> T {
    value
}

/// The name that bytes are.
fn name(alloc: Global, words: &mut Words<'_>) -> Result<Word, AllocError> {
    Ok(Items::from_vec(words.bytes(alloc)?))
}

/// A disk over the file of a name.
fn disk(
    rt: &HostRuntime,
    folder: &HostFolder,
    words: &mut Words<'_>,
) -> Result<FileDisk, AllocError> {
    let name = name(rt.alloc(), words)?;
    FileDisk::new(rt.alloc(), *rt, folder, &name)
}

/// Begins another disk.
fn begin(
    rt: &HostRuntime,
    folder: &HostFolder,
    place: &mut Option<FileDisk>,
    words: &mut Words<'_>,
) -> io::Result<()> {
    let disk = sendable(disk(rt, folder, words)?);
    drop(mem::replace(place, Some(disk)));
    say(rt, "new")
}

/// Begins another folder, of which the files are read alone or written too.
fn begin_folder(
    rt: &HostRuntime,
    place: &mut Option<HostFolder>,
    words: &mut Words<'_>,
) -> io::Result<()> {
    let access = match words.word() {
        "write" => Access::Write,
        _ => Access::Read,
    };
    let folder = HostFolder::new(rt.alloc(), access)?;
    drop(mem::replace(place, Some(folder)));
    say(rt, "new")
}

/// Reads so many bytes at a place.
fn read(rt: &HostRuntime, disk: &mut FileDisk, words: &mut Words<'_>) -> io::Result<()> {
    let (at, count) = (u64::from(words.medium()), words.medium() as usize);
    tell_read(rt, disk.read_at(rt.alloc(), at, count))
}

/// Writes at a place.
fn write(rt: &HostRuntime, disk: &mut FileDisk, at: u32, bytes: &[u8]) -> io::Result<()> {
    if bytes.len() > 1000 {
        return say(rt, "too many bytes");
    }
    tell(rt, &disk.write_at(u64::from(at), bytes))
}

/// Writes bytes at a place.
fn write_given(rt: &HostRuntime, disk: &mut FileDisk, words: &mut Words<'_>) -> io::Result<()> {
    let at = words.medium();
    let bytes = words.bytes(rt.alloc())?;
    write(rt, disk, at, bytes.as_slice())
}

/// Makes a call on a disk.
fn call(
    rt: &HostRuntime,
    disk: &mut FileDisk,
    what: &str,
    words: &mut Words<'_>,
) -> io::Result<()> {
    match what {
        "length" => tell(rt, &disk.length()),
        "sync" => tell(rt, &disk.sync()),
        "read" => read(rt, disk, words),
        "write" => write_given(rt, disk, words),
        other => no_call(rt, other),
    }
}

/// Begins another disk over a file of the folder, where there is one.
fn open(
    rt: &HostRuntime,
    folder: &Option<HostFolder>,
    place: &mut Option<FileDisk>,
    words: &mut Words<'_>,
) -> io::Result<()> {
    match folder {
        Some(folder) => begin(rt, folder, place, words),
        None => say(rt, "no folder"),
    }
}

/// Lets go of a disk.
fn close(rt: &HostRuntime, place: &mut Option<FileDisk>) -> io::Result<()> {
    drop(place.take());
    say(rt, "closed")
}

/// Makes a call on a disk over a file of the folder, where there is one.
fn on_disk(
    rt: &HostRuntime,
    folder: &Option<HostFolder>,
    place: &mut Option<FileDisk>,
    words: &mut Words<'_>,
) -> io::Result<()> {
    match words.word() {
        "new" => open(rt, folder, place, words),
        "close" => close(rt, place),
        what => match place {
            Some(disk) => call(rt, disk, what, words),
            None => say(rt, "no disk"),
        },
    }
}

/// Whether a file is there.
fn exists(rt: &HostRuntime, words: &mut Words<'_>) -> io::Result<()> {
    let exists = fs::exists(rt, words.word())?;
    tell(rt, &exists)
}

/// Makes a file.
fn make(rt: &HostRuntime, words: &mut Words<'_>) -> io::Result<()> {
    fs::write(rt, words.word(), words.word())?;
    say(rt, "made")
}

/// Takes a file away.
fn remove(rt: &HostRuntime, words: &mut Words<'_>) -> io::Result<()> {
    fs::remove_file(rt, words.word())?;
    say(rt, "removed")
}

/// Reads the file of a name as a text, up to a limit.
fn read_text(
    rt: &HostRuntime,
    texts: &mut FileTexts<HostRuntime>,
    words: &mut Words<'_>,
) -> io::Result<()> {
    let name = name(rt.alloc(), words)?;
    let limit = words.medium() as usize;
    tell_text(rt, texts.read(rt.alloc(), &name, limit))
}

/// Puts a piece to standard output.
fn put(rt: &HostRuntime, words: &mut Words<'_>) -> io::Result<()> {
    let piece = words.bytes(rt.alloc())?;
    let mut sink = StdSink::new(*rt);
    tell(rt, &sink.put(piece.as_slice()))
}

/// Makes a call on files of the host or its output.
fn on_host(rt: &HostRuntime, what: &str, words: &mut Words<'_>) -> io::Result<()> {
    match what {
        "exists" => exists(rt, words),
        "make" => make(rt, words),
        "remove" => remove(rt, words),
        "put" => put(rt, words),
        "memory" => tell_text(rt, Err(TextError::Memory)),
        other => no_call(rt, other),
    }
}

impl Files {
    /// No disk.
    pub fn new(rt: HostRuntime) -> Files {
        Files {
            folder: None,
            one: None,
            two: None,
            texts: FileTexts::new(rt),
        }
    }

    /// Makes the call of a line.
    pub fn answer(&mut self, rt: &HostRuntime, words: &mut Words<'_>) -> io::Result<()> {
        match words.word() {
            "folder" => begin_folder(rt, &mut self.folder, words),
            "one" => on_disk(rt, &self.folder, &mut self.one, words),
            "two" => on_disk(rt, &self.folder, &mut self.two, words),
            "text" => read_text(rt, &mut self.texts, words),
            what => on_host(rt, what, words),
        }
    }
}
