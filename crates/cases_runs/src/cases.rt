use crate::devices::{Devices, are_kept, make_devices, word};
use case_words::{Answers, Words, no_call, say, tell};
use ic_base::Word;
use ic_base::limits::COMPONENTS;
use ic_call::run;
use ic_disk::{Disk, MemDisk, MemSink, MemTexts, Sink, Texts};
use ic_report::DeviceCounts;
use std::alloc::{AllocError, Global};
use std::{io, mem};

/// The words that ask for a run with a policy; an empty one asks for the defaults.
const RUN: [&[u8]; 4] = [b"run", b"scenario", b"schedule", b"policy"];

/// What the calls are made on: the texts of the runs, and devices with the counts of faults that they had.
#[derive(Drop)]
pub struct Cases {
    texts: Vec<Vec<u8>>,
    counted: Option<Counted>,
}

/// Devices, and the counts of faults that they had.
#[derive(Drop)]
struct Counted {
    devices: Devices,
    counts: DeviceCounts,
}

/// The texts that the words are.
fn given(alloc: Global, words: &mut Words<'_>) -> Result<Vec<Vec<u8>>, AllocError> {
    let mut texts = Vec::new(alloc);
    for _ in 0..3_u32 {
        texts.push(words.bytes(alloc)?)?;
    }
    Ok(texts)
}

/// Begins with other texts.
fn begin(rt: &HostRuntime, place: &mut Vec<Vec<u8>>, words: &mut Words<'_>) -> io::Result<()> {
    drop(mem::replace(place, given(rt.alloc(), words)?));
    say(rt, "texts")
}

/// The words of a run.
fn asked(alloc: Global) -> Result<Vec<Word>, AllocError> {
    let mut asked = Vec::new(alloc);
    for bytes in RUN {
        asked.push(word(alloc, bytes)?)?;
    }
    Ok(asked)
}

/// Prints what was put and what stands on the first disk.
fn tell_bytes(rt: &HostRuntime, out: &[u8], disk: &[u8]) -> io::Result<()> {
    print!(rt; "{} ", hex::encode(rt.alloc(), out)?)?;
    println!(rt; "{}", hex::encode(rt.alloc(), disk)?)
}

/// Prints the status, whether the other disks are kept, what was put, and what stands on the first disk.
fn tell_left(rt: &HostRuntime, status: u8, out: &MemSink, disks: &[MemDisk]) -> io::Result<()> {
    print!(rt; "{status} {} ", are_kept(disks))?;
    match disks.first() {
        Some(disk) => tell_bytes(rt, out.bytes(), disk.bytes()),
        None => say(rt, "no disk"),
    }
}

/// Runs the texts.
fn run_over(
    rt: &HostRuntime,
    texts: &mut MemTexts,
    out: &mut MemSink,
    disks: &mut Vec<MemDisk>,
) -> io::Result<()> {
    let asked = asked(rt.alloc())?;
    if disks.len() != COMPONENTS {
        return say(rt, "too few disks");
    }
    let status = run(rt.alloc(), &asked, texts, out, disks);
    tell_left(rt, status, out, disks.as_slice())
}

/// Runs the texts over devices some calls of which fail.
fn run_given(rt: &HostRuntime, texts: &[Vec<u8>], words: &mut Words<'_>) -> io::Result<()> {
    let Devices {
        mut texts,
        mut out,
        mut disks,
    } = make_devices(rt.alloc(), texts, words)?;
    run_over(rt, &mut texts, &mut out, &mut disks)
}

/// Devices, and the counts of their faults.
fn count_of(
    alloc: Global,
    texts: &[Vec<u8>],
    words: &mut Words<'_>,
) -> Result<Counted, AllocError> {
    let devices = make_devices(alloc, texts, words)?;
    let counts = DeviceCounts::of(
        alloc,
        &devices.texts,
        &devices.out,
        devices.disks.as_slice(),
    )?;
    Ok(Counted { devices, counts })
}

/// Begins with other devices.
fn begin_counted(
    rt: &HostRuntime,
    place: &mut Option<Counted>,
    texts: &[Vec<u8>],
    words: &mut Words<'_>,
) -> io::Result<()> {
    let counted = count_of(rt.alloc(), texts, words)?;
    drop(mem::replace(place, Some(counted)));
    say(rt, "devices")
}

/// Puts a piece.
fn put(rt: &HostRuntime, out: &mut MemSink, words: &mut Words<'_>) -> io::Result<()> {
    let piece = words.bytes(rt.alloc())?;
    tell(rt, &out.put(piece.as_slice()))
}

/// Asks for the length of the first disk.
fn length(rt: &HostRuntime, disks: &mut Vec<MemDisk>) -> io::Result<()> {
    match disks.first_mut() {
        Some(disk) => tell(rt, &disk.length()),
        None => say(rt, "no disk"),
    }
}

/// Reads the text of a name.
fn read(rt: &HostRuntime, texts: &mut MemTexts, words: &mut Words<'_>) -> io::Result<()> {
    let name = word(rt.alloc(), words.word().as_bytes())?;
    match texts.read(rt.alloc(), &name, 4096) {
        Ok(text) => tell(rt, &text.len()),
        Err(error) => tell(rt, &error),
    }
}

/// Prints the status of a call that did all, from the faults that came since the devices began.
fn status(rt: &HostRuntime, counts: &DeviceCounts, devices: &Devices) -> io::Result<()> {
    tell(
        rt,
        &counts.status(&devices.texts, &devices.out, devices.disks.as_slice()),
    )
}

/// Makes a call on devices whose faults are counted.
fn call(
    rt: &HostRuntime,
    counted: &mut Counted,
    what: &str,
    words: &mut Words<'_>,
) -> io::Result<()> {
    match what {
        "put" => put(rt, &mut counted.devices.out, words),
        "length" => length(rt, &mut counted.devices.disks),
        "read" => read(rt, &mut counted.devices.texts, words),
        "status" => status(rt, &counted.counts, &counted.devices),
        other => no_call(rt, other),
    }
}

impl Cases {
    /// No text.
    pub fn new(alloc: Global) -> Cases {
        Cases {
            texts: Vec::new(alloc),
            counted: None,
        }
    }
}

impl Answers for Cases {
    fn answer(&mut self, rt: &HostRuntime, words: &mut Words<'_>) -> io::Result<()> {
        match words.word() {
            "texts" => begin(rt, &mut self.texts, words),
            "run" => run_given(rt, self.texts.as_slice(), words),
            "devices" => begin_counted(rt, &mut self.counted, self.texts.as_slice(), words),
            what => match &mut self.counted {
                Some(counted) => call(rt, counted, what, words),
                None => say(rt, "no devices"),
            },
        }
    }
}
