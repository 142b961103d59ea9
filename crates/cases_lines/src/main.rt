//! Reads calls on sources of lines from standard input, one a line, and prints what is answered.
#![tactic(auto)]

mod case_reader;

use case_reader::CaseReader;
use case_words::{Answers, Words, answer_lines, no_call, say, tell};
use ic_lines::{Lines, MemLines, ReaderLines};
use std::alloc::{AllocError, Global};
use std::io::BufReader;
use std::{io, mem};

/// The lines that are read.
#[derive(Drop)]
enum Source {
    Memory(MemLines),
    Reader(ReaderLines<BufReader<CaseReader>>),
}

/// The lines on which the calls are made, where there are some.
#[derive(Drop)]
struct Cases {
    source: Option<Source>,
}

/// A reader of a text of which some reads fail.
fn reader(alloc: Global, words: &mut Words<'_>) -> Result<CaseReader, AllocError> {
    let text = words.bytes(alloc)?;
    Ok(CaseReader::new(text, words.numbers(alloc)?))
}

/// The lines of a reader whose buffer has this many bytes.
fn reader_lines(
    rt: &HostRuntime,
    words: &mut Words<'_>,
) -> io::Result<ReaderLines<BufReader<CaseReader>>> {
    let capacity = usize::from(words.byte());
    let reader = reader(rt.alloc(), words)?;
    let buffered = BufReader::with_capacity(rt.alloc(), capacity, reader)?;
    Ok(ReaderLines::new(buffered))
}

/// The lines of a text of which some reads fail.
fn lines_of(alloc: Global, text: &[u8], words: &mut Words<'_>) -> Result<MemLines, AllocError> {
    let failing = words.numbers(alloc)?;
    MemLines::new(alloc, text, failing.as_slice())
}

/// The lines of a text in memory.
fn memory_lines(alloc: Global, words: &mut Words<'_>) -> Result<MemLines, AllocError> {
    let text = words.bytes(alloc)?;
    lines_of(alloc, text.as_slice(), words)
}

/// Begins with the lines of a text in memory.
fn begin_memory(
    rt: &HostRuntime,
    place: &mut Option<Source>,
    words: &mut Words<'_>,
) -> io::Result<()> {
    let lines = memory_lines(rt.alloc(), words)?;
    drop(mem::replace(place, Some(Source::Memory(lines))));
    say(rt, "memory")
}

/// Begins with the lines of a reader.
fn begin_reader(
    rt: &HostRuntime,
    place: &mut Option<Source>,
    words: &mut Words<'_>,
) -> io::Result<()> {
    let lines = reader_lines(rt, words)?;
    drop(mem::replace(place, Some(Source::Reader(lines))));
    say(rt, "reader")
}

/// What is read next, or how often a read failed.
fn call<L: Lines>(
    rt: &HostRuntime,
    lines: &mut L,
    call: &str,
    words: &mut Words<'_>,
) -> io::Result<()> {
    match call {
        "next" => tell(rt, &lines.next(rt.alloc(), usize::from(words.place()))),
        "faults" => tell(rt, &lines.fault_count()),
        other => no_call(rt, other),
    }
}

impl Answers for Cases {
    fn answer(&mut self, rt: &HostRuntime, words: &mut Words<'_>) -> io::Result<()> {
        match words.word() {
            "memory" => begin_memory(rt, &mut self.source, words),
            "reader" => begin_reader(rt, &mut self.source, words),
            what => match &mut self.source {
                Some(Source::Memory(lines)) => call(rt, lines, what, words),
                Some(Source::Reader(lines)) => call(rt, lines, what, words),
                None => say(rt, "no lines"),
            },
        }
    }
}

fn main(rt: HostRuntime) -> io::Result<()> {
    let mut cases = Cases { source: None };
    answer_lines(&rt, &mut cases)
}
