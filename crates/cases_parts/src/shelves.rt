use case_words::{Words, no_call, tell};
use ic_base::limits::GREATEST_NUMBER;
use ic_base::{Out, Outputs};
use ic_edge::Shelf;
use std::alloc::{AllocError, Global};
use std::{io, mem};

/// Adds an output that is due where the log is forced up to `at`; answers its number, or 0 for none.
fn add(rt: &HostRuntime, shelf: &mut Shelf, words: &mut Words<'_>) -> Result<u64, AllocError> {
    shelf.reserve(1)?;
    let (to, at) = (words.com(), words.number());
    let Some(args) = words.args(rt.alloc())? else {
        return Ok(0);
    };
    if shelf.made() >= GREATEST_NUMBER {
        return Ok(0);
    }
    shelf.add(Out { to, args }, at);
    Ok(shelf.made())
}

/// A shelf that has made so many outputs.
fn begun(alloc: Global, made: u64) -> Result<Shelf, AllocError> {
    let none = Outputs::new(alloc);
    Shelf::from_parts(alloc, made, &none)
}

/// Begins another shelf.
fn begin(rt: &HostRuntime, shelf: &mut Shelf, words: &mut Words<'_>) -> io::Result<()> {
    let other = begun(rt.alloc(), words.number())?;
    drop(mem::replace(shelf, other));
    tell(rt, &shelf.made())
}

/// The oldest output of a copy.
fn oldest(rt: &HostRuntime, shelf: &Shelf) -> io::Result<()> {
    let copy = shelf.copy(rt.alloc())?;
    tell(rt, &copy.oldest())
}

/// Makes a call on a shelf. `made` begins one that has made so many outputs.
pub fn answer(rt: &HostRuntime, shelf: &mut Shelf, words: &mut Words<'_>) -> io::Result<()> {
    match words.word() {
        "made" => begin(rt, shelf, words),
        "add" => tell(rt, &add(rt, shelf, words)?),
        "due" => tell(rt, &shelf.next_due(words.number())),
        "shown" => tell(rt, &shelf.shown(words.number())),
        "waiting" => tell(rt, &shelf.waiting(usize::from(words.place()))),
        "oldest" => oldest(rt, shelf),
        "len" => tell(rt, &shelf.len()),
        other => no_call(rt, other),
    }
}
