use crate::telling::say_bytes;
use case_words::{Words, no_call, tell};
use ic_base::{ComId, Program};
use ic_ckpt::{State, image_bytes, read_image};
use std::alloc::{AllocError, Global};
use std::io;

/// Reads an image of a component, and writes the image of the state that it holds.
fn read_bytes(rt: &HostRuntime, program: &Program, com: ComId, bytes: &[u8]) -> io::Result<()> {
    match read_image(rt.alloc(), program, com, bytes) {
        Ok(state) => {
            let again = image_bytes(rt.alloc(), &state)?;
            say_bytes(rt, again.as_slice())
        }
        Err(refused) => tell(rt, &refused),
    }
}

/// Reads an image: its component and bytes.
fn read(rt: &HostRuntime, program: &Program, words: &mut Words<'_>) -> io::Result<()> {
    let com = words.com();
    let bytes = words.bytes(rt.alloc())?;
    read_bytes(rt, program, com, bytes.as_slice())
}

/// A copy of a component's first state.
fn first_copy(alloc: Global, program: &Program, com: ComId) -> Result<State, AllocError> {
    let mut first = State::first(alloc, program, com)?;
    first.reserve(2, 3, 4)?;
    first.copy(alloc)
}

/// The values of a copy of a component's first state, and how many outputs it has made.
fn first(rt: &HostRuntime, program: &Program, words: &mut Words<'_>) -> io::Result<()> {
    let copy = first_copy(rt.alloc(), program, words.com())?;
    println!(rt; "{:?} {}", copy.vars.as_slice(), copy.shelf.made())
}

/// Makes a call on images.
pub fn answer(rt: &HostRuntime, program: &Program, words: &mut Words<'_>) -> io::Result<()> {
    match words.word() {
        "read" => read(rt, program, words),
        "first" => first(rt, program, words),
        other => no_call(rt, other),
    }
}
