use case_words::{Words, say, tell};
use ic_base::{Args, ComId, Done, Dones, Items, Program, Vals};
use ic_eval::play;
use std::alloc::{AllocError, Global};
use std::io;

/// The results of transactions behind their count: `aborted`, or `committed` and answers behind their count.
fn results(alloc: Global, words: &mut Words<'_>) -> Result<Dones, AllocError> {
    let mut dones = Items::new(alloc);
    for _ in 0..words.byte() {
        if words.word() == "committed" {
            dones.push(Done::Committed(Items::from_vec(words.values(alloc)?)))?;
        } else {
            dones.push(Done::Aborted)?;
        }
    }
    Ok(dones)
}

/// Plays a handler that is there.
fn played(
    rt: &HostRuntime,
    program: &Program,
    com: ComId,
    handler: u8,
    args: Args,
    vars: &Vals,
    words: &mut Words<'_>,
) -> io::Result<()> {
    let done = results(rt.alloc(), words)?;
    let now = Items::from_vec(words.values(rt.alloc())?);
    if usize::from(com.0) >= program.components.len() {
        return say(rt, "no component");
    }
    let component = program.component(com);
    if usize::from(handler) >= component.handlers.len() {
        return say(rt, "no handler");
    }
    tell(
        rt,
        &play(rt.alloc(), program, com, handler, vars, args, &done, &now)?,
    )
}

/// Plays a handler: its component and number, then the variables, the arguments, the results of ended transactions and the
/// answers of the present one, each behind its count.
pub fn answer(rt: &HostRuntime, program: &Program, words: &mut Words<'_>) -> io::Result<()> {
    let (com, handler) = (words.com(), words.byte());
    let vars = Items::from_vec(words.values(rt.alloc())?);
    match Args::of(words.values(rt.alloc())?.as_slice()) {
        Some(args) => played(rt, program, com, handler, args, &vars, words),
        None => say(rt, "too many values"),
    }
}
