use case_words::{Words, no_call, packet, say, tell};
use ic_base::limits::COMPONENTS;
use ic_base::{ComId, Packet, Program};
use ic_tcom::{Book, Engine, Serving};
use std::alloc::{AllocError, Global};
use std::{io, mem};

/// A Tcom without its log.
#[derive(Drop)]
pub struct Ledger {
    com: ComId,
    engine: Engine,
}

/// The Tcom behind a recovery of an empty log.
fn behind_recovery(
    alloc: Global,
    program: &Program,
    com: ComId,
) -> Result<Option<Ledger>, AllocError> {
    let book = Book::first(alloc, program, com)?;
    if book.epoch() != 1 {
        return Ok(None);
    }
    let engine = Engine::in_next_epoch(alloc, book);
    Ok(Some(Ledger { com, engine }))
}

/// Serves a packet, and enters the decision that it asks for.
fn serve(
    rt: &HostRuntime,
    program: &Program,
    com: ComId,
    engine: &mut Engine,
    p: &Packet,
) -> io::Result<()> {
    if program.components.len() > COMPONENTS {
        return say(rt, "too many components");
    }
    match engine.serve(rt.alloc(), program, com, p)? {
        Serving::Answered(answer) => tell(rt, &answer),
        Serving::Decides(decided, answer) => {
            engine.enter(&decided);
            println!(rt; "{:?} {decided:?}", Some(answer))
        }
        Serving::Full => say(rt, "Full"),
    }
}

/// What is read of it.
fn read(rt: &HostRuntime, engine: &Engine, what: &str, words: &mut Words<'_>) -> io::Result<()> {
    match what {
        "ledger" => tell(rt, &engine.ledger(words.place())),
        "decided" => tell(rt, &engine.decided(words.com(), words.number())),
        "state" => println!(rt; "{} {}", engine.epoch(), engine.sessions()),
        other => no_call(rt, other),
    }
}

/// Serves the packet of the words.
fn serve_given(
    rt: &HostRuntime,
    program: &Program,
    ledger: &mut Ledger,
    words: &mut Words<'_>,
) -> io::Result<()> {
    match packet(rt.alloc(), words)? {
        Some(p) => serve(rt, program, ledger.com, &mut ledger.engine, &p),
        None => say(rt, "no packet"),
    }
}

/// Begins a Tcom.
fn begin(
    rt: &HostRuntime,
    place: &mut Option<Ledger>,
    program: &Program,
    words: &mut Words<'_>,
) -> io::Result<()> {
    let com = words.com();
    let engine = Engine::fresh(rt.alloc(), program, com)?;
    drop(mem::replace(place, Some(Ledger { com, engine })));
    say(rt, "new")
}

/// Goes on with a Tcom behind a recovery.
fn go_on(
    rt: &HostRuntime,
    place: &mut Option<Ledger>,
    program: &Program,
    words: &mut Words<'_>,
) -> io::Result<()> {
    let ledger = behind_recovery(rt.alloc(), program, words.com())?;
    drop(mem::replace(place, ledger));
    say(rt, "next")
}

/// Makes a call on a Tcom.
fn call(
    rt: &HostRuntime,
    program: &Program,
    ledger: &mut Ledger,
    what: &str,
    words: &mut Words<'_>,
) -> io::Result<()> {
    match what {
        "serve" => serve_given(rt, program, ledger, words),
        _ => read(rt, &ledger.engine, what, words),
    }
}

/// Makes the call of a line on a Tcom, where there is one.
pub fn answer(
    rt: &HostRuntime,
    place: &mut Option<Ledger>,
    program: &Program,
    words: &mut Words<'_>,
) -> io::Result<()> {
    match words.word() {
        "new" => begin(rt, place, program, words),
        "next" => go_on(rt, place, program, words),
        what => match place {
            Some(ledger) => call(rt, program, ledger, what, words),
            None => say(rt, "no ledger"),
        },
    }
}
