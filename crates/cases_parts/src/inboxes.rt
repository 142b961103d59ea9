use case_words::{Words, no_call, say, tell};
use ic_base::ComId;
use ic_base::limits::GREATEST_NUMBER;
use ic_in::Inbox;
use std::alloc::AllocError;
use std::{io, mem};

/// Takes a message whose record ends at `at`, if it is new.
fn take(inbox: &mut Inbox, from: ComId, k: u64, at: u64, whole: bool) -> Result<bool, AllocError> {
    inbox.reserve(1)?;
    if k == 0 || k > GREATEST_NUMBER || !inbox.is_new(from, k) {
        return Ok(false);
    }
    inbox.took(from, k, at, whole);
    Ok(true)
}

/// Takes so many messages, each by a step from the one before, and counts those that are new.
fn take_many(inbox: &mut Inbox, words: &mut Words<'_>) -> Result<u64, AllocError> {
    let (from, first, step, count) = (words.com(), words.number(), words.value(), words.medium());
    let (mut k, mut taken) = (first, 0_u64);
    for at in 0..count {
        if take(inbox, from, k, u64::from(at), false)? {
            taken = taken.wrapping_add(1);
        }
        k = k.wrapping_add_signed(step);
    }
    Ok(taken)
}

/// Asks so often what is told next, where the log is forced one byte further each time, and folds the numbers and levels.
fn tell_many(inbox: &mut Inbox, words: &mut Words<'_>) -> (u64, u64) {
    let (first, step, count) = (words.number(), words.number(), words.medium());
    let (mut forced, mut told, mut fold) = (first, 0_u64, 0_u64);
    for _ in 0..count {
        if let Some(ack) = inbox.next_ack(forced) {
            told = told.wrapping_add(1);
            fold = fold.wrapping_mul(31).wrapping_add(ack.k);
        }
        forced = forced.wrapping_add(step);
    }
    (told, fold)
}

/// Begins another inbox.
fn begin(rt: &HostRuntime, inbox: &mut Inbox) -> io::Result<()> {
    drop(mem::replace(inbox, Inbox::new(rt.alloc())));
    say(rt, "new")
}

/// Takes a message: its sender and number, where its record ends, and whether it is taken whole.
fn took(rt: &HostRuntime, inbox: &mut Inbox, words: &mut Words<'_>) -> io::Result<()> {
    let (from, k, at, whole) = (words.com(), words.number(), words.number(), words.flag());
    tell(rt, &take(inbox, from, k, at, whole)?)
}

/// Makes a call on an inbox.
pub fn answer(rt: &HostRuntime, inbox: &mut Inbox, words: &mut Words<'_>) -> io::Result<()> {
    match words.word() {
        "new" => begin(rt, inbox),
        "took" => took(rt, inbox, words),
        "many" => tell(rt, &take_many(inbox, words)?),
        "tell" => tell(rt, &tell_many(inbox, words)),
        "ack" => tell(rt, &inbox.next_ack(words.number())),
        "cover" => {
            inbox.cover(words.number());
            say(rt, "covered")
        }
        what => read(rt, inbox, what, words),
    }
}

/// The number of a message that stands above a gap: the places of its sender and of itself.
fn above(rt: &HostRuntime, inbox: &Inbox, words: &mut Words<'_>) -> io::Result<()> {
    let (i, j) = (usize::from(words.place()), usize::from(words.place()));
    tell(rt, &inbox.above(i, j))
}

/// How many senders a copy has.
fn copied(rt: &HostRuntime, inbox: &Inbox) -> io::Result<()> {
    let copy = inbox.copy(rt.alloc())?;
    tell(rt, &copy.len())
}

/// What is read of it: the level of a message, whether it is new, what an image would keep of a sender.
fn read(rt: &HostRuntime, inbox: &Inbox, what: &str, words: &mut Words<'_>) -> io::Result<()> {
    match what {
        "level" => tell(
            rt,
            &inbox.level(words.com(), words.number(), words.number()),
        ),
        "is_new" => tell(rt, &inbox.is_new(words.com(), words.number())),
        "sender" => tell(rt, &inbox.sender(usize::from(words.place()))),
        "above" => above(rt, inbox, words),
        "copy" => copied(rt, inbox),
        other => no_call(rt, other),
    }
}
