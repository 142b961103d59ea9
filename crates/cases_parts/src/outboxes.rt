use case_words::{Words, no_call, say, tell};
use ic_base::{Args, ComId, Msg};
use ic_out::Outbox;
use std::alloc::AllocError;
use std::{io, mem};

/// The component that sends.
const OWN: ComId = ComId(1);

/// Sends the next message to a component, due where the log is forced up to `at`.
fn send(outbox: &mut Outbox, to: ComId, at: u64, args: Args) -> Result<u64, AllocError> {
    outbox.reserve(1)?;
    let Some(k) = outbox.sent(to).checked_add(1) else {
        return Ok(0);
    };
    let msg = Msg {
        from: OWN,
        to,
        k,
        stamp: at,
        handler: 0,
        args,
    };
    outbox.add(msg, at);
    Ok(k)
}

/// Sends so many messages, each due one byte behind the one before.
fn send_many(outbox: &mut Outbox, words: &mut Words<'_>) -> Result<u64, AllocError> {
    let (to, count) = (words.com(), words.medium());
    let Some(none) = Args::of(&[]) else {
        return Ok(0);
    };
    for at in 0..count {
        let _k = send(outbox, to, u64::from(at), none)?;
    }
    Ok(outbox.sent(to))
}

/// Asks so often for the next message that is due, where the log is forced one byte further each time, and folds the numbers.
fn put_many(outbox: &mut Outbox, words: &mut Words<'_>) -> (u64, u64) {
    let (first, count) = (words.number(), words.medium());
    let (mut forced, mut put, mut fold) = (first, 0_u64, 0_u64);
    for _ in 0..count {
        if let Some(msg) = outbox.next_due(forced) {
            put = put.wrapping_add(1);
            fold = fold.wrapping_mul(31).wrapping_add(msg.k);
        }
        forced = forced.wrapping_add(1);
    }
    (put, fold)
}

/// Marks so many messages as stable, or takes them away as installed, each by a step from the one before. Counts those that
/// were held.
fn mark_many(outbox: &mut Outbox, words: &mut Words<'_>) -> u64 {
    let installs = words.word() == "installed";
    let (to, first, step, count) = (words.com(), words.number(), words.value(), words.medium());
    let (mut k, mut marked) = (first, 0_u64);
    for _ in 0..count {
        let held = if installs {
            outbox.installed(to, k)
        } else {
            outbox.stable(to, k)
        };
        if held {
            marked = marked.wrapping_add(1);
        }
        k = k.wrapping_add_signed(step);
    }
    marked
}

/// Begins another outbox.
fn begin(rt: &HostRuntime, outbox: &mut Outbox) -> io::Result<()> {
    drop(mem::replace(outbox, Outbox::new(rt.alloc())));
    say(rt, "new")
}

/// Sends a message: its receiver, where it is due, and its values.
fn send_given(rt: &HostRuntime, outbox: &mut Outbox, words: &mut Words<'_>) -> io::Result<()> {
    let (to, at) = (words.com(), words.number());
    match words.args(rt.alloc())? {
        Some(args) => tell(rt, &send(outbox, to, at, args)?),
        None => say(rt, "too many values"),
    }
}

/// Makes a call on an outbox.
pub fn answer(rt: &HostRuntime, outbox: &mut Outbox, words: &mut Words<'_>) -> io::Result<()> {
    match words.word() {
        "new" => begin(rt, outbox),
        "send" => send_given(rt, outbox, words),
        "many" => tell(rt, &send_many(outbox, words)?),
        "put_many" => tell(rt, &put_many(outbox, words)),
        "mark_many" => tell(rt, &mark_many(outbox, words)),
        "due" => tell(rt, &outbox.next_due(words.number())),
        "stable" => tell(rt, &outbox.stable(words.com(), words.number())),
        "installed" => tell(rt, &outbox.installed(words.com(), words.number())),
        "put_all" => put_all(rt, outbox),
        what => read(rt, outbox, what, words),
    }
}

fn put_all(rt: &HostRuntime, outbox: &mut Outbox) -> io::Result<()> {
    outbox.put_all();
    say(rt, "put")
}

/// All messages that aren't stable where the log is forced up to there.
fn all(rt: &HostRuntime, outbox: &Outbox, words: &mut Words<'_>) -> io::Result<()> {
    let all = outbox.all_unstable(rt.alloc(), words.number())?;
    tell(rt, &all)
}

/// How many receivers a copy has.
fn copied(rt: &HostRuntime, outbox: &Outbox) -> io::Result<()> {
    let copy = outbox.copy(rt.alloc())?;
    tell(rt, &copy.len())
}

/// The message that a receiver fetches by its number where the log is forced up to there.
fn fetch(rt: &HostRuntime, outbox: &Outbox, words: &mut Words<'_>) -> io::Result<()> {
    let (to, k, forced) = (words.com(), words.number(), words.number());
    tell(rt, &outbox.fetch(to, k, forced))
}

/// The message of a place among those that aren't stable where the log is forced up to there.
fn unstable(rt: &HostRuntime, outbox: &Outbox, words: &mut Words<'_>) -> io::Result<()> {
    let (i, forced) = (usize::from(words.place()), words.number());
    tell(rt, &outbox.unstable(i, forced))
}

/// What is read of it.
fn read(rt: &HostRuntime, outbox: &Outbox, what: &str, words: &mut Words<'_>) -> io::Result<()> {
    match what {
        "sent" => tell(rt, &outbox.sent(words.com())),
        "fetch" => fetch(rt, outbox, words),
        "unstable" => unstable(rt, outbox, words),
        "all" => all(rt, outbox, words),
        "link" => tell(rt, &outbox.link(usize::from(words.place()))),
        "held" => tell(rt, &outbox.held(usize::from(words.place()))),
        "copy" => copied(rt, outbox),
        other => no_call(rt, other),
    }
}
