use crate::Words;
use ic_base::{AbortCause, Args, ComId, Decision, Msg, Packet, Request, Session};
use std::alloc::{AllocError, Global};

/// A session is its epoch and its counter; `0 0` is none.
fn session(words: &mut Words<'_>) -> Option<Session> {
    let session = Session {
        epoch: words.number(),
        counter: words.number(),
    };
    if session.epoch == 0 && session.counter == 0 {
        return None;
    }
    Some(session)
}

/// A request is `get KEY` or `put KEY VALUE`.
pub fn request(words: &mut Words<'_>) -> Request {
    let puts = words.word() == "put";
    let key = words.place();
    if puts {
        Request::Put(key, words.value())
    } else {
        Request::Get(key)
    }
}

/// A cause is `need LINE`, `held COM NUMBER` or `epoch OLD PRESENT`.
fn cause_of(what: &str, words: &mut Words<'_>) -> AbortCause {
    match what {
        "need" => AbortCause::Need(words.medium()),
        "held" => AbortCause::Held(words.com(), words.number()),
        _ => AbortCause::Epoch(words.number(), words.number()),
    }
}

/// The cause that the words are: `need LINE`, `held COM NUMBER` or `epoch OLD PRESENT`.
pub fn cause(words: &mut Words<'_>) -> AbortCause {
    let what = words.word();
    cause_of(what, words)
}

/// A decision is `committed STAMP` or a cause.
fn decision(words: &mut Words<'_>) -> Decision {
    match words.word() {
        "committed" => Decision::Committed(words.number()),
        what => Decision::Aborted(cause_of(what, words)),
    }
}

fn message(
    alloc: Global,
    from: ComId,
    to: ComId,
    words: &mut Words<'_>,
) -> Result<Option<Packet>, AllocError> {
    let (k, stamp, handler) = (words.number(), words.number(), words.byte());
    let Some(args) = words.args(alloc)? else {
        return Ok(None);
    };
    Ok(Some(Packet::Data(Msg {
        from,
        to,
        k,
        stamp,
        handler,
        args,
    })))
}

/// What each packet of a request, a commit and an outcome has first.
#[derive(Clone, Copy)]
struct Head {
    from: ComId,
    to: ComId,
    n: u64,
    place: u16,
}

/// What is said in a session that there is.
fn of_session(kind: &str, head: Head, session: Session, words: &mut Words<'_>) -> Option<Packet> {
    let Head { from, to, n, place } = head;
    match kind {
        "reply" => Some(Packet::OpReply {
            from,
            to,
            n,
            place,
            session,
            value: words.value(),
        }),
        "commit" => Some(Packet::Commit {
            from,
            to,
            n,
            place,
            session,
            stamp: words.number(),
        }),
        _ => None,
    }
}

/// What a Pcom and a Tcom say to each other about a place.
fn of_transaction(kind: &str, head: Head, words: &mut Words<'_>) -> Option<Packet> {
    let session = session(words);
    let Head { from, to, n, place } = head;
    match kind {
        "op" => Some(Packet::Op {
            from,
            to,
            n,
            place,
            session,
            request: request(words),
        }),
        "outcome" => Some(Packet::Outcome {
            from,
            to,
            n,
            place,
            session,
            decision: decision(words),
        }),
        _ => of_session(kind, head, session?, words),
    }
}

/// A packet other than a message.
fn numbered(kind: &str, from: ComId, to: ComId, words: &mut Words<'_>) -> Option<Packet> {
    let n = words.number();
    match kind {
        "stable" => Some(Packet::Stable { from, to, k: n }),
        "installed" => Some(Packet::Installed { from, to, k: n }),
        "fetch" => Some(Packet::Fetch { from, to, k: n }),
        "drop" => Some(Packet::Drop { from, to, n }),
        _ => {
            let place = words.place();
            of_transaction(kind, Head { from, to, n, place }, words)
        }
    }
}

/// The packet that the words are: its kind, sender and receiver, and what else it has. `data` has its number, stamp, handler
/// and values; `stable`, `installed` and `fetch` have a number; those of a transaction have its number and, except `drop`, a
/// place, a session and a request, a value, a stamp or a decision.
pub fn packet(alloc: Global, words: &mut Words<'_>) -> Result<Option<Packet>, AllocError> {
    let (kind, from, to) = (words.word(), words.com(), words.com());
    match kind {
        "data" => message(alloc, from, to, words),
        _ => Ok(numbered(kind, from, to, words)),
    }
}
