use case_words::{Words, no_call, packet, request, say, tell};
use ic_base::limits::GREATEST_NUMBER;
use ic_txn::Txn;
use std::io;

/// Begins a transaction by its first request, goes on to the next one, or asks for the commit, where it can.
fn advance(txn: &mut Txn, words: &mut Words<'_>) -> bool {
    match words.word() {
        "begin" if txn.begun() < GREATEST_NUMBER => txn.begin(words.com(), request(words)),
        "ask" if txn.has_next_place() => txn.ask(request(words)),
        "ready" if txn.has_next_place() => txn.ready(),
        "end" => txn.end(),
        _ => return false,
    }
    true
}

/// What a packet is to a transaction: the value that it answers, and the decision.
fn receive(rt: &HostRuntime, txn: &mut Txn, words: &mut Words<'_>) -> io::Result<()> {
    let replies = words.word() == "reply";
    let Some(p) = packet(rt.alloc(), words)? else {
        return say(rt, "no packet");
    };
    if replies {
        tell(rt, &txn.reply(&p))
    } else {
        tell(rt, &txn.outcome(&p))
    }
}

/// Goes on behind so many transactions.
fn begun(rt: &HostRuntime, txn: &mut Txn, words: &mut Words<'_>) -> io::Result<()> {
    *txn = Txn::from_parts(words.number(), None);
    tell(rt, &txn.begun())
}

/// Prints how it stands.
fn state(rt: &HostRuntime, txn: &Txn) -> io::Result<()> {
    println!(rt;
        "{} {} {} {:?}",
        txn.begun(),
        txn.is_idle(),
        txn.is_committing(),
        txn.last()
    )
}

/// Makes a call on a Pcom's side of a transaction. `begun` begins with so many ended ones.
pub fn answer(rt: &HostRuntime, txn: &mut Txn, words: &mut Words<'_>) -> io::Result<()> {
    match words.word() {
        "begun" => begun(rt, txn, words),
        "do" => tell(rt, &advance(txn, words)),
        "get" => receive(rt, txn, words),
        "pending" => tell(rt, &txn.pending(words.com(), words.number())),
        "state" => state(rt, txn),
        other => no_call(rt, other),
    }
}
