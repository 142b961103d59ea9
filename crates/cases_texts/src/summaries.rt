use case_words::{Words, tell};
use ic_base::{Items, Program, Stand, States, Summary};
use ic_report::summary_bytes;
use std::alloc::{AllocError, Global};
use std::{io, str};

/// How the components stand, to the end of the words: `up` and values behind their count, `replaying`, `down` or `external`.
fn states(alloc: Global, words: &mut Words<'_>) -> Result<States, AllocError> {
    let mut states = States::new(alloc);
    for _ in 0..words.byte() {
        let stand = match words.word() {
            "up" => Stand::Up(Items::from_vec(words.values(alloc)?)),
            "replaying" => Stand::Replaying,
            "down" => Stand::Down,
            _ => Stand::External,
        };
        states.push(stand)?;
    }
    Ok(states)
}

/// Writes the summary of a run.
pub fn answer(rt: &HostRuntime, program: &Program, words: &mut Words<'_>) -> io::Result<()> {
    let summary = Summary {
        taken: words.number(),
        kept: words.number(),
        lost: words.number(),
        missed: words.number(),
        first: words.number(),
        again: words.number(),
        played: words.number(),
        history: words.number(),
        settled: words.flag(),
        states: states(rt.alloc(), words)?,
    };
    let made = summary_bytes(rt.alloc(), program, &summary)?;
    tell(rt, &str::from_utf8(made.as_slice()))
}
