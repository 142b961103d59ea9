//! Reads texts, plays and reports from standard input, one a line, and prints what reading, playing and writing them answers.
#![tactic(auto)]

mod cases;
mod faults;
mod plays;
mod summaries;
mod texts;
mod tokens;
mod traces;

use case_words::answer_lines;
use cases::Cases;
use std::io;

fn main(rt: HostRuntime) -> io::Result<()> {
    let mut cases = Cases::new(rt.alloc());
    answer_lines(&rt, &mut cases)
}
