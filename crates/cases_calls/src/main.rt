//! Reads calls on whole components over disks in memory from standard input, one a line, and prints what each answers.
#![tactic(auto)]

mod cases;
mod disks;
mod pcoms;
mod tcoms;

use case_words::answer_lines;
use cases::Cases;
use std::io;

fn main(rt: HostRuntime) -> io::Result<()> {
    let mut cases = Cases::new(rt.alloc());
    let answered = answer_lines(&rt, &mut cases);
    drop(cases);
    answered
}
