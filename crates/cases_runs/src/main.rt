//! Runs texts over devices in memory some calls of which fail, as standard input asks, one call a line, and prints what is left.
#![tactic(auto)]

mod cases;
mod devices;

use case_words::answer_lines;
use cases::Cases;
use std::io;

fn main(rt: HostRuntime) -> io::Result<()> {
    let mut cases = Cases::new(rt.alloc());
    answer_lines(&rt, &mut cases)
}
