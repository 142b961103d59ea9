//! Reads calls on the parts of components from standard input, one a line, and prints what each answers, one a line.
#![tactic(auto)]

mod cases;
mod devices;
mod effects;
mod files;
mod images;
mod inboxes;
mod ledgers;
mod logs;
mod networks;
mod outboxes;
mod record_logs;
mod replays;
mod shelves;
mod tables;
mod telling;
mod transactions;
mod wires;

use case_words::answer_lines;
use cases::Cases;
use std::io;

fn main(rt: HostRuntime) -> io::Result<()> {
    let mut cases = Cases::new(rt)?;
    answer_lines(&rt, &mut cases)
}
