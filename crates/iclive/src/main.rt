//! Runs a scenario and a plan in threads over log files, and prints what was shown and what the run came to (docs/RULES.md, "Live runs").
#![tactic(auto)]

mod call;

use call::live;
use ic_disk::{Access, FileTexts, StdSink};
use ic_host::{LOG_ENDING, disks_of, words_of};
use ic_report::NO_MEMORY;
use std::io::ErrorKind;
use std::process::ExitCode;

fn main(rt: HostRuntime) -> ExitCode {
    let words = match words_of(&rt) {
        Ok(words) => words,
        Err(error) if error.kind() == ErrorKind::OutOfMemory => return ExitCode::from(NO_MEMORY),
        // Words that are no text have no form either.
        Err(_) => Vec::new(rt.alloc()),
    };
    let Ok(mut disks) = disks_of(rt.alloc(), rt, "iclive", LOG_ENDING, Access::Write) else {
        return ExitCode::from(NO_MEMORY);
    };
    let mut texts = FileTexts::new(rt);
    let mut out = StdSink::new(rt);
    let status = live(&rt, rt.alloc(), &words, &mut texts, &mut out, &mut disks);
    ExitCode::from(status)
}
