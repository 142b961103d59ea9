//! Serves lines to a run over log files (docs/RULES.md, "A served run").
#![tactic(auto)]

use ic_base::Word;
use ic_disk::{Access, FileTexts, StdSink};
use ic_host::{LOG_ENDING, awaits_migration, disks_of, refuse_former_logs, words_of};
use ic_lines::standard_lines;
use ic_report::NO_MEMORY;
use ic_serve::serve;
use std::alloc::AllocError;
use std::io::ErrorKind;
use std::process::ExitCode;

/// The program whose log files these are, so that its calls read them.
const PROGRAM: &str = "icrun";

/// Serves the lines of standard input over the log files, and answers the status.
fn serve_files(rt: HostRuntime, words: &Vec<Word>) -> Result<u8, AllocError> {
    let mut disks = disks_of(rt.alloc(), rt, PROGRAM, LOG_ENDING, Access::Write)?;
    let Ok(mut lines) = standard_lines(&rt) else {
        return Ok(NO_MEMORY);
    };
    let mut texts = FileTexts::new(rt);
    let mut out = StdSink::new(rt);
    if awaits_migration(&rt, PROGRAM)? {
        return refuse_former_logs(rt.alloc(), "icserve", &mut out);
    }
    Ok(serve(
        rt.alloc(),
        words,
        &mut texts,
        &mut lines,
        &mut out,
        &mut disks,
    ))
}

fn main(rt: HostRuntime) -> ExitCode {
    let words = match words_of(&rt) {
        Ok(words) => words,
        Err(error) if error.kind() == ErrorKind::OutOfMemory => return ExitCode::from(NO_MEMORY),
        // Words that are no text have no form either.
        Err(_) => Vec::new(rt.alloc()),
    };
    ExitCode::from(serve_files(rt, &words).unwrap_or(NO_MEMORY))
}
