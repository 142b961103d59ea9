//! Runs a scenario and a schedule over log files, and prints what happened (docs/RULES.md).
#![tactic(auto)]

use ic_base::Word;
use ic_call::{access_of, migrate, run};
use ic_disk::{Access, FileTexts, StdSink};
use ic_host::{
    FORMER_LOG_ENDING, LOG_ENDING, awaits_migration, disks_of, refuse_former_logs, words_of,
};
use ic_plan::{Command, asks_to_migrate, command_of};
use ic_report::NO_MEMORY;
use std::alloc::AllocError;
use std::io::ErrorKind;
use std::process::ExitCode;

/// The name with which those of its log files begin.
const PROGRAM: &str = "icrun";

/// Whether the words ask for a run that makes its logs.
fn makes_logs(words: &[Word]) -> bool {
    match command_of(words) {
        Some(Command::Run(_) | Command::Make(_)) => true,
        _ => false,
    }
}

/// Does what the words ask for over the log files, and answers the status.
fn run_files(rt: HostRuntime, words: &Vec<Word>) -> Result<u8, AllocError> {
    let access = access_of(words.as_slice());
    let mut disks = disks_of(rt.alloc(), rt, PROGRAM, LOG_ENDING, access)?;
    let mut texts = FileTexts::new(rt);
    let mut out = StdSink::new(rt);
    if makes_logs(words.as_slice()) && awaits_migration(&rt, PROGRAM)? {
        return refuse_former_logs(rt.alloc(), PROGRAM, &mut out);
    }
    Ok(run(rt.alloc(), words, &mut texts, &mut out, &mut disks))
}

/// Migrates log files of the former format, and answers the status.
fn migrate_files(rt: HostRuntime, words: &Vec<Word>) -> Result<u8, AllocError> {
    let mut old = disks_of(rt.alloc(), rt, PROGRAM, FORMER_LOG_ENDING, Access::Read)?;
    let mut new = disks_of(rt.alloc(), rt, PROGRAM, LOG_ENDING, Access::Write)?;
    let mut texts = FileTexts::new(rt);
    let mut out = StdSink::new(rt);
    Ok(migrate(rt.alloc(), words, &mut texts, &mut out, &mut old, &mut new))
}

fn main(rt: HostRuntime) -> ExitCode {
    let words = match words_of(&rt) {
        Ok(words) => words,
        Err(error) if error.kind() == ErrorKind::OutOfMemory => return ExitCode::from(NO_MEMORY),
        // Words that are no text have no form either.
        Err(_) => Vec::new(rt.alloc()),
    };
    let ended = if asks_to_migrate(words.as_slice()) {
        migrate_files(rt, &words)
    } else {
        run_files(rt, &words)
    };
    ExitCode::from(ended.unwrap_or(NO_MEMORY))
}
