//! The host of a program over log files: the words of its call, and the disks in the folder in which it runs.
#![tactic(auto)]

ghost use Rattle.std.specs.Prelude.{◌≡◌, length, map, IfOk};
ghost use Rattle.std.specs.List.{range_with_len};
ghost use Rattle.ic_host.specs.Files.{log_file};

mod former;

pub use former::{awaits_migration, refuse_former_logs};
use ic_base::Word;
use ic_disk::{Access, FileDisk, HostFolder};
use std::alloc::{AllocError, Global};
use std::{env, io};

/// How many components a call may have, each with a log file of its own.
const LOGS: u8 = 32;

/// The words behind the program's name.
pub fn words_of(rt: &HostRuntime) -> io::Result<Vec<Word>> {
    let mut words = Vec::new(rt.alloc());
    for word in env::args(rt)?.skip(1) {
        words.push(Word::from_vec(word.into_bytes()))?;
    }
    Ok(words)
}

/// The ending of the names of log files (docs/FORMATS.md, "The files of logs").
pub const LOG_ENDING: &str = "log2";

/// The ending of the names of log files of the former format, which `icrun migrate` reads.
pub const FORMER_LOG_ENDING: &str = "log";

/// The name of the log file of a component, as `icrun.07.log2` for the program `icrun` and the ending `log2`.
pub fn log_name(alloc: Global, program: &str, ending: &str, index: u8) -> Result<Word, AllocError>
    ensures name { IfOk result (λ name. name ≡ log_file program.now ending.now index) }
{
    let name = format!(in alloc; "{program}.{}{}.{ending}", index / 10, index % 10)?;
    Ok(Word::from_vec(name.into_bytes()))
}

/// Disks over the log files of all components with this ending, in the folder in which the program runs: at each place that of
/// the component of this number.
pub fn disks_of(
    alloc: Global,
    rt: HostRuntime,
    program: &str,
    ending: &str,
    access: Access,
) -> Result<Vec<FileDisk>, AllocError>
    ensures count { IfOk result (λ disks. length disks.items ≡ 32) }
    ensures names { IfOk result (λ disks. map (λ d. d.name) disks.items ≡ map (log_file program.now ending.now) (range_with_len 0 32)) }
{
    let folder = HostFolder::new(alloc, access)?;
    let mut disks = Vec::with_capacity(alloc, usize::from(LOGS))?;
    for index in 0..LOGS {
        let name = log_name(alloc, program, ending, index)?;
        disks.push(FileDisk::new(alloc, rt, &folder, &name)?)?;
    }
    Ok(disks)
}
