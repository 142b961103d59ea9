use crate::{FORMER_LOG_ENDING, LOG_ENDING, LOGS, log_name};
use ic_disk::Sink;
use ic_report::{PRINT_FAILED, print};
use std::alloc::{AllocError, Global};
use std::fs;

/// The status of a call that is to make logs where there are some (docs/FORMATS.md, "Statuses").
const LOGS_THERE: u8 = 11;

// Whether a log file of the program with this ending stands in the folder.
fn has_logs(rt: &HostRuntime, program: &str, ending: &str) -> Result<bool, AllocError> {
    for index in 0..LOGS {
        let name = log_name(rt.alloc(), program, ending, index)?;
        if let Ok(path) = str::from_utf8(name.as_slice()) {
            if fs::symlink_metadata(rt, path).is_ok() {
                return Ok(true);
            }
        }
    }
    Ok(false)
}

/// Whether the folder in which the program runs has log files of the former format, and none of this one: they wait to be
/// migrated (docs/OPERATING.md, "Logs of the former format").
pub fn awaits_migration(rt: &HostRuntime, program: &str) -> Result<bool, AllocError> {
    Ok(has_logs(rt, program, FORMER_LOG_ENDING)? && !has_logs(rt, program, LOG_ENDING)?)
}

/// Says that nothing is begun beside logs of the former format, and answers the status: 11, or 9 where that isn't printed.
pub fn refuse_former_logs<K: Sink>(
    alloc: Global,
    program: &str,
    out: &mut K,
) -> Result<u8, AllocError> {
    let line = format!(in alloc;
        "{program}: logs of the former format are here: icrun migrate makes new ones\n"
    )?;
    match print(out, line.into_bytes().as_slice()) {
        Ok(()) => Ok(LOGS_THERE),
        Err(_) => Ok(PRINT_FAILED),
    }
}
