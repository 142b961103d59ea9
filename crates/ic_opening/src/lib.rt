//! Writes new logs in two phases: all but the first letter, in whose place a byte 0 stands, and then the first letter. Until that is
//! there no load takes the file for a log, and from then on the log is whole. Of several logs the first phase comes first for all.
#![tactic(auto)]

mod asking;
mod phases;
mod writing;

pub use asking::ask_all;
pub use phases::{write_first_letter, write_unopened};
pub use writing::{open_all, reserve_all, write_all};
