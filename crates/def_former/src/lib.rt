//! Logs of the former format, and the file of the present one that stands for such a log.
#![tactic(auto)]

mod laws;
/// The numbers of the former format.
pub mod limits;

pub use laws::{is_opened_by_its_first_letter, migrated_reads_the_same};
