//! Reads a log of the former format off its disk, and makes the file of the present format that stands for it.
#![tactic(auto)]

mod checkpoints;
mod frame;
mod header;
mod load;
mod migrating;
mod reading;
mod refusals;

pub use load::{FormerLog, read_former};
pub use migrating::migrated_log;
pub use refusals::LoadWhy;
