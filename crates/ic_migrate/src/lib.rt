//! Migrates the logs of a scenario's components from disks with logs of the former format to blank ones.
#![tactic(auto)]

mod laws;
mod logged;
mod migration;
mod reading;

pub use laws::all_are_whole_or_some_is_refused;
pub use logged::components_with_logs;
pub use migration::migrate_logs;
