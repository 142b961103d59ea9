//! Audits the logs of a scenario: reads them, and prints the values of the crash-free world that they make
//! (docs/RULES.md).
#![tactic(auto)]

mod all_logs;
mod auditing;
mod one_log;
mod scene;

pub use auditing::audit;
pub use scene::{Scene, read_scene};
