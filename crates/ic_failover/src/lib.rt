//! A run with a standby: forced records are shipped to it, and it takes over where its component is down (docs/RULES.md, "A run with a
//! standby").
#![tactic(auto)]

mod concluding;
mod gathering;
mod grammar;
mod reading;
mod run;
mod shipping;
mod side;
mod taking;
mod telling;
mod texts;
mod working;

pub use reading::read_failover;
pub use run::run_failover;
pub use texts::{FailoverRefused, FailoverTexts};
