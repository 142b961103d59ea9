//! The merged history of logs, and the crash-free world that it makes, played slowly and plainly.
#![tactic(auto)]

mod cell;
mod handling;
mod index;
mod indexed;
mod merging;
mod refusals;
mod running;
mod stepping;
mod whole;

pub use def_plain::{InHand, PlainCom, PlainPcom, PlainWorld, Receipts};
pub use merging::history;
pub use refusals::PlainRefused;
pub use running::plain_run;
