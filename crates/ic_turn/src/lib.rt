//! The event of a turn of one component that runs beside others: which one the rule gives, and what doing it comes to.
#![tactic(auto)]

mod asking;
mod choice;
mod choosing;
mod doing;
mod keeping;
mod progress;

pub use asking::asked;
pub use choice::Choice;
pub use choosing::{choose, flush_choice};
pub use doing::do_choice;
pub use progress::Progress;
