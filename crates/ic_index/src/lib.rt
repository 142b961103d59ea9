//! Tables in which an entry is found by its hash or by binary search: numbers by component, values and messages by identity.
#![tactic(auto)]

mod arrivals;
mod counts;
mod sorted;

pub use arrivals::Arrivals;
pub use counts::Counts;
pub use sorted::{Entry, Sorted};
