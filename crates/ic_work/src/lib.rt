//! The work that an event asks of one component with its disk, and what it comes to.
#![tactic(auto)]

mod receipts;
mod work;

pub use receipts::receives;
pub use work::{Work, does_work, refusal};
