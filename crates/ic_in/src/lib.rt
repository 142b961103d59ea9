//! Receipts: which messages a Pcom has taken, each once, and what their senders are told of them (the release levels
//! of the committed contract, Barga et al. 2004).
#![tactic(auto)]

mod inbox;
mod laws;
mod taken;

pub use inbox::{Ack, Inbox};
pub use laws::senders_are_told_one_by_one;
