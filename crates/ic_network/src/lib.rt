//! The modelled network: the packets that were put out, which of them wait, and which outputs were shown.
#![tactic(auto)]

mod lanes;
mod network;
mod packets;
mod shown;

pub use network::Network;
pub use packets::{receiver_of, sender_of};
pub use shown::Shown;
