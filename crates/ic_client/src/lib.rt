//! Numbered clients: a request that comes again is taken once, and answered again.
#![tactic(auto)]

mod front;
mod rebuilding;

pub use def_client::Asked;
pub use front::Front;
