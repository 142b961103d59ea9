//! Numbered clients: which requests were taken, what is answered to one that comes again, and what a run with clients comes to.
#![tactic(auto)]

mod asked;

pub use asked::Asked;
