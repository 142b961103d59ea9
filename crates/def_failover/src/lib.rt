//! A run with a standby: what becomes of each of its orders, and what the run promises.
#![tactic(auto)]

mod note;

pub use note::Note;
