//! The outputs that a persistent component has made and not yet shown.
#![tactic(auto)]

mod shelf;
mod waiting;

pub use shelf::Shelf;
