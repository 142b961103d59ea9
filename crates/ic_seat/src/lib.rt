//! A component of moves at its place: the chief or a book, or its disk alone where it is down, and what an event does to it.
#![tactic(auto)]

mod call;
mod opening;
mod recovery;
mod seat;
mod serving;
mod steps;

pub use call::{Call2, SeatRefused};
pub use seat::Seat;
