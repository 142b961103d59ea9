//! The chief's and a book's part in moves, decided over what their logs give. No disk is known here.
#![tactic(auto)]

mod book;
mod chief;
mod moves;
mod network;

pub use book::{BookCore, BookPlan};
pub use chief::{ChiefCore, ChiefPlan, News, is_lawful_for};
pub use network::{Network2, receiver_of, sender_of};
