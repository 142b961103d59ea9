//! A persistent component's side of a transaction.
#![tactic(auto)]

mod stage;
mod txn;

pub use txn::Txn;
