//! A run that an application drives line by line: each line is done, the world is settled behind it, and one piece that ends with
//! `served N` answers it (docs/RULES.md, "A served run").
#![tactic(auto)]

mod answering;
mod call;
mod ending;
mod fronts;
mod gathering;
mod line;
mod opening;
mod run;
mod service;
mod serving;
mod stretch;
mod summing;
mod telling;
mod used;
mod words;

pub use call::serve;
