//! Moves over two books, from the words of a call to its status: the script that they name is read, its events are done over blank disks
//! and then those that settle, and what came of them is printed (docs/RULES.md, "A run of moves").
#![tactic(auto)]

mod asking;
mod call;
mod command;
mod ending;
mod faults;
mod lending;
mod lines;
mod running;
mod world_lines;

pub use call::more;
pub use ending::{Fault2, Why2};
