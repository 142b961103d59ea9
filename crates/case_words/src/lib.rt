//! Reads the lines of the programs of cases: words and numbers, bytes as hexadecimal digits, packets and programs. Has each line
//! answered.
#![tactic(auto)]

mod answering;
mod packets;
mod programs;
mod telling;
mod words;

pub use answering::{Answers, answer_lines};
pub use packets::{cause, packet, request};
pub use programs::program;
pub use telling::{no_call, say, tell};
pub use words::{Words, bytes_of};
