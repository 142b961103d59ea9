//! The lines that an application writes to a program, one by one, each with at most so many bytes.
#![tactic(auto)]

mod first;
mod lines;
mod memory_lines;
mod reader_lines;
mod standard;

pub use lines::{LineError, Lines, Read};
pub use memory_lines::MemLines;
pub use reader_lines::ReaderLines;
pub use standard::{StdInput, StdLines, standard_lines};
