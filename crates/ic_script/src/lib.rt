//! Scripts of moves over two books, read from their text (docs/FORMATS.md, "Script").
#![tactic(auto)]

mod form;
mod line;
mod parts;
mod script;
mod so_far;

pub use script::read_script;
