//! What the lines of a scenario say, and what the lines so far have declared and opened.
#![tactic(auto)]

mod blocks;
mod checks;
mod components;
mod declared;
mod fault;
mod frames;
mod name_set;
mod name_table;
mod names;
mod note;
mod scope;
mod stack;
mod syntax_line;

pub use blocks::{Block, BlockAction, in_block, outside};
pub use components::Components;
pub use declared::Declared;
pub use fault::Fault;
pub use frames::{Frame, add_local, go};
pub use name_set::{NameSet, has_twice};
pub use name_table::NameTable;
pub use names::{copied, same};
pub use scope::Scope;
pub use stack::Stack;
pub use syntax_line::{Names, RawExpr, RawOperand, SyntaxLine, Terms};
