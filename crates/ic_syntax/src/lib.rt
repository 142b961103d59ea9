//! The reader of scenarios (docs/FORMATS.md): it makes a program from the lines that its scenario stands for.
#![tactic(auto)]

mod builder;
mod handler_builder;
mod laws;
mod line;
mod program_line;
mod read;
mod resolve;
mod token_text;
mod walk;

pub use builder::{OpenItem, ProgramBuilder};
pub use handler_builder::{HandlerBuilder, OpenBlock};
pub use ic_base::{Cause, ScenarioRefused};
pub use ic_tokens::{LineRefused, Token, TokenKind, Tokens, line_tokens};
pub use laws::{
    any_length, grammatical, least_fault, limited, never_both, one_or_other, one_program, reached,
    refusals, refused_too_long,
};
pub use program_line::Line;
pub use read::{fingerprint, read_scenario};
