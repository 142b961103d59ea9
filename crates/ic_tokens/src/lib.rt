//! The lines of a text, and the tokens of a line (docs/FORMATS.md).
#![tactic(auto)]

mod lines;
mod scan;
mod words;

pub use lines::first_line;
pub use scan::{LineRefused, Token, TokenKind, Tokens, line_tokens, magnitude, schedule_tokens};
pub use words::{Fixed, fixed_word, operator};
