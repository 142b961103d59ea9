use crate::ComId;
use thiserror::Error;

/// Why a text is refused (docs/FORMATS.md).
#[derive(Clone, Copy, Debug, PartialEq, Eq)]
pub enum Cause {
    /// A number of the table of limits is passed.
    Limit,
    /// A byte that no text may have.
    NotText,
    /// A word that is no token.
    Word,
    /// A line that may not stand there.
    Structure,
    /// A name that must be new and isn't.
    Twice,
    /// A name that stands for nothing.
    Unknown,
    /// Another number of arguments than the handler has parameters.
    Arity,
    /// Want of memory, which is no fault of the text.
    Memory,
}

/// The line, counted from 1, and why it is refused. Line 0 is the text as a whole.
#[derive(Clone, Copy, Debug, PartialEq, Eq)]
pub struct ScenarioRefused {
    pub line: u32,
    pub cause: Cause,
}

/// Why a policy is refused (docs/FORMATS.md).
#[derive(Clone, Copy, Debug, PartialEq, Eq, Error)]
pub enum PolicyRefused {
    /// The text isn't UTF-8, or no document.
    #[error("the policy is not TOML")]
    NotToml,
    /// No policy has such a key.
    #[error("the policy has an unknown key")]
    Unknown,
    /// A value of another kind than its key asks for.
    #[error("a value of the policy has the wrong kind")]
    Kind,
    /// A value that its key doesn't allow.
    #[error("a value of the policy is out of range")]
    Range,
    /// Want of memory, which is no fault of the text.
    #[error("out of memory")]
    Memory,
}

/// What a call of the program counts and limits (docs/RULES.md, "Limits").
#[derive(Clone, Copy, Debug, PartialEq, Eq)]
pub enum Which {
    /// Inputs and messages received.
    Receipts,
    /// Packets put out.
    Packets,
}

/// Why a world doesn't begin over the disks of its components (docs/RULES.md, "Statuses").
#[derive(Clone, Copy, Debug, PartialEq, Eq)]
pub enum StartWhy {
    /// The disk of this component isn't blank.
    NotBlank(ComId),
    /// The place at which the component's log is refused.
    Bad(ComId, u64),
    /// The component's log is of another scenario, whose fingerprint it keeps.
    Foreign(ComId, [u8; 32]),
    /// The component's disk failed, or stands stopped.
    Failed(ComId),
    /// Want of memory.
    Memory,
}

/// Why an event of a world isn't done, or no packet of it is numbered (docs/RULES.md, "Statuses"). The world then ends.
#[derive(Clone, Copy, Debug, PartialEq, Eq)]
pub enum WorldRefused {
    /// One more receipt or packet would pass its number.
    Limit(Which),
    /// The log of this component, or a number of its step, would pass its limit.
    LogFull(ComId),
    /// The place at which the component's log is refused.
    Bad(ComId, u64),
    /// The component's disk failed, or stands stopped.
    Failed(ComId),
    /// Want of memory.
    Memory,
    /// The component's log is of another scenario, whose fingerprint it keeps.
    Foreign(ComId, [u8; 32]),
}
