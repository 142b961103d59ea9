ghost use Rattle.std.specs.Prelude.{◌≡◌};
ghost use Rattle.ic_node.specs.Calling.{just_told};

use ic_base::{AbortCause, Answer, Args, Items, Output, Packet, Packets};
use std::alloc::{AllocError, AllocFailed, Global};

/// A call on a component (docs/RULES.md, "Events").
#[derive(Clone, Copy, Debug)]
pub enum Call {
    /// An input for the handler of this number, with its values.
    Gives(u8, Args),
    /// A packet that is delivered.
    Gets(Packet),
    Forces,
    Checkpoints,
    Resends,
    Emits,
}

/// What is told of an event of a component.
#[derive(Debug, Drop)]
pub struct Done {
    pub answer: Answer,
    /// What is put out, in order.
    pub puts: Packets,
    /// The output that is shown.
    pub shown: Option<Output>,
    /// The transaction that is aborted, with its cause.
    pub aborted: Option<(u64, AbortCause)>,
    /// How many records were played.
    pub played: u64,
}

/// How a call ended at a disk with a stop.
#[derive(Debug, Drop)]
pub enum Ended {
    /// It is done, and its stop wasn't reached.
    Done(Done),
    /// Its stop cut it off.
    Cut,
}

impl Done {
    /// An answer, and nothing beside it.
    pub(crate) fn just(alloc: Global, answer: Answer) -> Done
        ensures { result ≡ just_told answer }
    {
        Done {
            answer,
            puts: Items::new(alloc),
            shown: None,
            aborted: None,
            played: 0,
        }
    }
}

/// Why an event of a component isn't done.
#[derive(Clone, Copy, Debug, PartialEq, Eq)]
pub enum NodeRefused {
    /// Its log or a number would pass its limit (docs/RULES.md, "Limits"). It comes before any device call, and all is as
    /// before.
    Full,
    /// Its log is bad at this place of the file: the frame, the first byte that begins no record, or a record that is a
    /// misfit (docs/FORMATS.md, "Misfits").
    Bad(u64),
    /// Its log is of another scenario, whose fingerprint it holds.
    Foreign([u8; 32]),
    /// Its device failed.
    Failed,
    /// Want of memory.
    Memory,
}

impl From<AllocError> for NodeRefused {
    ghost use Rattle.std.specs.Prelude.{◌≡◌};
    ghost use Rattle.ic_node.specs.declared.done.NodeRefused.TheVariants.{Memory};

    ghost from_gives = { λ _ e. e ≡ Memory };

    fn from(_: AllocError) -> Self {
        NodeRefused::Memory
    }
}

impl<T: Drop> From<AllocFailed<T>> for NodeRefused {
    ghost use Rattle.std.specs.Prelude.{◌≡◌};
    ghost use Rattle.ic_node.specs.declared.done.NodeRefused.TheVariants.{Memory};

    ghost from_gives = { λ _ e. e ≡ Memory };

    fn from(_: AllocFailed<T>) -> Self {
        NodeRefused::Memory
    }
}
