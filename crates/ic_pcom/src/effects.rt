use ic_base::{AbortCause, ComId, Items, Msg, Output, Packets, Records};
use std::alloc::Global;

/// What is told of a step.
#[derive(Clone, Copy, Debug, PartialEq, Eq)]
pub enum StepKind {
    /// It took an input or a new message.
    Took,
    /// It fed a replay.
    Fed,
    /// It got a new message with another one in hand.
    Busy,
    /// It used the packet.
    Changed,
    /// It changed nothing by the packet.
    Same,
}

/// What a step is to do: the records that it adds, whether they are forced, and what it puts out.
#[derive(Debug, Drop)]
pub struct Effects {
    pub word: StepKind,
    /// The message that is known to be stable from now on, by its receiver and number.
    pub marks: Option<(ComId, u64)>,
    /// The message that is taken.
    pub content: Option<Msg>,
    /// The records that are added to the log: none, one, or a value and the outcome that it leads to.
    pub adds: Records,
    pub forces: bool,
    /// Whether every receipt is covered by what is added.
    pub covers: bool,
    /// What is answered, before anything else is put out.
    pub answers: Packets,
    /// Whether nothing but the answers is put out.
    pub is_quiet: bool,
    pub shown: Option<Output>,
    /// The transaction that ends, and why.
    pub aborted: Option<(u64, AbortCause)>,
}

impl Effects {
    ghost use Rattle.std.specs.Prelude.{◌≡◌};
    ghost use Rattle.def_step.specs.Pcom.{just_tail, nothing_at_all};
    ghost use Rattle.ic_pcom.specs.Effects.{effects_of};

    /// What each step puts out, and nothing more.
    pub fn just_tail(alloc: Global) -> Effects
        ensures { effects_of result ≡ just_tail }
    {
        Effects {
            word: StepKind::Same,
            marks: None,
            content: None,
            adds: Items::new(alloc),
            forces: false,
            covers: false,
            answers: Items::new(alloc),
            is_quiet: false,
            shown: None,
            aborted: None,
        }
    }

    /// Nothing at all.
    pub fn nothing(alloc: Global) -> Effects
        ensures { effects_of result ≡ nothing_at_all }
    {
        Effects {
            is_quiet: true,
            ..Effects::just_tail(alloc)
        }
    }
}
