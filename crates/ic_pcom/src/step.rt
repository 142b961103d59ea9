ghost use Rattle.std.specs.Prelude.{◌≡◌};
ghost use Rattle.ic_pcom.specs.Stepping.{packet_refusal};

use ic_base::{AbortCause, Output, Packets};
use ic_gate::StepRefused;

/// What is told of a step. Of the four words at most one holds.
#[derive(Debug, Drop)]
pub struct Step {
    /// What is put out, in order.
    pub puts: Packets,
    /// An input or a new message was taken.
    pub took: bool,
    /// A replay was fed the message that it waited for.
    pub fed: bool,
    /// A packet changed the component, or something was put out.
    pub used: bool,
    /// A new message met another one in hand.
    pub busy: bool,
    /// The output that is shown.
    pub shown: Option<Output>,
    /// The transaction that ends, with its cause.
    pub aborted: Option<(u64, AbortCause)>,
}

/// What becomes of an input.
#[derive(Debug, Drop)]
pub enum InputAnswer {
    /// It is taken, forced and handled.
    Taken(Step),
    /// It is missed, and the component is as before.
    NotTaken(Reason),
}

/// Why an input is missed.
#[derive(Clone, Copy, Debug, PartialEq, Eq)]
pub enum Reason {
    /// The component replays its log.
    Replaying,
    /// A message or an input is in hand, whose transaction is open.
    InTransaction,
}

/// Why a packet's step isn't done.
#[derive(Clone, Copy, Debug, PartialEq, Eq)]
pub enum PacketRefused {
    /// The device failed. The component is closed.
    Failed,
    /// The disk stands stopped. The component is closed.
    Stopped,
    /// The log or a number would pass its limit (docs/RULES.md, "Limits"). All is as before.
    Full,
    /// Want of memory. All is as before.
    Memory,
    /// The record at this place of the file is a misfit (docs/FORMATS.md, "Misfits"). The component is closed.
    Bad(u64),
}

/// A refusal of a packet's step, where no replay meets a misfit.
pub fn packet_refusal(why: StepRefused) -> PacketRefused
    ensures { result ≡ packet_refusal why }
{
    match why {
        StepRefused::Failed => PacketRefused::Failed,
        StepRefused::Stopped => PacketRefused::Stopped,
        StepRefused::Full => PacketRefused::Full,
        StepRefused::Memory => PacketRefused::Memory,
    }
}
