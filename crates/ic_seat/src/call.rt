ghost use Rattle.std.specs.Prelude.{◌≡◌};
ghost use Rattle.ic_seat.specs.Refusing as refusing;

use def_two::{Move, Packet2};
use ic_gate::{LoadWhy, StepRefused};

/// What is asked of a component: a move begins, a packet comes, or it sends again.
#[derive(Clone, Copy, Debug)]
pub enum Call2 {
    Begins(Move),
    Hears(Packet2),
    Resends,
}

/// Why a component doesn't do what it is asked.
#[derive(Clone, Copy, Debug)]
pub enum SeatRefused {
    Full,
    /// The place at which its log is refused.
    Bad(u64),
    /// The fingerprint of the other script whose log it is.
    Foreign([u8; 32]),
    Failed,
    Memory,
}

/// Why a step isn't made on whose disk a stop is set for it alone, as the refusal of an event; None where the stop cut it off.
pub(crate) fn step_refusal(why: StepRefused, reached: bool) -> Option<SeatRefused>
    ensures { result ≡ refusing.step_refusal why reached }
{
    match why {
        StepRefused::Full => Some(SeatRefused::Full),
        StepRefused::Memory => Some(SeatRefused::Memory),
        StepRefused::Failed => Some(SeatRefused::Failed),
        StepRefused::Stopped => {
            if reached {
                None
            } else {
                Some(SeatRefused::Failed)
            }
        }
    }
}

/// Why a log isn't loaded, as the refusal of an event.
pub(crate) fn load_refusal(why: LoadWhy) -> SeatRefused
    ensures { result ≡ refusing.load_refusal why }
{
    match why {
        LoadWhy::Bad(place) => SeatRefused::Bad(place),
        LoadWhy::Foreign(kept) => SeatRefused::Foreign(kept),
        LoadWhy::Failed | LoadWhy::Stopped => SeatRefused::Failed,
        LoadWhy::Memory => SeatRefused::Memory,
    }
}
