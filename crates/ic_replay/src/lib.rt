//! One record applied to the state of a persistent component, and a whole replay.
#![tactic(auto)]

mod applying;
mod declared;
mod feeding;
mod fitting;
mod laws;
mod limits;
mod playing;
mod prepared;
mod quiet;
mod refusals;
mod replay;
mod start;

pub use applying::apply;
pub use fitting::fits;
pub use laws::what_is_prepared_is_recorded;
pub use limits::keeps_limits;
pub use playing::play_record;
pub use prepared::{Prepared, prepare};
pub use refusals::ReplayRefused;
pub use replay::Replay;
