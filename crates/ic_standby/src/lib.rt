//! A standby of a persistent component: it plays the records of its log as they are shipped, and takes over with the state that
//! they made.
#![tactic(auto)]

mod missing;
mod play;
mod standby;

pub use def_standby::Shipped;
pub use play::play_through;
pub use standby::Standby;
