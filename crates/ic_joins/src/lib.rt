//! A live run from disks to its joins: the components of a world that just started run in threads; and behind the joins the world that is
//! assembled of them, with what they left of their lists.
#![tactic(auto)]

mod assembling;
mod berths;
mod leaving;
mod placing;
mod showing;
mod threads;

pub use assembling::assemble;
pub use berths::berths_of;
pub use leaving::events_left;
pub use showing::showings_of;
pub use threads::{ThreadsRefused, run_threads};
