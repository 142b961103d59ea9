//! The chief, the books and the network between them over disks: how they begin, what an event does to them, and what settles them.
#![tactic(auto)]

mod acting;
mod asking;
mod executing;
mod making;
mod opening;
mod readers;
mod settling;
mod stepping;
mod world;

pub use executing::execute;
pub use opening::TwoStart;
pub use settling::next_event2;
pub use world::TwoWorld;
