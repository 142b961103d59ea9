//! The components of a program with their disks, the modelled network between them, and what one event does to them.
#![tactic(auto)]

mod acting;
mod asking;
mod assembling;
mod making;
mod opening;
mod owing;
mod readers;
mod renewing;
mod takeover;
mod task;
mod telling;
mod world;

pub use opening::StartRefused;
pub use world::World;
