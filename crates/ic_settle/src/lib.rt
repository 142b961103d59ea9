//! What is next to settle a world, and what a policy asks for (docs/RULES.md, "Settling").
#![tactic(auto)]

mod next;
mod outstanding;
mod policy;
mod settling;

pub use next::next_event;
pub use policy::next_policy;
pub use settling::settle;
