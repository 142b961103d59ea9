//! The messages that a Pcom still owes: each is held from the handling that sends it until its receiver has it
//! installed, as the committed contract asks (Barga et al. 2004).
#![tactic(auto)]

mod laws;
mod outbox;

pub use laws::due_messages_leave_one_by_one;
pub use outbox::Outbox;
