//! A persistent component over its log: each call is one step of its definition, and it is rebuilt by replaying its records. What
//! a step is to record, to force and to put out is decided before the log is touched.
#![tactic(auto)]

mod adopting;
mod calls;
mod counted;
mod decide;
mod effects;
mod feeding;
mod follow;
mod imaging;
mod land;
mod messages;
mod output;
mod pcom;
mod plan;
mod planning;
mod readers;
mod ready;
mod recovering;
mod restaging;
mod restored;
mod stage;
mod step;
mod stops;
mod telling;
mod transactions;

pub use decide::{on_force, on_input, on_packet};
pub use effects::{Effects, StepKind};
pub use ic_gate::{LoadRefused, LoadWhy, StepRefused};
pub use output::{on_emit, on_resend, put_out};
pub use pcom::Pcom;
pub use restored::{Places, Restored, restore};
pub use step::{InputAnswer, PacketRefused, Reason, Step, packet_refusal};
