//! Live runs: berths, each behind its own lock, which workers step and a flusher forces.
#![tactic(auto)]

mod berth;
mod carrying;
mod closing;
mod coms;
mod ended;
mod gate;
mod held;
mod lending;
mod lists;
mod live;
mod making;
mod mooring;
mod next;
mod pool;
mod scene;
mod turned;
mod words;

pub use berth::Berth;
pub use coms::berthed;
pub use gate::{Gate, OpenGate};
pub use held::Held;
pub use live::{LiveRefused, Returned, run_live};
pub use scene::Scene;
