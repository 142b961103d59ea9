//! A run of texts over disks: it takes the disks of its components out of those of a call, opens over blank disks or over the
//! logs that stand there, does all that is to be done, each event by its agenda, and prints its report (docs/RULES.md, "A run").
#![tactic(auto)]

mod advancing;
mod agenda;
mod concluding;
mod disks;
mod lending;
mod opening;
mod run;
mod running;
mod tally;
mod whys;
mod world;

pub use advancing::advance;
pub use agenda::Agenda;
pub use concluding::conclude;
pub use disks::open;
pub use lending::{put_back, take_disks};
pub use opening::Opening;
pub use run::run_texts;
pub use running::{Cut, pursue};
pub use tally::Tally;
pub use whys::{why_of_start, why_of_texts};
pub use world::why_of_cut;
