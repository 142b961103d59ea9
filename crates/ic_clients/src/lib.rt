//! A run with numbered clients: each request is asked of the front, and done only where it is new (docs/RULES.md, "Numbered clients").
#![tactic(auto)]

mod noting;
mod pursuing;
mod run;
mod working;

pub use run::run_clients;
pub use working::pursue_clients;
