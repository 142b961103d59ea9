//! What a call asks for: its words, and schedules, policies and all texts of a run, read, or why they are refused
//! (docs/FORMATS.md).
#![tactic(auto)]

mod command;
mod event_line;
mod large;
mod large_run;
mod line;
mod names;
mod orders;
mod policy;
mod reading;
mod readings;
mod resolve;
mod run_texts;
mod schedule;
mod served;
mod verb;

pub use command::{
    Command, ServedNames, TextNames, any_dashed, asks_to_migrate, command_of, migrated_name,
    names_in,
};
pub use ic_base::{Policy, PolicyRefused, ReportLevel, Schedule};
pub use large::make_large;
pub use large_run::large_texts;
pub use orders::read_standby;
pub use policy::{DEFAULTS, read_policy};
pub use reading::{read_served, read_texts};
pub use run_texts::{RunTexts, ServedTexts, TextsRefused};
pub use schedule::{read_clients, read_schedule};
pub use served::{Request, ServedLine, read_line};
pub use verb::Inputs;
