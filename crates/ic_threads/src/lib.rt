//! A live run of texts over blank disks: the components run in threads, then all that they left is done one event after another, and the
//! outputs and the summary of both phases are printed (docs/RULES.md, "Live runs").
#![tactic(auto)]

mod concluding;
mod counting;
mod joined;
mod outputs;
mod refusing;
mod run;
mod serial;

pub use run::live_texts;
