//! The texts that a run prints, how they are printed, and how a call ends (docs/FORMATS.md, "Printed texts").
#![tactic(auto)]

mod audits;
mod devices;
mod ending;
mod faults;
mod lines;
mod migrations;
mod names;
mod packets;
mod printing;
mod summaries;
mod whats;
mod writing;

pub use audits::audit_bytes;
pub use devices::DeviceCounts;
pub use ending::{NO_MEMORY, PRINT_FAILED, Why, end_as, end_done, end_with};
pub use faults::{cause_text, fault_bytes, hex_text, status_of};
pub use lines::{item_bytes, note_bytes, trace_bytes};
pub use migrations::migrated_bytes;
pub use printing::print;
pub use summaries::{summary_bytes, values_bytes};
pub use writing::{add_number, add_word};
