//! Moves over two books: the chief and the books, each over its log.
#![tactic(auto)]

mod book;
mod chief;
mod commit;
mod fields;
mod loading;
mod reading;
mod record_log;
mod replay;
mod spelled;
mod stops;

pub use book::Book;
pub use chief::Chief;
pub use ic_gate::{LoadRefused, LoadWhy, StepRefused};
pub use record_log::RecordLog2;
