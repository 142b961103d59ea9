//! A log of batches over a disk, and the records of a component over it: what was forced stands whole, and what is buffered isn't
//! there yet.
#![tactic(auto)]

mod batch_reader;
mod device;
mod directory;
mod encoded;
mod encoded_load;
mod frame;
mod fresh;
mod header;
mod load;
mod loaded;
mod log;
mod reading;
mod record_list;
mod record_load;
mod record_log;
mod records;
mod refusals;
mod spelled;
mod stops;
mod tail;
mod tail_load;
mod write_buffer;

pub use encoded::EncodedRecords;
pub use encoded_load::load_encoded;
pub use ic_base::{Batch, Batches};
pub use loaded::LoadedRecords;
pub use log::Log;
pub use record_load::load_records;
pub use record_log::RecordLog;
pub use refusals::{AppendRefused, ForceRefused, LoadRefused, LoadWhy, StepRefused};
pub use tail_load::load_tail_records;
