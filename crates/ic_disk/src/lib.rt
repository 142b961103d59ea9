//! What the runtime stands on: disks, texts and sinks, with what each tells of itself.
#![tactic(auto)]

mod arrive;
mod byte_lists;
mod call_count;
mod disk;
mod failing;
mod fault_counts;
mod file_disk;
mod file_texts;
mod flush;
mod host_file;
mod host_folder;
mod memory_disk;
mod memory_sink;
mod memory_texts;
mod overlay;
mod past;
mod read_over;
mod sink;
mod standard_sink;
mod stop_image;
mod synced;
mod texts;
mod torn_disk;
mod write_back;
mod write_list;

pub use byte_lists::ByteLists;
pub use call_count::CallCount;
pub use disk::{Disk, DiskError};
pub use fault_counts::FaultCounts;
pub use file_disk::FileDisk;
pub use file_texts::FileTexts;
pub use host_folder::{Access, HostFolder};
pub use memory_disk::MemDisk;
pub use memory_sink::MemSink;
pub use memory_texts::MemTexts;
pub use sink::{Sink, SinkFailed};
pub use standard_sink::StdSink;
pub use synced::write_through;
pub use texts::{TextError, Texts};
pub use torn_disk::TornDisk;
