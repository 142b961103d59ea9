//! One component with its disk, as the world holds it: its calls with a scripted stop, its crash and its recovery.
#![tactic(auto)]

mod checkpoint;
mod component;
mod counting;
mod done;
mod events;
mod first;
mod load;
mod node;
mod pcom_step;
mod readers;
mod recovery;
mod stand;
mod stop;
mod takeover;
mod tcom_step;
mod up;

pub use component::Component;
pub use done::{Call, Done, Ended, NodeRefused};
pub use node::Node;
