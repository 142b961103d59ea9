//! Does what the words of a call of icrun ask for, over given devices (docs/RULES.md).
#![tactic(auto)]

mod access;
mod call;
mod migrating;

pub use access::access_of;
pub use call::run;
pub use migrating::migrate;
