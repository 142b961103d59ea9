//! What the texts of policies stand for, and how they are refused.
#![tactic(auto)]

mod policy;

pub use policy::Setting;
