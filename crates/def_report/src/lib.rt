//! The texts that a run prints, as bytes of what it did.
#![tactic(auto)]
