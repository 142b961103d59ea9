//! What a whole run does and prints, as a statement about texts, disks and bytes.
#![tactic(auto)]
