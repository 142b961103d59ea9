//! What the texts of scenarios and schedules stand for, and how they are refused.
#![tactic(auto)]
