//! A list of items that is worked off round by round over executions.
#![tactic(auto)]
