//! What a live run comes to as a whole: what its berths count, what it prints, and why it is refused.
#![tactic(auto)]
