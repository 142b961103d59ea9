//! What a live run is: lanes, the facts of one component, turns and flushes, the world assembled behind the joins, and the serial phase.
#![tactic(auto)]
