use ic_base::{Cause, Policy, PolicyRefused, Program, Schedule};

/// What the texts of a run ask for.
#[derive(Drop)]
pub struct RunTexts {
    pub program: Program,
    /// The SHA-256 of the scenario's text.
    pub fingerprint: [u8; 32],
    pub schedule: Schedule,
    pub policy: Policy,
}

/// What the texts of a run that serves lines ask for.
#[derive(Drop)]
pub struct ServedTexts {
    pub program: Program,
    /// The SHA-256 of the scenario's text.
    pub fingerprint: [u8; 32],
    pub policy: Policy,
}

/// Why the texts of a run are refused.
#[derive(Clone, Copy, Debug, PartialEq, Eq)]
pub enum TextsRefused {
    /// The line of the scenario, or 0 for the text as a whole, and why it is refused.
    Scenario(u32, Cause),
    /// The same of the schedule.
    Schedule(u32, Cause),
    Policy(PolicyRefused),
    /// A text wasn't read; the count of faults rose.
    Read,
    /// Want of memory, which is no fault of a text.
    Memory,
}
