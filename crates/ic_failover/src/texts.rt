use def_standby::Orders;
use ic_base::{ComId, Policy, Program};
use ic_plan::TextsRefused;

/// What the texts of a run with a standby ask for.
#[derive(Drop)]
pub struct FailoverTexts {
    pub program: Program,
    /// The SHA-256 of the scenario's text.
    pub fingerprint: [u8; 32],
    /// The component of the standby.
    pub who: ComId,
    pub orders: Orders,
    pub policy: Policy,
}

/// Why the texts of a run with a standby are refused.
#[derive(Clone, Copy, Debug, PartialEq, Eq)]
pub enum FailoverRefused {
    /// The scenario has no Pcom of that name.
    NoPcom,
    /// A text is refused.
    Texts(TextsRefused),
}
