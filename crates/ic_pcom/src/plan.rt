use crate::Effects;
use ic_replay::Prepared;

/// What a step is to do at a component that is up.
#[derive(Drop)]
pub(crate) enum Plan {
    /// It adds records, of which the last one is prepared.
    Adds(Effects, Prepared),
    /// It adds none.
    AddsNone(Effects),
}
