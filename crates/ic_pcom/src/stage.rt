use crate::Places;
use ic_ckpt::State;
use ic_replay::Replay;

/// Where a component stands.
#[derive(Drop)]
pub(crate) enum Stage {
    /// It is up, with its state.
    Up(State),
    /// It replays its log. The replay has the log's records, whose places in the file stand beside it.
    Replays(Places, Replay),
}
