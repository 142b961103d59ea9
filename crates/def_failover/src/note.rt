/// What is told of a shipment or a takeover.
#[derive(Clone, Copy, Debug, PartialEq, Eq)]
pub enum Note {
    /// The component is down, so nothing is shipped.
    Down,
    /// The component replays its log.
    Replaying,
    /// The component is up, so nothing is taken over.
    Up,
    /// The standby took over before.
    Gone,
    /// The standby has all forced records.
    Empty,
    /// They were played, and so many were played by all shipments.
    Applied(u64),
    /// The standby took over, and so many records were played in it.
    Done(u64),
    /// A log doesn't play: a record of it is a misfit, or takes a message that isn't there. It ends the run.
    Bad,
}
