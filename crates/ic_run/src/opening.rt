/// Where a run opens.
#[derive(Clone, Copy, Debug, PartialEq, Eq)]
pub enum Opening {
    /// On blank disks, with fresh logs.
    Anew,
    /// Over the logs that stand on the disks.
    Found,
}
