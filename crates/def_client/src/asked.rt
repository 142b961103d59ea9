use ic_base::Args;

/// What is answered to a request of a client.
#[derive(Clone, Copy, Debug, PartialEq, Eq)]
pub enum Asked {
    /// No request with its numbers is taken.
    New,
    /// It was taken, and no output with its numbers was shown since.
    Pending,
    /// It was taken, and this output, by its number and its values, was the first with its numbers that was shown since.
    Again(u64, Args),
    /// Another one was taken with its numbers: its handler or its values differ.
    Differs,
}
