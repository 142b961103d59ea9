use ic_base::{Event, Items};

/// An order of a schedule with a standby.
#[derive(Clone, Copy, Debug, PartialEq, Eq)]
pub enum Order {
    /// The standby is shipped the forced records that it doesn't have.
    Ship,
    /// The standby takes over.
    TakeOver,
    /// An event happens.
    Run(Event),
}

/// The orders of a schedule with a standby, and whether `halt` ends it.
#[derive(Debug, Drop)]
pub struct Orders {
    pub orders: Items<Order>,
    pub halts: bool,
}
