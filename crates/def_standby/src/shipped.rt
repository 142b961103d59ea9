use ic_base::ComId;

/// What becomes of records that are shipped.
#[derive(Clone, Copy, Debug, PartialEq, Eq)]
pub enum Shipped {
    /// They were played.
    Applied,
    /// Records between these and the first ones, of which there are so many here, weren't shipped yet.
    Early(u64),
    /// The first of them was played before; there are so many records here.
    Again(u64),
    /// The first message that one takes by identity and that isn't at hand.
    Missing(ComId, u64),
}
