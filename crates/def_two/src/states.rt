use crate::{Amounts, Move, Moves, Ruling};
use ic_base::Items;

/// How move n ended at a book: with yes or with no.
#[derive(Clone, Copy, Debug, PartialEq, Eq)]
pub struct End {
    pub n: u64,
    pub yes: bool,
}

pub type Ends = Items<End>;

/// What a book holds: its values, the moves that it made ready, in order, and how moves ended.
#[derive(Drop)]
pub struct BookState {
    pub values: Amounts,
    pub readied: Moves,
    pub ended: Ends,
}

/// The chief's decision on move n.
#[derive(Clone, Copy, Debug, PartialEq, Eq)]
pub struct Ruled {
    pub n: u64,
    pub ruling: Ruling,
}

pub type Rulings = Items<Ruled>;

/// What the chief holds: the moves that were begun, in order, and the decisions.
#[derive(Drop)]
pub struct Docket {
    pub begun: Moves,
    pub ruled: Rulings,
}

/// A book's word on move n: its vote for yes, or its Done.
#[derive(Clone, Copy, Debug, PartialEq, Eq)]
pub struct Word2 {
    pub n: u64,
    pub book: u8,
}

pub type Words2 = Items<Word2>;

/// The votes for yes and the Dones that the chief heard in its present life.
#[derive(Drop)]
pub struct Heard {
    pub yes: Words2,
    pub done: Words2,
}
