ghost use Rattle.std.specs.Prelude.{◌≡◌, List, [], ◌∷◌, ◌++◌, take};
ghost use Rattle.std.specs.Borrow.{ftrue};
ghost use Rattle.ic_base.specs.declared.record.Record.{Record as Stored};

use crate::spelled::SpelledRecords;
use ic_base::Record;
use std::marker::Model;

/// Records, in order. It takes no bytes, and proofs alone read it.
#[derive(Drop)]
pub struct RecordList {
    pub ghost list: { List Stored },
}

impl Model for RecordList {
    ghost also_owns = { λ _. ftrue };
}

// It owns nothing.
unsafe impl Send for RecordList {}

impl RecordList {
    /// No record.
    pub fn new() -> RecordList
        ensures { result.list ≡ [] }
    {
        RecordList {}
    }

    /// Those whose bytes these are.
    pub fn of(_spelled: &SpelledRecords) -> RecordList
        ensures { result.list ≡ _spelled.now }
    {
        RecordList {}
    }

    /// One more, behind those before.
    pub fn with(_before: &RecordList, _stored: &Record) -> RecordList
        ensures { result.list ≡ _before.now.list ++ _stored.now ∷ [] }
    {
        RecordList {}
    }

    /// The first n of them.
    pub fn first(_all: &RecordList, _n: usize) -> RecordList
        ensures { result.list ≡ take _n _all.now.list }
    {
        RecordList {}
    }

    /// Them, and others behind them.
    pub fn followed_by(_before: &RecordList, _others: &RecordList) -> RecordList
        ensures { result.list ≡ _before.now.list ++ _others.now.list }
    {
        RecordList {}
    }
}
