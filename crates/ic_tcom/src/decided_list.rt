ghost use Rattle.std.specs.Prelude.{◌≡◌, List, [], ◌∷◌, ◌++◌};
ghost use Rattle.std.specs.Borrow.{ftrue};
ghost use Rattle.def_step.specs.Tcom.{Verdict as Seen};

use crate::transaction::Verdict;
use std::marker::Model;

/// The decisions of a log, in order. It takes no bytes, and proofs alone read it.
#[derive(Drop)]
pub(crate) struct DecidedList {
    pub ghost list: { List Seen },
}

impl Model for DecidedList {
    ghost also_owns = { λ _. ftrue };
}

impl DecidedList {
    /// None so far.
    pub(crate) fn new() -> DecidedList
        ensures { result.list ≡ [] }
    {
        DecidedList {}
    }

    /// One more, behind those before.
    pub(crate) fn with(_before: &DecidedList, _verdict: &Verdict) -> DecidedList
        ensures { result.list ≡ _before.now.list ++ _verdict.now ∷ [] }
    {
        DecidedList {}
    }
}
