ghost use Rattle.std.specs.Prelude.{◌≡◌, ℕ, ◌+◌};
ghost use Rattle.std.specs.Borrow.{ftrue};

use std::marker::Model;

/// How many device calls a disk has made, for its contracts. It takes no bytes, and proofs alone read it.
#[derive(Drop)]
pub struct CallCount {
    pub ghost made: { ℕ },
}

impl Model for CallCount {
    ghost also_owns = { λ _. ftrue };
}

// It owns nothing.
unsafe impl Send for CallCount {}

impl CallCount {
    /// No call so far.
    pub fn new() -> CallCount
        ensures { result.made ≡ 0 }
    {
        CallCount {}
    }

    /// One call more.
    pub fn after(_before: &CallCount) -> CallCount
        ensures { result.made ≡ _before.now.made + 1 }
    {
        CallCount {}
    }
}
