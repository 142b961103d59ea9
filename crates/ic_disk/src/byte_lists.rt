ghost use Rattle.std.specs.Prelude.{◌≡◌, ℕ, List, [], ◌∷◌, ◌++◌};
ghost use Rattle.std.specs.Borrow.{ftrue};

use std::marker::Model;

/// The names that were asked for, or the pieces that were put, in order. It takes no bytes, and proofs alone read it.
#[derive(Drop)]
pub struct ByteLists {
    pub ghost lists: { List (List ℕ) },
}

impl Model for ByteLists {
    ghost also_owns = { λ _. ftrue };
}

impl ByteLists {
    /// None so far.
    pub fn new() -> ByteLists
        ensures { result.lists ≡ [] }
    {
        ByteLists {}
    }

    /// One more, behind those before.
    pub fn with(_before: &ByteLists, _bytes: &[u8]) -> ByteLists
        ensures { result.lists ≡ _before.now.lists ++ _bytes.now ∷ [] }
    {
        ByteLists {}
    }
}
