ghost use Rattle.std.specs.Prelude.{◌≡◌, ◌<◌, ◌+◌, [], ◌∷◌, length, drop, reverse, MatchOption, OnOk, List};

use std::alloc::{AllocFailed, Global};
use std::marker::Model;

/// Values of which the latest comes first.
#[derive(Debug, Drop)]
pub struct Stack<T> {
    items: Vec<T>,
}

impl<T> Model for Stack<T> {
    ghost use Rattle.std.specs.Prelude.{List, reverse};

    ghost Value = { List T };

    ghost view = { λ s. reverse s.items.items };
}

impl<T> Stack<T> {
    pub fn new(alloc: Global) -> Stack<T>
        ensures { result ≡ [] }
    {
        Stack {
            items: Vec::new(alloc),
        }
    }

    pub fn len(&self) -> usize
        ensures { result ≡ length self.now }
    {
        self.items.len()
    }

    pub fn push(&mut self, x: T) -> Result<(), AllocFailed<T>>
        ensures { OnOk result (self.new ≡ x ∷ self.old) }
    {
        self.items.push(x)
    }

    pub fn pop(&mut self) -> Option<T>
        ensures { MatchOption result ((self.old ≡ []) × (self.new ≡ [])) (λ x. self.old ≡ x ∷ self.new) }
    {
        self.items.pop()
    }

    /// The latest.
    pub fn top(&self) -> Option<&T>
        ensures { MatchOption result (self.now ≡ []) (λ x. self.now ≡ x.now ∷ drop 1 self.now) }
    {
        if self.items.is_empty() {
            None
        } else {
            Some(self.at(0))
        }
    }

    /// The i-th from the latest.
    pub fn at(&self, i: usize) -> &T
        requires { i < length self.now }
        ensures { drop i self.now ≡ result.now ∷ drop (i + 1) self.now }
    {
        &self.items[self.items.len() - 1 - i]
    }
}
