ghost use Rattle.std.specs.Prelude.{◌≡◌, ◌<◌, [], ◌∷◌, ◌++◌, length, OnOk, OnErr, IfOk, IfSome, false};
ghost use Rattle.def_syntax.specs.Names.{place_of};
ghost use Rattle.def_syntax.specs.Scope.{is_in, has_twice};

use crate::Names;
use ic_base::Name;
use indexmap::IndexSet;
use std::alloc::{AllocError, AllocFailed, Global};
use std::marker::Model;

/// Names in order of declaration, each once.
#[derive(Debug, Drop)]
pub struct NameSet {
    names: IndexSet<Vec<u8>>,
}

impl Model for NameSet {
    ghost use Rattle.std.specs.Prelude.{List, ℕ};
    ghost use Rattle.ic_items.specs.Tables.{names_seen};

    ghost Value = { List (List ℕ) };

    ghost view = { λ s. names_seen s.names.keys };
}

impl NameSet {
    pub fn new(alloc: Global) -> NameSet
        ensures { result ≡ [] }
    {
        NameSet {
            names: IndexSet::new(alloc),
        }
    }

    /// The set of these names, of which none stands there twice.
    pub fn of(alloc: Global, names: Names) -> Result<NameSet, AllocError>
        requires { has_twice names ≡ false }
        ensures { IfOk result (λ s. s ≡ names) }
    {
        let mut set = NameSet::new(alloc);
        for name in names.into_vec() {
            set.add(name)?;
        }
        Ok(set)
    }

    pub fn len(&self) -> usize
        ensures { result ≡ length self.now }
    {
        self.names.len()
    }

    pub fn contains(&self, name: &Name) -> bool
        ensures { result ≡ is_in name.now self.now }
    {
        self.names.contains(name.as_slice())
    }

    /// How many names were declared before this one.
    pub fn place_of(&self, name: &Name) -> Option<usize>
        ensures place { place_of name.now self.now ≡ result }
        ensures within { IfSome result (λ i. i < length self.now) }
    {
        self.names.get_index_of(name.as_slice())
    }

    /// One more name, behind the others.
    pub fn add(&mut self, name: Name) -> Result<(), AllocFailed<Vec<u8>>>
        requires { is_in name self.old ≡ false }
        ensures ok { OnOk result (self.new ≡ self.old ++ name ∷ []) }
        ensures err { OnErr result (self.new ≡ self.old) }
    {
        self.names.insert(name.into_vec())?;
        Ok(())
    }
}

/// Whether some name stands there twice.
pub fn has_twice(alloc: Global, names: &[Name]) -> Result<bool, AllocError>
    ensures { IfOk result (λ b. b ≡ has_twice names.now) }
{
    let mut before: IndexSet<&[u8]> = IndexSet::new(alloc);
    for name in names {
        let is_new = before.insert(name.as_slice())?;
        if !is_new {
            return Ok(true);
        }
    }
    Ok(false)
}
