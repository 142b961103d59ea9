ghost use Rattle.std.specs.Prelude.{◌≡◌, ◌<◌, ◌-◌, [], ◌∷◌, ◌++◌, length, slice_get, OnOk, OnErr, IfSome, false, option_map};
ghost use Rattle.std.specs.Option.{option_copied};
ghost use Rattle.def_syntax.specs.Names.{place_of};
ghost use Rattle.def_syntax.specs.Scope.{is_in, names};
ghost use Rattle.def_syntax.specs.Text.{look_up};

use ic_base::Name;
use indexmap::IndexMap;
use std::alloc::{AllocFailed, Global};
use std::marker::Model;

/// Names in order of declaration, each once and with a value.
#[derive(Debug, Drop)]
pub struct NameTable<V> {
    pub(crate) entries: IndexMap<Vec<u8>, V>,
}

impl<V> Model for NameTable<V> {
    ghost use Rattle.std.specs.Prelude.{List, ℕ};
    ghost use Rattle.ic_items.specs.Tables.{entries_seen};

    ghost Value = { List (List ℕ × V) };

    ghost view = { λ s. entries_seen s.entries.entries };
}

impl<V> NameTable<V> {
    pub fn new(alloc: Global) -> NameTable<V>
        ensures { result ≡ [] }
    {
        NameTable {
            entries: IndexMap::new(alloc),
        }
    }

    pub fn len(&self) -> usize
        ensures { result ≡ length self.now }
    {
        self.entries.len()
    }

    pub fn contains(&self, name: &Name) -> bool
        ensures { result ≡ is_in name.now (names self.now) }
    {
        self.entries.contains_key(name.as_slice())
    }

    /// The value of a name.
    pub fn get(&self, name: &Name) -> Option<&V>
        ensures { look_up name.now self.now ≡ option_copied result }
    {
        self.entries.get(name.as_slice())
    }

    /// The place of a name, and its value.
    pub fn find(&self, name: &Name) -> Option<(usize, &V)>
        ensures place { place_of name.now (names self.now) ≡ option_map (λ x. x.0) result }
        ensures value { look_up name.now self.now ≡ option_map (λ x. x.1.now) result }
        ensures within { IfSome result (λ x. x.0 < length self.now) }
    {
        match self.entries.get_full(name.as_slice()) {
            Some((place, _, value)) => Some((place, value)),
            None => None,
        }
    }

    /// The name and the value behind the others.
    pub fn last(&self) -> Option<(&[u8], &V)>
        ensures { slice_get self.now (length self.now - 1) ≡ option_map (λ x. (x.0.now, x.1.now)) result }
    {
        match self.entries.last() {
            Some((name, value)) => Some((name.as_slice(), value)),
            None => None,
        }
    }
}

impl<V: Drop> NameTable<V> {
    /// One more name with its value, behind the others.
    pub fn add(&mut self, name: Name, value: V) -> Result<(), AllocFailed<(Vec<u8>, V)>>
        requires { is_in name (names self.old) ≡ false }
        ensures ok { OnOk result (self.new ≡ self.old ++ (name, value) ∷ []) }
        ensures err { OnErr result (self.new ≡ self.old) }
    {
        self.entries.insert(name.into_vec(), value)?;
        Ok(())
    }
}
