ghost use Rattle.std.specs.Prelude.{◌≡◌, ◌<◌, ◌≤◌, [], ◌∷◌, ◌++◌, length, map, reverse, OnOk, OnErr, MatchOption, option_map, false};
ghost use Rattle.ic_base.specs.declared.limits.TheConstants.{COMPONENTS, HANDLERS, KEYS, VALUES, VARIABLES};
ghost use Rattle.def_syntax.specs.Names.{is_kind, found};
ghost use Rattle.def_syntax.specs.Scope.{is_in, names, nobody, component, with_latest, Declared as DeclaredSeen};
ghost use Rattle.ic_items.specs.Contents.{content_of, declared_seen, last_of};

use crate::{Declared, NameTable};
use ic_base::{Kind, Name};
use std::alloc::{AllocError, Global};
use std::marker::Model;

/// Components by name, in order of declaration.
#[derive(Debug, Drop)]
pub struct Components {
    table: NameTable<Declared>,
}

impl Model for Components {
    ghost use Rattle.std.specs.Prelude.{◌≤◌, List, length, map};
    ghost use Rattle.ic_base.specs.declared.limits.TheConstants.{COMPONENTS};
    ghost use Rattle.def_syntax.specs.Scope as grammar;
    ghost use Rattle.ic_items.specs.Contents.{declared_seen};

    ghost Value = { List grammar.Declared };

    ghost view = { λ s. map declared_seen s.table };

    ghost invariant = { λ s. length s.table ≤ COMPONENTS };
}

fn is_kind(a: Kind, b: Kind) -> bool
    ensures { result ≡ is_kind a b }
{
    match a {
        Kind::Pcom => matches!(b, Kind::Pcom),
        Kind::Tcom => matches!(b, Kind::Tcom),
        Kind::Xcom => matches!(b, Kind::Xcom),
    }
}

impl Components {
    pub fn new(alloc: Global) -> Components
        ensures { result ≡ [] }
    {
        Components {
            table: NameTable::new(alloc),
        }
    }

    pub fn len(&self) -> usize
        ensures { result ≡ length self.now }
    {
        self.table.len()
    }

    pub fn contains(&self, name: &Name) -> bool
        ensures { result ≡ is_in name.now (map (λ (c : DeclaredSeen). c.name) self.now) }
    {
        self.table.contains(name)
    }

    /// The component of this kind and name, and its number.
    pub fn find<'a>(&'a self, kind: Kind, name: &Name) -> Option<(u8, &'a Declared)>
        ensures { found kind name.now self.now ≡ option_map (λ x. (x.0, declared_seen (name.now, x.1.now))) result }
    {
        let Some((i, declared)) = self.table.find(name) else {
            return None;
        };
        if is_kind(kind, declared.kind()) {
            Some((i as u8, declared))
        } else {
            None
        }
    }

    /// What the latest component declares.
    pub fn latest(&self) -> Option<&Declared>
        ensures { MatchOption result (last_of self.now ≡ nobody) (λ d. content_of (last_of self.now) ≡ d.now) }
    {
        match self.table.last() {
            Some((_, declared)) => Some(declared),
            None => None,
        }
    }

    /// The name of the latest component; empty where there is none.
    pub fn latest_name(&self) -> &[u8]
        ensures { result.now ≡ (last_of self.now).name }
    {
        match self.table.last() {
            Some((name, _)) => name,
            None => &[],
        }
    }

    /// One more component.
    pub(crate) fn add(&mut self, alloc: Global, name: Name, kind: Kind) -> Result<(), AllocError>
        requires new { is_in name (map (λ (c : DeclaredSeen). c.name) self.old) ≡ false }
        requires room { length self.old < COMPONENTS }
        ensures ok { OnOk result (self.new ≡ self.old ++ component name kind ∷ []) }
        ensures err { OnErr result (self.new ≡ self.old) }
    {
        self.table.add(name, Declared::new(alloc, kind))?;
        Ok(())
    }

    /// One more variable of the latest component.
    pub(crate) fn add_var(&mut self, name: Name) -> Result<(), AllocError>
        requires new { is_in name (last_of self.old).vars ≡ false }
        requires room { length (last_of self.old).vars < VARIABLES }
        ensures ok { OnOk result (reverse self.new ≡ with_latest (λ c. record c { vars = c.vars ++ name ∷ [] }) (reverse self.old)) }
        ensures err { OnErr result (self.new ≡ self.old) }
    {
        match self.table.entries.last_mut() {
            Some(latest) => latest.add_var(name),
            None => Ok(()),
        }
    }

    /// One more key of it.
    pub(crate) fn add_key(&mut self, name: Name) -> Result<(), AllocError>
        requires new { is_in name (last_of self.old).keys ≡ false }
        requires room { length (last_of self.old).keys < KEYS }
        ensures ok { OnOk result (reverse self.new ≡ with_latest (λ c. record c { keys = c.keys ++ name ∷ [] }) (reverse self.old)) }
        ensures err { OnErr result (self.new ≡ self.old) }
    {
        match self.table.entries.last_mut() {
            Some(latest) => latest.add_key(name),
            None => Ok(()),
        }
    }

    /// One more handler of it, with so many parameters.
    pub(crate) fn add_handler(&mut self, name: Name, params: u8) -> Result<(), AllocError>
        requires new { is_in name (names (last_of self.old).handlers) ≡ false }
        requires room { length (last_of self.old).handlers < HANDLERS }
        requires few { params ≤ VALUES }
        ensures ok { OnOk result (reverse self.new ≡ with_latest (λ c. record c { handlers = c.handlers ++ (name, params) ∷ [] }) (reverse self.old)) }
        ensures err { OnErr result (self.new ≡ self.old) }
    {
        match self.table.entries.last_mut() {
            Some(latest) => latest.add_handler(name, params),
            None => Ok(()),
        }
    }
}
