ghost use Rattle.std.specs.Prelude.{◌≡◌, ◌<◌, ◌≤◌, [], ◌∷◌, ◌++◌, length, OnOk, OnErr, IfSome, option_map, false};
ghost use Rattle.ic_base.specs.declared.limits.TheConstants.{HANDLERS, KEYS, VALUES, VARIABLES};
ghost use Rattle.def_syntax.specs.Names.{place_of};
ghost use Rattle.def_syntax.specs.Scope.{is_in, names};
ghost use Rattle.def_syntax.specs.Text.{look_up};

use crate::{NameSet, NameTable};
use ic_base::{Kind, Name};
use std::alloc::{AllocError, Global};
use std::marker::Model;

/// What a component declares behind its name: its names in order, and of each handler the number of parameters.
#[derive(Debug, Drop)]
pub struct Declared {
    pub(crate) kind: Kind,
    pub(crate) vars: NameSet,
    pub(crate) keys: NameSet,
    pub(crate) handlers: NameTable<u8>,
}

impl Model for Declared {
    ghost use Rattle.ic_items.specs.Contents.{Content, KeepsLimits};

    ghost Value = { Content };

    ghost view = { λ s. record { kind = s.kind; vars = s.vars; keys = s.keys; handlers = s.handlers } };

    ghost invariant = { λ s. KeepsLimits (record { kind = s.kind; vars = s.vars; keys = s.keys; handlers = s.handlers }) };
}

impl Declared {
    pub fn new(alloc: Global, kind: Kind) -> Declared
        ensures { result ≡ record { kind = kind; vars = []; keys = []; handlers = [] } }
    {
        Declared {
            kind,
            vars: NameSet::new(alloc),
            keys: NameSet::new(alloc),
            handlers: NameTable::new(alloc),
        }
    }

    pub fn kind(&self) -> Kind
        ensures { result ≡ self.now.kind }
    {
        self.kind
    }

    pub fn place_of_var(&self, name: &Name) -> Option<u8>
        ensures { place_of name.now self.now.vars ≡ result }
    {
        match self.vars.place_of(name) {
            Some(i) => Some(i as u8),
            None => None,
        }
    }

    pub fn place_of_key(&self, name: &Name) -> Option<u16>
        ensures { place_of name.now self.now.keys ≡ result }
    {
        match self.keys.place_of(name) {
            Some(i) => Some(i as u16),
            None => None,
        }
    }

    /// The place of a handler, and the number of its parameters.
    pub fn handler(&self, name: &Name) -> Option<(u8, u8)>
        ensures place { place_of name.now (names self.now.handlers) ≡ option_map (λ x. x.0) result }
        ensures params { look_up name.now self.now.handlers ≡ option_map (λ x. x.1) result }
        ensures few { IfSome result (λ x. x.1 ≤ VALUES) }
    {
        match self.handlers.find(name) {
            Some((i, params)) => Some((i as u8, *params)),
            None => None,
        }
    }

    pub(crate) fn add_var(&mut self, name: Name) -> Result<(), AllocError>
        requires new { is_in name self.old.vars ≡ false }
        requires room { length self.old.vars < VARIABLES }
        ensures ok { OnOk result (self.new ≡ record self.old { vars = self.old.vars ++ name ∷ [] }) }
        ensures err { OnErr result (self.new ≡ self.old) }
    {
        self.vars.add(name)?;
        Ok(())
    }

    pub(crate) fn add_key(&mut self, name: Name) -> Result<(), AllocError>
        requires new { is_in name self.old.keys ≡ false }
        requires room { length self.old.keys < KEYS }
        ensures ok { OnOk result (self.new ≡ record self.old { keys = self.old.keys ++ name ∷ [] }) }
        ensures err { OnErr result (self.new ≡ self.old) }
    {
        self.keys.add(name)?;
        Ok(())
    }

    pub(crate) fn add_handler(&mut self, name: Name, params: u8) -> Result<(), AllocError>
        requires new { is_in name (names self.old.handlers) ≡ false }
        requires room { length self.old.handlers < HANDLERS }
        requires few { params ≤ VALUES }
        ensures ok { OnOk result (self.new ≡ record self.old { handlers = self.old.handlers ++ (name, params) ∷ [] }) }
        ensures err { OnErr result (self.new ≡ self.old) }
    {
        self.handlers.add(name, params)?;
        Ok(())
    }
}
