ghost use Rattle.std.specs.Prelude.{◌≡◌, ◌<◌, [], ◌∷◌, length, MatchOption, MatchBool, map, reverse};
ghost use Rattle.def_syntax.specs.Lines.{Else, End};
ghost use Rattle.def_syntax.specs.Names.{ended, place_of};
ghost use Rattle.def_syntax.specs.Text.{look_up};
ghost use Rattle.def_syntax.specs.Scope.{is_in, names, nobody, Declared as DeclaredSeen, empty_scope, latest, locals_of, is_long, is_deep, has_components};
ghost use Rattle.ic_items.specs.Contents.{content_of};

use crate::{Block, Components, Declared, Frame, NameSet, Stack};
use ic_base::limits::{COMPONENTS, NESTING, STATEMENTS};
use ic_base::{Items, Name};
use std::alloc::Global;
use std::marker::Model;

/// What the lines so far have declared and opened.
#[derive(Debug, Drop)]
pub struct Scope {
    pub(crate) components: Components,
    pub(crate) frames: Stack<Frame>,
    pub(crate) params: NameSet,
    pub(crate) statements: u16,
    pub(crate) gets: u16,
    pub(crate) tcom: Name,
}

impl Model for Scope {
    ghost use Rattle.std.specs.Prelude.{◌≤◌, length, reverse};
    ghost use Rattle.ic_base.specs.declared.limits.TheConstants.{STATEMENTS, VALUES};
    ghost use Rattle.def_syntax.specs.Scope as grammar;

    ghost Value = { grammar.Scope };

    ghost view = { λ s. record { components = reverse s.components; frames = s.frames; params = s.params; statements = s.statements; gets = s.gets; tcom = s.tcom } };

    ghost invariant = { λ s. (s.gets ≤ s.statements) × (s.statements ≤ STATEMENTS) × (length s.params ≤ VALUES) };
}

impl Scope {
    /// What is seen in front of the first line.
    pub fn nothing(alloc: Global) -> Scope
        ensures { result ≡ empty_scope }
    {
        Scope {
            components: Components::new(alloc),
            frames: Stack::new(alloc),
            params: NameSet::new(alloc),
            statements: 0,
            gets: 0,
            tcom: Items::new(alloc),
        }
    }

    /// The name of the latest component; empty where there is none.
    pub fn latest_name(&self) -> &[u8]
        ensures { result.now ≡ (latest self.now).name }
    {
        self.components.latest_name()
    }

    fn latest(&self) -> Option<&Declared>
        ensures { MatchOption result (latest self.now ≡ nobody) (λ d. content_of (latest self.now) ≡ d.now) }
    {
        self.components.latest()
    }

    pub fn is_var(&self, name: &Name) -> bool
        ensures { result ≡ is_in name.now (latest self.now).vars }
    {
        match self.latest() {
            Some(component) => component.vars.contains(name),
            None => false,
        }
    }

    pub fn is_key(&self, name: &Name) -> bool
        ensures { result ≡ is_in name.now (latest self.now).keys }
    {
        match self.latest() {
            Some(component) => component.keys.contains(name),
            None => false,
        }
    }

    pub fn is_handler(&self, name: &Name) -> bool
        ensures { result ≡ is_in name.now (names (latest self.now).handlers) }
    {
        match self.latest() {
            Some(component) => component.handlers.contains(name),
            None => false,
        }
    }

    pub fn var_count(&self) -> usize
        ensures { result ≡ length (latest self.now).vars }
    {
        match self.latest() {
            Some(component) => component.vars.len(),
            None => 0,
        }
    }

    pub fn key_count(&self) -> usize
        ensures { result ≡ length (latest self.now).keys }
    {
        match self.latest() {
            Some(component) => component.keys.len(),
            None => 0,
        }
    }

    pub fn handler_count(&self) -> usize
        ensures { result ≡ length (latest self.now).handlers }
    {
        match self.latest() {
            Some(component) => component.handlers.len(),
            None => 0,
        }
    }

    pub fn place_of_var(&self, name: &Name) -> Option<u8>
        ensures { place_of name.now (latest self.now).vars ≡ result }
    {
        match self.latest() {
            Some(component) => component.place_of_var(name),
            None => None,
        }
    }

    /// Whether the latest handler has such a parameter.
    pub fn is_param(&self, name: &Name) -> bool
        ensures { result ≡ is_in name.now self.now.params }
    {
        self.params.contains(name)
    }

    pub fn place_of_param(&self, name: &Name) -> Option<u8>
        ensures { place_of name.now self.now.params ≡ result }
    {
        match self.params.place_of(name) {
            Some(i) => Some(i as u8),
            None => None,
        }
    }

    /// The number of a local that is seen here.
    pub fn local(&self, name: &Name) -> Option<u16>
        ensures { look_up name.now (locals_of self.now) ≡ result }
    {
        for i in 0..self.frames.len() {
            let found = self.frames.at(i).local(name);
            if found.is_some() {
                return found;
            }
        }
        None
    }

    pub fn is_component(&self, name: &Name) -> bool
        ensures { result ≡ is_in name.now (map (λ (c : DeclaredSeen). c.name) self.now.components) }
    {
        self.components.contains(name)
    }

    /// How many `get` lines the latest handler has so far, which is the number of its next local.
    pub fn gets(&self) -> u16
        ensures { result ≡ self.now.gets }
    {
        self.gets
    }

    /// The Tcom that the latest `txn` names; empty where there is none.
    pub fn tcom(&self) -> &Name
        ensures { result.now ≡ self.now.tcom }
    {
        &self.tcom
    }

    /// Whether some block is open.
    pub fn is_open(&self) -> bool
        ensures { MatchBool result (0 < length self.now.frames) (self.now.frames ≡ []) }
    {
        0 < self.frames.len()
    }

    /// Whether an `end` ends the first part of an `if` that has no other.
    pub fn is_in_then(&self) -> bool
        ensures { MatchBool result (ended self.now.frames ≡ Else ∷ End ∷ []) (ended self.now.frames ≡ End ∷ []) }
    {
        match self.frames.top() {
            Some(inner) => match inner.block() {
                Block::Then(_) => true,
                _ => false,
            },
            None => false,
        }
    }

    /// The components in order of declaration.
    pub fn into_components(self) -> Components
        ensures { result ≡ reverse self.components }
    {
        self.components
    }

    /// Whether the latest handler has the most statements (docs/FORMATS.md, "Limits of a scenario").
    pub fn is_long(&self) -> bool
        ensures { result ≡ is_long self.now }
    {
        STATEMENTS <= usize::from(self.statements)
    }

    /// Whether 16 `if` and `txn` are open inside a handler of a Pcom, which are two blocks more.
    pub fn is_deep(&self) -> bool
        ensures { result ≡ is_deep self.now }
    {
        NESTING + 1 < self.frames.len()
    }

    /// Whether there are 32 components, the most.
    pub fn has_components(&self) -> bool
        ensures { result ≡ has_components self.now }
    {
        COMPONENTS <= self.components.len()
    }
}
