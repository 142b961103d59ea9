ghost use Rattle.std.specs.Prelude.{◌≡◌, ◌++◌, ◌||◌, length, map, option_map, IfOk};
ghost use Rattle.std.specs.List.{list_any};
ghost use Rattle.def_syntax.specs.Scope.{is_in, is_reserved, declares, is_out_of_place, has_twice, names, latest, locals_of, move_in, move_of, is_twice, passes};
ghost use Rattle.ic_items.specs.Views.{item_seen, move_seen};

use crate::{BlockAction, Scope, SyntaxLine, has_twice, in_block, outside, same};
use ic_base::Name;
use ic_base::limits::{HANDLERS, KEYS, VALUES, VARIABLES};
use std::alloc::{AllocError, Global};

fn is_reserved(name: &Name) -> bool
    ensures { result ≡ is_reserved name.now }
{
    same(name.as_slice(), b"stop") || same(name.as_slice(), b"old")
}

fn any_reserved(names: &[Name]) -> bool
    ensures { result ≡ list_any is_reserved names.now }
{
    for n in names {
        if is_reserved(n) {
            return true;
        }
    }
    false
}

fn declares_reserved(item: &SyntaxLine) -> bool
    ensures { result ≡ list_any is_reserved (declares (item_seen item.now)) }
{
    match item {
        SyntaxLine::Xcom(n) | SyntaxLine::Tcom(n) | SyntaxLine::Pcom(n, _) => is_reserved(n),
        SyntaxLine::Key(n, _) | SyntaxLine::Var(n, _) | SyntaxLine::Get(n, _) => is_reserved(n),
        SyntaxLine::On(n, params) => is_reserved(n) || any_reserved(params.as_slice()),
        _ => false,
    }
}

impl Scope {
    fn is_out_of_place(&self, item: &SyntaxLine) -> bool
        ensures { result ≡ is_out_of_place self.now (item_seen item.now) }
    {
        match item {
            SyntaxLine::Var(_, _) => 0 < self.handler_count(),
            SyntaxLine::Send(receiver, _, _) => same(receiver.as_slice(), self.latest_name()),
            _ => false,
        }
    }

    fn move_in(&self, item: &SyntaxLine) -> Option<BlockAction>
        ensures { move_in self.now.frames (item_seen item.now) ≡ option_map move_seen result }
    {
        match self.frames.top() {
            Some(inner) => in_block(inner.block(), item),
            None => outside(item),
        }
    }

    /// What a line does to the block in which it stands, where it may stand there.
    #[tactic(auto, unfolding(def_syntax::specs::Scope::move_of))]
    pub fn move_of(&self, item: &SyntaxLine) -> Option<BlockAction>
        ensures { move_of self.now (item_seen item.now) ≡ option_map move_seen result }
    {
        if declares_reserved(item) || self.is_out_of_place(item) {
            return None;
        }
        self.move_in(item)
    }

    fn is_seen(&self, name: &Name) -> bool
        ensures { result ≡ is_in name.now ((latest self.now).vars ++ self.now.params ++ names (locals_of self.now)) }
    {
        if self.is_var(name) {
            return true;
        }
        if self.is_param(name) {
            return true;
        }
        self.local(name).is_some()
    }

    fn is_any_var(&self, names: &[Name]) -> bool
        ensures { result ≡ list_any (λ p. is_in p (latest self.now).vars) names.now }
    {
        for n in names {
            if self.is_var(n) {
                return true;
            }
        }
        false
    }

    fn is_handler_twice(
        &self,
        alloc: Global,
        name: &Name,
        params: &[Name],
    ) -> Result<bool, AllocError>
        ensures { IfOk result (λ b. b ≡ (is_in name.now (names (latest self.now).handlers) || has_twice params.now || list_any (λ p. is_in p (latest self.now).vars) params.now)) }
    {
        if self.is_handler(name) || has_twice(alloc, params)? {
            return Ok(true);
        }
        Ok(self.is_any_var(params))
    }

    /// Whether a line declares a name that must be new and isn't.
    #[tactic(auto, unfolding(def_syntax::specs::Scope::is_twice))]
    pub fn is_twice(&self, alloc: Global, item: &SyntaxLine) -> Result<bool, AllocError>
        ensures { IfOk result (λ b. b ≡ is_twice self.now (item_seen item.now)) }
    {
        match item {
            SyntaxLine::Xcom(n) | SyntaxLine::Tcom(n) | SyntaxLine::Pcom(n, _) => Ok(
                self.is_component(n),
            ),
            SyntaxLine::Key(n, _) => Ok(self.is_key(n)),
            SyntaxLine::Var(n, _) => Ok(self.is_var(n)),
            SyntaxLine::On(n, params) => self.is_handler_twice(alloc, n, params.as_slice()),
            SyntaxLine::Get(n, _) => Ok(self.is_seen(n)),
            _ => Ok(false),
        }
    }

    /// Whether a line passes a limit.
    #[tactic(auto, unfolding(def_syntax::specs::Scope::passes))]
    pub fn passes(&self, item: &SyntaxLine) -> bool
        ensures { result ≡ passes self.now (item_seen item.now) }
    {
        match item {
            SyntaxLine::Xcom(_) | SyntaxLine::Tcom(_) | SyntaxLine::Pcom(_, _) =>
                self.has_components(),
            SyntaxLine::Key(_, _) => KEYS <= self.key_count(),
            SyntaxLine::Var(_, _) => VARIABLES <= self.var_count(),
            SyntaxLine::On(_, params) => HANDLERS <= self.handler_count() || VALUES < params.len(),
            SyntaxLine::Send(_, _, xs) => self.is_long() || VALUES < xs.len(),
            SyntaxLine::Out(_, xs) => self.is_long() || VALUES < xs.len(),
            SyntaxLine::If(_) | SyntaxLine::Txn(_) => self.is_long() || self.is_deep(),
            SyntaxLine::Set(_, _)
            | SyntaxLine::Get(_, _)
            | SyntaxLine::Put(_, _)
            | SyntaxLine::Need(_) => self.is_long(),
            SyntaxLine::Else | SyntaxLine::End => false,
        }
    }
}
