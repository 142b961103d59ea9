ghost use Rattle.std.specs.Prelude.{◌≡◌, ◌<◌, ◌≤◌, [], ◌∷◌, ◌++◌, length, map, suc, OnOk, IfErr, Ok, false};
ghost use Rattle.ic_base.specs.declared.limits.TheConstants.{COMPONENTS, HANDLERS, KEYS, STATEMENTS, VALUES, VARIABLES};
ghost use Rattle.def_syntax.specs.Scope.{Declared as DeclaredSeen, component, is_in, has_twice, names, latest, locals_of, with_latest, with_local, behind, noted, moved, is_twice, passes, scope_with};
ghost use Rattle.ic_items.specs.Views.{item_seen, move_seen, Fails, without_frames};

use crate::{BlockAction, Fault, NameSet, Names, Scope, SyntaxLine, add_local, go};
use ic_base::{Cause, Kind, Name};
use std::alloc::Global;

impl Scope {
    fn count(&mut self)
        requires { self.old.statements < STATEMENTS }
        ensures { self.new ≡ record self.old { statements = suc self.old.statements } }
    {
        self.statements += 1;
    }

    fn note_component(&mut self, alloc: Global, name: Name, kind: Kind) -> Result<(), Fault>
        requires new { is_in name (map (λ (c : DeclaredSeen). c.name) self.old.components) ≡ false }
        requires room { length self.old.components < COMPONENTS }
        ensures ok { OnOk result (self.new ≡ record self.old { components = component name kind ∷ self.old.components }) }
        ensures err { IfErr result (λ e. e.0 ≡ Cause.Memory) }
    {
        self.components.add(alloc, name, kind)?;
        Ok(())
    }

    fn note_key(&mut self, name: Name) -> Result<(), Fault>
        requires new { is_in name (latest self.old).keys ≡ false }
        requires room { length (latest self.old).keys < KEYS }
        ensures ok { OnOk result (self.new ≡ record self.old { components = with_latest (λ c. record c { keys = c.keys ++ name ∷ [] }) self.old.components }) }
        ensures err { IfErr result (λ e. e.0 ≡ Cause.Memory) }
    {
        self.components.add_key(name)?;
        Ok(())
    }

    fn note_var(&mut self, name: Name) -> Result<(), Fault>
        requires new { is_in name (latest self.old).vars ≡ false }
        requires room { length (latest self.old).vars < VARIABLES }
        ensures ok { OnOk result (self.new ≡ record self.old { components = with_latest (λ c. record c { vars = c.vars ++ name ∷ [] }) self.old.components }) }
        ensures err { IfErr result (λ e. e.0 ≡ Cause.Memory) }
    {
        self.components.add_var(name)?;
        Ok(())
    }

    fn note_handler(&mut self, alloc: Global, name: Name, params: Names) -> Result<(), Fault>
        requires new { is_in name (names (latest self.old).handlers) ≡ false }
        requires distinct { has_twice params ≡ false }
        requires room { length (latest self.old).handlers < HANDLERS }
        requires few { length params ≤ VALUES }
        ensures ok { OnOk result (self.new ≡ record self.old { components = with_latest (λ c. record c { handlers = c.handlers ++ (name, length params) ∷ [] }) self.old.components; params = params; statements = 0; gets = 0 }) }
        ensures err { IfErr result (λ e. e.0 ≡ Cause.Memory) }
    {
        let count = params.len() as u8;
        let params = NameSet::of(alloc, params)?;
        self.components.add_handler(name, count)?;
        self.params = params;
        self.gets = 0;
        self.statements = 0;
        Ok(())
    }

    fn note_local(&mut self, name: Name) -> Result<(), Fault>
        requires new { is_in name (names (locals_of self.old)) ≡ false }
        requires room { self.old.statements < STATEMENTS }
        ensures ok { OnOk result (self.new ≡ record self.old { statements = suc self.old.statements; gets = suc self.old.gets; frames = with_local name self.old.gets self.old.frames }) }
        ensures err { IfErr result (λ e. e.0 ≡ Cause.Memory) }
    {
        add_local(&mut self.frames, name, self.gets)?;
        self.statements += 1;
        self.gets += 1;
        Ok(())
    }

    /// What a line declares and counts.
    #[tactic(auto, unfolding(def_syntax::specs::Scope::noted, def_syntax::specs::Scope::is_twice, def_syntax::specs::Scope::passes))]
    fn note(&mut self, alloc: Global, item: SyntaxLine) -> Result<(), Fault>
        requires new { is_twice self.old (item_seen item) ≡ false }
        requires within { passes (without_frames self.old) (item_seen item) ≡ false }
        ensures ok { OnOk result (self.new ≡ noted (item_seen item) self.old) }
        ensures err { IfErr result (λ e. e.0 ≡ Cause.Memory) }
    {
        match item {
            SyntaxLine::Xcom(n) => self.note_component(alloc, n, Kind::Xcom),
            SyntaxLine::Tcom(n) => self.note_component(alloc, n, Kind::Tcom),
            SyntaxLine::Pcom(n, _) => self.note_component(alloc, n, Kind::Pcom),
            SyntaxLine::Key(n, _) => self.note_key(n),
            SyntaxLine::Var(n, _) => self.note_var(n),
            SyntaxLine::On(n, params) => self.note_handler(alloc, n, params),
            SyntaxLine::Txn(t) => {
                self.count();
                self.tcom = t;
                Ok(())
            }
            SyntaxLine::Get(n, _) => self.note_local(n),
            SyntaxLine::Set(_, _) | SyntaxLine::Send(_, _, _) | SyntaxLine::Out(_, _) => {
                self.count();
                Ok(())
            }
            SyntaxLine::If(_) | SyntaxLine::Put(_, _) | SyntaxLine::Need(_) => {
                self.count();
                Ok(())
            }
            SyntaxLine::Else | SyntaxLine::End => Ok(()),
        }
    }

    fn take(&mut self, alloc: Global, to: BlockAction, item: SyntaxLine) -> Result<(), Fault>
        requires new { is_twice self.old (item_seen item) ≡ false }
        requires within { passes self.old (item_seen item) ≡ false }
        ensures ok { OnOk result (self.new ≡ behind (move_seen to) (item_seen item) self.old) }
        ensures err { IfErr result (λ e. e.0 ≡ Cause.Memory) }
    {
        go(alloc, &mut self.frames, to)?;
        self.note(alloc, item)
    }

    /// Goes on behind one more line, or tells the first cause for which it is refused. After an error what was seen is
    /// not to be used.
    #[tactic(auto, unfolding(def_syntax::specs::Scope::scope_with))]
    pub fn step(&mut self, alloc: Global, item: SyntaxLine) -> Result<(), Fault>
        ensures ok { OnOk result (scope_with self.old (item_seen item) ≡ Ok self.new) }
        ensures err { IfErr result (λ e. Fails (scope_with self.old (item_seen item)) e.0) }
    {
        let Some(to) = self.move_of(&item) else {
            return Err(Fault(Cause::Structure));
        };
        if self.is_twice(alloc, &item)? {
            return Err(Fault(Cause::Twice));
        }
        if self.passes(&item) {
            return Err(Fault(Cause::Limit));
        }
        self.take(alloc, to, item)
    }
}
