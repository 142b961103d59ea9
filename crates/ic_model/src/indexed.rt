ghost use Rattle.std.specs.Prelude.{◌≡◌, ◌<◌, length, slice_set, Some, None, IfSome, IfNone, IfOk, IfErr, OnOk};
ghost use Rattle.ic_base.specs.declared.messages.ComId.{ComId};
ghost use Rattle.def_plain.specs.Plain as plain;
ghost use Rattle.def_plain.specs.declared.world.PlainCom.TheVariants as kinds;
ghost use Rattle.def_plain.specs.declared.world.PlainPcom.{PlainPcom};
ghost use Rattle.ic_model.specs.Index.{HasNoMessages};
ghost use Rattle.ic_model.specs.Views.{touch_seen, NoStepIf};

use crate::cell::{Touch, cell_step};
use crate::index::MessageIndex;
use crate::refusals::StepRefused;
use def_plain::{PlainCom, PlainPcom, PlainWorld};
use ic_base::{ComId, Program, Send, Vals};
use std::alloc::{AllocError, Global};
use std::marker::Model;

/// The crash-free world, with an index of each Pcom's messages.
#[derive(Drop)]
pub(crate) struct IndexedWorld {
    components: PlainWorld,
    /// In the places of the components.
    indexes: Vec<MessageIndex>,
}

impl Model for IndexedWorld {
    ghost use Rattle.def_plain.specs.Plain.{PlainWorld};
    ghost use Rattle.ic_model.specs.Index.{AreIndexed};

    ghost Value = { PlainWorld };

    ghost view = { λ s. s.components };

    ghost invariant = { λ s. AreIndexed s.components s.indexes.items };
}

/// Takes a Pcom out of a world; an Xcom stands in its place until it is put back.
fn taken_out(world: &mut PlainWorld, com: ComId) -> Option<PlainPcom>
    ensures some { IfSome result (λ pcom. plain.pcom_at world.old «com» ≡ Some pcom) }
    ensures none { IfNone result (plain.pcom_at world.old «com» ≡ None) }
    ensures world { IfSome result (λ pcom. world.new ≡ slice_set world.old com.0 kinds.Xcom) }
    ensures others { (c : ComId) (p : PlainPcom) → plain.pcom_at world.new c ≡ Some p → plain.pcom_at world.old c ≡ Some p }
{
    let at = usize::from(com.0);
    if at >= world.len() {
        return None;
    }
    match world.replace(at, PlainCom::Xcom) {
        PlainCom::Pcom(pcom) => Some(pcom),
        _ => None,
    }
}

impl IndexedWorld {
    /// The components of a world in which no message was sent or taken.
    pub(crate) fn new(alloc: Global, components: PlainWorld) -> Result<IndexedWorld, AllocError>
        requires { (c : ComId) (p : PlainPcom) → plain.pcom_at components c ≡ Some p → HasNoMessages p }
        ensures { IfOk result (λ world. world ≡ components) }
    {
        let mut indexes = Vec::new(alloc);
        for _place in 0..components.len() {
            indexes.push(MessageIndex::new(alloc))?;
        }
        Ok(IndexedWorld {
            components,
            indexes,
        })
    }

    /// The components alone.
    pub(crate) fn into_components(self) -> PlainWorld
        ensures { result ≡ self }
    {
        self.components
    }

    /// A component, where it is a Pcom.
    pub(crate) fn pcom_at(&self, com: ComId) -> Option<&PlainPcom>
        ensures some { IfSome result (λ pcom. plain.pcom_at self.now «com» ≡ Some pcom.now) }
        ensures none { IfNone result (plain.pcom_at self.now «com» ≡ None) }
    {
        match self.components.as_slice().get(usize::from(com.0)) {
            Some(PlainCom::Pcom(pcom)) => Some(pcom),
            _ => None,
        }
    }

    /// The ledger of a component, where it is a Tcom.
    pub(crate) fn ledger_at(&self, tcom: ComId) -> Option<&Vals>
        ensures some { IfSome result (λ ledger. plain.ledger_at self.now tcom ≡ Some ledger.now) }
        ensures none { IfNone result (plain.ledger_at self.now tcom ≡ None) }
    {
        match self.components.as_slice().get(usize::from(tcom.0)) {
            Some(PlainCom::Tcom(ledger)) => Some(ledger),
            _ => None,
        }
    }

    /// The k-th message of a sender to a component.
    pub(crate) fn message_of(&self, from: ComId, to: ComId, k: u64) -> Option<Send>
        ensures { result ≡ plain.message_of self.now from to k }
    {
        match self.pcom_at(from) {
            Some(_) => self.indexes[usize::from(from.0)].message(to, k),
            None => None,
        }
    }

    /// A Pcom is touched, and the others stay. Behind a refusal the world is of no use.
    pub(crate) fn touch(
        &mut self,
        alloc: Global,
        program: &Program,
        com: ComId,
        touch: Touch,
    ) -> Result<(), StepRefused>
        ensures step { OnOk result (plain.touched program.now self.old «com» (touch_seen touch) ≡ Some self.new) }
        ensures refused { IfErr result (NoStepIf (plain.touched program.now self.old «com» (touch_seen touch) ≡ None)) }
    {
        let Some(pcom) = taken_out(&mut self.components, com) else {
            return Err(StepRefused::NoStep);
        };
        let at = usize::from(com.0);
        let next = cell_step(alloc, program, com, pcom, &mut self.indexes[at], touch)?;
        self.components.replace(at, PlainCom::Pcom(next));
        Ok(())
    }

    /// A Tcom has this ledger now.
    pub(crate) fn put_ledger(&mut self, tcom: ComId, ledger: Vals)
        requires { tcom.0 < length self.old }
        ensures { self.new ≡ slice_set self.old tcom.0 (kinds.Tcom ledger) }
    {
        self.components
            .replace(usize::from(tcom.0), PlainCom::Tcom(ledger));
    }
}
