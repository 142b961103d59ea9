ghost use Rattle.std.specs.Prelude.{◌≡◌, OnOk, IfOk, slice_get, option_map, map};
ghost use Rattle.def_state.specs.Vol.{first_vol};
ghost use Rattle.def_state.specs.Hist.{first_plain};
ghost use Rattle.def_plain.specs.Cell.{first_values};
ghost use Rattle.ic_ckpt.specs.Views.{seen, HasRoom};

use def_plain::InHand;
use ic_base::{Cells, ComId, Done, Dones, Items, Program, Vals};
use ic_edge::Shelf;
use ic_in::Inbox;
use ic_out::Outbox;
use ic_txn::Txn;
use std::alloc::{AllocError, Global};

/// All that a Pcom holds beside its log. It is lost in a crash, and the log gives it again.
#[derive(Drop)]
pub struct State {
    pub vars: Vals,
    /// The greatest stamp so far, 0 before the first (Lamport 1978).
    pub clock: u64,
    pub outbox: Outbox,
    pub inbox: Inbox,
    pub shelf: Shelf,
    pub txn: Txn,
    /// The message or input that waits for the end of a transaction.
    pub hand: Option<InHand>,
    /// The answers that its open transaction got so far.
    pub answers: Vals,
    /// The position in the log at which the last ended transaction's Outcome record ends.
    pub ended_at: u64,
    /// Whether a Drop of that transaction is to be put out once that record is forced.
    pub owes_drop: bool,
}

impl State {
    /// The state before the first record: the declared values, and room for nothing.
    pub fn first(alloc: Global, program: &Program, com: ComId) -> Result<State, AllocError>
        ensures { IfOk result (λ s. seen s ≡ first_vol program.now «com») }
    {
        Ok(State {
            vars: first_vars(alloc, program, com)?,
            clock: 0,
            outbox: Outbox::new(alloc),
            inbox: Inbox::new(alloc),
            shelf: Shelf::new(alloc),
            txn: Txn::new(),
            hand: None,
            answers: Items::new(alloc),
            ended_at: 0,
            owes_drop: false,
        })
    }

    /// Makes room for so many more messages, receipts and outputs.
    pub fn reserve(
        &mut self,
        messages: usize,
        receipts: usize,
        outputs: usize,
    ) -> Result<(), AllocError>
        ensures same { seen self.new ≡ seen self.old }
        ensures room { OnOk result (HasRoom self.new messages receipts outputs) }
    {
        self.outbox.reserve(messages)?;
        self.inbox.reserve(receipts)?;
        self.shelf.reserve(outputs)
    }

    /// An equal state, with room for nothing more.
    pub fn copy(&self, alloc: Global) -> Result<State, AllocError>
        ensures { IfOk result (λ s. seen s ≡ seen self.now) }
    {
        Ok(State {
            vars: self.vars.copy(alloc)?,
            clock: self.clock,
            outbox: self.outbox.copy(alloc)?,
            inbox: self.inbox.copy(alloc)?,
            shelf: self.shelf.copy(alloc)?,
            txn: self.txn,
            hand: copied_hand(alloc, &self.hand)?,
            answers: self.answers.copy(alloc)?,
            ended_at: self.ended_at,
            owes_drop: self.owes_drop,
        })
    }
}

/// The values with which the component's variables are declared.
fn first_vars(alloc: Global, program: &Program, com: ComId) -> Result<Vals, AllocError>
    ensures { IfOk result (λ vars. vars ≡ (first_plain program.now «com»).vars) }
{
    match program.components.as_slice().get(usize::from(com.0)) {
        Some(component) => declared(alloc, &component.vars),
        None => Ok(Items::new(alloc)),
    }
}

/// The values of a declaration.
fn declared(alloc: Global, cells: &Cells) -> Result<Vals, AllocError>
    ensures { IfOk result (λ values. values ≡ first_values cells.now) }
{
    let mut values = Items::new(alloc);
    for cell in cells.as_slice() {
        values.push(cell.1)?;
    }
    Ok(values)
}

/// A copy of what is in hand.
fn copied_hand(alloc: Global, hand: &Option<InHand>) -> Result<Option<InHand>, AllocError>
    ensures { IfOk result (λ copy. copy ≡ hand.now) }
{
    match hand {
        Some(held) => Ok(Some(InHand {
            handler: held.handler,
            args: held.args,
            done: copied_dones(alloc, &held.done)?,
        })),
        None => Ok(None),
    }
}

/// A copy of the ends of transactions.
fn copied_dones(alloc: Global, dones: &Dones) -> Result<Dones, AllocError>
    ensures { IfOk result (λ copy. copy ≡ dones.now) }
{
    let mut copies = Items::new(alloc);
    for done in dones.as_slice() {
        copies.push(copied_done(alloc, done)?)?;
    }
    Ok(copies)
}

/// A copy of the end of a transaction.
fn copied_done(alloc: Global, done: &Done) -> Result<Done, AllocError>
    ensures { IfOk result (λ copy. copy ≡ done.now) }
{
    match done {
        Done::Committed(answers) => Ok(Done::Committed(answers.copy(alloc)?)),
        Done::Aborted => Ok(Done::Aborted),
    }
}
