ghost use Rattle.std.specs.Prelude.{◌≡◌, ◌≤◌, ◌<◌, ◌∷◌, [], ◌++◌, ℕ, List, length, take, not, IfOk, OnOk};
ghost use Rattle.ic_base.specs.declared.messages.ComId.{ComId};
ghost use Rattle.ic_base.specs.declared.messages.Send.{Send};
ghost use Rattle.def_plain.specs.Plain.{counted, on_link};
ghost use Rattle.ic_model.specs.Index.{IsIndexOf, is_among};

use ic_base::{ComId, Items, Send, Sends};
use std::alloc::{AllocError, Global};
use std::collections::HashSet;

/// What finds the messages of a Pcom by their number: those that it has taken, by sender, and those that it has sent, by
/// receiver.
#[derive(Drop)]
pub(crate) struct MessageIndex {
    /// The sender and the number of each.
    taken: HashSet<(u8, u64)>,
    /// At the place of each receiver, in order.
    sent: Vec<Sends>,
}

impl MessageIndex {
    /// No message.
    pub(crate) fn new(alloc: Global) -> MessageIndex
        ensures { IsIndexOf [] [] result }
    {
        MessageIndex {
            taken: HashSet::new(alloc),
            sent: Vec::new(alloc),
        }
    }

    /// Takes the k-th message of a sender, and tells whether it is the first time.
    pub(crate) fn take(&mut self, from: ComId, k: u64) -> Result<bool, AllocError>
        ensures { (receipts : List (ComId × ℕ)) (sent : List Send) → IsIndexOf receipts sent self.old → IfOk result (λ first. (first ≡ not (is_among receipts from k)) × IsIndexOf (receipts ++ (from, k) ∷ []) sent self.new) }
    {
        Ok(self.taken.insert((from.0, k))?)
    }

    /// The k-th message that was sent to a component, from 1.
    pub(crate) fn message(&self, to: ComId, k: u64) -> Option<Send>
        ensures { (receipts : List (ComId × ℕ)) (sent : List Send) → IsIndexOf receipts sent self.now → result ≡ counted (on_link to sent) k }
    {
        let before = k.checked_sub(1)?;
        let messages = self.sent.get(usize::from(to.0))?;
        messages.as_slice().get(before as usize).copied()
    }

    /// Makes places for the receivers up to this one.
    fn reach(&mut self, alloc: Global, to: ComId) -> Result<(), AllocError>
        ensures same { OnOk result ((receipts : List (ComId × ℕ)) (sent : List Send) → IsIndexOf receipts sent self.old → IsIndexOf receipts sent self.new) }
        ensures there { OnOk result (to.0 < length self.new.sent.items) }
    {
        for _place in self.sent.len()..usize::from(to.0) + 1 {
            self.sent.push(Items::new(alloc))?;
        }
        Ok(())
    }

    /// Sends one message more.
    fn send(&mut self, alloc: Global, message: &Send) -> Result<(), AllocError>
        ensures { OnOk result ((receipts : List (ComId × ℕ)) (sent : List Send) → IsIndexOf receipts sent self.old → IsIndexOf receipts (sent ++ message.now ∷ []) self.new) }
    {
        self.reach(alloc, message.to)?;
        self.sent[usize::from(message.to.0)].push(*message)?;
        Ok(())
    }

    /// Sends the messages of a list behind the first so many.
    pub(crate) fn send_all(
        &mut self,
        alloc: Global,
        sent: &Sends,
        before: usize,
    ) -> Result<(), AllocError>
        requires { before ≤ length sent.now }
        ensures { OnOk result ((receipts : List (ComId × ℕ)) → IsIndexOf receipts (take before sent.now) self.old → IsIndexOf receipts sent.now self.new) }
    {
        for at in before..sent.len() {
            self.send(alloc, &sent.as_slice()[at])?;
        }
        Ok(())
    }
}
