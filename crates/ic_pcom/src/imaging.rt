ghost use Rattle.std.specs.Prelude.{◌≡◌, ◌<◌, ◌≤◌, ◌^◌, [], ◌∷◌, ◌&&◌, not, false, true, is_some, length, IfErr, IfOk, None};
ghost use Rattle.std.specs.List.{All};
ghost use Rattle.ic_base.specs.declared.limits.TheConstants.{LOG_BYTES};
ghost use Rattle.ic_base.specs.declared.record.Record.TheVariants.{Checkpoint};
ghost use Rattle.ic_base.specs.declared.scenario.Program.{Program};
ghost use Rattle.def_state.specs.Image.{image_of, senders_of};
ghost use Rattle.def_state.specs.Vol.{Vol};
ghost use Rattle.def_step.specs.Pcom as step;
ghost use Rattle.ic_ckpt.specs.Views.{seen};
ghost use Rattle.ic_pcom.specs.Effects.{effects_of};
ghost use Rattle.ic_in.specs.Senders.{above_bound, are_components};
ghost use Rattle.ic_pcom.specs.Deciding.{IsPlanned, MayFollow};
ghost use Rattle.ic_pcom.specs.Imaging.{HasWords, HasBytes, FailsToImage};
ghost use Rattle.ic_pcom.specs.Stages.{HasPeers, is_up};
ghost use Rattle.ic_pcom.specs.Stepping.{FailsToStep};
ghost use Rattle.ic_pcom.specs.Views.{component_of, is_closed};

use crate::plan::Plan;
use crate::{Effects, Pcom};
use ic_base::limits::{COMPONENTS, LOG_BYTES};
use ic_base::{Bytes, Items, Record};
use ic_ckpt::{State, image_bytes};
use ic_disk::Disk;
use ic_gate::StepRefused;
use ic_in::Inbox;
use ic_replay::Prepared;
use std::alloc::{AllocError, Global};

/// The first place that a list hasn't whose count goes into four bytes.
const PAST: usize = 0xFFFF_FFFF;

/// Whether the numbers above of each sender have a count of four bytes. Where they don't, no log has room for the image.
fn are_short(inbox: &Inbox) -> bool
    requires peers { are_components inbox.now.seen.taken ≡ true }
    ensures short { result ≡ true → All (λ x. length (above_bound x.1) < 2 ^ 32) (senders_of inbox.now.seen) }
    ensures long { result ≡ false → (v : Vol) → v.inbox ≡ inbox.now.seen → LOG_BYTES < length (image_of v) }
{
    for i in 0..COMPONENTS {
        if inbox.above(i, PAST).is_some() {
            return false;
        }
    }
    true
}

/// Whether the lists of an image have counts of four bytes. Where they don't, no log has room for it.
fn has_words(state: &State) -> bool
    requires peers { HasPeers (seen state.now) }
    ensures short { result ≡ true → HasWords (seen state.now) }
    ensures long { result ≡ false → LOG_BYTES < length (image_of (seen state.now)) }
{
    if PAST < state.outbox.len() {
        return false;
    }
    if state.shelf.waiting(PAST).is_some() {
        return false;
    }
    are_short(&state.inbox)
}

/// Whether the numbers of variables and of links go into one byte.
fn has_bytes(state: &State) -> bool
    ensures { result ≡ true → HasBytes (seen state.now) }
{
    state.vars.len() < 256 && state.outbox.link(255).is_none()
}

/// The image of a state with nothing in hand. Full comes where it is longer than a log may be. A number of variables or of
/// links that takes more than a byte is answered as want of memory: the limits on variables and components keep these below.
fn image(alloc: Global, state: &State) -> Result<Bytes, StepRefused>
    requires free { state.now.hand ≡ None }
    requires peers { HasPeers (seen state.now) }
    ensures image { IfOk result (λ bytes. bytes ≡ image_of (seen state.now)) }
    ensures short { IfOk result (λ bytes. length bytes ≤ LOG_BYTES) }
    ensures refused { IfErr result (FailsToImage (seen state.now)) }
{
    if !has_words(state) {
        return Err(StepRefused::Full);
    }
    if !has_bytes(state) {
        return Err(StepRefused::Memory);
    }
    let Ok(bytes) = image_bytes(alloc, state) else {
        return Err(StepRefused::Memory);
    };
    if LOG_BYTES < bytes.len() as u64 {
        return Err(StepRefused::Full);
    }
    Ok(bytes)
}

/// An image is recorded and forced, and covers every receipt.
fn on_checkpoint(alloc: Global, image: Bytes) -> Result<Effects, AllocError>
    ensures { IfOk result (λ e. effects_of e ≡ record step.just_tail { adds = Checkpoint image ∷ []; forces = true; covers = true }) }
{
    let mut adds = Items::new(alloc);
    adds.push(Record::Checkpoint { image })?;
    Ok(Effects {
        adds,
        forces: true,
        covers: true,
        ..Effects::just_tail(alloc)
    })
}

impl<D: Disk> Pcom<D> {
    /// Whether it is up, with nothing in hand.
    pub(crate) fn is_idle(&self) -> bool
        ensures { result ≡ (not (step.is_replaying (component_of self.now)) && not (step.in_hand (component_of self.now))) }
    {
        !self.is_replaying() && !self.in_hand()
    }

    /// What a checkpoint comes to with nothing in hand. Its record does nothing to the state, so nothing is prepared.
    pub(crate) fn plan_checkpoint(&self, alloc: Global) -> Result<Plan, StepRefused>
        requires open { is_closed self.now ≡ false }
        requires up { is_up self.now.stage ≡ true }
        requires free { is_some (component_of self.now).vol.hand ≡ false }
        ensures decided { IfOk result (λ plan. (program : Program) → IsPlanned program self.now step.Checkpoints plan) }
        ensures ready { IfOk result (MayFollow (component_of self.now).vol) }
        ensures refused { IfErr result (λ why. (program : Program) → FailsToStep program self.now step.Checkpoints self.now why) }
    {
        let state = self.stage.state();
        if !state.txn.has_next_place() {
            return Err(StepRefused::Memory);
        }
        match image(alloc, state) {
            Err(why) => Err(why),
            Ok(image) => {
                let Ok(decided) = on_checkpoint(alloc, image) else {
                    return Err(StepRefused::Memory);
                };
                let prepared = Prepared {
                    hand: None,
                    answers: Items::new(alloc),
                    played: None,
                };
                Ok(Plan::Adds(decided, prepared))
            }
        }
    }
}
