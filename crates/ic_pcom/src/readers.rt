ghost use Rattle.std.specs.Prelude.{◌≡◌, cond, length, slice_get, option_map, None, Some};
ghost use Rattle.def_state.specs.Inbox.{is_taken};
ghost use Rattle.def_state.specs.Outbox.{unstable};
ghost use Rattle.def_step.specs.Pcom as step;
ghost use Rattle.def_step.specs.Replay.{behind_checkpoint};
ghost use Rattle.def_step.specs.Settle.{shows, first_stamp};
ghost use Rattle.ic_ckpt.specs.Views.{seen};
ghost use Rattle.ic_pcom.specs.Stages.{vol_of, played_in};
ghost use Rattle.ic_pcom.specs.Views.{component_of, is_closed, played_of};

use crate::Pcom;
use crate::stage::Stage;
use ic_base::{ComId, Msg, Vals};
use ic_ckpt::State;
use ic_disk::Disk;
use ic_gate::EncodedRecords;

impl Stage {
    /// The volatile state; of one that replays, what is regenerated so far.
    pub(crate) fn state(&self) -> &State
        ensures { vol_of self.now ≡ seen result.now }
    {
        match self {
            Stage::Up(state) => state,
            Stage::Replays(_, replay) => replay.state(),
        }
    }
}

impl Stage {
    /// How many records its replay has played, if it has one.
    pub(crate) fn played(&self) -> u64
        ensures { result ≡ played_in self.now }
    {
        match self {
            Stage::Up(_) => 0,
            Stage::Replays(_, replay) => replay.played(),
        }
    }
}

impl<D: Disk> Pcom<D> {
    /// All its records from where its log begins, forced and buffered, in order.
    pub fn records(&self) -> &EncodedRecords
        ensures { result.now ≡ step.all_of (component_of self.now).log }
    {
        self.log.records()
    }

    /// Whether it is up and an output is due.
    pub fn has_due(&self) -> bool
        ensures { result ≡ shows (component_of self.now) }
    {
        match &self.stage {
            Stage::Up(state) => state.shelf.next_due(self.log.forced_end()).is_some(),
            Stage::Replays(_, _) => false,
        }
    }

    /// How many of its outputs aren't shown.
    pub fn unshown(&self) -> usize
        ensures { result ≡ length (component_of self.now).vol.shelf.waiting }
    {
        self.stage.state().shelf.len()
    }

    /// The stamp of the Take that waits for its message. None exactly where it doesn't replay.
    pub fn waits_at(&self) -> Option<u64>
        ensures { result ≡ first_stamp (component_of self.now).rest }
    {
        match &self.stage {
            Stage::Up(_) => None,
            Stage::Replays(_, replay) => replay.waits_at(),
        }
    }

    /// The i-th, from 0, of its held messages that are due and have no stable mark. None exactly past the end.
    pub fn unstable(&self, i: usize) -> Option<Msg>
        ensures { result ≡ slice_get (unstable (component_of self.now).vol.outbox (step.forced_end (component_of self.now))) i }
    {
        self.stage.state().outbox.unstable(i, self.log.forced_end())
    }

    /// How many messages it holds.
    pub fn held(&self) -> usize
        ensures { result ≡ length (component_of self.now).vol.outbox.held }
    {
        self.stage.state().outbox.len()
    }

    /// Whether it has taken this message of another component.
    pub fn has_taken(&self, from: ComId, k: u64) -> bool
        ensures { result ≡ is_taken (component_of self.now).vol.inbox (record { peer = from; k = k }) }
    {
        !self.stage.state().inbox.is_new(from, k)
    }

    /// Whether it replays its log, and waits for a message.
    pub fn is_replaying(&self) -> bool
        ensures { result ≡ step.is_replaying (component_of self.now) }
    {
        match &self.stage {
            Stage::Up(_) => false,
            Stage::Replays(_, _) => true,
        }
    }

    /// Whether a message or an input is in hand, whose transaction is open.
    pub fn in_hand(&self) -> bool
        ensures { result ≡ step.in_hand (component_of self.now) }
    {
        self.stage.state().hand.is_some()
    }

    /// How many of its records stand in its file.
    pub fn forced(&self) -> usize
        ensures { result ≡ length (component_of self.now).log.forced }
    {
        self.log.forced()
    }

    /// How many of its records wait for the next force.
    pub fn buffered(&self) -> usize
        ensures { result ≡ length (component_of self.now).log.buffered }
    {
        self.log.buffered()
    }

    /// How many records are behind the last checkpoint of its log.
    pub fn since_checkpoint(&self) -> usize
        ensures { result ≡ length (behind_checkpoint (step.all_of (component_of self.now).log)) }
    {
        self.log.since_checkpoint()
    }

    /// How many records it has played since it was recovered.
    pub fn played(&self) -> u64
        ensures { result ≡ played_of self.now }
    {
        self.played
    }

    /// The values of its variables. None exactly where it replays.
    pub fn vars(&self) -> Option<&Vals>
        ensures { option_map (λ vars. vars.now) result ≡ cond (step.is_replaying (component_of self.now)) None (Some (component_of self.now).vol.vars) }
    {
        match &self.stage {
            Stage::Up(state) => Some(&state.vars),
            Stage::Replays(_, _) => None,
        }
    }

    /// Whether it makes no further step, since its disk failed or stopped, or its log is bad.
    pub fn is_closed(&self) -> bool
        ensures { result ≡ is_closed self.now }
    {
        self.closed
    }
}
