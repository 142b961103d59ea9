ghost use Rattle.std.specs.Prelude.{◌≡◌, ◌+◌, ◌≤◌, [], length, All, IfOk, IfErr, OnOk, Some, option_map};
ghost use Rattle.def_log.specs.Spelling.{Fits};
ghost use Rattle.def_state.specs.Outbox as outbox;
ghost use Rattle.def_state.specs.Vol.{regenerated};
ghost use Rattle.def_step.specs.Pcom.{needed};
ghost use Rattle.def_step.specs.Replay.{behind_checkpoint, stamp_waiting};
ghost use Rattle.ic_ckpt.specs.Views.{seen};
ghost use Rattle.ic_replay.specs.Replaying.{Begins, FailsToBegin, Feeds, FailsToFeed, identity_of, stamp_of};

use crate::feeding::feed_at;
use crate::playing::play_records;
use crate::quiet::record_at;
use crate::refusals::ReplayRefused;
use crate::start::start;
use ic_base::{ComId, Msg, Program, Record, Steps};
use ic_ckpt::State;
use ic_gate::EncodedRecords;
use std::alloc::Global;
use std::marker::Model;
use std::sync::ledger::Ledger;

/// A replay of a log (docs/RULES.md, "Recover"): the records behind the last checkpoint are played until one waits for the
/// content of the message that it takes by identity, and again each time it is fed.
#[derive(Drop)]
pub struct Replay {
    com: ComId,
    records: EncodedRecords,
    /// How many records are passed over, up to the last checkpoint.
    first: usize,
    /// How many are passed over or played.
    next: usize,
    /// The record that waits. None where there is none left.
    waiting: Option<Record>,
    state: State,
}

impl Model for Replay {
    ghost use Rattle.std.specs.Prelude.{◌-◌, drop};
    ghost use Rattle.ic_replay.specs.Replaying.{Replaying, IsAt};
    ghost use Rattle.ic_ckpt.specs.Views.{seen};

    ghost Value = { Replaying };

    ghost view = { λ s. record {
      owner = s.«com»;
      records = s.records;
      playing = record { vol = seen s.state; rest = drop s.next s.records };
      before = s.next;
      played = s.next - s.first;
    } };

    ghost invariant = { λ s. IsAt s.records s.first s.next s.waiting (seen s.state) };
}

impl Replay {
    /// Plays the records behind the last checkpoint until one waits, from the state of its image, or all from the first
    /// state.
    pub fn begin<L: Ledger>(
        alloc: Global,
        program: &Program,
        com: ComId,
        records: EncodedRecords,
        steps: &mut Steps<L>,
    ) -> Result<Replay, ReplayRefused>
        requires { All Fits records }
        ensures begun { IfOk result (Begins program.now «com» records) }
        ensures steps { IfOk result (λ r. steps.new ≡ steps.old + r.played) }
        ensures bound { steps.new ≤ steps.old + length (behind_checkpoint records) }
        ensures refused { IfErr result (FailsToBegin program.now «com» records) }
    {
        let (first, mut state) = start(alloc, program, com, &records)?;
        let next = play_records(alloc, program, com, &records, first, &mut state, steps)?;
        let waiting = record_at(alloc, &records, next)?;
        Ok(Replay {
            com,
            records,
            first,
            next,
            waiting,
            state,
        })
    }

    /// The message that it waits for, with its sender. None exactly where it is finished.
    pub fn needs(&self) -> Option<(ComId, u64)>
        ensures { option_map identity_of result ≡ needed self.now.playing.rest }
    {
        match self.waiting.as_ref()? {
            Record::Take { from, k, .. } => Some((*from, *k)),
            _ => None,
        }
    }

    /// The stamp of the record that waits. None exactly where it is finished.
    pub fn waits_at(&self) -> Option<u64>
        ensures { result ≡ stamp_of self.now.playing.rest }
    {
        match self.waiting.as_ref()? {
            Record::Take { stamp, .. } => Some(*stamp),
            _ => None,
        }
    }

    /// All records of the log, in order.
    pub fn records(&self) -> &EncodedRecords
        ensures { result.now ≡ self.now.records }
    {
        &self.records
    }

    /// What is regenerated so far.
    pub fn state(&self) -> &State
        ensures { seen result.now ≡ self.now.playing.vol }
    {
        &self.state
    }

    /// A message of those regenerated so far. None exactly where it isn't held, or isn't due once the log is forced up to
    /// `forced`.
    pub fn fetch(&self, to: ComId, k: u64, forced: u64) -> Option<Msg>
        ensures { result ≡ outbox.fetch self.now.playing.vol.outbox (record { peer = to; k = k }) forced }
    {
        self.state.outbox.fetch(to, k, forced)
    }

    /// How many records it has played.
    pub fn played(&self) -> u64
        ensures { result ≡ self.now.played }
    {
        (self.next - self.first) as u64
    }

    /// Plays the record that waits with its message, and those behind it until one waits again. The place of a misfit is
    /// counted from the first record of the log.
    pub fn feed<L: Ledger>(
        &mut self,
        alloc: Global,
        program: &Program,
        msg: Msg,
        steps: &mut Steps<L>,
    ) -> Result<(), ReplayRefused>
        requires { needed self.old.playing.rest ≡ Some (record { peer = msg.from; k = msg.k }) }
        ensures fed { OnOk result (Feeds program.now msg self.old self.new) }
        ensures steps { OnOk result (steps.new + self.old.played ≡ steps.old + self.new.played) }
        ensures bound { steps.new ≤ steps.old + length self.old.playing.rest }
        ensures refused { IfErr result (FailsToFeed program.now msg self.old self.new) }
    {
        let fed = feed_at(
            alloc,
            program,
            self.com,
            &self.records,
            self.next,
            msg,
            &mut self.state,
            steps,
        );
        match fed {
            Ok((next, waiting)) => {
                self.next = next;
                self.waiting = waiting;
                Ok(())
            }
            Err(ReplayRefused::Memory) => Err(ReplayRefused::Memory),
            Err(ReplayRefused::Misfit(place)) => {
                self.next = self.records.len();
                self.waiting = None;
                Err(ReplayRefused::Misfit(place))
            }
        }
    }

    /// The state behind all records, and these: what is regenerated has its put mark, and the Drop of the last transaction
    /// is left to a resend.
    pub fn finish(self) -> (State, EncodedRecords)
        requires { self.playing.rest ≡ [] }
        ensures state { seen result.0 ≡ regenerated self.playing.vol }
        ensures records { result.1 ≡ self.records }
    {
        let Replay {
            records,
            mut state,
            ..
        } = self;
        state.outbox.put_all();
        state.owes_drop = false;
        (state, records)
    }
}
