ghost use Rattle.std.specs.Prelude.{◌≡◌, ◌+◌, ◌<◌, ◌≤◌, ◌∷◌, ◌++◌, [], List, cond, true, min, length, MatchOption, OnOk, IfOk, IfErr, option_to_list};
ghost use Rattle.ic_base.specs.declared.events.Event.{Event};
ghost use Rattle.ic_base.specs.declared.limits.TheConstants.{PACKETS, RECEIPTS};

use crate::choice::Choice;
use crate::keeping::{add_answer, add_shown, receipts};
use ic_base::limits::PACKETS;
use ic_base::{Answer, Event, Items, Output, Packets, Which, WorldRefused};
use ic_node::Done;
use std::alloc::{AllocError, Global};

/// How far a component has come with its list, what it showed, and what is counted of it.
#[derive(Drop)]
pub struct Progress {
    /// Its list, whole.
    pub(crate) events: Items<Event>,
    /// The answers of those that it did, which are the first.
    pub(crate) answers: Items<Answer>,
    pub(crate) shown: Items<Output>,
    pub(crate) turns: u64,
    pub(crate) received: u64,
    pub(crate) packets: u64,
    /// How many records its recoveries have played. It stands still at the greatest u64.
    pub(crate) played: u64,
    // Crates above may rely on these two: no more was received or put out than may be.
    pub ghost receipts: { received ≤ RECEIPTS },
    pub ghost puts: { packets ≤ PACKETS },
}

impl Progress {
    ghost use Rattle.ic_turn.specs.Choices.{choice_of, answers_kept};
    ghost use Rattle.ic_turn.specs.Progresses.{GREATEST, events_of, left_of, answers_of, shown_of, turns_of, received_of, packets_of, played_of};
    ghost use Rattle.ic_turn.specs.Telling.{FailsToTell};

    /// Nothing is done of this list.
    pub fn new(alloc: Global, events: Items<Event>) -> Progress
        ensures left { left_of result ≡ events }
        ensures answers { answers_of result ≡ [] }
        ensures shown { shown_of result ≡ [] }
        ensures turns { turns_of result ≡ 0 }
        ensures received { received_of result ≡ 0 }
        ensures packets { packets_of result ≡ 0 }
        ensures played { played_of result ≡ 0 }
    {
        Progress {
            events,
            answers: Items::new(alloc),
            shown: Items::new(alloc),
            turns: 0,
            received: 0,
            packets: 0,
            played: 0,
        }
    }

    /// The answers of the events that it did, which are the first of its list.
    pub fn answers(&self) -> &[Answer]
        ensures { result.now ≡ answers_of self.now }
    {
        self.answers.as_slice()
    }

    /// What it showed.
    pub fn shown(&self) -> &[Output]
        ensures { result.now ≡ shown_of self.now }
    {
        self.shown.as_slice()
    }

    /// Its list, whole.
    pub fn events(&self) -> &[Event]
        ensures { result.now ≡ events_of self.now }
    {
        self.events.as_slice()
    }

    /// How many turns it made.
    pub fn turns(&self) -> u64
        ensures { result ≡ turns_of self.now }
    {
        self.turns
    }

    /// How many inputs and messages it received.
    pub fn received(&self) -> u64
        ensures { result ≡ received_of self.now }
    {
        self.received
    }

    /// How many packets it put out.
    pub fn packets(&self) -> u64
        ensures { result ≡ packets_of self.now }
    {
        self.packets
    }

    /// How many records its recoveries have played. It stands still at the greatest u64.
    pub fn played(&self) -> u64
        ensures { result ≡ played_of self.now }
    {
        self.played
    }

    /// One turn more. A count that can't rise wants memory.
    pub fn count_turn(&mut self) -> Result<(), AllocError>
        ensures turns { OnOk result (turns_of self.new ≡ turns_of self.old + 1) }
        ensures events { events_of self.new ≡ events_of self.old }
        ensures answers { answers_of self.new ≡ answers_of self.old }
        ensures shown { shown_of self.new ≡ shown_of self.old }
        ensures received { received_of self.new ≡ received_of self.old }
        ensures packets { packets_of self.new ≡ packets_of self.old }
        ensures played { played_of self.new ≡ played_of self.old }
    {
        match self.turns.checked_add(1) {
            Some(turns) => {
                self.turns = turns;
                Ok(())
            }
            None => Err(AllocError),
        }
    }

    /// The first event that is left.
    pub(crate) fn next(&self) -> Option<Event>
        ensures { MatchOption result (left_of self.now ≡ []) (λ e. (rest : List Event) × (left_of self.now ≡ e ∷ rest)) }
    {
        match self.events.as_slice().get(self.answers.len()) {
            Some(event) => Some(*event),
            None => None,
        }
    }

    /// What came of a choice is kept and counted. What is put out is answered.
    pub(crate) fn tell(
        &mut self,
        choice: &Choice,
        more: bool,
        done: Done,
    ) -> Result<Packets, WorldRefused>
        requires room { «more» ≡ true → received_of self.old < RECEIPTS }
        ensures puts { IfOk result (λ puts. puts ≡ done.puts) }
        ensures answers { OnOk result (answers_of self.new ≡ answers_of self.old ++ answers_kept (choice_of choice.now) done.answer) }
        ensures shown { OnOk result (shown_of self.new ≡ shown_of self.old ++ option_to_list done.shown) }
        ensures received { OnOk result (received_of self.new ≡ received_of self.old + cond «more» 1 0) }
        ensures packets { OnOk result (packets_of self.new ≡ packets_of self.old + length done.puts) }
        ensures played { OnOk result (played_of self.new ≡ min (played_of self.old + done.played) GREATEST) }
        ensures events { events_of self.new ≡ events_of self.old }
        ensures turns { turns_of self.new ≡ turns_of self.old }
        ensures refused { IfErr result (FailsToTell (packets_of self.old) done) }
        ensures counts { IfErr result (λ why. (received_of self.new ≡ received_of self.old) × (packets_of self.new ≡ packets_of self.old)) }
    {
        if self.packets + done.puts.len() as u64 > PACKETS {
            return Err(WorldRefused::Limit(Which::Packets));
        }
        if add_shown(&mut self.shown, &done).is_err() {
            return Err(WorldRefused::Memory);
        }
        let played = done.played;
        let Ok(puts) = add_answer(&mut self.answers, choice, done) else {
            return Err(WorldRefused::Memory);
        };
        self.received += receipts(more);
        self.packets += puts.len() as u64;
        self.played = self.played.saturating_add(played);
        Ok(puts)
    }
}
