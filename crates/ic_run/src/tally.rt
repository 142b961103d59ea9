ghost use Rattle.std.specs.Prelude.{◌≡◌, ◌+◌, ◌++◌, ◌∷◌, [], List, cond, MatchOption, IfSome};
ghost use Rattle.def_run.specs.Reports as definition;
ghost use Rattle.ic_base.specs.declared.events.Trace.{Trace};
ghost use Rattle.ic_run.specs.Tallies.{Counts, IsOneMore};

use ic_base::{Answer, Trace};

/// What the events of a run are counted for.
#[derive(Clone, Copy, Debug, PartialEq, Eq)]
pub struct Tally {
    /// The number of the last event that was told, or of what else was told with a number.
    pub events: u32,
    /// Inputs that were taken.
    pub taken: u64,
    /// Inputs that a stop cut off and the log kept.
    pub kept: u64,
    /// Inputs that a stop cut off and the log lost.
    pub lost: u64,
    /// Inputs that found their component down, replaying, or with something in hand.
    pub missed: u64,
    /// Outputs that were shown for the first time in the run.
    pub first: u64,
    /// Outputs that were shown before.
    pub again: u64,
}

impl Tally {
    /// Nothing is counted.
    pub fn none() -> Tally
        ensures counts { Counts [] result }
        ensures first { result.events ≡ 0 }
    {
        Tally {
            events: 0,
            taken: 0,
            kept: 0,
            lost: 0,
            missed: 0,
            first: 0,
            again: 0,
        }
    }

    /// With one event more. None only where all numbers of a u32 are taken.
    pub fn with(self, trace: &Trace) -> Option<Tally>
        ensures counts { (traces : List Trace) → Counts traces self → MatchOption result (self.events ≡ u32.MAX) (Counts (traces ++ trace.now ∷ [])) }
        ensures more { IfSome result (IsOneMore self) }
    {
        Some(Tally {
            events: self.events.checked_add(1)?,
            taken: more(self.taken, is_taken(trace))?,
            kept: more(self.kept, is_kept(trace))?,
            lost: more(self.lost, is_lost(trace))?,
            missed: more(self.missed, is_missed(trace))?,
            first: more(self.first, shows_first(trace))?,
            again: more(self.again, shows_again(trace))?,
        })
    }

    /// With one number more, of what is told of no event. None only where all numbers of a u32 are taken.
    pub fn noted(self) -> Option<Tally>
        ensures counts { (traces : List Trace) → Counts traces self → MatchOption result (self.events ≡ u32.MAX) (Counts traces) }
        ensures more { IfSome result (IsOneMore self) }
    {
        Some(Tally {
            events: self.events.checked_add(1)?,
            ..self
        })
    }
}

/// One more, if it counts.
fn more(count: u64, counts: bool) -> Option<u64>
    ensures { MatchOption result (count ≡ u64.MAX) (λ n. n ≡ count + cond counts 1 0) }
{
    if counts {
        count.checked_add(1)
    } else {
        Some(count)
    }
}

fn is_taken(trace: &Trace) -> bool
    ensures { result ≡ definition.is_taken trace.now }
{
    matches!(trace.answer, Answer::Taken)
}

fn is_kept(trace: &Trace) -> bool
    ensures { result ≡ definition.is_kept trace.now }
{
    matches!(trace.answer, Answer::Kept)
}

fn is_lost(trace: &Trace) -> bool
    ensures { result ≡ definition.is_lost trace.now }
{
    matches!(trace.answer, Answer::Lost)
}

fn is_missed(trace: &Trace) -> bool
    ensures { result ≡ definition.is_missed trace.now }
{
    matches!(
        trace.answer,
        Answer::MissedDown | Answer::MissedReplaying | Answer::MissedBusy
    )
}

fn shows_first(trace: &Trace) -> bool
    ensures { result ≡ definition.shows_first trace.now }
{
    match &trace.shown {
        Some((_, before)) => !*before,
        None => false,
    }
}

fn shows_again(trace: &Trace) -> bool
    ensures { result ≡ definition.shows_again trace.now }
{
    match &trace.shown {
        Some((_, before)) => *before,
        None => false,
    }
}
