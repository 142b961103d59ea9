ghost use Rattle.std.specs.Prelude.{◌≡◌, ◌∷◌, [], IfSome};
ghost use Rattle.ic_run.specs.Tallies.{Counts};
ghost use Rattle.ic_run.specs.declared.tally.Tally.{Tally};
ghost use Rattle.ic_threads.specs.Counting.{counted, with_answers, with_all, together};

use ic_base::Answer;
use ic_run::Tally;
use ic_turn::Progress;

/// With one answer more of an event of a list.
fn with_answer(tally: Tally, answer: &Answer) -> Option<Tally>
    ensures { IfSome result (λ t. t ≡ with_answers tally (answer.now ∷ [])) }
{
    match answer {
        Answer::Taken => Some(Tally {
            taken: tally.taken.checked_add(1)?,
            ..tally
        }),
        Answer::Kept => Some(Tally {
            kept: tally.kept.checked_add(1)?,
            ..tally
        }),
        Answer::Lost => Some(Tally {
            lost: tally.lost.checked_add(1)?,
            ..tally
        }),
        Answer::MissedDown | Answer::MissedReplaying | Answer::MissedBusy => Some(Tally {
            missed: tally.missed.checked_add(1)?,
            ..tally
        }),
        _ => Some(tally),
    }
}

/// With the answers of one component more.
fn with_answers(tally: Tally, answers: &[Answer]) -> Option<Tally>
    ensures { IfSome result (λ t. t ≡ with_answers tally answers.now) }
{
    let mut counted = tally;
    for answer in answers {
        counted = with_answer(counted, answer)?;
    }
    Some(counted)
}

/// What became of the inputs that the components did in threads. None only where a count would pass its range.
pub(crate) fn tally_of(progresses: &[Progress]) -> Option<Tally>
    ensures { IfSome result (λ t. (none : Tally) × Counts [] none × (none.events ≡ 0) × (t ≡ with_all none (counted progresses.now))) }
{
    let mut tally = Tally::none();
    for progress in progresses {
        tally = with_answers(tally, progress.answers())?;
    }
    Some(tally)
}

/// How many records the recoveries in threads have played. None only where it would pass its range.
pub(crate) fn played_in(progresses: &[Progress]) -> Option<u64>
    ensures { IfSome result (λ n. n ≡ (counted progresses.now).played) }
{
    let mut played: u64 = 0;
    for progress in progresses {
        played = played.checked_add(progress.played())?;
    }
    Some(played)
}

/// What both phases counted of the inputs. None only where a count would pass its range.
pub(crate) fn together(threads: Tally, serial: Tally) -> Option<Tally>
    ensures { IfSome result (λ t. t ≡ together threads serial) }
{
    Some(Tally {
        taken: threads.taken.checked_add(serial.taken)?,
        kept: threads.kept.checked_add(serial.kept)?,
        lost: threads.lost.checked_add(serial.lost)?,
        missed: threads.missed.checked_add(serial.missed)?,
        ..serial
    })
}
