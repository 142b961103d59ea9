ghost use Rattle.std.specs.Prelude.{◌<◌, length, IfOk};
ghost use Rattle.def_log.specs.Spelling.{Fits};
ghost use Rattle.def_log.specs.Reading.{taken_at, taken_whole_at, input_at, answer_at, outcome_at, released_at, shown_at, checkpoint_at, epoch_at, decided_at, record_at};
ghost use Rattle.ic_wire.specs.Gives.{Gives};

use crate::fields::{
    args_of, byte_of, bytes_of, com_of, count_of, ending_of, many_of, session_of, short_of,
    time_of, value_of, word_of, writes_of,
};
use crate::unread::Unread;
use ic_base::Record;
use std::alloc::Global;

#[tactic(auto, unfolding(def_log::specs::Reading::taken_at))]
fn taken_of(bytes: &[u8]) -> Result<(Record, &[u8]), Unread>
    ensures { Gives (λ x. (x.0, x.1.now)) result (taken_at bytes.now) }
{
    let (from, rest) = com_of(bytes)?;
    let (k, rest) = count_of(rest)?;
    let (stamp, rest) = time_of(rest)?;
    Ok((Record::Take { from, k, stamp }, rest))
}

#[tactic(auto, unfolding(def_log::specs::Reading::taken_whole_at))]
fn taken_whole_of(bytes: &[u8]) -> Result<(Record, &[u8]), Unread>
    ensures { Gives (λ x. (x.0, x.1.now)) result (taken_whole_at bytes.now) }
{
    let (from, rest) = com_of(bytes)?;
    let (k, rest) = count_of(rest)?;
    let (stamp, rest) = time_of(rest)?;
    let (handler, rest) = byte_of(rest)?;
    match args_of(rest) {
        Ok((args, rest)) => Ok((
            Record::TakeWhole {
                from,
                k,
                stamp,
                handler,
                args,
            },
            rest,
        )),
        Err(e) => Err(e),
    }
}

#[tactic(auto, unfolding(def_log::specs::Reading::input_at))]
fn input_of(bytes: &[u8]) -> Result<(Record, &[u8]), Unread>
    ensures { Gives (λ x. (x.0, x.1.now)) result (input_at bytes.now) }
{
    let (stamp, rest) = time_of(bytes)?;
    let (handler, rest) = byte_of(rest)?;
    match args_of(rest) {
        Ok((args, rest)) => Ok((
            Record::Input {
                stamp,
                handler,
                args,
            },
            rest,
        )),
        Err(e) => Err(e),
    }
}

#[tactic(auto, unfolding(def_log::specs::Reading::answer_at))]
fn answer_of(bytes: &[u8]) -> Result<(Record, &[u8]), Unread>
    ensures { Gives (λ x. (x.0, x.1.now)) result (answer_at bytes.now) }
{
    let (n, rest) = count_of(bytes)?;
    let (place, rest) = short_of(rest)?;
    let (session, rest) = session_of(rest)?;
    let (value, rest) = value_of(rest)?;
    let record = Record::Value {
        n,
        place,
        session,
        value,
    };
    Ok((record, rest))
}

#[tactic(auto, unfolding(def_log::specs::Reading::outcome_at))]
fn outcome_of(bytes: &[u8]) -> Result<(Record, &[u8]), Unread>
    ensures { Gives (λ x. (x.0, x.1.now)) result (outcome_at bytes.now) }
{
    let (stamp, rest) = time_of(bytes)?;
    let (n, rest) = count_of(rest)?;
    let (abort, rest) = ending_of(rest)?;
    Ok((Record::Outcome { stamp, n, abort }, rest))
}

#[tactic(auto, unfolding(def_log::specs::Reading::released_at))]
fn released_of(bytes: &[u8]) -> Result<(Record, &[u8]), Unread>
    ensures { Gives (λ x. (x.0, x.1.now)) result (released_at bytes.now) }
{
    let (to, rest) = com_of(bytes)?;
    let (k, rest) = count_of(rest)?;
    Ok((Record::Released { to, k }, rest))
}

#[tactic(auto, unfolding(def_log::specs::Reading::shown_at))]
fn shown_of(bytes: &[u8]) -> Result<(Record, &[u8]), Unread>
    ensures { Gives (λ x. (x.0, x.1.now)) result (shown_at bytes.now) }
{
    let (m, rest) = count_of(bytes)?;
    Ok((Record::Shown { m }, rest))
}

#[tactic(auto, unfolding(def_log::specs::Reading::checkpoint_at))]
fn checkpoint_of(alloc: Global, bytes: &[u8]) -> Result<(Record, &[u8]), Unread>
    ensures { Gives (λ x. (x.0, x.1.now)) result (checkpoint_at bytes.now) }
{
    let (size, rest) = word_of(bytes)?;
    let (image, rest) = bytes_of(alloc, size, rest)?;
    Ok((Record::Checkpoint { image }, rest))
}

#[tactic(auto, unfolding(def_log::specs::Reading::epoch_at))]
fn epoch_of(bytes: &[u8]) -> Result<(Record, &[u8]), Unread>
    ensures { Gives (λ x. (x.0, x.1.now)) result (epoch_at bytes.now) }
{
    let (epoch, rest) = time_of(bytes)?;
    Ok((Record::Epoch { epoch }, rest))
}

#[tactic(auto, unfolding(def_log::specs::Reading::decided_at))]
fn decided_of(alloc: Global, bytes: &[u8]) -> Result<(Record, &[u8]), Unread>
    ensures { Gives (λ x. (x.0, x.1.now)) result (decided_at bytes.now) }
{
    let (stamp, rest) = time_of(bytes)?;
    let (c, rest) = com_of(rest)?;
    let (n, rest) = count_of(rest)?;
    let (count, rest) = many_of(rest)?;
    let (writes, rest) = writes_of(alloc, count, rest)?;
    let record = Record::Decided {
        stamp,
        c,
        n,
        writes,
    };
    Ok((record, rest))
}

/// The record at the front, by its first byte.
#[tactic(auto, unfolding(def_log::specs::Reading::record_at))]
fn kind_of(alloc: Global, bytes: &[u8]) -> Result<(Record, &[u8]), Unread>
    ensures { Gives (λ x. (x.0, x.1.now)) result (record_at bytes.now) }
{
    match bytes {
        [] => Err(Unread::Cut),
        [1, rest @ ..] => taken_of(rest),
        [2, rest @ ..] => taken_whole_of(rest),
        [3, rest @ ..] => input_of(rest),
        [4, rest @ ..] => answer_of(rest),
        [5, rest @ ..] => outcome_of(rest),
        [6, rest @ ..] => released_of(rest),
        [7, rest @ ..] => shown_of(rest),
        [8, rest @ ..] => checkpoint_of(alloc, rest),
        [9, rest @ ..] => epoch_of(rest),
        [10, rest @ ..] => decided_of(alloc, rest),
        [_, ..] => Err(Unread::Cut),
    }
}

/// The record at the front, and the bytes behind it. Cut tells that no whole record begins them.
pub fn record_of(alloc: Global, bytes: &[u8]) -> Result<(Record, &[u8]), Unread>
    ensures reads { Gives (λ x. (x.0, x.1.now)) result (record_at bytes.now) }
    ensures fit { IfOk result (λ x. Fits x.0) }
    ensures less { IfOk result (λ x. length x.1.now < length bytes.now) }
{
    kind_of(alloc, bytes)
}
