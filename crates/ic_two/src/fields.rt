ghost use Rattle.std.specs.Prelude.{◌≡◌, ◌<◌, ℕ, length, option_map, IfSome};
ghost use Rattle.std.specs.Int.{w8, w16, w64};
ghost use Rattle.def_log.specs.Reading.{number_at, count_at};
ghost use Rattle.def_two.specs.declared.moves.Cause2.TheVariants as causes;
ghost use Rattle.def_two.specs.declared.moves.Record2.TheVariants as records;
ghost use Rattle.def_two.specs.Records.{book_at, move_at, numbers_at, cause_at, no_at, ruling_at, yes_at, verdict_at, ended_at, record2_at, of_move, Fits2};

use byteorder::{BigEndian, ByteOrder};
use def_two::{Cause2, Move, Record2, Ruling};
use ic_base::limits::{COMPONENTS, GREATEST_NUMBER};

/// A number in one byte, and what stands behind it, as of each field here. None takes memory.
fn byte_of(bytes: &[u8]) -> Option<(u8, &[u8])>
    ensures { option_map (λ x. (x.0, x.1.now)) result ≡ number_at w8 bytes.now }
{
    match bytes {
        [byte, rest @ ..] => Some((*byte, rest)),
        [] => None,
    }
}

/// A number in two bytes, big-endian as all numbers of a log (docs/FORMATS.md, "Records").
fn short_of(bytes: &[u8]) -> Option<(u16, &[u8])>
    ensures { option_map (λ x. (x.0, x.1.now)) result ≡ number_at w16 bytes.now }
{
    if bytes.len() < 2 {
        return None;
    }
    Some((BigEndian::read_u16(bytes), &bytes[2..]))
}

/// A number that counts from 1 on.
#[tactic(auto, unfolding(def_log::specs::Reading::tested_at))]
fn count_of(bytes: &[u8]) -> Option<(u64, &[u8])>
    ensures { option_map (λ x. (x.0, x.1.now)) result ≡ count_at bytes.now }
{
    let (count, rest) = long_of(bytes)?;
    if 1 <= count && count <= GREATEST_NUMBER {
        Some((count, rest))
    } else {
        None
    }
}

/// A number in eight bytes.
fn long_of(bytes: &[u8]) -> Option<(u64, &[u8])>
    ensures { option_map (λ x. (x.0, x.1.now)) result ≡ number_at w64 bytes.now }
{
    if bytes.len() < 8 {
        return None;
    }
    Some((BigEndian::read_u64(bytes), &bytes[8..]))
}

/// A book's number, below `limits::COMPONENTS`.
#[tactic(auto, unfolding(def_log::specs::Reading::tested_at, def_two::specs::Records::book_at))]
fn book_of(bytes: &[u8]) -> Option<(u8, &[u8])>
    ensures { option_map (λ x. (x.0, x.1.now)) result ≡ book_at bytes.now }
{
    let (number, rest) = byte_of(bytes)?;
    if usize::from(number) < COMPONENTS {
        Some((number, rest))
    } else {
        None
    }
}

#[tactic(auto, unfolding(def_two::specs::Records::move_at))]
fn move_of(bytes: &[u8]) -> Option<(Move, &[u8])>
    ensures { option_map (λ x. (x.0, x.1.now)) result ≡ move_at bytes.now }
{
    let (n, rest) = count_of(bytes)?;
    let (from, rest) = book_of(rest)?;
    let (source, rest) = short_of(rest)?;
    let (to, rest) = book_of(rest)?;
    let (target, rest) = short_of(rest)?;
    let (amount, rest) = long_of(rest)?;
    let read = Move {
        n,
        from,
        source,
        to,
        target,
        amount,
    };
    Some((read, rest))
}

#[tactic(auto, unfolding(def_two::specs::Records::numbers_at))]
fn short_cause_of(bytes: &[u8]) -> Option<(Cause2, &[u8])>
    ensures { option_map (λ x. (x.0, x.1.now)) result ≡ numbers_at causes.Short bytes.now }
{
    let (value, rest) = long_of(bytes)?;
    let (held, rest) = long_of(rest)?;
    Some((Cause2::Short(value, held), rest))
}

#[tactic(auto, unfolding(def_two::specs::Records::numbers_at))]
fn over_cause_of(bytes: &[u8]) -> Option<(Cause2, &[u8])>
    ensures { option_map (λ x. (x.0, x.1.now)) result ≡ numbers_at causes.Over bytes.now }
{
    let (value, rest) = long_of(bytes)?;
    let (held, rest) = long_of(rest)?;
    Some((Cause2::Over(value, held), rest))
}

#[tactic(auto, unfolding(def_two::specs::Records::cause_at))]
fn cause_of(bytes: &[u8]) -> Option<(Cause2, &[u8])>
    ensures { option_map (λ x. (x.0, x.1.now)) result ≡ cause_at bytes.now }
{
    match bytes {
        [1, rest @ ..] => short_cause_of(rest),
        [2, rest @ ..] => over_cause_of(rest),
        _ => None,
    }
}

#[tactic(auto, unfolding(def_two::specs::Records::no_at))]
fn no_of(bytes: &[u8]) -> Option<(Ruling, &[u8])>
    ensures { option_map (λ x. (x.0, x.1.now)) result ≡ no_at bytes.now }
{
    let (book, rest) = book_of(bytes)?;
    let (cause, rest) = cause_of(rest)?;
    Some((Ruling::No(book, cause), rest))
}

#[tactic(auto, unfolding(def_two::specs::Records::ruling_at))]
fn ruling_of(bytes: &[u8]) -> Option<(Ruling, &[u8])>
    ensures { option_map (λ x. (x.0, x.1.now)) result ≡ ruling_at bytes.now }
{
    match bytes {
        [1, rest @ ..] => Some((Ruling::Yes, rest)),
        [0, rest @ ..] => no_of(rest),
        _ => None,
    }
}

#[tactic(auto, unfolding(def_two::specs::Records::yes_at, def_log::specs::Reading::tested_at))]
fn yes_of(bytes: &[u8]) -> Option<(bool, &[u8])>
    ensures { option_map (λ x. (x.0, x.1.now)) result ≡ yes_at bytes.now }
{
    let (way, rest) = byte_of(bytes)?;
    if way < 2 {
        Some((way == 1, rest))
    } else {
        None
    }
}

#[tactic(auto, unfolding(def_two::specs::Records::verdict_at))]
fn verdict_of(bytes: &[u8]) -> Option<(Record2, &[u8])>
    ensures { option_map (λ x. (x.0, x.1.now)) result ≡ verdict_at bytes.now }
{
    let (n, rest) = count_of(bytes)?;
    let (ruling, rest) = ruling_of(rest)?;
    Some((Record2::Verdict(n, ruling), rest))
}

#[tactic(auto, unfolding(def_two::specs::Records::ended_at))]
fn ended_of(bytes: &[u8]) -> Option<(Record2, &[u8])>
    ensures { option_map (λ x. (x.0, x.1.now)) result ≡ ended_at bytes.now }
{
    let (n, rest) = count_of(bytes)?;
    let (yes, rest) = yes_of(rest)?;
    Some((Record2::Ended(n, yes), rest))
}

fn begun_of(bytes: &[u8]) -> Option<(Record2, &[u8])>
    ensures { option_map (λ x. (x.0, x.1.now)) result ≡ of_move records.Begun bytes.now }
{
    let (m, rest) = move_of(bytes)?;
    Some((Record2::Begun(m), rest))
}

fn ready_of(bytes: &[u8]) -> Option<(Record2, &[u8])>
    ensures { option_map (λ x. (x.0, x.1.now)) result ≡ of_move records.Ready bytes.now }
{
    let (m, rest) = move_of(bytes)?;
    Some((Record2::Ready(m), rest))
}

/// The record at the front, by its first byte.
#[tactic(auto, unfolding(def_two::specs::Records::record2_at))]
fn kind_of(bytes: &[u8]) -> Option<(Record2, &[u8])>
    ensures { option_map (λ x. (x.0, x.1.now)) result ≡ record2_at bytes.now }
{
    match bytes {
        [1, rest @ ..] => begun_of(rest),
        [2, rest @ ..] => verdict_of(rest),
        [3, rest @ ..] => ready_of(rest),
        [4, rest @ ..] => ended_of(rest),
        _ => None,
    }
}

/// The record at the front, and the bytes behind it.
pub(crate) fn record_of(bytes: &[u8]) -> Option<(Record2, &[u8])>
    ensures reads { option_map (λ x. (x.0, x.1.now)) result ≡ record2_at bytes.now }
    ensures fit { IfSome result (λ x. Fits2 x.0) }
    ensures less { IfSome result (λ x. length x.1.now < length bytes.now) }
{
    kind_of(bytes)
}
