ghost use Rattle.std.specs.Prelude.{◌≤◌, length, nat_le, IfOk, FitsSigned};
ghost use Rattle.std.specs.Int.{w8, w16, w32, w64};
ghost use Rattle.def_log.specs.Reading.{number_at, tested_at, time_at, count_at, com_at, value_at, values_at, args_at, session_at, held_at, epochs_at, need_at, ending_at, writes_at, bytes_at};
ghost use Rattle.ic_wire.specs.Parts.{write_at};
ghost use Rattle.ic_wire.specs.Gives.{Gives};

use crate::unread::Unread;
use byteorder::{BigEndian, ByteOrder};
use ic_base::limits::{COMPONENTS, GREATEST_NUMBER, REQUESTS, VALUES};
use ic_base::{AbortCause, Args, Bytes, ComId, Items, Session, Writes};
use std::alloc::Global;

/// A number in one byte, and what stands behind it, as of each field here.
pub fn byte_of(bytes: &[u8]) -> Result<(u8, &[u8]), Unread>
    ensures { Gives (λ x. (x.0, x.1.now)) result (number_at w8 bytes.now) }
{
    match bytes {
        [byte, rest @ ..] => Ok((*byte, rest)),
        [] => Err(Unread::Cut),
    }
}

/// A number in two bytes, big-endian as all numbers of a log (docs/FORMATS.md, "Records").
pub fn short_of(bytes: &[u8]) -> Result<(u16, &[u8]), Unread>
    ensures { Gives (λ x. (x.0, x.1.now)) result (number_at w16 bytes.now) }
{
    if bytes.len() < 2 {
        return Err(Unread::Cut);
    }
    Ok((BigEndian::read_u16(bytes), &bytes[2..]))
}

/// A number in four bytes.
pub fn word_of(bytes: &[u8]) -> Result<(u32, &[u8]), Unread>
    ensures { Gives (λ x. (x.0, x.1.now)) result (number_at w32 bytes.now) }
{
    if bytes.len() < 4 {
        return Err(Unread::Cut);
    }
    Ok((BigEndian::read_u32(bytes), &bytes[4..]))
}

fn long_of(bytes: &[u8]) -> Result<(u64, &[u8]), Unread>
    ensures { Gives (λ x. (x.0, x.1.now)) result (number_at w64 bytes.now) }
{
    if bytes.len() < 8 {
        return Err(Unread::Cut);
    }
    Ok((BigEndian::read_u64(bytes), &bytes[8..]))
}

/// A stamp, an epoch or a counter.
#[tactic(auto, unfolding(def_log::specs::Reading::tested_at))]
pub fn time_of(bytes: &[u8]) -> Result<(u64, &[u8]), Unread>
    ensures { Gives (λ x. (x.0, x.1.now)) result (time_at bytes.now) }
{
    let (time, rest) = long_of(bytes)?;
    if time <= GREATEST_NUMBER {
        Ok((time, rest))
    } else {
        Err(Unread::Cut)
    }
}

/// A number that counts from 1 on.
#[tactic(auto, unfolding(def_log::specs::Reading::tested_at))]
pub fn count_of(bytes: &[u8]) -> Result<(u64, &[u8]), Unread>
    ensures { Gives (λ x. (x.0, x.1.now)) result (count_at bytes.now) }
{
    let (count, rest) = long_of(bytes)?;
    if 1 <= count && count <= GREATEST_NUMBER {
        Ok((count, rest))
    } else {
        Err(Unread::Cut)
    }
}

/// A component's number, below `limits::COMPONENTS`.
#[tactic(auto, unfolding(def_log::specs::Reading::tested_at, def_log::specs::Reading::com_at))]
pub fn com_of(bytes: &[u8]) -> Result<(ComId, &[u8]), Unread>
    ensures { Gives (λ x. (x.0, x.1.now)) result (com_at bytes.now) }
{
    let (number, rest) = byte_of(bytes)?;
    if usize::from(number) < COMPONENTS {
        Ok((ComId(number), rest))
    } else {
        Err(Unread::Cut)
    }
}

/// A signed number in eight bytes, in two's complement.
#[tactic(auto, unfolding(def_log::specs::Reading::value_at))]
pub fn value_of(bytes: &[u8]) -> Result<(i64, &[u8]), Unread>
    ensures value { Gives (λ x. (x.0, x.1.now)) result (value_at bytes.now) }
    ensures fit { IfOk result (λ x. FitsSigned w64 x.0) }
{
    let (number, rest) = long_of(bytes)?;
    Ok((number.cast_signed(), rest))
}

/// As many values as there are places for them, and what stands behind them.
fn read_values<'a>(values: &mut [i64], bytes: &'a [u8]) -> Result<&'a [u8], Unread>
    ensures { Gives (λ rest. (values.new, rest.now)) result (values_at (length values.old) bytes.now) }
{
    let mut rest = bytes;
    for i in 0..values.len() {
        let (value, more) = value_of(rest)?;
        values[i] = value;
        rest = more;
    }
    Ok(rest)
}

/// The count of the values of a message.
#[tactic(auto, unfolding(def_log::specs::Reading::tested_at))]
fn few_of(bytes: &[u8]) -> Result<(u8, &[u8]), Unread>
    ensures count { Gives (λ x. (x.0, x.1.now)) result (tested_at w8 (λ n. nat_le n VALUES) bytes.now) }
    ensures few { IfOk result (λ x. x.0 ≤ VALUES) }
{
    let (count, rest) = byte_of(bytes)?;
    if usize::from(count) <= VALUES {
        Ok((count, rest))
    } else {
        Err(Unread::Cut)
    }
}

/// A byte of count, at most `limits::VALUES`, and as many values.
#[tactic(auto, unfolding(def_log::specs::Reading::args_at))]
pub fn args_of(bytes: &[u8]) -> Result<(Args, &[u8]), Unread>
    ensures { Gives (λ x. (x.0, x.1.now)) result (args_at bytes.now) }
{
    let (count, rest) = few_of(bytes)?;
    let mut places = [0; VALUES];
    let values = &mut places[..usize::from(count)];
    let rest = read_values(values, rest)?;
    match Args::of(values) {
        Some(args) => Ok((args, rest)),
        None => unreachable!(),
    }
}

/// An epoch and a counter, each at most 2^63 - 1.
#[tactic(auto, unfolding(def_log::specs::Reading::session_at))]
pub fn session_of(bytes: &[u8]) -> Result<(Session, &[u8]), Unread>
    ensures { Gives (λ x. (x.0, x.1.now)) result (session_at bytes.now) }
{
    let (epoch, rest) = time_of(bytes)?;
    let (counter, rest) = time_of(rest)?;
    Ok((Session { epoch, counter }, rest))
}

#[tactic(auto, unfolding(def_log::specs::Reading::need_at))]
fn need_of(bytes: &[u8]) -> Result<(Option<AbortCause>, &[u8]), Unread>
    ensures { Gives (λ x. (x.0, x.1.now)) result (need_at bytes.now) }
{
    let (line, rest) = word_of(bytes)?;
    Ok((Some(AbortCause::Need(line)), rest))
}

#[tactic(auto, unfolding(def_log::specs::Reading::held_at))]
fn held_of(bytes: &[u8]) -> Result<(Option<AbortCause>, &[u8]), Unread>
    ensures { Gives (λ x. (x.0, x.1.now)) result (held_at bytes.now) }
{
    let (holder, rest) = com_of(bytes)?;
    let (n, rest) = count_of(rest)?;
    Ok((Some(AbortCause::Held(holder, n)), rest))
}

#[tactic(auto, unfolding(def_log::specs::Reading::epochs_at))]
fn epochs_of(bytes: &[u8]) -> Result<(Option<AbortCause>, &[u8]), Unread>
    ensures { Gives (λ x. (x.0, x.1.now)) result (epochs_at bytes.now) }
{
    let (old, rest) = time_of(bytes)?;
    let (present, rest) = time_of(rest)?;
    Ok((Some(AbortCause::Epoch(old, present)), rest))
}

/// How a transaction ended, by its first byte.
#[tactic(auto, unfolding(def_log::specs::Reading::ending_at))]
pub fn ending_of(bytes: &[u8]) -> Result<(Option<AbortCause>, &[u8]), Unread>
    ensures { Gives (λ x. (x.0, x.1.now)) result (ending_at bytes.now) }
{
    match bytes {
        [] => Err(Unread::Cut),
        [0, rest @ ..] => Ok((None, rest)),
        [1, rest @ ..] => need_of(rest),
        [2, rest @ ..] => held_of(rest),
        [3, rest @ ..] => epochs_of(rest),
        [_, ..] => Err(Unread::Cut),
    }
}

/// The count of the writes of a session.
#[tactic(auto, unfolding(def_log::specs::Reading::tested_at))]
pub fn many_of(bytes: &[u8]) -> Result<(u16, &[u8]), Unread>
    ensures { Gives (λ x. (x.0, x.1.now)) result (tested_at w16 (λ n. nat_le n REQUESTS) bytes.now) }
{
    let (count, rest) = short_of(bytes)?;
    if usize::from(count) <= REQUESTS {
        Ok((count, rest))
    } else {
        Err(Unread::Cut)
    }
}

#[tactic(auto, unfolding(crate::specs::Parts::write_at))]
fn write_of(bytes: &[u8]) -> Result<((u16, i64), &[u8]), Unread>
    ensures { Gives (λ x. (x.0, x.1.now)) result (write_at bytes.now) }
{
    let (key, rest) = short_of(bytes)?;
    let (value, rest) = value_of(rest)?;
    Ok(((key, value), rest))
}

/// So many written keys with their values.
pub fn writes_of(alloc: Global, count: u16, bytes: &[u8]) -> Result<(Writes, &[u8]), Unread>
    ensures { Gives (λ x. (x.0, x.1.now)) result (writes_at count bytes.now) }
{
    let mut writes = Items::new(alloc);
    let mut rest = bytes;
    for _ in 0..count {
        let (write, more) = write_of(rest)?;
        writes.push(write)?;
        rest = more;
    }
    Ok((writes, rest))
}

/// So many bytes.
pub fn bytes_of(alloc: Global, count: u32, bytes: &[u8]) -> Result<(Bytes, &[u8]), Unread>
    ensures { Gives (λ x. (x.0, x.1.now)) result (bytes_at count bytes.now) }
{
    let count = count as usize;
    if bytes.len() < count {
        return Err(Unread::Cut);
    }
    let (front, rest) = bytes.split_at(count);
    Ok((Items::from_vec(Vec::from_slice(alloc, front)?), rest))
}
