ghost use Rattle.std.specs.Prelude.{◌≡◌, ◌==◌, ◌&&◌, nat_lt, nat_le, length, Some, IfOk, FitsSigned};
ghost use Rattle.std.specs.Int.{w8, w32, w64};
ghost use Rattle.def_log.specs.Reading.{number_at, time_at, count_at, com_at, value_at};
ghost use Rattle.def_state.specs.ImagePlaces.{field, any};
ghost use Rattle.ic_ckpt.specs.Reads.{Reads};

use crate::misread::Misread;
use ic_base::ComId;
use ic_wire::Unread;
use ic_wire::fields::{byte_of, com_of, count_of, time_of, value_of, word_of};

/// A number in one byte, and what stands behind it, as of each field here.
pub(crate) fn byte(bytes: &[u8]) -> Result<(u8, &[u8]), Misread>
    ensures read { IfOk result (λ x. number_at w8 bytes.now ≡ Some (x.0, x.1.now)) }
    ensures place { Reads (λ x. (x.0, x.1.now)) result (field (number_at w8) any bytes.now) }
{
    match byte_of(bytes) {
        Ok(found) => Ok(found),
        Err(Unread::Cut) => Err(Misread::Left(bytes.len())),
        Err(Unread::Memory) => Err(Misread::Memory),
    }
}

/// A number in four bytes.
pub(crate) fn word(bytes: &[u8]) -> Result<(u32, &[u8]), Misread>
    ensures read { IfOk result (λ x. number_at w32 bytes.now ≡ Some (x.0, x.1.now)) }
    ensures place { Reads (λ x. (x.0, x.1.now)) result (field (number_at w32) any bytes.now) }
{
    match word_of(bytes) {
        Ok(found) => Ok(found),
        Err(Unread::Cut) => Err(Misread::Left(bytes.len())),
        Err(Unread::Memory) => Err(Misread::Memory),
    }
}

/// A stamp, or a count from 0 on.
pub(crate) fn time(bytes: &[u8]) -> Result<(u64, &[u8]), Misread>
    ensures read { IfOk result (λ x. time_at bytes.now ≡ Some (x.0, x.1.now)) }
    ensures place { Reads (λ x. (x.0, x.1.now)) result (field time_at any bytes.now) }
{
    match time_of(bytes) {
        Ok(found) => Ok(found),
        Err(Unread::Cut) => Err(Misread::Left(bytes.len())),
        Err(Unread::Memory) => Err(Misread::Memory),
    }
}

/// A number that counts from 1 on.
pub(crate) fn count(bytes: &[u8]) -> Result<(u64, &[u8]), Misread>
    ensures read { IfOk result (λ x. count_at bytes.now ≡ Some (x.0, x.1.now)) }
    ensures place { Reads (λ x. (x.0, x.1.now)) result (field count_at any bytes.now) }
{
    match count_of(bytes) {
        Ok(found) => Ok(found),
        Err(Unread::Cut) => Err(Misread::Left(bytes.len())),
        Err(Unread::Memory) => Err(Misread::Memory),
    }
}

/// A component's number.
pub(crate) fn com(bytes: &[u8]) -> Result<(ComId, &[u8]), Misread>
    ensures read { IfOk result (λ x. com_at bytes.now ≡ Some (x.0, x.1.now)) }
    ensures place { Reads (λ x. (x.0, x.1.now)) result (field com_at any bytes.now) }
{
    match com_of(bytes) {
        Ok(found) => Ok(found),
        Err(Unread::Cut) => Err(Misread::Left(bytes.len())),
        Err(Unread::Memory) => Err(Misread::Memory),
    }
}

/// A signed number.
pub(crate) fn value(bytes: &[u8]) -> Result<(i64, &[u8]), Misread>
    ensures read { IfOk result (λ x. value_at bytes.now ≡ Some (x.0, x.1.now)) }
    ensures place { Reads (λ x. (x.0, x.1.now)) result (field value_at any bytes.now) }
    ensures fit { IfOk result (λ x. FitsSigned w64 x.0) }
{
    match value_of(bytes) {
        Ok(found) => Ok(found),
        Err(Unread::Cut) => Err(Misread::Left(bytes.len())),
        Err(Unread::Memory) => Err(Misread::Memory),
    }
}

/// A byte that is this number.
pub(crate) fn this_byte(bytes: &[u8], wanted: usize) -> Result<(u8, &[u8]), Misread>
    ensures read { IfOk result (λ x. number_at w8 bytes.now ≡ Some (x.0, x.1.now)) }
    ensures same { IfOk result (λ x. x.0 ≡ wanted) }
    ensures place { Reads (λ x. (x.0, x.1.now)) result (field (number_at w8) (λ n. n == wanted) bytes.now) }
{
    let (n, rest) = byte(bytes)?;
    if usize::from(n) == wanted {
        Ok((n, rest))
    } else {
        Err(Misread::Left(bytes.len()))
    }
}
