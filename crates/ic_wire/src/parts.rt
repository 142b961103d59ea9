ghost use Rattle.std.specs.Prelude.{◌≡◌, ◌<◌, ◌≤◌, ◌^◌, ◌++◌, ◌∷◌, length, slice_get, Some, OnOk, FitsSigned};
ghost use Rattle.ic_base.specs.declared.limits.TheConstants.{VALUES};
ghost use Rattle.std.specs.List.{AllByRecursion, flat_map};
ghost use Rattle.std.specs.Int.{w16, w32, w64, to_be_bytes};
ghost use Rattle.ic_base.specs.declared.messages.AbortCause.TheVariants.{Epoch};
ghost use Rattle.def_log.specs.Spelling.{number, value, args, session, ending, write, AreContent, IsEnding, IsWrite};
ghost use Rattle.ic_wire.specs.Placed.{IsCountedCause};

use byteorder::{BigEndian, ByteOrder};
use ic_base::{AbortCause, Args, Session};
use std::alloc::AllocError;

/// A number in eight bytes.
pub fn put_number(out: &mut Vec<u8>, n: u64) -> Result<(), AllocError>
    ensures { OnOk result (out.new.items ≡ out.old.items ++ number n) }
{
    let mut bytes = [0; 8];
    BigEndian::write_u64(&mut bytes, n);
    out.extend_from_slice(&bytes)
}

/// Two numbers, one behind the other.
pub fn put_pair(out: &mut Vec<u8>, first: u64, second: u64) -> Result<(), AllocError>
    ensures { OnOk result (out.new.items ≡ out.old.items ++ (number first ++ number second)) }
{
    put_number(out, first)?;
    put_number(out, second)
}

/// A value in eight bytes.
pub fn put_value(out: &mut Vec<u8>, x: &i64) -> Result<(), AllocError>
    ensures spelled { OnOk result (out.new.items ≡ out.old.items ++ value x.now) }
    ensures fit { FitsSigned w64 x.now }
{
    let mut bytes = [0; 8];
    BigEndian::write_i64(&mut bytes, *x);
    out.extend_from_slice(&bytes)
}

/// A number in two bytes.
pub fn put_short(out: &mut Vec<u8>, n: u16) -> Result<(), AllocError>
    ensures spelled { OnOk result (out.new.items ≡ out.old.items ++ to_be_bytes w16 n) }
    ensures fit { n < 2 ^ 16 }
{
    let mut bytes = [0; 2];
    BigEndian::write_u16(&mut bytes, n);
    out.extend_from_slice(&bytes)
}

/// The value at an index.
fn held(values: &Args, i: usize) -> i64
    requires { i < length values.now }
    ensures value { slice_get values.now i ≡ Some result }
    ensures fit { FitsSigned w64 result }
{
    match values.get(i) {
        Some(x) => x,
        None => unreachable!(),
    }
}

/// A byte of count, and the values.
pub fn put_args(out: &mut Vec<u8>, values: &Args) -> Result<(), AllocError>
    ensures spelled { OnOk result (out.new.items ≡ out.old.items ++ args values.now) }
    ensures few { length values.now ≤ VALUES }
    ensures fit { OnOk result (AllByRecursion (FitsSigned w64) values.now) }
{
    out.push(values.len() as u8)?;
    for i in 0..values.len() {
        let x = held(values, i);
        put_value(out, &x)?;
    }
    Ok(())
}

/// A handler's number with the values of a message.
pub fn put_content(out: &mut Vec<u8>, handler: u8, values: &Args) -> Result<(), AllocError>
    ensures spelled { OnOk result (out.new.items ≡ out.old.items ++ handler ∷ args values.now) }
    ensures fit { OnOk result (AreContent handler values.now) }
{
    out.push(handler)?;
    put_args(out, values)?;
    Ok(())
}

/// A number in four bytes.
pub fn put_word(out: &mut Vec<u8>, n: u32) -> Result<(), AllocError>
    ensures spelled { OnOk result (out.new.items ≡ out.old.items ++ to_be_bytes w32 n) }
    ensures fit { n < 2 ^ 32 }
{
    let mut bytes = [0; 4];
    BigEndian::write_u32(&mut bytes, n);
    out.extend_from_slice(&bytes)
}

/// The two epochs of an abort.
fn put_epochs(out: &mut Vec<u8>, old: u64, present: u64) -> Result<(), AllocError>
    ensures { OnOk result (out.new.items ≡ out.old.items ++ ending (Some (Epoch old present))) }
{
    out.push(3)?;
    put_number(out, old)?;
    put_number(out, present)?;
    Ok(())
}

/// How a transaction ended.
pub fn put_ending(out: &mut Vec<u8>, abort: Option<AbortCause>) -> Result<(), AllocError>
    requires { IsCountedCause abort }
    ensures spelled { OnOk result (out.new.items ≡ out.old.items ++ ending abort) }
    ensures fit { OnOk result (IsEnding abort) }
{
    match abort {
        None => out.push(0)?,
        Some(AbortCause::Need(line)) => {
            out.push(1)?;
            put_word(out, line)?;
        }
        Some(AbortCause::Held(holder, n)) => {
            out.push(2)?;
            out.push(holder.0)?;
            put_number(out, n)?;
        }
        Some(AbortCause::Epoch(old, present)) => {
            put_epochs(out, old, present)?;
        }
    }
    Ok(())
}

/// A written key with its value.
fn put_write(out: &mut Vec<u8>, written: &(u16, i64)) -> Result<(), AllocError>
    ensures spelled { OnOk result (out.new.items ≡ out.old.items ++ write written.now) }
    ensures fit { OnOk result (IsWrite written.now) }
{
    put_short(out, written.0)?;
    put_value(out, &written.1)?;
    Ok(())
}

/// Written keys with their values.
pub fn put_writes(out: &mut Vec<u8>, writes: &[(u16, i64)]) -> Result<(), AllocError>
    ensures spelled { OnOk result (out.new.items ≡ out.old.items ++ flat_map write writes.now) }
    ensures fit { OnOk result (AllByRecursion IsWrite writes.now) }
{
    for written in writes {
        put_write(out, written)?;
    }
    Ok(())
}

/// A session, and the value answered in it.
pub fn put_session(out: &mut Vec<u8>, given: Session, x: &i64) -> Result<(), AllocError>
    ensures spelled { OnOk result (out.new.items ≡ out.old.items ++ (session given ++ value x.now)) }
    ensures fit { OnOk result (FitsSigned w64 x.now) }
{
    put_pair(out, given.epoch, given.counter)?;
    put_value(out, x)?;
    Ok(())
}
