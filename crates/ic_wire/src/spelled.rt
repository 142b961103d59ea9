ghost use Rattle.std.specs.Prelude.{◌≡◌, ◌<◌, ◌≤◌, ◌^◌, ◌++◌, ◌∷◌, length, IfOk, OnOk, OnErr, FitsSigned};
ghost use Rattle.ic_base.specs.declared.limits.TheConstants.{REQUESTS};
ghost use Rattle.std.specs.List.{AllByRecursion};
ghost use Rattle.std.specs.Int.{w64};
ghost use Rattle.ic_base.specs.declared.record.Record.TheVariants.{Take, TakeWhole, Input, Value, Outcome, Released, Checkpoint, Decided};
ghost use Rattle.def_log.specs.Spelling.{number, spelling, AreContent, IsEnding, IsWrite, Fits};
ghost use Rattle.ic_wire.specs.Placed.{IsCounted, IsCountedCause};

use crate::parts::{
    put_content, put_ending, put_number, put_pair, put_session, put_short, put_word, put_writes,
};
use ic_base::{AbortCause, Args, Bytes, ComId, Items, Record, Session};
use std::alloc::{AllocError, Global};
use std::mem;

/// The bytes for which room is made at once: no record is longer that has few values and no image.
const MOSTLY: usize = 64;

fn put_take(out: &mut Vec<u8>, from: ComId, k: u64, stamp: u64) -> Result<(), AllocError>
    ensures { OnOk result (out.new.items ≡ out.old.items ++ spelling (Take from k stamp)) }
{
    out.push(1)?;
    out.push(from.0)?;
    put_number(out, k)?;
    put_number(out, stamp)?;
    Ok(())
}

fn put_answer(
    out: &mut Vec<u8>,
    n: u64,
    place: u16,
    given: Session,
    x: &i64,
) -> Result<(), AllocError>
    ensures spelled { OnOk result (out.new.items ≡ out.old.items ++ spelling (Value n place given x.now)) }
    ensures fit { OnOk result ((place < 2 ^ 16) × FitsSigned w64 x.now) }
{
    out.push(4)?;
    put_number(out, n)?;
    put_short(out, place)?;
    put_session(out, given, x)?;
    Ok(())
}

fn put_taken_whole(
    out: &mut Vec<u8>,
    from: ComId,
    k: u64,
    stamp: u64,
    handler: u8,
    values: &Args,
) -> Result<(), AllocError>
    ensures spelled { OnOk result (out.new.items ≡ out.old.items ++ spelling (TakeWhole from k stamp handler values.now)) }
    ensures fit { OnOk result (AreContent handler values.now) }
{
    out.push(2)?;
    out.push(from.0)?;
    put_pair(out, k, stamp)?;
    put_content(out, handler, values)?;
    Ok(())
}

fn put_input(out: &mut Vec<u8>, stamp: u64, handler: u8, values: &Args) -> Result<(), AllocError>
    ensures spelled { OnOk result (out.new.items ≡ out.old.items ++ spelling (Input stamp handler values.now)) }
    ensures fit { OnOk result (AreContent handler values.now) }
{
    out.push(3)?;
    put_number(out, stamp)?;
    put_content(out, handler, values)?;
    Ok(())
}

fn put_outcome(
    out: &mut Vec<u8>,
    stamp: u64,
    n: u64,
    abort: Option<AbortCause>,
) -> Result<(), AllocError>
    requires { IsCountedCause abort }
    ensures spelled { OnOk result (out.new.items ≡ out.old.items ++ spelling (Outcome stamp n abort)) }
    ensures fit { OnOk result (IsEnding abort) }
{
    out.push(5)?;
    put_pair(out, stamp, n)?;
    put_ending(out, abort)?;
    Ok(())
}

fn put_decided(
    out: &mut Vec<u8>,
    stamp: u64,
    c: ComId,
    n: u64,
    writes: &[(u16, i64)],
) -> Result<(), AllocError>
    requires { length writes.now ≤ REQUESTS }
    ensures spelled { OnOk result (out.new.items ≡ out.old.items ++ spelling (Decided stamp c n writes.now)) }
    ensures fit { OnOk result (AllByRecursion IsWrite writes.now) }
{
    out.push(10)?;
    put_number(out, stamp)?;
    out.push(c.0)?;
    put_number(out, n)?;
    put_short(out, writes.len() as u16)?;
    put_writes(out, writes)?;
    Ok(())
}

fn put_checkpoint(out: &mut Vec<u8>, image: &[u8]) -> Result<(), AllocError>
    requires { length image.now < 2 ^ 32 }
    ensures spelled { OnOk result (out.new.items ≡ out.old.items ++ spelling (Checkpoint image.now)) }
    ensures fit { AllByRecursion (λ b. b < 2 ^ 8) image.now }
{
    out.push(8)?;
    put_word(out, image.len() as u32)?;
    out.extend_from_slice(image)?;
    Ok(())
}

/// A kind, and a number behind it.
fn put_kind(out: &mut Vec<u8>, kind: u8, n: u64) -> Result<(), AllocError>
    ensures { OnOk result (out.new.items ≡ out.old.items ++ kind ∷ number n) }
{
    out.push(kind)?;
    put_number(out, n)?;
    Ok(())
}

fn put_released(out: &mut Vec<u8>, to: ComId, k: u64) -> Result<(), AllocError>
    ensures { OnOk result (out.new.items ≡ out.old.items ++ spelling (Released to k)) }
{
    out.push(6)?;
    out.push(to.0)?;
    put_number(out, k)?;
    Ok(())
}

fn put_record(out: &mut Vec<u8>, stored: &Record) -> Result<(), AllocError>
    requires { IsCounted stored.now }
    ensures spelled { OnOk result (out.new.items ≡ out.old.items ++ spelling stored.now) }
    ensures fit { OnOk result (Fits stored.now) }
{
    match stored {
        Record::Take { from, k, stamp } => put_take(out, *from, *k, *stamp),
        Record::TakeWhole {
            from,
            k,
            stamp,
            handler,
            args,
        } => put_taken_whole(out, *from, *k, *stamp, *handler, args),
        Record::Input {
            stamp,
            handler,
            args,
        } => put_input(out, *stamp, *handler, args),
        Record::Value {
            n,
            place,
            session,
            value,
        } => put_answer(out, *n, *place, *session, value),
        Record::Outcome { stamp, n, abort } => put_outcome(out, *stamp, *n, *abort),
        Record::Released { to, k } => put_released(out, *to, *k),
        Record::Shown { m } => put_kind(out, 7, *m),
        Record::Checkpoint { image } => put_checkpoint(out, image.as_slice()),
        Record::Epoch { epoch } => put_kind(out, 9, *epoch),
        Record::Decided {
            stamp,
            c,
            n,
            writes,
        } => put_decided(out, *stamp, *c, *n, writes.as_slice()),
    }
}

fn spelled(alloc: Global, stored: &Record) -> Result<Vec<u8>, AllocError>
    requires { IsCounted stored.now }
    ensures spelled { IfOk result (λ v. v.items ≡ spelling stored.now) }
    ensures fit { OnOk result (Fits stored.now) }
{
    let mut out = Vec::with_capacity(alloc, MOSTLY)?;
    put_record(&mut out, stored)?;
    Ok(out)
}

fn append(alloc: Global, out: &mut Bytes, more: &[u8]) -> Result<(), AllocError>
    ensures appended { OnOk result (out.new ≡ out.old ++ more.now) }
    ensures unchanged { OnErr result (out.new ≡ out.old) }
{
    let mut bytes = mem::replace(out, Items::new(alloc)).into_vec();
    let answer = bytes.extend_from_slice(more);
    *out = Items::from_vec(bytes);
    answer
}

/// Appends the one spelling of a record.
pub fn record_bytes(alloc: Global, stored: &Record, out: &mut Bytes) -> Result<(), AllocError>
    requires { IsCounted stored.now }
    ensures spelled { OnOk result (out.new ≡ out.old ++ spelling stored.now) }
    ensures fit { OnOk result (Fits stored.now) }
    ensures unchanged { OnErr result (out.new ≡ out.old) }
{
    let bytes = spelled(alloc, stored)?;
    if out.len() == 0 {
        *out = Items::from_vec(bytes);
        return Ok(());
    }
    append(alloc, out, bytes.as_slice())
}
