ghost use Rattle.std.specs.Prelude.{◌≡◌, ◌++◌, ◌∷◌, [], ◌<◌, ◌^◌, IfOk, OnOk};
ghost use Rattle.std.specs.Int.{w16, to_be_bytes};
ghost use Rattle.def_log.specs.Spelling.{number};
ghost use Rattle.def_two.specs.Records.{move_bytes, cause_bytes, ruling_bytes, yes_byte, spelling2, IsCounted2, IsCountedMove, IsCountedRuling, MoveFits, RulingFits, Fits2};

use byteorder::{BigEndian, ByteOrder};
use def_two::{Cause2, Move, Record2, Ruling};
use ic_base::{Bytes, Items};
use std::alloc::{AllocError, Global};

/// A number in eight bytes.
fn put_number(out: &mut Vec<u8>, n: u64) -> Result<(), AllocError>
    ensures { OnOk result (out.new.items ≡ out.old.items ++ number n) }
{
    let mut bytes = [0; 8];
    BigEndian::write_u64(&mut bytes, n);
    out.extend_from_slice(&bytes)
}

/// Two numbers, one behind the other.
fn put_pair(out: &mut Vec<u8>, first: u64, second: u64) -> Result<(), AllocError>
    ensures { OnOk result (out.new.items ≡ out.old.items ++ (number first ++ number second)) }
{
    put_number(out, first)?;
    put_number(out, second)
}

/// A number in two bytes.
fn put_short(out: &mut Vec<u8>, n: u16) -> Result<(), AllocError>
    ensures { OnOk result (out.new.items ≡ out.old.items ++ to_be_bytes w16 n) }
{
    let mut bytes = [0; 2];
    BigEndian::write_u16(&mut bytes, n);
    out.extend_from_slice(&bytes)
}

/// A book and a key of it.
fn put_side(out: &mut Vec<u8>, book: u8, key: u16) -> Result<(), AllocError>
    ensures { OnOk result (out.new.items ≡ out.old.items ++ book ∷ to_be_bytes w16 key) }
{
    out.push(book)?;
    put_short(out, key)?;
    Ok(())
}

fn put_move(out: &mut Vec<u8>, m: Move) -> Result<(), AllocError>
    requires { IsCountedMove m }
    ensures spelled { OnOk result (out.new.items ≡ out.old.items ++ move_bytes m) }
    ensures fit { MoveFits m }
{
    put_number(out, m.n)?;
    put_side(out, m.from, m.source)?;
    put_side(out, m.to, m.target)?;
    put_number(out, m.amount)
}

fn put_cause(out: &mut Vec<u8>, cause: Cause2) -> Result<(), AllocError>
    ensures { OnOk result (out.new.items ≡ out.old.items ++ cause_bytes cause) }
{
    match cause {
        Cause2::Short(value, held) => {
            out.push(1)?;
            put_pair(out, value, held)
        }
        Cause2::Over(value, held) => {
            out.push(2)?;
            put_pair(out, value, held)
        }
    }
}

fn put_ruling(out: &mut Vec<u8>, ruling: Ruling) -> Result<(), AllocError>
    requires { IsCountedRuling ruling }
    ensures spelled { OnOk result (out.new.items ≡ out.old.items ++ ruling_bytes ruling) }
    ensures fit { RulingFits ruling }
{
    match ruling {
        Ruling::Yes => {
            out.push(1)?;
            Ok(())
        }
        Ruling::No(book, cause) => {
            out.push(0)?;
            out.push(book)?;
            put_cause(out, cause)
        }
    }
}

fn put_record(out: &mut Vec<u8>, r: Record2) -> Result<(), AllocError>
    requires { IsCounted2 r }
    ensures spelled { OnOk result (out.new.items ≡ out.old.items ++ spelling2 r) }
    ensures fit { Fits2 r }
{
    match r {
        Record2::Begun(m) => {
            out.push(1)?;
            put_move(out, m)
        }
        Record2::Verdict(n, ruling) => {
            out.push(2)?;
            put_number(out, n)?;
            put_ruling(out, ruling)
        }
        Record2::Ready(m) => {
            out.push(3)?;
            put_move(out, m)
        }
        Record2::Ended(n, yes) => {
            out.push(4)?;
            put_number(out, n)?;
            out.push(u8::from(yes))?;
            Ok(())
        }
    }
}

/// The bytes of a record.
pub(crate) fn spelled(alloc: Global, r: Record2) -> Result<Bytes, AllocError>
    requires { IsCounted2 r }
    ensures spelled { IfOk result (λ bytes. bytes ≡ spelling2 r) }
    ensures fit { Fits2 r }
{
    let mut out = Vec::new(alloc);
    put_record(&mut out, r)?;
    Ok(Items::from_vec(out))
}
