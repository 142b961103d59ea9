ghost use Rattle.std.specs.Prelude.{◌≡◌, ◌++◌, OnOk, IfOk, codes, decimal, option_copied};
ghost use Rattle.std.specs.String.{string_bytes};
ghost use Rattle.def_report.specs.Faults.{hex, cause_text, policy_text, usage_text, name_if, fault_text, fault_line, status_of};

use crate::names::name_of;
use ic_base::{Bytes, Cause, ComId, Fault, PolicyRefused, Program, Word};
use itoa::Buffer;
use std::alloc::{AllocError, Global};

/// Two lower-case digits for each byte.
pub fn hex_text(alloc: Global, bytes: &[u8]) -> Result<String, AllocError>
    ensures { IfOk result (λ text. string_bytes text ≡ hex bytes.now) }
{
    hex::encode(alloc, bytes)
}

fn add_decimal(out: &mut Vec<u8>, n: u64) -> Result<(), AllocError>
    ensures { OnOk result (out.new.items ≡ out.old.items ++ decimal n) }
{
    let mut buffer = Buffer::new();
    out.extend_from_slice(buffer.format(n).as_bytes())?;
    Ok(())
}

/// Why a text is refused, in words; want of memory has none.
pub fn cause_text(cause: Cause) -> &'static [u8]
    ensures { result.now ≡ cause_text cause }
{
    match cause {
        Cause::Limit => b"limit",
        Cause::NotText => b"not text",
        Cause::Word => b"bad word",
        Cause::Structure => b"bad structure",
        Cause::Twice => b"name twice",
        Cause::Unknown => b"unknown name",
        Cause::Arity => b"wrong number of arguments",
        Cause::Memory => b"",
    }
}

fn policy_text(why: PolicyRefused) -> &'static [u8]
    ensures { result.now ≡ policy_text why }
{
    match why {
        PolicyRefused::NotToml => b"not TOML",
        PolicyRefused::Unknown => b"unknown key",
        PolicyRefused::Kind => b"wrong kind",
        PolicyRefused::Range => b"out of range",
        PolicyRefused::Memory => b"",
    }
}

fn usage_text(tool: &[u8]) -> &'static [u8]
    ensures { result.now ≡ usage_text tool.now }
{
    if tool == b"iclive".as_slice() {
        b"usage: SCENARIO PLAN [POLICY]"
    } else {
        b"usage: run SCENARIO SCHEDULE [POLICY], resume SCENARIO SCHEDULE [POLICY], audit SCENARIO, make NUMBER, migrate SCENARIO"
    }
}

// The name of a component, empty where there is no program.
fn name_if<'a>(program: Option<&'a Program>, c: ComId) -> &'a [u8]
    ensures { result.now ≡ name_if (option_copied program.entry) c }
{
    match program {
        Some(program) => name_of(program, c),
        None => &[],
    }
}

// A refused text: which it is, the line and why.
fn refused_text(alloc: Global, front: &[u8], line: u32, cause: Cause) -> Result<Vec<u8>, AllocError>
    ensures { IfOk result (λ v. v.items ≡ front.now ++ decimal line ++ codes ": " ++ cause_text cause) }
{
    let mut out = Vec::from_slice(alloc, front)?;
    add_decimal(&mut out, u64::from(line))?;
    out.extend_from_slice(b": ")?;
    out.extend_from_slice(cause_text(cause))?;
    Ok(out)
}

fn foreign_text(
    alloc: Global,
    name: &[u8],
    kept: &[u8],
    given: &[u8],
) -> Result<Vec<u8>, AllocError>
    ensures { IfOk result (λ v. v.items ≡ codes "foreign log of " ++ name.now ++ codes ": kept " ++ hex kept.now ++ codes " given " ++ hex given.now) }
{
    let mut out = Vec::from_slice(alloc, b"foreign log of ")?;
    out.extend_from_slice(name)?;
    out.extend_from_slice(b": kept ")?;
    out.extend_from_slice(hex_text(alloc, kept)?.as_bytes())?;
    out.extend_from_slice(b" given ")?;
    out.extend_from_slice(hex_text(alloc, given)?.as_bytes())?;
    Ok(out)
}

fn bad_text(alloc: Global, name: &[u8], place: u64) -> Result<Vec<u8>, AllocError>
    ensures { IfOk result (λ v. v.items ≡ codes "bad log of " ++ name.now ++ codes " at " ++ decimal place) }
{
    let mut out = Vec::from_slice(alloc, b"bad log of ")?;
    out.extend_from_slice(name)?;
    out.extend_from_slice(b" at ")?;
    add_decimal(&mut out, place)?;
    Ok(out)
}

// A text with another behind it.
fn both(alloc: Global, front: &[u8], back: &[u8]) -> Result<Vec<u8>, AllocError>
    ensures { IfOk result (λ v. v.items ≡ front.now ++ back.now) }
{
    let mut out = Vec::from_slice(alloc, front)?;
    out.extend_from_slice(back)?;
    Ok(out)
}

fn not_blank_text(alloc: Global, name: &[u8]) -> Result<Vec<u8>, AllocError>
    ensures { IfOk result (λ v. v.items ≡ codes "log of " ++ name.now ++ codes " is not blank") }
{
    let mut out = both(alloc, b"log of ", name)?;
    out.extend_from_slice(b" is not blank")?;
    Ok(out)
}

fn illegal_text(alloc: Global, entry: u64) -> Result<Vec<u8>, AllocError>
    ensures { IfOk result (λ v. v.items ≡ codes "illegal history at entry " ++ decimal entry) }
{
    let mut out = Vec::from_slice(alloc, b"illegal history at entry ")?;
    add_decimal(&mut out, entry)?;
    Ok(out)
}

// What a last line says.
fn fault_text(
    alloc: Global,
    tool: &[u8],
    program: Option<&Program>,
    fault: &Fault,
) -> Result<Vec<u8>, AllocError>
    ensures { IfOk result (λ v. v.items ≡ fault_text tool.now (option_copied program.entry) fault.now) }
{
    match fault {
        Fault::Usage => Vec::from_slice(alloc, usage_text(tool)),
        Fault::Scenario(line, cause) => refused_text(
            alloc,
            b"bad scenario at line ",
            *line,
            *cause,
        ),
        Fault::Schedule(line, cause) => refused_text(
            alloc,
            b"bad schedule at line ",
            *line,
            *cause,
        ),
        Fault::Policy(why) => both(alloc, b"bad policy: ", policy_text(*why)),
        Fault::Foreign(c, kept, given) => foreign_text(alloc, name_if(program, *c), kept, given),
        Fault::Bad(c, place) => bad_text(alloc, name_if(program, *c), *place),
        Fault::Illegal(entry) => illegal_text(alloc, *entry),
        Fault::Receipts => Vec::from_slice(alloc, b"limit of receipts"),
        Fault::Packets => Vec::from_slice(alloc, b"limit of packets"),
        Fault::LogFull(c) => both(alloc, b"limit of log ", name_if(program, *c)),
        Fault::Read => Vec::from_slice(alloc, b"read fault"),
        Fault::Disk(c) => both(alloc, b"disk fault of ", name_if(program, *c)),
        Fault::NotBlank(c) => not_blank_text(alloc, name_if(program, *c)),
    }
}

/// The last line of a run that was refused, behind the program's name. A component has the empty name where
/// there is no program, or none of its number.
pub fn fault_bytes(
    alloc: Global,
    tool: &Word,
    program: Option<&Program>,
    fault: &Fault,
) -> Result<Bytes, AllocError>
    ensures line { IfOk result (λ b. b ≡ fault_line tool.now (option_copied program.entry) fault.now) }
{
    let mut out = both(alloc, tool.as_slice(), b": ")?;
    let text = fault_text(alloc, tool.as_slice(), program, fault)?;
    out.extend_from_slice(text.as_slice())?;
    out.push(b'\n')?;
    Ok(Bytes::from_vec(out))
}

/// The status that goes with a last line.
pub fn status_of(fault: &Fault) -> u8
    ensures status { result ≡ status_of fault.now }
{
    match fault {
        Fault::Usage => 2,
        Fault::Scenario(_, _) => 3,
        Fault::Schedule(_, _) => 4,
        Fault::Policy(_) => 4,
        Fault::Foreign(_, _, _) => 5,
        Fault::Bad(_, _) => 6,
        Fault::Illegal(_) => 6,
        Fault::Receipts => 7,
        Fault::Packets => 7,
        Fault::LogFull(_) => 7,
        Fault::Read => 8,
        Fault::Disk(_) => 10,
        Fault::NotBlank(_) => 11,
    }
}
