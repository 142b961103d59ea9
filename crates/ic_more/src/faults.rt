ghost use Rattle.std.specs.Prelude.{◌≡◌, ◌++◌, IfOk, codes, decimal, option_map, option_copied};
ghost use Rattle.def_report.specs.Faults.{cause_text, hex};
ghost use Rattle.def_two.specs.Printed as printed;
ghost use Rattle.ic_script.specs.Reading.{the_script};
ghost use Rattle.ic_more.specs.Faults.{name_if, fault_text, fault_line, status_of};

use crate::ending::Fault2;
use def_two::Script;
use ic_base::{Bytes, Cause};
use ic_report::{cause_text, hex_text};
use std::alloc::{AllocError, Global};

/// The words that the program takes.
const USAGE: &[u8] =
    b"usage: two SCRIPT, clients SCENARIO SCHEDULE [POLICY], standby COM SCENARIO SCHEDULE [POLICY]";

/// The name of a component: the chief's is `chief`.
pub(crate) fn name_of(script: &Script, c: u8) -> &[u8]
    ensures { result.now ≡ printed.name_of (the_script script.now) c }
{
    if c == 0 {
        return b"chief";
    }
    match script.books.as_slice().get(usize::from(c) - 1) {
        Some((name, _)) => name.as_slice(),
        None => &[],
    }
}

/// The name of a component, empty where there is no script.
fn name_if<'a>(script: Option<&'a Script>, c: u8) -> &'a [u8]
    ensures { result.now ≡ name_if (option_map the_script (option_copied script.entry)) c }
{
    match script {
        Some(script) => name_of(script, c),
        None => &[],
    }
}

/// A name between two texts.
fn named(alloc: Global, front: &[u8], name: &[u8], behind: &[u8]) -> Result<Vec<u8>, AllocError>
    ensures { IfOk result (λ v. v.items ≡ front.now ++ name.now ++ behind.now) }
{
    let mut text = Vec::from_slice(alloc, front)?;
    text.extend_from_slice(name)?;
    text.extend_from_slice(behind)?;
    Ok(text)
}

fn script_text(alloc: Global, line: u32, cause: Cause) -> Result<Vec<u8>, AllocError>
    ensures { IfOk result (λ v. v.items ≡ codes "bad script at line " ++ decimal line ++ codes ": " ++ cause_text cause) }
{
    let front = format!(in alloc; "bad script at line {line}: ")?;
    let mut text = front.into_bytes();
    text.extend_from_slice(cause_text(cause))?;
    Ok(text)
}

fn foreign_text(
    alloc: Global,
    name: &[u8],
    kept: &[u8],
    given: &[u8],
) -> Result<Vec<u8>, AllocError>
    ensures { IfOk result (λ v. v.items ≡ codes "foreign log of " ++ name.now ++ codes ": kept " ++ hex kept.now ++ codes " given " ++ hex given.now) }
{
    let mut text = named(alloc, b"foreign log of ", name, b": kept ")?;
    text.extend_from_slice(hex_text(alloc, kept)?.as_bytes())?;
    text.extend_from_slice(b" given ")?;
    text.extend_from_slice(hex_text(alloc, given)?.as_bytes())?;
    Ok(text)
}

fn bad_text(alloc: Global, name: &[u8], place: u64) -> Result<Vec<u8>, AllocError>
    ensures { IfOk result (λ v. v.items ≡ codes "bad log of " ++ name.now ++ codes " at " ++ decimal place) }
{
    let digits = format!(in alloc; "{place}")?;
    let mut text = named(alloc, b"bad log of ", name, b" at ")?;
    text.extend_from_slice(digits.as_bytes())?;
    Ok(text)
}

/// What a last line says.
fn fault_text(alloc: Global, script: Option<&Script>, fault: Fault2) -> Result<Vec<u8>, AllocError>
    ensures { IfOk result (λ v. v.items ≡ fault_text (option_map the_script (option_copied script.entry)) fault) }
{
    match fault {
        Fault2::Usage => Vec::from_slice(alloc, USAGE),
        Fault2::Script(line, cause) => script_text(alloc, line, cause),
        Fault2::Foreign(c, kept, given) => foreign_text(alloc, name_if(script, c), &kept, &given),
        Fault2::Bad(c, place) => bad_text(alloc, name_if(script, c), place),
        Fault2::Packets => Vec::from_slice(alloc, b"limit of packets"),
        Fault2::LogFull(c) => named(alloc, b"limit of log ", name_if(script, c), b""),
        Fault2::Read => Vec::from_slice(alloc, b"read fault"),
        Fault2::Disk(c) => named(alloc, b"disk fault of ", name_if(script, c), b""),
        Fault2::NotBlank(c) => named(alloc, b"log of ", name_if(script, c), b" is not blank"),
    }
}

/// The last line of a call that was refused, behind the program's name. A component has the empty name where there is no script, or none
/// of its number.
pub(crate) fn fault_bytes(
    alloc: Global,
    script: Option<&Script>,
    fault: Fault2,
) -> Result<Bytes, AllocError>
    ensures { IfOk result (λ b. b ≡ fault_line (option_map the_script (option_copied script.entry)) fault) }
{
    let text = fault_text(alloc, script, fault)?;
    Ok(Bytes::from_vec(named(alloc, b"icmore: ", text.as_slice(), b"\n")?))
}

/// The status that goes with a last line.
pub(crate) fn status_of(fault: Fault2) -> u8
    ensures { result ≡ status_of fault }
{
    match fault {
        Fault2::Usage => 2,
        Fault2::Script(_, _) => 3,
        Fault2::Foreign(_, _, _) => 5,
        Fault2::Bad(_, _) => 6,
        Fault2::Packets => 7,
        Fault2::LogFull(_) => 7,
        Fault2::Read => 8,
        Fault2::Disk(_) => 10,
        Fault2::NotBlank(_) => 11,
    }
}
