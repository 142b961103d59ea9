ghost use Rattle.std.specs.Prelude.{◌≡◌, ◌++◌, length, IfOk, OnOk};
ghost use Rattle.ic_report.specs.Migrated.{migrated_line, migrated_lines};

use crate::names::name_of;
use crate::writing::{add_number, add_word};
use ic_base::{Bytes, ComId, Program};
use std::alloc::{AllocError, Global};

// The line of a component's migrated log.
fn add_migrated_line(
    out: &mut Vec<u8>,
    program: &Program,
    com: ComId,
    log: &[u8],
) -> Result<(), AllocError>
    ensures { OnOk result (out.new.items ≡ out.old.items ++ migrated_line program.now «com» log.now) }
{
    out.extend_from_slice(b"migrated")?;
    add_word(out, name_of(program, com))?;
    add_number(out, log.len() as u64)?;
    out.push(b'\n')?;
    Ok(())
}

/// The lines of a migration: for each of these components the size of its new log.
pub fn migrated_bytes(
    alloc: Global,
    program: &Program,
    coms: &[ComId],
    logs: &[Bytes],
) -> Result<Bytes, AllocError>
    requires { length logs.now ≡ length coms.now }
    ensures { IfOk result (λ bytes. bytes ≡ migrated_lines program.now coms.now logs.now) }
{
    let mut out = Vec::new(alloc);
    for i in 0..coms.len() {
        add_migrated_line(&mut out, program, coms[i], logs[i].as_slice())?;
    }
    Ok(Bytes::from_vec(out))
}
