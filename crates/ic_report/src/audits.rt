ghost use Rattle.std.specs.Prelude.{◌≡◌, ◌++◌, ◌∷◌, map, sum_by, OnOk, IfOk};
ghost use Rattle.def_report.specs.Summaries.{kind_word, plain_line, plain_lines, audit_lines};
ghost use Rattle.def_report.specs.Words.{line};
ghost use Rattle.def_run.specs.Audits.{values_in, outputs_in};
ghost use Rattle.ic_report.specs.Said.{said, plain_words};

use crate::summaries::{add_cells, add_count_line, cells_of, kind_word};
use crate::writing::add_word;
use def_plain::{PlainCom, PlainWorld};
use ic_base::{Bytes, Component, Kind, Program};
use std::alloc::{AllocError, Global};

// The values of a component of the crash-free world.
fn values_in(com: &PlainCom) -> &[i64]
    ensures { result.now ≡ values_in «com».now }
{
    match com {
        PlainCom::Pcom(pcom) => pcom.vars.as_slice(),
        PlainCom::Tcom(ledger) => ledger.as_slice(),
        PlainCom::Xcom => &[],
    }
}

fn outputs_in(com: &PlainCom) -> u64
    ensures { result ≡ outputs_in «com».now }
{
    match com {
        PlainCom::Pcom(pcom) => pcom.outs.len() as u64,
        _ => 0,
    }
}

// How many outputs all components made. More than 64 bits can count is answered as want of memory.
fn all_outputs(world: &[PlainCom]) -> Result<u64, AllocError>
    ensures { IfOk result (λ n. n ≡ sum_by outputs_in world.now) }
{
    let mut all: u64 = 0;
    for com in world {
        match all.checked_add(outputs_in(com)) {
            Some(more) => all = more,
            None => return Err(AllocError),
        }
    }
    Ok(all)
}

// The words of a component of the crash-free world, behind the first one.
fn add_plain_words(
    out: &mut Vec<u8>,
    component: &Component,
    values: &[i64],
) -> Result<(), AllocError>
    ensures { OnOk result (out.new.items ≡ said out.old.items (plain_words component.now values.now)) }
{
    add_word(out, component.name.as_slice())?;
    add_cells(out, cells_of(component), values)?;
    Ok(())
}

// The line of a component that has values.
fn add_valued_line(
    out: &mut Vec<u8>,
    component: &Component,
    values: &[i64],
) -> Result<(), AllocError>
    ensures { OnOk result (out.new.items ≡ out.old.items ++ line (kind_word component.now.kind ∷ plain_words component.now values.now)) }
{
    out.extend_from_slice(kind_word(component.kind))?;
    add_plain_words(out, component, values)?;
    out.push(b'\n')?;
    Ok(())
}

fn add_plain_line(
    out: &mut Vec<u8>,
    component: &Component,
    values: &[i64],
) -> Result<(), AllocError>
    ensures { OnOk result (out.new.items ≡ out.old.items ++ plain_line component.now values.now) }
{
    match component.kind {
        Kind::Xcom => Ok(()),
        _ => add_valued_line(out, component, values),
    }
}

fn add_plain_lines(
    out: &mut Vec<u8>,
    components: &[Component],
    world: &[PlainCom],
) -> Result<(), AllocError>
    ensures { OnOk result (out.new.items ≡ out.old.items ++ plain_lines components.now (map values_in world.now)) }
{
    for (component, com) in components.iter().zip(world) {
        add_plain_line(out, component, values_in(com))?;
    }
    Ok(())
}

/// The lines of an audit: the values of the crash-free world, and the number of its outputs and of the entries of its
/// history, which is legal.
pub fn audit_bytes(
    alloc: Global,
    program: &Program,
    world: &PlainWorld,
    history: u64,
) -> Result<Bytes, AllocError>
    ensures lines { IfOk result (λ b. b ≡ audit_lines program.now (map values_in world.now) (sum_by outputs_in world.now) history) }
{
    let outputs = all_outputs(world.as_slice())?;
    let mut out = Vec::new(alloc);
    add_plain_lines(&mut out, program.components.as_slice(), world.as_slice())?;
    add_count_line(&mut out, b"outputs", outputs)?;
    add_count_line(&mut out, b"history", history)?;
    out.extend_from_slice(b"legal\n")?;
    Ok(Bytes::from_vec(out))
}
