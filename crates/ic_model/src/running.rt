ghost use Rattle.std.specs.Prelude.{◌≡◌, ◌∷◌, [], map, Ok, Err, Some, None, IfOk, IfErr, OnOk};
ghost use Rattle.def_plain.specs.Plain as plain;
ghost use Rattle.def_plain.specs.Cell as cell;
ghost use Rattle.ic_model.specs.Runs.{IsIllegal};

use crate::indexed::IndexedWorld;
use crate::refusals::{PlainRefused, StepRefused};
use crate::stepping::plain_step;
use def_plain::{PlainCom, PlainPcom, PlainWorld};
use ic_base::{Cells, Component, Entries, Items, Kind, Program, Vals};
use std::alloc::{AllocError, Global};

/// The first values of variables or keys.
fn first_values(alloc: Global, cells: &Cells) -> Result<Vals, AllocError>
    ensures { IfOk result (λ values. values ≡ cell.first_values cells.now) }
{
    let mut values = Items::new(alloc);
    for cell in cells.as_slice() {
        values.push(cell.1)?;
    }
    Ok(values)
}

/// A component before its first entry.
fn first_component(alloc: Global, component: &Component) -> Result<PlainCom, AllocError>
    ensures { IfOk result (λ first. first ≡ plain.first_of_kind component.now.kind component.now) }
{
    Ok(match component.kind {
        Kind::Pcom => PlainCom::Pcom(PlainPcom {
            vars: first_values(alloc, &component.vars)?,
            hand: None,
            sent: Items::new(alloc),
            receipts: Items::new(alloc),
            outs: Items::new(alloc),
            begun: 0,
        }),
        Kind::Tcom => PlainCom::Tcom(first_values(alloc, &component.keys)?),
        Kind::Xcom => PlainCom::Xcom,
    })
}

/// The crash-free world before the first entry.
fn first_world(alloc: Global, program: &Program) -> Result<PlainWorld, AllocError>
    ensures { IfOk result (λ world. world ≡ plain.first_world program.now) }
{
    let mut world = Items::new(alloc);
    for component in program.components.as_slice() {
        world.push(first_component(alloc, component)?)?;
    }
    Ok(world)
}

/// The crash-free world behind the entries of a history, each played at once (Barga et al. 2004).
pub fn plain_run(
    alloc: Global,
    program: &Program,
    entries: &Entries,
) -> Result<PlainWorld, PlainRefused>
    ensures world { IfOk result (λ world. plain.plain_run_of program.now entries.now ≡ Ok world) }
    ensures illegal { IfErr result (IsIllegal program.now entries.now) }
{
    let mut world = IndexedWorld::new(alloc, first_world(alloc, program)?)?;
    let entries = entries.as_slice();
    for at in 0..entries.len() {
        match plain_step(alloc, program, &mut world, &entries[at]) {
            Ok(()) => {}
            Err(StepRefused::NoStep) => return Err(PlainRefused::Illegal(at)),
            Err(StepRefused::Memory) => return Err(PlainRefused::Memory),
        }
    }
    Ok(world.into_components())
}
