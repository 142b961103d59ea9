ghost use Rattle.std.specs.Prelude.{◌≡◌, ◌++◌, None, map, false, OnOk, IfErr};
ghost use Rattle.def_report.specs.Summaries.{stand_lines};
ghost use Rattle.def_run.specs.Reports.{stand_of};
ghost use Rattle.def_step.specs.Settle.{next_event};
ghost use Rattle.ic_report.specs.declared.ending.Why.TheVariants.{Print};
ghost use Rattle.ic_serve.specs.Answering.{bad_line, served_text, AnswersOver, FailsToAnswer};
ghost use Rattle.ic_world.specs.Stepping.{CrashLeavesFiles};
ghost use Rattle.ic_world.specs.Views.{world_of, is_over};

use crate::service::Service;
use ic_base::{Cause, Program};
use ic_disk::{Disk, Sink, TornDisk};
use ic_report::{Why, add_number, cause_text, values_bytes};
use ic_world::World;
use std::alloc::{AllocError, Global};

/// Appends the line that refuses the line of a number.
pub(crate) fn add_bad_line(out: &mut Vec<u8>, number: u64, cause: Cause) -> Result<(), AllocError>
    ensures { OnOk result (out.new.items ≡ out.old.items ++ bad_line number cause) }
{
    out.extend_from_slice(b"bad line")?;
    add_number(out, number)?;
    out.extend_from_slice(b": ")?;
    out.extend_from_slice(cause_text(cause))?;
    out.push(b'\n')?;
    Ok(())
}

/// Appends the lines of all components with their values.
pub(crate) fn add_values<D: Disk>(
    alloc: Global,
    out: &mut Vec<u8>,
    program: &Program,
    world: &World<D>,
) -> Result<(), AllocError>
    ensures { OnOk result (out.new.items ≡ out.old.items ++ stand_lines program.now.components (map stand_of (world_of world.now).nodes)) }
{
    let lines = values_bytes(alloc, program, &world.states(alloc)?)?;
    out.extend_from_slice(lines.as_slice())?;
    Ok(())
}

/// Appends the line that ends the answer to the line of a number.
fn add_served(out: &mut Vec<u8>, number: u64) -> Result<(), AllocError>
    ensures { OnOk result (out.new.items ≡ out.old.items ++ served_text number) }
{
    out.extend_from_slice(b"served")?;
    add_number(out, number)?;
    out.push(b'\n')?;
    Ok(())
}

/// Prints the answer to the line of a number, whole: the piece that was gathered and `served` with the number. It is printed only where the
/// world is settled, and all that was done is kept.
pub(crate) fn answer<K: Sink, D: Disk>(
    out: &mut K,
    world: &World<TornDisk<D>>,
    number: u64,
    service: &mut Service,
) -> Result<(), Why>
    requires going { is_over world.now ≡ false }
    // Nothing that the world still owes is left to do, so what the piece tells was done, and its outputs were shown.
    requires settled { next_event (world_of world.now) ≡ None }
    requires kept { CrashLeavesFiles world.now }
    ensures answers { OnOk result (AnswersOver world.now K.Sink number service.old service.new out.old out.new) }
    ensures refused { IfErr result (FailsToAnswer K.Sink out.old out.new) }
{
    add_served(&mut service.piece, number)?;
    match out.put(service.piece.as_slice()) {
        Ok(()) => {
            service.piece.clear();
            Ok(())
        }
        Err(_) => Err(Why::Print),
    }
}
