ghost use Rattle.std.specs.Prelude.{◌≡◌, ◌≤◌, ◌<◌, ◌∷◌, [], length, IfOk, IfErr, IfSome, OnOk};
ghost use Rattle.ic_base.specs.declared.limits.TheConstants.{COMPONENTS};
ghost use Rattle.def_report.specs.Summaries.{summary_lines};
ghost use Rattle.ic_report.specs.Outputs.{Puts};
ghost use Rattle.ic_run.specs.Summaries.{summed, FailsToTell};
ghost use Rattle.ic_world.specs.Acting.{GREATEST};
ghost use Rattle.ic_world.specs.Views.{world_of, played_of};

use crate::Tally;
use ic_base::{Bytes, Program, Summary};
use ic_disk::{Disk, Sink};
use ic_report::{Why, print, summary_bytes};
use ic_world::World;
use std::alloc::{AllocError, Global};

/// What a run came to. None where more records were played than can be counted.
fn summary_of<D: Disk>(
    alloc: Global,
    program: &Program,
    settled: bool,
    tally: Tally,
    world: &World<D>,
) -> Result<Option<Summary>, AllocError>
    requires { length program.now.components ≤ COMPONENTS }
    ensures summed { IfOk result (λ o. IfSome o (λ s. s ≡ summed program.now settled tally (played_of world.now) (world_of world.now))) }
    ensures few { IfOk result (λ o. IfSome o (λ s. played_of world.now < GREATEST)) }
{
    if world.played() == u64::MAX {
        return Ok(None);
    }
    Ok(Some(Summary {
        taken: tally.taken,
        kept: tally.kept,
        lost: tally.lost,
        missed: tally.missed,
        first: tally.first,
        again: tally.again,
        states: world.states(alloc)?,
        played: world.played(),
        history: world.history_len(program)? as u64,
        settled,
    }))
}

/// The lines of what a run came to.
fn summary_in<D: Disk>(
    alloc: Global,
    program: &Program,
    settled: bool,
    tally: Tally,
    world: &World<D>,
) -> Result<Bytes, Why>
    requires { length program.now.components ≤ COMPONENTS }
    ensures lines { IfOk result (λ lines. lines ≡ summary_lines program.now (summed program.now settled tally (played_of world.now) (world_of world.now))) }
    ensures few { OnOk result (played_of world.now < GREATEST) }
    ensures memory { IfErr result (λ why. why ≡ Why.Memory) }
{
    match summary_of(alloc, program, settled, tally, world)? {
        Some(summary) => Ok(summary_bytes(alloc, program, &summary)?),
        None => Err(Why::Memory),
    }
}

/// Prints what a run came to.
pub fn conclude<K: Sink, D: Disk>(
    alloc: Global,
    program: &Program,
    settled: bool,
    tally: Tally,
    world: &World<D>,
    out: &mut K,
) -> Result<(), Why>
    requires { length program.now.components ≤ COMPONENTS }
    ensures printed { OnOk result (Puts K.Sink (summary_lines program.now (summed program.now settled tally (played_of world.now) (world_of world.now)) ∷ []) out.old out.new) }
    ensures few { OnOk result (played_of world.now < GREATEST) }
    ensures refused { IfErr result (FailsToTell K.Sink (summary_lines program.now (summed program.now settled tally (played_of world.now) (world_of world.now)) ∷ []) out.old out.new) }
    ensures counted { IfErr result (λ why. why ≡ Why.Print → played_of world.now < GREATEST) }
{
    let lines = summary_in(alloc, program, settled, tally, world)?;
    match print(out, lines.as_slice()) {
        Ok(()) => Ok(()),
        Err(_) => Err(Why::Print),
    }
}
