ghost use Rattle.std.specs.Prelude.{◌≡◌, ◌≤◌, ◌+◌, true, length, IfOk, IfErr};
ghost use Rattle.def_report.specs.Summaries.{summary_lines};
ghost use Rattle.ic_base.specs.declared.limits.TheConstants.{COMPONENTS};
ghost use Rattle.ic_run.specs.Summaries.{summed};
ghost use Rattle.ic_world.specs.Views.{world_of, played_of};

use ic_base::{Bytes, Program, Summary};
use ic_disk::Disk;
use ic_report::{Why, summary_bytes};
use ic_run::Tally;
use ic_world::World;
use std::alloc::Global;

/// The lines of what a served run came to, with the records that were played in its worlds before this one.
pub(crate) fn summary_of<D: Disk>(
    alloc: Global,
    program: &Program,
    tally: Tally,
    played: u64,
    world: &World<D>,
) -> Result<Bytes, Why>
    requires { length program.now.components ≤ COMPONENTS }
    ensures lines { IfOk result (λ lines. lines ≡ summary_lines program.now (summed program.now true tally (played + played_of world.now) (world_of world.now))) }
    ensures memory { IfErr result (λ why. why ≡ Why.Memory) }
{
    let Some(played) = played.checked_add(world.played()) else {
        return Err(Why::Memory);
    };
    let summary = Summary {
        taken: tally.taken,
        kept: tally.kept,
        lost: tally.lost,
        missed: tally.missed,
        first: tally.first,
        again: tally.again,
        states: world.states(alloc)?,
        played,
        history: world.history_len(program)? as u64,
        settled: true,
    };
    Ok(summary_bytes(alloc, program, &summary)?)
}
