ghost use Rattle.std.specs.Prelude.{◌≤◌, length, IfOk, IfErr};
ghost use Rattle.ic_base.specs.declared.limits.TheConstants.{COMPONENTS};
ghost use Rattle.ic_serve.specs.Fronts.{IsOfLogs, RefusesLogs};
ghost use Rattle.ic_world.specs.Views.{components_of};

use ic_base::{Fault, Program};
use ic_client::Front;
use ic_disk::Disk;
use ic_model::{PlainRefused, history, plain_run};
use ic_report::Why;
use ic_world::World;
use std::alloc::Global;

/// The front that the logs of a world tell of, with the replies that their crash-free world has.
pub(crate) fn front_of<D: Disk>(
    alloc: Global,
    program: &Program,
    world: &World<D>,
) -> Result<Front, Why>
    requires few { length program.now.components ≤ COMPONENTS }
    requires count { length (components_of world.now) ≤ COMPONENTS }
    ensures front { IfOk result (IsOfLogs program.now world.now) }
    ensures refused { IfErr result (RefusesLogs program.now world.now) }
{
    let logs = world.logs(alloc)?;
    let entries = history(alloc, program, &logs)?;
    match plain_run(alloc, program, &entries) {
        Ok(plain) => Ok(Front::of_logs(alloc, &plain, logs.as_slice())?),
        Err(PlainRefused::Illegal(at)) => Err(Why::Fault(Fault::Illegal(at as u64))),
        Err(PlainRefused::Memory) => Err(Why::Memory),
    }
}
