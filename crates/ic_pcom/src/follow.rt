ghost use Rattle.std.specs.Prelude.{◌≡◌, false, true, is_ok, Err, IfErr, IfOk};
ghost use Rattle.ic_base.specs.declared.scenario.Program.{Program};
ghost use Rattle.def_step.specs.Pcom.{Call};
ghost use Rattle.ic_disk.specs.Disk.{CrashLeaves, Makes};
ghost use Rattle.ic_pcom.specs.Deciding.{IsPlanned, MayFollow};
ghost use Rattle.ic_pcom.specs.Stages.{is_up};
ghost use Rattle.ic_pcom.specs.Stepping.{calls_of, Does, KeepsLog, FailsToStep, IsBeforeOrStepped};
ghost use Rattle.ic_pcom.specs.Views.{component_of, disk_of, is_closed};

use crate::Pcom;
use crate::land::land;
use crate::plan::Plan;
use crate::ready::make_ready;
use crate::stage::Stage;
use crate::step::Step;
use ic_disk::Disk;
use ic_gate::StepRefused;
use std::alloc::Global;

impl<D: Disk> Pcom<D> {
    /// Does what was planned, at a component that is up: all memory is taken, then the records are committed, which alone
    /// touches the disk, and then the state is changed. A refused commit leaves the state as it was.
    pub(crate) fn follow(&mut self, alloc: Global, plan: Plan) -> Result<Step, StepRefused>
        requires open { is_closed self.old ≡ false }
        requires up { is_up self.old.stage ≡ true }
        requires ready { MayFollow (component_of self.old).vol plan }
        ensures step { IfOk result (λ told. (program : Program) (call : Call) → IsPlanned program self.old call plan → Does program self.old call self.new told) }
        ensures log { KeepsLog self.old self.new }
        ensures crash { (program : Program) (call : Call) → IsPlanned program self.old call plan → CrashLeaves D.Disk (disk_of self.old) (disk_of self.new) (IsBeforeOrStepped program self.old call) }
        ensures calls { (program : Program) (call : Call) → IsPlanned program self.old call plan → Makes D.Disk (calls_of program self.old call) (is_ok result) (result ≡ Err StepRefused.Failed) (disk_of self.old) (disk_of self.new) }
        ensures refused { IfErr result (λ why. (program : Program) (call : Call) → IsPlanned program self.old call plan → FailsToStep program self.old call self.new why) }
    {
        let Stage::Up(state) = &mut self.stage else {
            unreachable!()
        };
        let before = self.log.forced_end();
        match make_ready(alloc, self.com, before, plan, state) {
            Ok((adds, ready)) => match self.log.commit(alloc, adds.as_slice(), ready.forces) {
                Ok(()) => {
                    let (end, forced) = (self.log.end(), self.log.forced_end());
                    Ok(land(alloc, self.com, adds.as_slice(), end, forced, ready, state))
                }
                Err(why) => {
                    self.closed = self.log.is_closed();
                    Err(why)
                }
            },
            Err(why) => Err(why),
        }
    }
}
