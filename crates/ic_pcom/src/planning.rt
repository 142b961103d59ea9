ghost use Rattle.std.specs.Prelude.{◌≡◌, false, true, is_some, IfOk};
ghost use Rattle.ic_base.specs.declared.scenario.Program.{Program};
ghost use Rattle.def_step.specs.Pcom.{Gives, Gets, Emits};
ghost use Rattle.ic_pcom.specs.Deciding.{IsPlanned, MayFollow};
ghost use Rattle.ic_pcom.specs.Stages.{is_up};
ghost use Rattle.ic_pcom.specs.Views.{component_of};

use crate::plan::Plan;
use crate::{Pcom, on_emit, on_input, on_packet};
use ic_base::{Args, Items, Packet, Program, Record};
use ic_disk::Disk;
use ic_replay::{Prepared, prepare};
use std::alloc::{AllocError, Global};

impl<D: Disk> Pcom<D> {
    /// What an input comes to that isn't missed.
    pub(crate) fn plan_input(
        &self,
        alloc: Global,
        program: &Program,
        handler: u8,
        args: Args,
    ) -> Result<Plan, AllocError>
        requires up { is_up self.now.stage ≡ true }
        requires free { is_some (component_of self.now).vol.hand ≡ false }
        ensures decided { IfOk result (IsPlanned program.now self.now (Gives handler args)) }
        ensures ready { IfOk result (MayFollow (component_of self.now).vol) }
    {
        let state = self.stage.state();
        let decided = on_input(alloc, state, handler, args)?;
        let stored = Record::Input {
            stamp: state.clock + 1,
            handler,
            args,
        };
        let prepared = prepare(alloc, program, self.com, state, &stored, None)?;
        Ok(Plan::Adds(decided, prepared))
    }

    /// What a packet comes to.
    pub(crate) fn plan_packet(
        &self,
        alloc: Global,
        program: &Program,
        p: &Packet,
    ) -> Result<Plan, AllocError>
        requires up { is_up self.now.stage ≡ true }
        ensures decided { IfOk result (IsPlanned program.now self.now (Gets p.now)) }
        ensures ready { IfOk result (MayFollow (component_of self.now).vol) }
    {
        let state = self.stage.state();
        let decided = on_packet(alloc, program, self.com, state, self.log.forced_end(), p)?;
        let n = decided.adds.len();
        if n == 0 {
            return Ok(Plan::AddsNone(decided));
        }
        let last = &decided.adds.as_slice()[n - 1];
        let prepared = prepare(alloc, program, self.com, state, last, decided.content)?;
        Ok(Plan::Adds(decided, prepared))
    }

    /// What it comes to that the oldest output that is due is to be shown. Nothing is played, so nothing is prepared.
    pub(crate) fn plan_emit(&self, alloc: Global) -> Result<Plan, AllocError>
        requires up { is_up self.now.stage ≡ true }
        ensures decided { IfOk result (λ plan. (program : Program) → IsPlanned program self.now Emits plan) }
        ensures ready { IfOk result (MayFollow (component_of self.now).vol) }
    {
        let state = self.stage.state();
        let decided = on_emit(alloc, state, self.log.forced_end())?;
        if decided.adds.len() == 0 {
            return Ok(Plan::AddsNone(decided));
        }
        if !state.txn.has_next_place() {
            return Err(AllocError);
        }
        let prepared = Prepared {
            hand: None,
            answers: Items::new(alloc),
            played: None,
        };
        Ok(Plan::Adds(decided, prepared))
    }
}
