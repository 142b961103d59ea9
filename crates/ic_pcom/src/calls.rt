ghost use Rattle.std.specs.Prelude.{◌≡◌, ◌+◌, ◌≤◌, false, is_ok, length, IfOk, IfErr, Err};
ghost use Rattle.ic_base.specs.declared.limits.TheConstants.{COMPONENTS};
ghost use Rattle.ic_base.specs.declared.scenario.Program.{Program};
ghost use Rattle.def_step.specs.Pcom.{Gives, Gets, Forces, Checkpoints, Resends, Emits};
ghost use Rattle.ic_disk.specs.Disk.{CrashLeaves, Makes};
ghost use Rattle.ic_pcom.specs.Views.{component_of, disk_of, is_closed};
ghost use Rattle.ic_pcom.specs.Stepping.{calls_of, Does, Answers, KeepsLog, FailsToStep, FailsToGet, IsBeforeOrStepped};

use crate::plan::Plan;
use crate::stage::Stage;
use crate::step::{InputAnswer, PacketRefused, Reason, Step, packet_refusal};
use crate::telling::{fetches, told};
use crate::{Pcom, StepKind, on_force, on_resend};
use ic_base::{Args, Packet, Program, Steps};
use ic_disk::Disk;
use ic_gate::StepRefused;
use std::alloc::{AllocError, Global};
use std::sync::ledger::Ledger;

impl<D: Disk> Pcom<D> {
    /// Takes an input of a user, forces it and handles it. It is missed while the component replays or has another message or
    /// input in hand (docs/RULES.md, "Taking").
    pub fn input(
        &mut self,
        alloc: Global,
        program: &Program,
        handler: u8,
        args: Args,
    ) -> Result<InputAnswer, StepRefused>
        requires open { is_closed self.old ≡ false }
        ensures step { IfOk result (Answers program.now self.old handler args self.new) }
        ensures log { KeepsLog self.old self.new }
        ensures crash { CrashLeaves D.Disk (disk_of self.old) (disk_of self.new) (IsBeforeOrStepped program.now self.old (Gives handler args)) }
        ensures calls { Makes D.Disk (calls_of program.now self.old (Gives handler args)) (is_ok result) (result ≡ Err StepRefused.Failed) (disk_of self.old) (disk_of self.new) }
        ensures refused { IfErr result (FailsToStep program.now self.old (Gives handler args) self.new) }
    {
        if self.is_replaying() {
            return Ok(InputAnswer::NotTaken(Reason::Replaying));
        }
        if self.in_hand() {
            return Ok(InputAnswer::NotTaken(Reason::InTransaction));
        }
        let Ok(plan) = self.plan_input(alloc, program, handler, args) else {
            return Err(StepRefused::Memory);
        };
        match self.follow(alloc, plan) {
            Ok(told) => Ok(InputAnswer::Taken(told)),
            Err(why) => Err(why),
        }
    }

    /// Gets a packet: a message is taken, fed to a replay, or answered by the level of its receipt; an acknowledgement, a Fetch
    /// or the answer of a Tcom is used. A packet that doesn't fit changes nothing (docs/RULES.md, "Packets that fit").
    pub fn on_packet<L: Ledger>(
        &mut self,
        alloc: Global,
        program: &Program,
        p: &Packet,
        steps: &mut Steps<L>,
    ) -> Result<Step, PacketRefused>
        requires open { is_closed self.old ≡ false }
        requires few { length program.now.components ≤ COMPONENTS }
        ensures step { IfOk result (Does program.now self.old (Gets p.now) self.new) }
        ensures log { KeepsLog self.old self.new }
        ensures crash { CrashLeaves D.Disk (disk_of self.old) (disk_of self.new) (IsBeforeOrStepped program.now self.old (Gets p.now)) }
        ensures calls { Makes D.Disk (calls_of program.now self.old (Gets p.now)) (is_ok result) (result ≡ Err PacketRefused.Failed) (disk_of self.old) (disk_of self.new) }
        ensures refused { IfErr result (FailsToGet program.now self.old p.now self.new) }
        ensures steps { IfOk result (λ told. steps.new + length (component_of self.new).rest ≡ steps.old + length (component_of self.old).rest) }
        ensures bound { steps.new ≤ steps.old + length (component_of self.old).rest }
        ensures stopped { result ≡ Err PacketRefused.Stopped → steps.new ≡ steps.old }
    {
        if self.is_replaying() {
            return self.fed(alloc, program, p, steps);
        }
        let Ok(plan) = self.plan_packet(alloc, program, p) else {
            return Err(PacketRefused::Memory);
        };
        match self.follow(alloc, plan) {
            Ok(told) => Ok(told),
            Err(why) => Err(packet_refusal(why)),
        }
    }

    /// Forces what is buffered, and puts out what may then leave (docs/RULES.md, "Forcing").
    pub fn force(&mut self, alloc: Global) -> Result<Step, StepRefused>
        requires open { is_closed self.old ≡ false }
        ensures step { IfOk result (λ told. (program : Program) → Does program self.old Forces self.new told) }
        ensures log { KeepsLog self.old self.new }
        ensures crash { (program : Program) → CrashLeaves D.Disk (disk_of self.old) (disk_of self.new) (IsBeforeOrStepped program self.old Forces) }
        ensures calls { (program : Program) → Makes D.Disk (calls_of program self.old Forces) (is_ok result) (result ≡ Err StepRefused.Failed) (disk_of self.old) (disk_of self.new) }
        ensures refused { IfErr result (λ why. (program : Program) → FailsToStep program self.old Forces self.new why) }
    {
        if self.is_replaying() {
            return Ok(Step::nothing(alloc));
        }
        self.follow(alloc, Plan::AddsNone(on_force(alloc)))
    }

    /// Records an image of its state and forces it, so that a replay begins there. With a message in hand, or while it replays,
    /// nothing is done (docs/RULES.md, "Checkpoint").
    pub fn checkpoint(&mut self, alloc: Global) -> Result<Step, StepRefused>
        requires open { is_closed self.old ≡ false }
        ensures step { IfOk result (λ told. (program : Program) → Does program self.old Checkpoints self.new told) }
        ensures log { KeepsLog self.old self.new }
        ensures crash { (program : Program) → CrashLeaves D.Disk (disk_of self.old) (disk_of self.new) (IsBeforeOrStepped program self.old Checkpoints) }
        ensures calls { (program : Program) → Makes D.Disk (calls_of program self.old Checkpoints) (is_ok result) (result ≡ Err StepRefused.Failed) (disk_of self.old) (disk_of self.new) }
        ensures refused { IfErr result (λ why. (program : Program) → FailsToStep program self.old Checkpoints self.new why) }
    {
        if !self.is_idle() {
            return Ok(Step::nothing(alloc));
        }
        match self.plan_checkpoint(alloc) {
            Ok(plan) => self.follow(alloc, plan),
            Err(why) => Err(why),
        }
    }

    /// Puts out again what isn't known to have arrived, or the Fetch that a replay needs (docs/RULES.md, "Resend").
    pub fn resend(&self, alloc: Global) -> Result<Step, AllocError>
        requires open { is_closed self.now ≡ false }
        ensures step { IfOk result (λ told. (program : Program) → Does program self.now Resends self.now told) }
    {
        match &self.stage {
            Stage::Up(state) => {
                let decided = on_resend(alloc, self.com, state, self.log.forced_end())?;
                let puts = decided.answers.into_vec();
                Ok(told(decided.word, puts, decided.shown, decided.aborted))
            }
            Stage::Replays(_, replay) => {
                let puts = fetches(alloc, self.com, replay.needs())?;
                Ok(told(StepKind::Same, puts, None, None))
            }
        }
    }

    /// Shows the oldest output that is due, and records that. With none, or while it replays, nothing is done (docs/RULES.md,
    /// "Emit").
    pub fn emit(&mut self, alloc: Global) -> Result<Step, StepRefused>
        requires open { is_closed self.old ≡ false }
        ensures step { IfOk result (λ told. (program : Program) → Does program self.old Emits self.new told) }
        ensures log { KeepsLog self.old self.new }
        ensures crash { (program : Program) → CrashLeaves D.Disk (disk_of self.old) (disk_of self.new) (IsBeforeOrStepped program self.old Emits) }
        ensures calls { (program : Program) → Makes D.Disk (calls_of program self.old Emits) (is_ok result) (result ≡ Err StepRefused.Failed) (disk_of self.old) (disk_of self.new) }
        ensures refused { IfErr result (λ why. (program : Program) → FailsToStep program self.old Emits self.new why) }
    {
        if self.is_replaying() {
            return Ok(Step::nothing(alloc));
        }
        let Ok(plan) = self.plan_emit(alloc) else {
            return Err(StepRefused::Memory);
        };
        self.follow(alloc, plan)
    }
}
