use crate::World;
use ic_base::{ComId, Msg, Program, Steps, WorldRefused};
use ic_ckpt::State;
use ic_disk::{Disk, TornDisk};
use ic_work::refusal;
use std::alloc::Global;
use std::sync::ledger::Ledger;

impl<D: Disk> World<TornDisk<D>> {
    ghost use Rattle.std.specs.Prelude.{◌≡◌, ◌+◌, true, false, IfOk, IfErr, is_ok};
    ghost use Rattle.ic_base.specs.Programs.{is_a_pcom};
    ghost use Rattle.def_standby.specs.Standbys.{Arises, contents_among};
    ghost use Rattle.def_step.specs.Settle.{is_down};
    ghost use Rattle.def_step.specs.World.{node_at};
    ghost use Rattle.ic_ckpt.specs.Views.{seen};
    ghost use Rattle.ic_world.specs.Acting.{KeepsOthers};
    ghost use Rattle.ic_world.specs.Allowing.{GoesOn};
    ghost use Rattle.ic_world.specs.Reading.{at_node};
    ghost use Rattle.ic_world.specs.Stepping.{CrashLeavesFiles};
    ghost use Rattle.ic_world.specs.TakingOver.{TakesOn, CrashLeavesThem, MakesLoadAt, LeavesSound, StaysExplained, FailsToTakeOver};
    ghost use Rattle.ic_world.specs.Views.{world_of};

    /// A Pcom that is down comes up as its standby, which has played the first `have` records of its log to this state: it takes
    /// its disk, plays the records behind these, each that takes a message by identity with that one of `msgs`, and goes on as
    /// that Pcom (docs/RULES.md, "A standby"). Nothing is put out. Answers how many records were played.
    pub fn take_over<L: Ledger>(
        &mut self,
        alloc: Global,
        program: &Program,
        c: ComId,
        state: State,
        have: u64,
        msgs: &[Msg],
        steps: &mut Steps<L>,
    ) -> Result<u64, WorldRefused>
        requires world { GoesOn program.now self.old }
        requires pcom { is_a_pcom program.now «c» ≡ true }
        requires down { at_node false is_down (node_at (world_of self.old) «c») ≡ true }
        requires arises { Arises program.now «c» (seen state) }
        ensures step { IfOk result (TakesOn program.now self.old «c» (contents_among «c» msgs.now) (seen state) have self.new) }
        ensures others { KeepsOthers self.old «c» self.new }
        // It writes nothing, so a crash leaves the records that are there.
        ensures crash { CrashLeavesThem self.old self.new }
        ensures durable { IfOk result (λ played. CrashLeavesFiles self.new) }
        ensures explained { IfOk result (λ played. StaysExplained program.now self.old «c» (contents_among «c» msgs.now) (seen state) have self.new) }
        // Of a crash of the whole machine, whether it takes over or is refused.
        ensures sound { LeavesSound program.now self.old self.new }
        // The component loads its log once.
        ensures calls { MakesLoadAt self.old «c» (is_ok result) self.new }
        ensures refused { IfErr result (FailsToTakeOver D.Disk program.now self.old «c» (contents_among «c» msgs.now) (seen state) have self.new) }
        ensures steps { IfOk result (λ played. steps.new ≡ steps.old + played) }
    {
        self.over = true;
        let (print, x) = (&self.fingerprint, &mut self.components[usize::from(c.0)]);
        match x.takes_over(alloc, program, print, state, have, msgs, steps) {
            Ok(played) => {
                self.played = self.played.saturating_add(played);
                self.over = false;
                Ok(played)
            }
            Err(why) => Err(refusal(c, why)),
        }
    }
}
