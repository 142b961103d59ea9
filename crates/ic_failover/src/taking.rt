ghost use Rattle.std.specs.Prelude.{◌≡◌, true, false, ℕ, IfOk, IfErr};
ghost use Rattle.ic_base.specs.Programs.{is_a_pcom};
ghost use Rattle.def_failover.specs.Orders.{holds_of};
ghost use Rattle.def_failover.specs.declared.note.Note.TheVariants.{Done};
ghost use Rattle.def_standby.specs.Standbys.{Arises};
ghost use Rattle.def_step.specs.Settle.{is_down, replays};
ghost use Rattle.def_step.specs.World.{node_at};
ghost use Rattle.ic_failover.specs.Sides.{beside_of, IsOwn, standing};
ghost use Rattle.ic_failover.specs.Taking.{TookOver, FailsToTake, Takes};
ghost use Rattle.ic_standby.specs.Views.{standby_of};
ghost use Rattle.ic_world.specs.Allowing.{GoesOn};
ghost use Rattle.ic_world.specs.Views.{world_of};

use crate::gathering::messages;
use crate::side::Side;
use def_failover::Note;
use ic_base::{ComId, Program, Steps};
use ic_disk::{Disk, TornDisk};
use ic_run::Cut;
use ic_standby::Standby;
use ic_world::World;
use std::alloc::Global;
use std::sync::ledger::Ledger;

/// The standby takes over its component, which is down.
fn take_over_by<D: Disk, L: Ledger>(
    alloc: Global,
    world: &mut World<TornDisk<D>>,
    program: &Program,
    com: ComId,
    standby: Standby,
    steps: &mut Steps<L>,
) -> Result<(Side, Note), Cut>
    requires world { GoesOn program.now world.old }
    requires pcom { is_a_pcom program.now «com» ≡ true }
    requires goes_on { holds_of replays (node_at (world_of world.old) «com») ≡ false }
    requires down { holds_of is_down (node_at (world_of world.old) «com») ≡ true }
    requires arises { Arises program.now «com» (standby_of standby).state }
    ensures took { IfOk result (λ x. (played : ℕ) × (x.1 ≡ Done played) × TookOver program.now «com» world.old world.new (standing standby) played (beside_of x.0)) }
    ensures own { IfOk result (λ x. IsOwn program.now «com» x.0) }
    ensures cut { IfErr result (FailsToTake D.Disk program.now «com» world.old world.new (standing standby)) }
{
    let have = standby.have();
    let msgs = messages(alloc, world)?;
    let state = standby.into_state();
    let played = world.take_over(alloc, program, com, state, have, msgs.as_slice(), steps)?;
    Ok((Side::Gone(have), Note::Done(played)))
}

/// The standby takes over, where its component is down.
pub(crate) fn take_over<D: Disk, L: Ledger>(
    alloc: Global,
    world: &mut World<TornDisk<D>>,
    program: &Program,
    com: ComId,
    side: Side,
    steps: &mut Steps<L>,
) -> Result<(Side, Note), Cut>
    requires world { GoesOn program.now world.old }
    requires pcom { is_a_pcom program.now «com» ≡ true }
    requires own { IsOwn program.now «com» side }
    ensures takes { IfOk result (λ x. Takes program.now «com» world.old (beside_of side) x.1 world.new (beside_of x.0)) }
    ensures own { IfOk result (λ x. IsOwn program.now «com» x.0) }
    ensures cut { IfErr result (FailsToTake D.Disk program.now «com» world.old world.new (beside_of side)) }
{
    if world.is_replaying(com) {
        return Ok((side, Note::Replaying));
    }
    if !world.is_down(com) {
        return Ok((side, Note::Up));
    }
    match side {
        Side::Stands(standby) => take_over_by(alloc, world, program, com, standby, steps),
        Side::Gone(shipped) => Ok((Side::Gone(shipped), Note::Gone)),
    }
}
