ghost use Rattle.std.specs.Prelude.{◌≡◌, ◌<◌, drop, length, false, IfOk, IfErr};
ghost use Rattle.def_failover.specs.Orders.{holds_of};
ghost use Rattle.def_standby.specs.Standbys.{Arises};
ghost use Rattle.def_standby.specs.declared.orders.Order.TheVariants.{Ship};
ghost use Rattle.def_step.specs.Settle.{is_down, replays};
ghost use Rattle.def_step.specs.World.{node_at};
ghost use Rattle.ic_failover.specs.Shipping.{IsAnswered, FailsToShip};
ghost use Rattle.ic_failover.specs.Sides.{beside_of, side_of, IsOwn, standing};
ghost use Rattle.ic_standby.specs.Views.{standby_of, com_of};
ghost use Rattle.ic_world.specs.Views.{components_of, world_of};

use crate::gathering::{forced_records, messages};
use crate::grammar::{are_counted, spell};
use crate::side::Side;
use def_failover::Note;
use ic_base::{ComId, Program, Record, Steps, WorldRefused};
use ic_disk::Disk;
use ic_replay::ReplayRefused;
use ic_run::Cut;
use ic_standby::{Shipped, Standby};
use ic_world::World;
use std::alloc::Global;
use std::sync::ledger::Ledger;

/// The records behind the first ones.
fn behind(records: &[Record], have: u64) -> &[Record]
    ensures { result.now ≡ drop have records.now }
{
    &records[records.len().min(have as usize)..]
}

/// Ships to a standby all forced records of its component that it doesn't have, with the messages that were put out.
fn ship_to<D: Disk, L: Ledger>(
    alloc: Global,
    world: &World<D>,
    program: &Program,
    com: ComId,
    standby: Standby,
    steps: &mut Steps<L>,
) -> Result<(Side, Note), Cut>
    requires there { «com».0 < length (components_of world.now) }
    requires up { holds_of is_down (node_at (world_of world.now) «com») ≡ false }
    requires goes_on { holds_of replays (node_at (world_of world.now) «com») ≡ false }
    requires which { com_of standby ≡ «com» }
    requires arises { Arises program.now «com» (standby_of standby).state }
    ensures answered { IfOk result (λ x. IsAnswered program.now «com» (world_of world.now) Ship (standing standby) x.1 (beside_of x.0)) }
    ensures own { IfOk result (λ x. IsOwn program.now «com» x.0) }
    ensures cut { IfErr result (FailsToShip program.now «com» (world_of world.now) (standing standby).side) }
{
    let records = forced_records(alloc, world.component(com))?;
    let have = standby.have();
    let behind = behind(records.as_slice(), have);
    if behind.is_empty() {
        return Ok((Side::Stands(standby), Note::Empty));
    }
    if !are_counted(behind) {
        return Err(Cut::Refused(WorldRefused::Bad(com, 0)));
    }
    spell(alloc, behind)?;
    let msgs = messages(alloc, world)?;
    match standby.ship(alloc, program, have, behind, msgs.as_slice(), steps) {
        Ok((standby, answer)) => match answer {
            Shipped::Applied => {
                let have = standby.have();
                Ok((Side::Stands(standby), Note::Applied(have)))
            }
            _ => Err(Cut::Refused(WorldRefused::Bad(com, 0))),
        },
        Err(ReplayRefused::Misfit(_)) => Err(Cut::Refused(WorldRefused::Bad(com, 0))),
        Err(ReplayRefused::Memory) => Err(Cut::Memory),
    }
}

/// Ships to the standby, where its component is up.
pub(crate) fn ship<D: Disk, L: Ledger>(
    alloc: Global,
    world: &World<D>,
    program: &Program,
    com: ComId,
    side: Side,
    steps: &mut Steps<L>,
) -> Result<(Side, Note), Cut>
    requires there { «com».0 < length (components_of world.now) }
    requires own { IsOwn program.now «com» side }
    ensures answered { IfOk result (λ x. IsAnswered program.now «com» (world_of world.now) Ship (beside_of side) x.1 (beside_of x.0)) }
    ensures own { IfOk result (λ x. IsOwn program.now «com» x.0) }
    ensures cut { IfErr result (FailsToShip program.now «com» (world_of world.now) (side_of side)) }
{
    if world.is_down(com) {
        return Ok((side, Note::Down));
    }
    if world.is_replaying(com) {
        return Ok((side, Note::Replaying));
    }
    match side {
        Side::Stands(standby) => ship_to(alloc, world, program, com, standby, steps),
        Side::Gone(shipped) => Ok((Side::Gone(shipped), Note::Gone)),
    }
}
