ghost use Rattle.std.specs.Prelude.{◌≡◌, false, Some};
ghost use Rattle.def_step.specs.Settle as definition;
ghost use Rattle.def_step.specs.World.{node_at};
ghost use Rattle.ic_world.specs.Reading.{at_node};
ghost use Rattle.ic_world.specs.Views.{world_of};
ghost use Rattle.ic_settle.specs.Outstanding.{test_of, waits_of};

use ic_base::ComId;
use ic_disk::Disk;
use ic_world::World;

/// What may be outstanding at a component.
#[derive(Clone, Copy, Debug)]
pub enum Outstanding {
    /// It is down.
    Recovery,
    /// An output is due.
    Output,
    /// Records wait for a force.
    Records,
    /// A message or an input is in hand.
    Transaction,
    /// A message is due that its receiver hasn't taken.
    Message,
}

/// Whether this is outstanding at a component.
fn is_outstanding<D: Disk>(world: &World<D>, c: ComId, what: Outstanding) -> bool
    ensures { result ≡ at_node false (test_of (world_of world.now) what) (node_at (world_of world.now) c) }
{
    match what {
        Outstanding::Recovery => world.is_down(c),
        Outstanding::Output => world.has_due(c),
        Outstanding::Records => 0 < world.buffered(c),
        Outstanding::Transaction => world.in_hand(c),
        Outstanding::Message => world.owes(c),
    }
}

/// The lowest component at which this is outstanding.
pub(crate) fn lowest<D: Disk>(world: &World<D>, what: Outstanding) -> Option<ComId>
    ensures { result ≡ definition.lowest (test_of (world_of world.now) what) (world_of world.now) }
{
    for i in 0..world.size() {
        if is_outstanding(world, ComId(i), what) {
            return Some(ComId(i));
        }
    }
    None
}

/// Which of two waits at the lesser stamp, the first one where the stamps are equal.
fn sooner(stamp: u64, com: ComId, other: Option<(u64, ComId)>) -> Option<(u64, ComId)>
    ensures { waits_of result ≡ definition.sooner (Some stamp) «com».0 (waits_of other) }
{
    match other {
        Some((least, who)) if least < stamp => Some((least, who)),
        _ => Some((stamp, com)),
    }
}

/// The component that replays and waits at the least stamp, the lowest of several.
pub(crate) fn soonest<D: Disk>(world: &World<D>) -> Option<ComId>
    ensures { result ≡ definition.soonest (world_of world.now) }
{
    let mut least: Option<(u64, ComId)> = None;
    let mut i = world.size();
    while 0 < i {
        i -= 1;
        if let Some(stamp) = world.waits_at(ComId(i)) {
            least = sooner(stamp, ComId(i), least);
        }
    }
    let (_, com) = least?;
    Some(com)
}
