ghost use Rattle.std.specs.Prelude.{◌≡◌, ◌<◌, length, option_map};
ghost use Rattle.def_step.specs.Settle as definition;
ghost use Rattle.def_run.specs.SystemStates.{without_stop};
ghost use Rattle.ic_world.specs.Views.{components_of, world_of};
ghost use Rattle.ic_settle.specs.Policies.{intervals_of};

use ic_base::{ComId, Event, Policy, What};
use ic_disk::Disk;
use ic_world::World;

/// Whether so many records ask for what a policy does every so often; 0 asks for none.
fn reaches(every: u32, count: usize) -> bool
    ensures { result ≡ definition.reaches every count }
{
    0 < every && every as usize <= count
}

#[tactic(auto, using(crate::proofs::AskedFor::policy_at))]
fn policy_what<D: Disk>(world: &World<D>, policy: &Policy, com: ComId) -> Option<What>
    requires { «com».0 < length (components_of world.now) }
    ensures { result ≡ definition.next_policy (world_of world.now) (intervals_of policy.now) «com» }
{
    if world.is_replaying(com) {
        None
    } else if reaches(policy.force_every, world.buffered(com)) {
        Some(What::Force(com))
    } else if !world.in_hand(com) && reaches(policy.checkpoint_every, world.since_checkpoint(com)) {
        Some(What::Checkpoint(com))
    } else {
        None
    }
}

/// The event that a policy asks for at a component: a force where it has so many buffered records, else a checkpoint where
/// it has so many since its last one and nothing is in hand; None of one that is no Pcom or isn't up.
pub fn next_policy<D: Disk>(world: &World<D>, policy: &Policy, com: ComId) -> Option<Event>
    requires { «com».0 < length (components_of world.now) }
    ensures { result ≡ option_map without_stop (definition.next_policy (world_of world.now) (intervals_of policy.now) «com») }
{
    let what = policy_what(world, policy, com)?;
    Some(Event { what, stop: None })
}
