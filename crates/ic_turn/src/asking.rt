ghost use Rattle.std.specs.Prelude.{◌≡◌};
ghost use Rattle.def_live.specs.Turns.{policy_of};
ghost use Rattle.def_step.specs.Settle as settle;
ghost use Rattle.ic_node.specs.Views.{node_of, com_of};
ghost use Rattle.ic_turn.specs.Choices.{intervals_of};

use ic_base::{Policy, What};
use ic_disk::Disk;
use ic_node::Component;

/// Whether so many records ask for what a policy does every so often; 0 asks for none.
fn reaches(every: u32, count: usize) -> bool
    ensures { result ≡ settle.reaches every count }
{
    0 < every && every as usize <= count
}

/// What the policy asks for of a component.
#[tactic(auto, using(crate::proofs::Rules::policy_at))]
pub fn asked<D: Disk>(policy: &Policy, x: &Component<D>) -> Option<What>
    ensures { result ≡ policy_of (intervals_of policy.now) (com_of x.now) (node_of x.now) }
{
    let c = x.com();
    if x.is_replaying() {
        None
    } else if reaches(policy.force_every, x.buffered()) {
        Some(What::Force(c))
    } else if !x.in_hand() && reaches(policy.checkpoint_every, x.since_checkpoint()) {
        Some(What::Checkpoint(c))
    } else {
        None
    }
}
