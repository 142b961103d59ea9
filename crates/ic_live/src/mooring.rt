ghost use Rattle.std.specs.Prelude.{◌≡◌, ◌≤◌, length, IfSome};
ghost use Rattle.ic_base.specs.declared.limits.TheConstants.{COMPONENTS};
ghost use Rattle.ic_live.specs.Berthed.{berthed, list_of};
ghost use Rattle.ic_live.specs.Berths.{BeginsBerth};
ghost use Rattle.ic_live.specs.Ended.{MayMoor};
ghost use Rattle.ic_node.specs.Views.{com_of};

use crate::berth::Berth;
use crate::coms::berthed;
use crate::lists::list_of;
use crate::pool::Locked;
use crate::scene::Scene;
use ic_base::{ComId, Event, Items, Policy, Program};
use ic_disk::{Disk, TornDisk};
use ic_lane::{LaneIn, LaneOut, Mark};
use ic_node::Component;
use std::alloc::Global;
use std::sync::Mutex;

/// What a berth has of its own beside its ends: the components that have one, and its list of the plan.
fn own_lists(
    alloc: Global,
    program: &Program,
    c: ComId,
    plan: &[Event],
) -> Option<(Vec<ComId>, Items<Event>)>
    requires few { length program.now.components ≤ COMPONENTS }
    ensures peers { IfSome result (λ r. r.0.items ≡ berthed program.now) }
    ensures list { IfSome result (λ r. r.1 ≡ list_of c plan.now) }
{
    let peers = berthed(alloc, program).ok()?;
    let events = list_of(alloc, c, plan).ok()?;
    Some((peers, events))
}

/// One component in a berth of its own, behind its lock, with its list of the plan; None for want of memory.
fn moor_one<D: Disk + Drop, M: Mark, N: Scene>(
    alloc: Global,
    program: &Program,
    fingerprint: &[u8; 32],
    place: usize,
    component: Component<TornDisk<D>>,
    ins: Vec<LaneIn<M>>,
    outs: Vec<LaneOut<M>>,
    plan: &[Event],
    policy: &Policy,
) -> Option<Locked<D, M, N>>
    requires program { program.now ≡ N.program }
    requires print { fingerprint.now ≡ N.fingerprint }
    requires few { length program.now.components ≤ COMPONENTS }
    requires begins { BeginsBerth N.program N.fingerprint N.plan N.lane N.began M.honest place component (berthed N.program) ins.items outs.items (list_of (com_of component) plan.now) }
{
    let (peers, events) = own_lists(alloc, program, component.com(), plan)?;
    Some(Mutex::new(Berth::new(
        alloc,
        place,
        *fingerprint,
        component,
        peers,
        ins,
        outs,
        events,
        *policy,
    )))
}

/// Each component with its ends and its list in a berth of its own.
pub(crate) fn moor<D: Disk + Drop, M: Mark, N: Scene>(
    alloc: Global,
    program: &Program,
    fingerprint: &[u8; 32],
    components: Items<Component<TornDisk<D>>>,
    outs: Items<Items<LaneOut<M>>>,
    ins: Items<Items<LaneIn<M>>>,
    plan: &[Event],
    policy: &Policy,
) -> Option<Vec<Locked<D, M, N>>>
    requires program { program.now ≡ N.program }
    requires print { fingerprint.now ≡ N.fingerprint }
    requires few { length program.now.components ≤ COMPONENTS }
    requires may { MayMoor N.program N.fingerprint N.plan N.lane N.began M.honest components outs ins plan.now }
    ensures { IfSome result (λ berths. length berths.items ≡ length components) }
{
    let mut components = components;
    let mut outs = outs;
    let mut ins = ins;
    let mut berths = Vec::new(alloc);
    while let Some(o) = outs.pop() {
        let Some(i) = ins.pop() else {
            return None;
        };
        let Some(component) = components.pop() else {
            return None;
        };
        let berth = moor_one(
            alloc,
            program,
            fingerprint,
            components.len(),
            component,
            i.into_vec(),
            o.into_vec(),
            plan,
            policy,
        )?;
        berths.push(berth).ok()?;
    }
    berths.reverse();
    Some(berths)
}
