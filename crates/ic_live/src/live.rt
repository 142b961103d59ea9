ghost use Rattle.std.specs.Prelude.{◌≡◌, ◌≤◌, length, IfOk, IfErr};
ghost use Rattle.ic_base.specs.declared.refusals.WorldRefused.TheVariants.{Memory};
ghost use Rattle.ic_base.specs.declared.limits.TheConstants.{COMPONENTS};
ghost use Rattle.def_facts.specs.Flat.{HasFlatParts};
ghost use Rattle.def_facts.specs.Playable.{IsPlayable};
ghost use Rattle.law_run.specs.Ends.{AreEvents};
ghost use Rattle.law_run.specs.ProgramBytes.{HasBytes};
ghost use Rattle.ic_live.specs.Berthed.{berthed, list_of};
ghost use Rattle.ic_live.specs.Ended.{AreStarted, AllTell, MayMoor, AreReturned, HaveLeft, AreJoined, IsRefused};
ghost use Rattle.ic_live.specs.Faults.{faults_at, HaveFailed};
ghost use Rattle.ic_live.specs.Turned.{HaveTurned};

use crate::closing::close_all;
use crate::ended::{Ended, lowest, take_out};
use crate::gate::Gate;
use crate::making::make_all;
use crate::mooring::moor;
use crate::pool::{Berths, Locked, run_pool};
use crate::scene::Scene;
use crate::turned::have_turned;
use ic_base::{Event, Items, Policy, Program, WorldRefused};
use ic_disk::{Disk, TornDisk};
use ic_lane::{LaneIn, LaneOut, Mark};
use ic_node::Component;
use ic_turn::Progress;
use std::alloc::Global;
use std::marker::Brand;
use std::sync::Wait;
use std::thread::Threads;

/// What a live run came to: of each Pcom and Tcom, in order, its component, and how far that has come with its list.
#[derive(Drop)]
pub struct Returned<D: Disk> {
    pub components: Items<Component<D>>,
    pub progresses: Items<Progress>,
}

/// Why a live run is refused: for want of memory, with nothing counted, or as the lowest of the berths that a refusal ended, with what that
/// had received and put out.
#[derive(Drop)]
pub struct LiveRefused<D: Disk> {
    /// The components that came out of their berths; all of them, unless memory was wanted.
    pub components: Items<Component<D>>,
    pub why: WorldRefused,
    pub received: u64,
    pub packets: u64,
}

fn out_of_memory<D: Disk>(alloc: Global) -> LiveRefused<D>
    ensures { (result.why ≡ Memory) × (result.received ≡ 0) × (result.packets ≡ 0) }
{
    LiveRefused {
        components: Items::new(alloc),
        why: WorldRefused::Memory,
        received: 0,
        packets: 0,
    }
}

/// What the berths came to, and all their lanes closed.
fn hand_over<D: Disk + Drop, M: Mark, N: Scene>(
    alloc: Global,
    berths: Vec<Locked<D, M, N>>,
    policy: &Policy,
) -> Result<Returned<TornDisk<D>>, LiveRefused<TornDisk<D>>>
    requires count { length berths.items ≡ length (berthed N.program) }
    requires bytes { HasBytes N.program }
    ensures each { IfOk result (λ r. AreReturned N.program N.fingerprint r.components r.progresses) }
    ensures turned { IfOk result (λ r. HaveTurned policy.now.workers policy.now.turns r.progresses) }
    ensures left { IfOk result (λ r. HaveLeft N.plan r.components r.progresses) }
    ensures since { IfOk result (λ r. HaveFailed N.began r.components) }
    ensures joined { IfOk result (λ r. M.honest → AreJoined N.program N.fingerprint N.plan r.components r.progresses) }
    ensures refused { IfErr result (λ r. IsRefused D.Disk N.began M.honest N.program N.fingerprint r.components r.received r.packets r.why) }
{
    let Some(ended) = take_out(alloc, berths) else {
        return Err(out_of_memory(alloc));
    };
    let Ended {
        components,
        progresses,
        refusals,
        ins,
        outs,
    } = ended;
    let Some((at, why)) = lowest(refusals.as_slice()) else {
        if !have_turned(progresses.as_slice(), policy.workers, policy.turns) {
            return Err(out_of_memory(alloc));
        }
        close_all(alloc, outs, ins);
        return Ok(Returned {
            components,
            progresses,
        });
    };
    let all = progresses.as_slice();
    let progress = &all[at];
    let (received, packets) = (progress.received(), progress.packets());
    Err(LiveRefused {
        components,
        why,
        received,
        packets,
    })
}

/// A live run over these lanes, under their scene.
fn staged<
    D: Disk + Drop + Send,
    M: Mark + Send + Sync,
    N: Scene + Send + Sync,
    G: Gate + Sync,
    R: Threads + Wait + Sync,
>(
    rt: &R,
    alloc: Global,
    program: &Program,
    fingerprint: &[u8; 32],
    components: Items<Component<TornDisk<D>>>,
    outs: Items<Items<LaneOut<M>>>,
    ins: Items<Items<LaneIn<M>>>,
    plan: &[Event],
    policy: &Policy,
    gate: &G,
) -> Result<Returned<TornDisk<D>>, LiveRefused<TornDisk<D>>>
    requires program { program.now ≡ N.program }
    requires print { fingerprint.now ≡ N.fingerprint }
    requires few { length program.now.components ≤ COMPONENTS }
    requires may { MayMoor N.program N.fingerprint N.plan N.lane N.began M.honest components outs ins plan.now }
    ensures each { IfOk result (λ r. AreReturned N.program N.fingerprint r.components r.progresses) }
    ensures turned { IfOk result (λ r. HaveTurned policy.now.workers policy.now.turns r.progresses) }
    ensures left { IfOk result (λ r. HaveLeft N.plan r.components r.progresses) }
    ensures since { IfOk result (λ r. HaveFailed N.began r.components) }
    ensures joined { IfOk result (λ r. M.honest → AreJoined N.program N.fingerprint N.plan r.components r.progresses) }
    ensures refused { IfErr result (λ r. IsRefused D.Disk N.began M.honest N.program N.fingerprint r.components r.received r.packets r.why) }
{
    let Some(berths) = moor::<D, M, N>(
        alloc,
        program,
        fingerprint,
        components,
        outs,
        ins,
        plan,
        policy,
    ) else {
        return Err(out_of_memory(alloc));
    };
    run_pool(
        rt,
        &Berths {
            alloc,
            program,
            berths: berths.as_slice(),
            turns: policy.turns,
            gate,
        },
        policy.workers,
    );
    hand_over(alloc, berths, policy)
}

/// A live run whose lanes carry this mark.
fn marked<D: Disk + Drop + Send, M: Mark + Send + Sync, G: Gate + Sync, R: Threads + Wait + Sync>(
    rt: &R,
    alloc: Global,
    program: &Program,
    fingerprint: &[u8; 32],
    components: Items<Component<TornDisk<D>>>,
    plan: &[Event],
    policy: &Policy,
    gate: &G,
) -> Result<Returned<TornDisk<D>>, LiveRefused<TornDisk<D>>>
    requires few { length program.now.components ≤ COMPONENTS }
    requires playable { IsPlayable program.now }
    requires flat { HasFlatParts program.now }
    requires bytes { HasBytes program.now }
    requires started { AreStarted program.now fingerprint.now components }
    requires told { M.honest → AllTell components }
    requires plan { AreEvents program.now plan.now }
    requires lane { 1 ≤ policy.now.lane }
    ensures each { IfOk result (λ r. AreReturned program.now fingerprint.now r.components r.progresses) }
    ensures turned { IfOk result (λ r. HaveTurned policy.now.workers policy.now.turns r.progresses) }
    ensures left { IfOk result (λ r. HaveLeft (λ c. list_of c plan.now) r.components r.progresses) }
    ensures since { IfOk result (λ r. HaveFailed (faults_at components) r.components) }
    ensures joined { IfOk result (λ r. M.honest → AreJoined program.now fingerprint.now (λ c. list_of c plan.now) r.components r.progresses) }
    ensures refused { IfErr result (λ r. IsRefused D.Disk (faults_at components) M.honest program.now fingerprint.now r.components r.received r.packets r.why) }
{
    let Some((outs, ins)) = make_all::<M>(alloc, components.len(), usize::from(policy.lane)) else {
        return Err(out_of_memory(alloc));
    };
    staged::<D, M, Brand, G, R>(
        rt,
        alloc,
        program,
        fingerprint,
        components,
        outs,
        ins,
        plan,
        policy,
        gate,
    )
}

/// Runs the Pcoms and Tcoms of a program side by side, each with its list of the plan, by so many workers and a flusher as the policy
/// says, and closes their lanes behind the joins (docs/RULES.md, "Live runs"). It may wait for locks.
pub fn run_live<D: Disk + Drop + Send, G: Gate + Sync, R: Threads + Wait + Sync>(
    rt: &R,
    alloc: Global,
    program: &Program,
    fingerprint: &[u8; 32],
    components: Items<Component<TornDisk<D>>>,
    plan: &[Event],
    policy: &Policy,
    gate: &G,
) -> Result<Returned<TornDisk<D>>, LiveRefused<TornDisk<D>>>
    requires few { length program.now.components ≤ COMPONENTS }
    requires playable { IsPlayable program.now }
    requires flat { HasFlatParts program.now }
    requires bytes { HasBytes program.now }
    requires started { AreStarted program.now fingerprint.now components }
    requires plan { AreEvents program.now plan.now }
    requires lane { 1 ≤ policy.now.lane }
    ensures each { IfOk result (λ r. AreReturned program.now fingerprint.now r.components r.progresses) }
    ensures turned { IfOk result (λ r. HaveTurned policy.now.workers policy.now.turns r.progresses) }
    ensures left { IfOk result (λ r. HaveLeft (λ c. list_of c plan.now) r.components r.progresses) }
    ensures since { IfOk result (λ r. HaveFailed (faults_at components) r.components) }
    ensures joined { IfOk result (λ r. AllTell components → AreJoined program.now fingerprint.now (λ c. list_of c plan.now) r.components r.progresses) }
    ensures refused { IfErr result (λ r. IsRefused D.Disk (faults_at components) (AllTell components) program.now fingerprint.now r.components r.received r.packets r.why) }
{
    marked::<D, Brand, G, R>(
        rt,
        alloc,
        program,
        fingerprint,
        components,
        plan,
        policy,
        gate,
    )
}
