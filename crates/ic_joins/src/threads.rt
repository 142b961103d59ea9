ghost use Rattle.std.specs.Prelude.{◌≡◌, ◌≤◌, length, IfOk, IfErr};
ghost use Rattle.std.specs.List.{AllByRecursion};
ghost use Rattle.ic_base.specs.declared.limits.TheConstants.{COMPONENTS};
ghost use Rattle.def_facts.specs.Flat.{HasFlatParts};
ghost use Rattle.def_facts.specs.Playable.{IsPlayable};
ghost use Rattle.ic_live.specs.Berthed.{list_of};
ghost use Rattle.ic_live.specs.Ended.{AreReturned, HaveLeft};
ghost use Rattle.ic_live.specs.Faults.{HaveFailed};
ghost use Rattle.ic_live.specs.Turned.{HaveTurned};
ghost use Rattle.ic_joins.specs.Threads.{JoinsTold, FailsToRun, faults_on};
ghost use Rattle.ic_world.specs.Opening.{disks_in};
ghost use Rattle.law_run.specs.ProgramBytes.{HasBytes};
ghost use Rattle.law_syntax.specs.Events.{IsEvent};

use crate::berths::berths_of;
use ic_base::{Event, Policy, Program};
use ic_disk::{Disk, TornDisk};
use ic_live::{Gate, LiveRefused, Returned, run_live};
use ic_world::{StartRefused, World};
use std::alloc::Global;
use std::sync::Wait;
use std::thread::Threads;

/// Why the threads of a run over these disks came to nothing; `X` is the disk of a component.
#[derive(Drop)]
pub enum ThreadsRefused<D, X: Disk> {
    /// No world starts over the disks.
    Start(StartRefused<D>),
    /// A component was refused, or memory was wanting.
    Run(LiveRefused<X>),
    /// Want of memory before a thread was started.
    Memory,
}

/// Starts the components of a program over blank disks, one for each that has one, and runs them in threads, each with its list of the plan.
/// It may wait for locks.
pub fn run_threads<D: Disk + Drop + Send, G: Gate + Sync, R: Threads + Wait + Sync>(
    rt: &R,
    alloc: Global,
    program: &Program,
    fingerprint: &[u8; 32],
    disks: Vec<D>,
    plan: &[Event],
    policy: &Policy,
    gate: &G,
) -> Result<Returned<TornDisk<D>>, ThreadsRefused<D, TornDisk<D>>>
    requires few { length program.now.components ≤ COMPONENTS }
    requires playable { IsPlayable program.now }
    requires flat { HasFlatParts program.now }
    requires bytes { HasBytes program.now }
    requires events { AllByRecursion (IsEvent program.now) plan.now }
    requires disks { length disks.items ≡ disks_in program.now.components }
    requires lane { 1 ≤ policy.now.lane }
    ensures each { IfOk result (λ r. AreReturned program.now fingerprint.now r.components r.progresses) }
    ensures turned { IfOk result (λ r. HaveTurned policy.now.workers policy.now.turns r.progresses) }
    ensures left { IfOk result (λ r. HaveLeft (λ c. list_of c plan.now) r.components r.progresses) }
    ensures since { IfOk result (λ r. HaveFailed (faults_on D.Disk disks.items) r.components) }
    ensures joined { IfOk result (λ r. JoinsTold D.Disk program.now fingerprint.now plan.now disks.items r.components r.progresses) }
    ensures refused { IfErr result (FailsToRun D.Disk program.now fingerprint.now disks.items) }
{
    let world = match World::start(alloc, program, *fingerprint, disks) {
        Ok(world) => world,
        Err(refused) => return Err(ThreadsRefused::Start(refused)),
    };
    let Ok(components) = berths_of(alloc, world) else {
        return Err(ThreadsRefused::Memory);
    };
    match run_live(
        rt,
        alloc,
        program,
        fingerprint,
        components,
        plan,
        policy,
        gate,
    ) {
        Ok(returned) => Ok(returned),
        Err(refused) => Err(ThreadsRefused::Run(refused)),
    }
}
