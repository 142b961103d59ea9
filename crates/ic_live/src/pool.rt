ghost use Rattle.std.specs.Prelude.{◌≡◌, ◌≤◌, ◌<◌, length};
ghost use Rattle.ic_base.specs.declared.limits.TheConstants.{COMPONENTS};

use crate::berth::Berth;
use crate::gate::Gate;
use crate::held::Held;
use crate::scene::Scene;
use ic_base::{Program, Steps};
use ic_disk::{Disk, TornDisk};
use ic_lane::Mark;
use ic_node::Component;
use std::alloc::Global;
use std::marker::Brand;
use std::sync::ledger::{Blank, Ledger};
use std::sync::{Mutex, Wait};
use std::thread;
use std::thread::Threads;

/// A berth behind its own lock.
pub(crate) type Locked<D, M, N> = Mutex<Berth<Component<TornDisk<D>>, M, N>>;

/// The turns of one worker: at turn i it goes to the berth at worker + i, modulo their number. A berth that a refusal ended makes no
/// further turn.
fn make_turns<D: Disk, M: Mark, N: Scene, G: Gate, L: Ledger, R: Wait>(
    rt: &R,
    alloc: Global,
    program: &Program,
    berths: &[Locked<D, M, N>],
    worker: usize,
    turns: u32,
    gate: &G,
    blank: Blank,
)
    requires program { program.now ≡ N.program }
    requires few { length program.now.components ≤ COMPONENTS }
    requires blank { (blank.name ≡ L.name) × (blank.parts ≡ L.parts) × (0 < blank.parts) }
{
    let count = berths.len();
    if count == 0 {
        return;
    }
    let mut steps = Steps::<L>::from_blank(blank);
    for turn in 0..turns {
        let at = worker.wrapping_add(turn as usize) % count;
        let mut guard = berths[at].lock(rt);
        let berth = &mut *guard;
        gate.enter(berth.com());
        if berth.refused().is_none() {
            // The berth keeps the refusal.
            let _ = berth.turn(rt, alloc, program, &mut steps);
        }
    }
}

/// Forces what a berth has buffered, unless a refusal ended it.
fn visit<D: Disk, M: Mark, N: Scene, L: Ledger, R: Wait>(
    rt: &R,
    alloc: Global,
    program: &Program,
    berth: &mut Berth<Component<TornDisk<D>>, M, N>,
    steps: &mut Steps<L>,
)
    requires program { program.now ≡ N.program }
    requires few { length program.now.components ≤ COMPONENTS }
{
    if berth.refused().is_none() {
        // The berth keeps the refusal.
        let _ = berth.flush(rt, alloc, program, steps);
    }
}

/// The visits of the flusher, in the order of worker 0, without the gate.
fn make_visits<D: Disk, M: Mark, N: Scene, L: Ledger, R: Wait>(
    rt: &R,
    alloc: Global,
    program: &Program,
    berths: &[Locked<D, M, N>],
    turns: u32,
    blank: Blank,
)
    requires program { program.now ≡ N.program }
    requires few { length program.now.components ≤ COMPONENTS }
    requires blank { (blank.name ≡ L.name) × (blank.parts ≡ L.parts) × (0 < blank.parts) }
{
    let count = berths.len();
    if count == 0 {
        return;
    }
    let mut steps = Steps::<L>::from_blank(blank);
    for turn in 0..turns {
        let at = turn as usize % count;
        let mut guard = berths[at].lock(rt);
        let berth = &mut *guard;
        visit(rt, alloc, program, berth, &mut steps);
    }
}

/// What the threads of a run share, and what each of them does with it.
pub(crate) trait Work {
    /// What has to hold of it.
    ghost ready: { Self → Type 0 };

    /// The turns of one worker.
    fn work<R: Wait>(&self, rt: &R, worker: u8)
        requires { ready self.now };

    /// The visits of the flusher.
    fn flush<R: Wait>(&self, rt: &R)
        requires { ready self.now };
}

/// The berths of a run, with all that its threads read.
#[derive(Drop)]
pub(crate) struct Berths<'a, X: Held, M: Mark, N: Scene, G: Gate> {
    pub alloc: Global,
    pub program: &'a Program,
    pub berths: &'a [Mutex<Berth<X, M, N>>],
    pub turns: u32,
    pub gate: &'a G,
}

impl<'a, D: Disk, M: Mark, N: Scene, G: Gate> Work for Berths<'a, Component<TornDisk<D>>, M, N, G> {
    ghost ready = { λ s. (s.program.now ≡ N.program) × (length s.program.now.components ≤ COMPONENTS) };

    fn work<R: Wait>(&self, rt: &R, worker: u8) {
        make_turns::<D, M, N, G, Brand, R>(
            rt,
            self.alloc,
            self.program,
            self.berths,
            usize::from(worker),
            self.turns,
            self.gate,
            Blank::new(1),
        );
    }

    fn flush<R: Wait>(&self, rt: &R) {
        make_visits::<D, M, N, Brand, R>(
            rt,
            self.alloc,
            self.program,
            self.berths,
            self.turns,
            Blank::new(1),
        );
    }
}

/// All workers and the flusher, each in a thread of its own. Where a thread can't be started, its turns or visits are made here.
pub(crate) fn run_pool<W: Work + Sync, R: Threads + Wait + Sync>(rt: &R, work: &W, workers: u8)
    requires { W.ready work.now }
{
    thread::scope(
        thread::scope_env(),
        rt,
        |scope|
            requires { W.ready work.now }
        {
            for worker in 0..workers {
                if scope
                    .spawn(
                        move ||
                            requires { W.ready work.now }
                        { work.work(rt, worker) },
                    )
                    .is_err()
                {
                    work.work(rt, worker);
                }
            }
            if scope
                .spawn(
                    move ||
                        requires { W.ready work.now }
                    { work.flush(rt) },
                )
                .is_err()
            {
                work.flush(rt);
            }
        },
    );
}
