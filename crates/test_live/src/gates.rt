use crate::chain::{Size, run};
use ic_base::ComId;
use ic_live::Gate;
use std::alloc::Global;
use std::sync::Wait;
use std::sync::atomic::{AtomicU64, Ordering};
use std::test::Fail;
use std::thread;
use std::thread::Threads;

/// For how many turns of its loop a worker waits for another.
const MOST: u64 = 100_000_000;

/// Keeps the first turn of component 0 inside its lock until one of component 1 has entered.
#[derive(Drop)]
struct Meeting {
    begun: AtomicU64,
    entered: AtomicU64,
    missed: AtomicU64,
}

impl Meeting {
    fn new() -> Meeting {
        Meeting {
            begun: AtomicU64::new(0),
            entered: AtomicU64::new(0),
            missed: AtomicU64::new(0),
        }
    }
}

impl Gate for Meeting {
    fn enter(&self, com: ComId) {
        if com.0 == 1 {
            self.entered.store(1, Ordering::SeqCst);
        }
        if com.0 != 0 || self.begun.swap(1, Ordering::SeqCst) != 0 {
            return;
        }
        for turn in 0..MOST {
            if self.entered.load(Ordering::SeqCst) != 0 {
                return;
            }
            if turn % 64 == 0 {
                thread::yield_now();
            }
        }
        self.missed.store(1, Ordering::SeqCst);
    }
}

/// Counts the calls for each component.
#[derive(Drop)]
struct Counting {
    counts: [AtomicU64; 3],
}

impl Gate for Counting {
    fn enter(&self, com: ComId) {
        if let Some(count) = self.counts.get(usize::from(com.0)) {
            count.fetch_add(1, Ordering::SeqCst);
        }
    }
}

#[test]
fn two_workers_meet(rt: HostRuntime) -> Result<(), Fail> {
    let gate = Meeting::new();
    let size = Size {
        workers: 2,
        lane: 4,
        turns: 100,
    };
    let _ = run(&rt, rt.alloc(), &gate, size)?;
    assert_eq!(rt; gate.missed.load(Ordering::SeqCst), 0);
    Ok(())
}

fn counted<R: Threads + Wait + Sync>(rt: &R, alloc: Global, workers: u8) -> Result<[u64; 3], Fail> {
    let gate = Counting {
        counts: [AtomicU64::new(0), AtomicU64::new(0), AtomicU64::new(0)],
    };
    let size = Size {
        workers,
        lane: 1,
        turns: 15_000,
    };
    let _ = run(rt, alloc, &gate, size)?;
    Ok([
        gate.counts[0].load(Ordering::SeqCst),
        gate.counts[1].load(Ordering::SeqCst),
        gate.counts[2].load(Ordering::SeqCst),
    ])
}

#[test]
fn each_turn_calls_the_gate(rt: HostRuntime) -> Result<(), Fail> {
    assert_eq!(rt; counted(&rt, rt.alloc(), 1)?, [5_000, 5_000, 5_000]);
    assert_eq!(rt; counted(&rt, rt.alloc(), 2)?, [10_000, 10_000, 10_000]);
    assert_eq!(rt; counted(&rt, rt.alloc(), 8)?, [40_000, 40_000, 40_000]);
    Ok(())
}
