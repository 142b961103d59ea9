ghost use Rattle.std.specs.Prelude.{◌≡◌, ◌<◌, ◌≤◌, ◌+◌, true, cond};
ghost use Rattle.ic_live.specs.Turned.{comes_to, turns_due, HaveTurned};

use ic_turn::Progress;

fn one_if(holds: bool) -> u64
    ensures { result ≡ cond holds 1 0 }
{
    if holds { 1 } else { 0 }
}

/// How often a worker comes to a place of so many in its turns.
fn comes_to(count: u64, place: u64, worker: u8, turns: u32) -> u64
    requires { 0 < count }
    ensures comes { result ≡ comes_to count place worker turns }
    ensures most { result ≤ turns }
{
    let mut comes = 0;
    for turn in 0..turns {
        comes += one_if((u64::from(worker) + u64::from(turn)) % count == place);
    }
    comes
}

/// How often all workers come to it.
fn turns_due(count: u64, place: u64, workers: u8, turns: u32) -> u64
    requires { 0 < count }
    ensures { result ≡ turns_due count place turns workers }
{
    let mut due = 0;
    for worker in 0..workers {
        due += comes_to(count, place, worker, turns);
    }
    due
}

/// Whether each berth made the turns that the workers have for it. What a lock gives back is known by its type alone, so this is counted.
pub(crate) fn have_turned(progresses: &[Progress], workers: u8, turns: u32) -> bool
    ensures { result ≡ true → HaveTurned workers turns progresses.now }
{
    let count = progresses.len() as u64;
    for at in 0..progresses.len() {
        if progresses[at].turns() != turns_due(count, at as u64, workers, turns) {
            return false;
        }
    }
    true
}
