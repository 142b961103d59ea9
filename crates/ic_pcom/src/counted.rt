ghost use Rattle.std.specs.Prelude.{◌≡◌, true};
ghost use Rattle.std.specs.List.{AllByRecursion};
ghost use Rattle.def_log.specs.Spelling.{IsCom, IsCount};
ghost use Rattle.ic_wire.specs.Placed.{IsCounted, IsCountedCause};

use ic_base::limits::{COMPONENTS, GREATEST_NUMBER};
use ic_base::{AbortCause, ComId, Record};

/// Whether a component is one that a scenario may have.
fn is_com(com: ComId) -> bool
    ensures { result ≡ true → IsCom «com» }
{
    usize::from(com.0) < COMPONENTS
}

/// Whether a number counts from 1 up to its limit.
fn is_count(n: u64) -> bool
    ensures { result ≡ true → IsCount n }
{
    1 <= n && n <= GREATEST_NUMBER
}

/// Whether no number of a cause passes its limit.
fn is_cause_counted(abort: Option<AbortCause>) -> bool
    ensures { result ≡ true → IsCountedCause abort }
{
    match abort {
        None => true,
        Some(AbortCause::Need(_)) => true,
        Some(AbortCause::Held(holder, n)) => is_com(holder) && is_count(n),
        Some(AbortCause::Epoch(old, present)) => {
            old <= GREATEST_NUMBER && present <= GREATEST_NUMBER
        }
    }
}

/// Whether a record of a persistent component has no number that passes its limit.
fn is_counted(stored: &Record) -> bool
    ensures { result ≡ true → IsCounted stored.now }
{
    match stored {
        Record::Take { from, k, stamp } => {
            is_com(*from) && is_count(*k) && *stamp <= GREATEST_NUMBER
        }
        Record::TakeWhole { from, k, stamp, .. } => {
            is_com(*from) && is_count(*k) && *stamp <= GREATEST_NUMBER
        }
        Record::Input { stamp, .. } => *stamp <= GREATEST_NUMBER,
        Record::Value { n, session, .. } => {
            is_count(*n) && session.epoch <= GREATEST_NUMBER && session.counter <= GREATEST_NUMBER
        }
        Record::Outcome { stamp, n, abort } => {
            *stamp <= GREATEST_NUMBER && is_count(*n) && is_cause_counted(*abort)
        }
        Record::Released { to, k } => is_com(*to) && is_count(*k),
        Record::Shown { m } => is_count(*m),
        Record::Checkpoint { image } => image.len() < 0x1_0000_0000,
        Record::Epoch { .. } | Record::Decided { .. } => false,
    }
}

/// Whether no number of these records passes its limit.
pub(crate) fn are_counted(records: &[Record]) -> bool
    ensures { result ≡ true → AllByRecursion IsCounted records.now }
{
    for stored in records {
        if !is_counted(stored) {
            return false;
        }
    }
    true
}
