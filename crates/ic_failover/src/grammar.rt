ghost use Rattle.std.specs.Prelude.{◌↔◌, IsTrue, All, OnOk};
ghost use Rattle.std.specs.List.{AllByRecursion};
ghost use Rattle.def_log.specs.Spelling.{Fits, IsCom, IsCount};
ghost use Rattle.ic_wire.specs.Placed.{IsCounted, IsCountedCause};

use ic_base::limits::{COMPONENTS, GREATEST_NUMBER, REQUESTS};
use ic_base::{AbortCause, ComId, Items, Record};
use ic_wire::record_bytes;
use std::alloc::{AllocError, Global};

/// The greatest number of bytes of an image.
const IMAGE_BYTES: usize = 4_294_967_295;

fn is_com(c: ComId) -> bool
    ensures { IsTrue result ↔ IsCom c }
{
    usize::from(c.0) < COMPONENTS
}

fn is_count(n: u64) -> bool
    ensures { IsTrue result ↔ IsCount n }
{
    1 <= n && n <= GREATEST_NUMBER
}

/// Whether the numbers of an abort's cause are within their limits.
fn is_counted_cause(abort: &Option<AbortCause>) -> bool
    ensures { IsTrue result ↔ IsCountedCause abort.now }
{
    match abort {
        None | Some(AbortCause::Need(_)) => true,
        Some(AbortCause::Held(holder, n)) => is_com(*holder) && is_count(*n),
        Some(AbortCause::Epoch(old, present)) => {
            *old <= GREATEST_NUMBER && *present <= GREATEST_NUMBER
        }
    }
}

/// Whether the numbers of a record are within their limits.
fn is_counted(stored: &Record) -> bool
    ensures { IsTrue result ↔ IsCounted stored.now }
{
    match stored {
        Record::Take { from, k, stamp } => {
            is_com(*from) && is_count(*k) && *stamp <= GREATEST_NUMBER
        }
        Record::TakeWhole { from, k, stamp, .. } => {
            is_com(*from) && is_count(*k) && *stamp <= GREATEST_NUMBER
        }
        Record::Input { stamp, .. } => *stamp <= GREATEST_NUMBER,
        Record::Value { n, session, .. } => {
            is_count(*n) && session.epoch <= GREATEST_NUMBER && session.counter <= GREATEST_NUMBER
        }
        Record::Outcome { stamp, n, abort } => {
            *stamp <= GREATEST_NUMBER && is_count(*n) && is_counted_cause(abort)
        }
        Record::Released { to, k } => is_com(*to) && is_count(*k),
        Record::Shown { m } => is_count(*m),
        Record::Checkpoint { image } => image.len() <= IMAGE_BYTES,
        Record::Epoch { epoch } => *epoch <= GREATEST_NUMBER,
        Record::Decided {
            stamp,
            c,
            n,
            writes,
        } => { *stamp <= GREATEST_NUMBER && is_com(*c) && is_count(*n) && writes.len() <= REQUESTS }
    }
}

/// Whether the numbers of all these records are within their limits.
pub(crate) fn are_counted(records: &[Record]) -> bool
    ensures { IsTrue result ↔ AllByRecursion IsCounted records.now }
{
    records.iter().all(|stored| is_counted(stored))
}

/// Spells each of these records, as a log does, so that its fields are known to be as a log has them.
pub(crate) fn spell(alloc: Global, records: &[Record]) -> Result<(), AllocError>
    requires { AllByRecursion IsCounted records.now }
    ensures { OnOk result (All Fits records.now) }
{
    for stored in records {
        let mut bytes = Items::new(alloc);
        record_bytes(alloc, stored, &mut bytes)?;
    }
    Ok(())
}
