ghost use Rattle.std.specs.Prelude.{◌≡◌, IfOk};
ghost use Rattle.def_log.specs.Log.{records_in};

use ic_base::{Items, Record, Records};
use std::alloc::{AllocError, Global};

/// The items of a slice, in a list of their own.
fn copied<T: Copy>(alloc: Global, items: &[T]) -> Result<Items<T>, AllocError>
    ensures { IfOk result (λ copy. copy ≡ items.now) }
{
    Ok(Items::from_vec(Vec::from_slice(alloc, items)?))
}

/// An equal record.
pub fn copied_record(alloc: Global, stored: &Record) -> Result<Record, AllocError>
    ensures { IfOk result (λ copy. copy ≡ stored.now) }
{
    Ok(match stored {
        Record::Take { from, k, stamp } => Record::Take {
            from: *from,
            k: *k,
            stamp: *stamp,
        },
        Record::TakeWhole {
            from,
            k,
            stamp,
            handler,
            args,
        } => Record::TakeWhole {
            from: *from,
            k: *k,
            stamp: *stamp,
            handler: *handler,
            args: *args,
        },
        Record::Input {
            stamp,
            handler,
            args,
        } => Record::Input {
            stamp: *stamp,
            handler: *handler,
            args: *args,
        },
        Record::Value {
            n,
            place,
            session,
            value,
        } => Record::Value {
            n: *n,
            place: *place,
            session: *session,
            value: *value,
        },
        Record::Outcome { stamp, n, abort } => Record::Outcome {
            stamp: *stamp,
            n: *n,
            abort: *abort,
        },
        Record::Released { to, k } => Record::Released { to: *to, k: *k },
        Record::Shown { m } => Record::Shown { m: *m },
        Record::Checkpoint { image } => Record::Checkpoint {
            image: copied(alloc, image.as_slice())?,
        },
        Record::Epoch { epoch } => Record::Epoch { epoch: *epoch },
        Record::Decided {
            stamp,
            c,
            n,
            writes,
        } => Record::Decided {
            stamp: *stamp,
            c: *c,
            n: *n,
            writes: copied(alloc, writes.as_slice())?,
        },
    })
}

/// Equal records, without their places.
pub fn copied_records(alloc: Global, placed: &[(u64, Record)]) -> Result<Records, AllocError>
    ensures { IfOk result (λ copies. copies ≡ records_in placed.now) }
{
    let mut copies = Items::new(alloc);
    for (_, stored) in placed {
        copies.push(copied_record(alloc, stored)?)?;
    }
    Ok(copies)
}
