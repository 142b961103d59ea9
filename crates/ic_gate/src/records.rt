ghost use Rattle.std.specs.Prelude.{◌≡◌, ◌++◌, ◌+◌, ◌≤◌, List, length, is_some};
ghost use Rattle.ic_base.specs.declared.record.Record.{Record as Stored};
ghost use Rattle.def_step.specs.Replay.{behind_checkpoint, image_in};
ghost use Rattle.ic_gate.specs.Encoding.{kind_of};

use ic_base::Record;

/// Whether a record is a checkpoint.
pub(crate) fn is_checkpoint(stored: &Record) -> bool
    ensures { result ≡ is_some (image_in stored.now) }
{
    match stored {
        Record::Checkpoint { .. } => true,
        _ => false,
    }
}

/// The kind of a record.
pub(crate) fn kind_of(stored: &Record) -> u8
    ensures { result ≡ kind_of stored.now }
{
    match stored {
        Record::Take { .. } => 1,
        Record::TakeWhole { .. } => 2,
        Record::Input { .. } => 3,
        Record::Value { .. } => 4,
        Record::Outcome { abort, .. } => match abort {
            None => 5,
            Some(_) => 11,
        },
        Record::Released { .. } => 6,
        Record::Shown { .. } => 7,
        Record::Checkpoint { .. } => 8,
        Record::Epoch { .. } => 9,
        Record::Decided { .. } => 10,
    }
}

/// How many records there are up to the last checkpoint, it included, where these are the last of so many, and there are so many up to
/// the last checkpoint of those before them.
pub(crate) fn passed_over(adds: &[Record], all: usize, passed: usize) -> usize
    requires within { length adds.now ≤ all }
    ensures { (before : List Stored) → length before + length adds.now ≡ all → passed + length (behind_checkpoint before) ≡ length before → result + length (behind_checkpoint (before ++ adds.now)) ≡ all }
{
    let before = all - adds.len();
    let mut last = passed;
    for i in 0..adds.len() {
        if is_checkpoint(&adds[i]) {
            last = before + i + 1;
        }
    }
    last
}
