ghost use Rattle.std.specs.Prelude.{◌≡◌, All, IfSome, IfNone, IfOk, IfErr, None};
ghost use Rattle.def_log.specs.Spelling.{Fits};
ghost use Rattle.def_step.specs.Replay.{last_image, behind_checkpoint};
ghost use Rattle.ic_ckpt.specs.Views.{seen};
ghost use Rattle.ic_replay.specs.Starting.{IsCheckpoint, StartsAt, FailsToStart};

use crate::quiet::behind;
use crate::refusals::ReplayRefused;
use ic_base::{Bytes, ComId, Program, Record};
use ic_ckpt::{ImageRefused, State, read_image};
use ic_gate::EncodedRecords;
use std::alloc::{AllocError, Global};

/// The number of the last checkpoint among records, and its image.
fn last_checkpoint(
    alloc: Global,
    records: &EncodedRecords,
) -> Result<Option<(usize, Bytes)>, AllocError>
    requires { All Fits records.now }
    ensures some { IfOk result (λ found. IfSome found (λ last. IsCheckpoint records.now last.0 last.1)) }
    ensures none { IfOk result (λ found. IfNone found ((last_image records.now ≡ None) × (behind_checkpoint records.now ≡ records.now))) }
{
    let behind = records.count_behind();
    if behind == records.len() {
        return Ok(None);
    }
    let i = records.len() - 1 - behind;
    match records.record(alloc, i)? {
        Record::Checkpoint { image } => Ok(Some((i, image))),
        _ => unreachable!(),
    }
}

/// The state from which a recovery plays on, and the number of the first record that it plays: behind the last checkpoint
/// with the state of its image, or all with the first state.
pub fn start(
    alloc: Global,
    program: &Program,
    com: ComId,
    records: &EncodedRecords,
) -> Result<(usize, State), ReplayRefused>
    requires { All Fits records.now }
    ensures started { IfOk result (λ start. StartsAt program.now «com» records.now start.0 (seen start.1)) }
    ensures refused { IfErr result (FailsToStart program.now «com» records.now) }
{
    match last_checkpoint(alloc, records)? {
        None => Ok((0, State::first(alloc, program, com)?)),
        Some((i, image)) => match read_image(alloc, program, com, image.as_slice()) {
            Ok(state) => Ok((behind(records, i), state)),
            Err(ImageRefused::BadAt(_)) => Err(ReplayRefused::Misfit(i)),
            Err(ImageRefused::Memory) => Err(ReplayRefused::Memory),
        },
    }
}
