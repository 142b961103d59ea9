ghost use Rattle.std.specs.Prelude.{◌≡◌, ◌+◌, ◌<◌, ◌≤◌, true, ℕ, List, length, map, is_ok, IfOk, IfErr, OnOk, Err, Ok};
ghost use Rattle.def_log.specs.Images.{LeavesJust};
ghost use Rattle.def_log.specs.Frame.{fingerprint_in};
ghost use Rattle.def_log.specs.Log.{ends_with_checkpoint};
ghost use Rattle.def_log.specs.Sizes.{span};
ghost use Rattle.def_former.specs.Frame.{former_frame_of, IsFormerForeign};
ghost use Rattle.ic_base.specs.declared.limits.TheConstants.{LOG_BYTES};
ghost use Rattle.ic_disk.specs.Disk.{Keeps, Makes, CrashLeaves};
ghost use Rattle.ic_former.specs.Gates.{AreBelow};
ghost use Rattle.ic_former.specs.Reading.{load_calls, ReadsFormer, RefusesFile, RefusesFormer};
ghost use Rattle.ic_former.specs.Refusals.{IsNotForeign, IsOfFile};

use crate::LoadWhy;
use crate::checkpoints::checkpoint_ends;
use crate::frame::Frame;
use crate::header::check_header;
use crate::reading::read_batches;
use def_former::limits::{FORMER_GATE, FORMER_LOG_BYTES};
use ic_base::Batches;
use ic_disk::Disk;
use std::alloc::Global;

/// The batches of a log of the former format.
#[derive(Drop)]
pub struct FormerLog {
    pub batches: Batches,
    /// Whether the last record of each batch is a checkpoint.
    pub ends: Vec<bool>,
    ghost same: { ends.items ≡ map ends_with_checkpoint batches },
    ghost small: { 40 + span batches < 67108864 },
}

/// What a log of the former format on a disk holds. It syncs, asks for the length and reads the whole file once. Bad tells the place at
/// which the frame is refused, or of the first byte that begins no record.
pub fn read_former<D: Disk>(
    alloc: Global,
    disk: &mut D,
    fingerprint: &[u8; 32],
) -> Result<FormerLog, LoadWhy>
    ensures disk { Keeps D.Disk disk.old disk.new }
    ensures step { IfOk result (λ log. ReadsFormer D.Disk disk.old fingerprint.now log.batches disk.new) }
    // It writes nothing, so a crash leaves nothing more.
    ensures crash { CrashLeaves D.Disk disk.old disk.new (D.may_leave disk.old) }
    ensures calls { Makes D.Disk load_calls (is_ok result) (result ≡ Err LoadWhy.Failed) disk.old disk.new }
    ensures refused { IfErr result (RefusesFormer D.Disk disk.old fingerprint.now disk.new) }
{
    let bytes = read_whole(alloc, disk)?;
    let frame = read_frame(alloc, &bytes, fingerprint)?;
    let ends = checkpoint_ends(alloc, &frame.batches)?;
    Ok(FormerLog {
        batches: frame.batches,
        ends,
    })
}

// All the bytes of a disk that may hold a log.
fn read_whole<D: Disk>(alloc: Global, disk: &mut D) -> Result<Vec<u8>, LoadWhy>
    ensures disk { Keeps D.Disk disk.old disk.new }
    ensures durable { D.keeps disk.old → OnOk result (LeavesJust (D.may_leave disk.new) (D.seen disk.new)) }
    ensures settled { OnOk result (D.settled disk.new ≡ true) }
    ensures bytes { D.tells disk.old → IfOk result (λ bytes. bytes.items ≡ D.seen disk.old) }
    ensures short { IfOk result (λ bytes. length bytes.items ≤ FORMER_LOG_BYTES) }
    ensures seen { D.tells disk.old → OnOk result (D.seen disk.new ≡ D.seen disk.old) }
    ensures crash { CrashLeaves D.Disk disk.old disk.new (D.may_leave disk.old) }
    ensures calls { Makes D.Disk load_calls (is_ok result) (result ≡ Err LoadWhy.Failed) disk.old disk.new }
    ensures refused { IfErr result (RefusesFile D.Disk disk.old disk.new) }
{
    disk.sync()?;
    let length = disk.length()?;
    if length > FORMER_LOG_BYTES {
        return Err(LoadWhy::Bad(FORMER_LOG_BYTES));
    }
    Ok(disk.read_at(alloc, 0, length as usize)?)
}

// The batches of a log's bytes. A foreign fingerprint is told before batches are looked at.
fn read_frame(alloc: Global, bytes: &[u8], fingerprint: &[u8; 32]) -> Result<Frame, LoadWhy>
    requires { length bytes.now ≤ FORMER_LOG_BYTES }
    ensures frame { IfOk result (λ frame. former_frame_of bytes.now ≡ Ok frame.batches) }
    ensures fingerprint { OnOk result (fingerprint_in bytes.now ≡ fingerprint.now) }
    ensures start { IfOk result (λ frame. frame.start ≡ FORMER_GATE) }
    ensures within { IfOk result (λ frame. frame.gate < length bytes.now) }
    ensures below { IfOk result (λ frame. AreBelow LOG_BYTES frame.batches) }
    ensures bad { IfErr result (λ why. (place : ℕ) → why ≡ LoadWhy.Bad place →
        former_frame_of bytes.now ≡ Err place) }
    ensures not_foreign { IfErr result (λ why. (place : ℕ) → why ≡ LoadWhy.Bad place →
        IsNotForeign fingerprint.now bytes.now) }
    ensures foreign { IfErr result (λ why. (kept : List ℕ) → why ≡ LoadWhy.Foreign kept →
        IsFormerForeign fingerprint.now bytes.now kept) }
    ensures why { IfErr result IsOfFile }
{
    check_header(bytes, fingerprint)?;
    read_batches(alloc, FORMER_GATE, &bytes[FORMER_GATE as usize..])
}
