ghost use Rattle.std.specs.Prelude.{◌≡◌, ◌+◌, ◌<◌, ◌≤◌, [], ◌∷◌, ◌++◌, List, vec_len, length, take, drop, slice_get, unwrap_or, IfOk};
ghost use Rattle.std.specs.Vec.{vec_capacity};
ghost use Rattle.std.specs.Int.{w64, from_be_bytes};
ghost use Rattle.ic_base.specs.declared.limits.TheConstants.{FIRST_GATE, SLOTS};
ghost use Rattle.def_log.specs.Directory.{first_slot, slots_in, first_bad_slot, last_offset};
ghost use Rattle.def_log.specs.Frame.{any_batch};
ghost use Rattle.ic_base.specs.declared.record.Batch.{Batch as Stored};
ghost use Rattle.ic_gate.specs.Slots.{names, unnamed_behind};

use ic_base::Batch;
use ic_base::limits::SLOTS;
use std::alloc::{AllocError, Global};
use std::marker::Model;

/// The offsets in the open slots of a log, with room for all slots.
#[derive(Drop)]
pub struct Directory {
    offsets: Vec<u64>,
    ghost few: { vec_len offsets ≤ SLOTS },
    ghost room: { SLOTS ≤ vec_capacity offsets },
}

impl Model for Directory {
    ghost use Rattle.std.specs.Prelude.{ℕ, List};

    ghost Value = { List ℕ };

    ghost view = { λ s. s.offsets.items };
}

impl Directory {
    /// No open slot, in the memory of all.
    pub fn new(alloc: Global) -> Result<Directory, AllocError>
        ensures { IfOk result (λ directory. directory ≡ []) }
    {
        Ok(Directory {
            offsets: Vec::with_capacity(alloc, SLOTS)?,
        })
    }

    /// How many slots are open.
    pub fn len(&self) -> usize
        ensures count { result ≡ length self.now }
        ensures few { result ≤ SLOTS }
    {
        self.offsets.len()
    }

    /// The offset in the i-th open slot; None exactly past the last.
    pub fn get(&self, i: usize) -> Option<u64>
        ensures { result ≡ slice_get self.now i }
    {
        self.offsets.get(i).copied()
    }

    /// The offsets in the open slots, in order.
    pub fn as_slice(&self) -> &[u64]
        ensures offsets { result.now ≡ self.now }
        ensures few { length result.now ≤ SLOTS }
    {
        self.offsets.as_slice()
    }

    /// The offset in the last open slot.
    pub fn last(&self) -> Option<u64>
        ensures { unwrap_or result FIRST_GATE ≡ last_offset FIRST_GATE self.now }
    {
        self.get(self.len().saturating_sub(1))
    }

    /// Opens one slot more.
    pub fn push(&mut self, offset: u64)
        requires { length self.old < SLOTS }
        ensures { self.new ≡ self.old ++ offset ∷ [] }
    {
        self.offsets.push_reserved(offset);
    }

    /// The place of the first slot that doesn't name one of the batches, which are in order.
    pub fn first_bad(&self, batches: &[Batch]) -> Option<u64>
        ensures { result ≡ first_bad_slot any_batch first_slot self.now batches.now }
    {
        let slots = self.as_slice();
        let mut named = 0;
        for batch in batches {
            named = count_named(slots, named, batch.at);
        }
        first_unnamed(slots, named)
    }
}

/// Whether the slot of this number names a batch whose payload stands here.
pub fn names(slots: &[u64], n: usize, at: u64) -> bool
    ensures { result ≡ names slots.now n at }
{
    match slots.get(n) {
        Some(offset) => at >= 5 && at - 5 == *offset,
        None => false,
    }
}

/// How many slots are named, where so many were before a batch whose payload stands here.
pub fn count_named(slots: &[u64], before: usize, at: u64) -> usize
    requires few { length slots.now ≤ SLOTS }
    requires named { before ≤ length slots.now }
    ensures named { result ≤ length slots.now }
    ensures on { (b : Stored) → b.at ≡ at → (bs : List Stored) →
        unnamed_behind slots.now result bs ≡ unnamed_behind slots.now before (b ∷ bs) }
{
    if names(slots, before, at) {
        before + 1
    } else {
        before
    }
}

/// The place of the first slot that isn't named, behind all batches.
pub fn first_unnamed(slots: &[u64], named: usize) -> Option<u64>
    requires few { length slots.now ≤ SLOTS }
    requires named { named ≤ length slots.now }
    ensures { result ≡ unnamed_behind slots.now named [] }
{
    if named == slots.len() {
        return None;
    }
    Some(slot_place(named))
}

/// Where the slot of this number stands.
pub fn slot_place(i: usize) -> u64
    requires { i ≤ SLOTS }
    ensures { result ≡ Rattle.def_log.specs.Directory.slot_place i }
{
    41 + 9 * i as u64
}

/// The open slots of a log.
pub fn read_directory(alloc: Global, bytes: &[u8]) -> Result<Directory, AllocError>
    requires { FIRST_GATE ≤ length bytes.now }
    ensures { IfOk result (λ directory. directory ≡ slots_in bytes.now) }
{
    let mut directory = Directory::new(alloc)?;
    while directory.len() < SLOTS {
        let place = slot_place(directory.len()) as usize;
        if bytes[place] != 1 {
            return Ok(directory);
        }
        directory.push(offset_at(bytes, place + 1));
    }
    Ok(directory)
}

// The offset that stands here.
fn offset_at(bytes: &[u8], at: usize) -> u64
    requires { at + 8 ≤ length bytes.now }
    ensures { result ≡ from_be_bytes w64 (take 8 (drop at bytes.now)) }
{
    let mut offset = [0; 8];
    offset.copy_from_slice(&bytes[at..at + 8]);
    u64::from_be_bytes(offset)
}
