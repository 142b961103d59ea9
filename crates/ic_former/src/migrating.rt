ghost use Rattle.std.specs.Prelude.{◌≡◌, ◌≤◌, ◌<◌, ◌^◌, ◌+◌, ◌*◌, ◌++◌, ◌∷◌, length, flat_map, vec_len, IfOk, OnOk};
ghost use Rattle.def_log.specs.Directory.{open_slot};
ghost use Rattle.def_log.specs.Frame.{batch, header};
ghost use Rattle.def_former.specs.Migrated.{payloads_of, slots_for, migrated};
ghost use Rattle.ic_former.specs.Slots.{with_slot};

use crate::FormerLog;
use ic_base::limits::{FIRST_GATE, SLOTS};
use std::alloc::{AllocError, Global};

/// The letters at the front of each log.
const LETTERS: [u8; 8] = *b"ICLOG002";

// Adds a slot with the gate of a batch, if that ends with a checkpoint and a slot is left.
fn add_slot(slots: &mut Vec<u64>, ends: bool, gate: u64) -> Result<(), AllocError>
    ensures { OnOk result (slots.new.items ≡ with_slot ends gate slots.old.items) }
{
    if ends && slots.len() < SLOTS {
        slots.push(gate)?;
    }
    Ok(())
}

// The offsets of the gates of the first batches that end with a checkpoint, in a log of these batches.
fn slots_of(alloc: Global, log: &FormerLog) -> Result<Vec<u64>, AllocError>
    ensures { IfOk result (λ slots. slots.items ≡ slots_for (payloads_of log.now.batches)) }
{
    let batches = log.batches.as_slice();
    let ends = log.ends.as_slice();
    let mut slots = Vec::new(alloc);
    let mut gate = FIRST_GATE;
    for i in 0..batches.len() {
        add_slot(&mut slots, ends[i], gate)?;
        gate += 5 + batches[i].payload.len() as u64;
    }
    Ok(slots)
}

// Adds open slots.
fn push_slots(bytes: &mut Vec<u8>, slots: &[u64]) -> Result<(), AllocError>
    ensures items { OnOk result (bytes.new.items ≡ bytes.old.items ++ flat_map open_slot slots.now) }
    ensures len { OnOk result (vec_len bytes.new ≡ vec_len bytes.old + 9 * length slots.now) }
{
    for i in 0..slots.len() {
        bytes.push(1)?;
        bytes.extend_from_slice(&slots[i].to_be_bytes())?;
    }
    Ok(())
}

// The header of a component's log with these open slots.
fn header(
    alloc: Global,
    fingerprint: &[u8; 32],
    owner: u8,
    slots: &[u64],
) -> Result<Vec<u8>, AllocError>
    requires { length slots.now ≤ SLOTS }
    ensures { IfOk result (λ bytes. bytes.items ≡ header fingerprint.now owner slots.now) }
{
    let mut bytes = Vec::new(alloc);
    bytes.extend_from_slice(&LETTERS)?;
    bytes.extend_from_slice(fingerprint)?;
    bytes.push(owner)?;
    push_slots(&mut bytes, slots)?;
    bytes.resize(FIRST_GATE as usize, 0)?;
    Ok(bytes)
}

// Adds a batch behind an open gate.
fn push_batch(bytes: &mut Vec<u8>, payload: &[u8]) -> Result<(), AllocError>
    requires { length payload.now < 2 ^ 32 }
    ensures { OnOk result (bytes.new.items ≡ bytes.old.items ++ 1 ∷ batch payload.now) }
{
    bytes.push(1)?;
    bytes.extend_from_slice(&(payload.len() as u32).to_be_bytes())?;
    bytes.extend_from_slice(payload)
}

/// The file of the present format that stands for a log of the former one, of this component.
pub fn migrated_log(
    alloc: Global,
    fingerprint: &[u8; 32],
    owner: u8,
    log: &FormerLog,
) -> Result<Vec<u8>, AllocError>
    ensures { IfOk result (λ bytes. bytes.items ≡ migrated fingerprint.now owner log.now.batches) }
{
    let slots = slots_of(alloc, log)?;
    let mut bytes = header(alloc, fingerprint, owner, &slots)?;
    for batch in log.batches.as_slice() {
        push_batch(&mut bytes, batch.payload.as_slice())?;
    }
    bytes.push(0)?;
    Ok(bytes)
}
