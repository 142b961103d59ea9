ghost use Rattle.std.specs.Prelude.{◌≡◌, ◌+◌, ◌<◌, ◌≤◌, ℕ, Some, drop, length, IfOk, IfErr, Ok, Err};
ghost use Rattle.ic_base.specs.declared.limits.TheConstants.{LOG_BYTES};
ghost use Rattle.def_log.specs.Frame.{batches_from};
ghost use Rattle.ic_former.specs.Gates.{AreBelow};
ghost use Rattle.def_log.specs.Loading.{first_batch, opened};
ghost use Rattle.ic_former.specs.Refusals.{IsOfFrame};

use crate::LoadWhy;
use crate::frame::Frame;
use ic_base::{Batch, Bytes};
use std::alloc::Global;

/// The batches of bytes that stand in the file from a gate on.
pub fn read_batches(alloc: Global, gate: u64, bytes: &[u8]) -> Result<Frame, LoadWhy>
    requires short { gate + length bytes.now ≤ LOG_BYTES }
    ensures whole { IfOk result
        (λ frame. batches_from (length bytes.now) gate bytes.now ≡ Ok frame.batches) }
    ensures start { IfOk result (λ frame. frame.start ≡ gate) }
    ensures within { IfOk result (λ frame. frame.gate < gate + length bytes.now) }
    ensures below { IfOk result (λ frame. AreBelow LOG_BYTES frame.batches) }
    ensures bad { IfErr result (λ why. (place : ℕ) → why ≡ LoadWhy.Bad place →
        batches_from (length bytes.now) gate bytes.now ≡ Err place) }
    ensures why { IfErr result IsOfFrame }
{
    let mut frame = Frame::new(alloc, gate);
    while let Some(batch) = batch_at(alloc, frame.gate, &bytes[(frame.gate - gate) as usize..])? {
        frame.push(batch)?;
    }
    Ok(frame)
}

// The batch at a gate, if the gate is open.
fn batch_at(alloc: Global, gate: u64, bytes: &[u8]) -> Result<Option<Batch>, LoadWhy>
    requires { gate + length bytes.now ≤ LOG_BYTES }
    ensures found { IfOk result (λ found. first_batch gate bytes.now ≡ Ok found) }
    ensures bad { IfErr result (λ why. (place : ℕ) → why ≡ LoadWhy.Bad place →
        first_batch gate bytes.now ≡ Err place) }
    ensures why { IfErr result IsOfFrame }
{
    match bytes {
        [] => Err(LoadWhy::Bad(gate)),
        [1, rest @ ..] => Ok(Some(opened_batch(alloc, gate, rest)?)),
        _ => Ok(None),
    }
}

// The batch behind an open gate.
fn opened_batch(alloc: Global, gate: u64, rest: &[u8]) -> Result<Batch, LoadWhy>
    requires { gate + 1 + length rest.now ≤ LOG_BYTES }
    ensures found { IfOk result (λ batch. opened gate rest.now ≡ Ok (Some batch)) }
    ensures bad { IfErr result (λ why. (place : ℕ) → why ≡ LoadWhy.Bad place →
        opened gate rest.now ≡ Err place) }
    ensures why { IfErr result IsOfFrame }
{
    let end = gate + 1 + rest.len() as u64;
    let Some((count, more)) = rest.split_first_chunk::<4>() else {
        return Err(LoadWhy::Bad(end));
    };
    let count = u32::from_be_bytes(*count) as usize;
    if count == 0 {
        return Err(LoadWhy::Bad(gate + 1));
    }
    if more.len() < count {
        return Err(LoadWhy::Bad(end));
    }
    let payload = Vec::from_slice(alloc, &more[..count])?;
    Ok(Batch {
        at: gate + 5,
        payload: Bytes::from_vec(payload),
    })
}
