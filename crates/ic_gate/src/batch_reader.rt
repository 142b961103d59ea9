ghost use Rattle.std.specs.Prelude.{◌≡◌, ◌<◌, ◌≤◌, ◌+◌, ◌^◌, ◌++◌, [], ◌∷◌, length, take, drop, option_map, IfOk, IfErr, OnOk};
ghost use Rattle.ic_base.specs.declared.limits.TheConstants.{LOG_BYTES};
ghost use Rattle.def_log.specs.Log.{placed_at, ends_with_checkpoint};
ghost use Rattle.ic_gate.specs.Gates.{batch_behind};
ghost use Rattle.ic_gate.specs.Readers.{IsReadOn, IsMarked};
ghost use Rattle.ic_gate.specs.RecordLoads.{FailsToRead};

use crate::records::{is_checkpoint, kind_of};
use crate::spelled::{SpelledRecords, push_end};
use crate::{EncodedRecords, LoadWhy};
use ic_base::Items;
use ic_wire::{Unread, record_of};
use std::alloc::{AllocError, Global};
use std::marker::Model;

/// Reads the records of a log's batches where they lie: each batch's records are moved together with those before, at the front of
/// the bytes that were read.
#[derive(Drop)]
pub struct BatchReader {
    bytes: Vec<u8>,
    /// How many bytes the records so far have.
    kept: usize,
    /// Where the next gate stands among the bytes.
    gate: usize,
    /// Where each of the records ends among the bytes.
    ends: Items<u32>,
    /// The kind of each of them.
    kinds: Items<u8>,
    /// The place of each of them in the file, if these are kept.
    places: Option<Items<u32>>,
}

impl Model for BatchReader {
    ghost use Rattle.std.specs.Prelude.{take, drop};
    ghost use Rattle.ic_gate.specs.Encoding.{decoded};
    ghost use Rattle.ic_gate.specs.Readers.{ReadSoFar, HoldsRead};

    ghost Value = { ReadSoFar };

    ghost view = { λ s. record { records = decoded (take s.kept s.bytes.items); places = s.places; rest = drop s.gate s.bytes.items } };

    ghost invariant = { λ s. HoldsRead s.bytes.items s.kept s.gate s.ends s.kinds };
}

impl BatchReader {
    /// No record yet of these bytes, among which the first gate stands here. Where places are given, they are kept, and those of the
    /// records come behind them.
    pub fn new(
        alloc: Global,
        bytes: Vec<u8>,
        gate: usize,
        places: Option<Items<u32>>,
    ) -> BatchReader
        requires { gate ≤ length bytes.items }
        ensures records { result.records ≡ [] }
        ensures places { result.places ≡ places }
        ensures rest { result.rest ≡ drop gate bytes.items }
    {
        BatchReader {
            bytes,
            kept: 0,
            gate,
            ends: Items::new(alloc),
            kinds: Items::new(alloc),
            places,
        }
    }

    /// The bytes that weren't looked at yet. They begin with a gate.
    pub fn rest(&self) -> &[u8]
        ensures { result.now ≡ self.now.rest }
    {
        &self.bytes[self.gate..]
    }

    /// The records, and behind them those of the next batch, whose payload has so many bytes and whose gate stands here in the file;
    /// and whether the batch ends with a checkpoint. Bad tells the place of the first byte that begins no record.
    pub fn read_on(
        self,
        alloc: Global,
        gate: u64,
        count: usize,
    ) -> Result<(BatchReader, bool), LoadWhy>
        requires inside { 5 + count ≤ length self.rest }
        requires below { gate + 5 + count ≤ LOG_BYTES }
        ensures read { IfOk result (λ read. IsReadOn self (placed_at (gate + 5) (take count (drop 5 self.rest))) count read.0) }
        ensures rest { IfOk result (λ read. read.0.rest ≡ drop (5 + count) self.rest) }
        ensures ends { IfOk result (λ read. read.1 ≡ ends_with_checkpoint (batch_behind gate (take count (drop 5 self.rest)))) }
        ensures refused { IfErr result (FailsToRead (placed_at (gate + 5) (take count (drop 5 self.rest)))) }
    {
        let mut bytes = self.bytes;
        let mut ends = self.ends;
        let mut kinds = self.kinds;
        let mut places = self.places;
        let from = self.gate + 5;
        let to = from + count;
        let checkpoint = mark_records(
            alloc,
            &mut ends,
            &mut kinds,
            &mut places,
            self.kept,
            gate + 5,
            &bytes[from..to],
        )?;
        bytes.copy_within(from..to, self.kept);
        let reader = BatchReader {
            bytes,
            kept: self.kept + count,
            gate: to,
            ends,
            kinds,
            places,
        };
        Ok((reader, checkpoint))
    }

    /// The places, if these are kept, and the records. No other bytes are left.
    pub fn finish(self) -> (Option<Items<u32>>, EncodedRecords)
        ensures places { result.0 ≡ self.places }
        ensures records { result.1 ≡ self.records }
    {
        let mut bytes = self.bytes;
        bytes.truncate(self.kept);
        (
            self.places,
            EncodedRecords::from_parts(
                SpelledRecords::from_parts(Items::from_vec(bytes), self.ends),
                self.kinds,
            ),
        )
    }
}

/// Reads the records of a payload that begins at this place in the file: adds where each ends, behind so many bytes, its kind, and its
/// place, if places are kept, and tells whether the last is a checkpoint. Bad tells the place of the first byte that begins no record.
fn mark_records(
    alloc: Global,
    ends: &mut Items<u32>,
    kinds: &mut Items<u8>,
    places: &mut Option<Items<u32>>,
    kept: usize,
    at: u64,
    payload: &[u8],
) -> Result<bool, LoadWhy>
    requires below { at + length payload.now ≤ LOG_BYTES }
    requires room { kept + length payload.now < 2 ^ 64 }
    ensures read { IfOk result (IsMarked ends.old kinds.old places.old kept at payload.now ends.new kinds.new places.new) }
    ensures refused { IfErr result (FailsToRead (placed_at at payload.now)) }
{
    let mut checkpoint = false;
    let mut rest = payload;
    while !rest.is_empty() {
        let place = at + (payload.len() - rest.len()) as u64;
        match record_of(alloc, rest) {
            Ok((stored, more)) => {
                push_end(ends, kept + (payload.len() - more.len()))?;
                kinds.push(kind_of(&stored))?;
                push_place(places, place)?;
                checkpoint = is_checkpoint(&stored);
                rest = more;
            }
            Err(Unread::Cut) => return Err(LoadWhy::Bad(place)),
            Err(Unread::Memory) => return Err(LoadWhy::Memory),
        }
    }
    Ok(checkpoint)
}

/// Adds a place, if places are kept.
fn push_place(places: &mut Option<Items<u32>>, place: u64) -> Result<(), AllocError>
    ensures { OnOk result (places.new ≡ option_map (λ all. all ++ place ∷ []) places.old) }
{
    if let Some(all) = places {
        push_end(all, place as usize)?;
    }
    Ok(())
}
