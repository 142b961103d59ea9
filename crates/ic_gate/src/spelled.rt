ghost use Rattle.std.specs.Prelude.{◌≡◌, ◌<◌, ◌≤◌, ◌^◌, ◌++◌, [], ◌∷◌, length, take, slice_get, Some, IfOk, OnOk, OnErr};
ghost use Rattle.std.specs.List.{AllByRecursion};
ghost use Rattle.def_log.specs.Spelling.{spellings, Fits};
ghost use Rattle.ic_wire.specs.Placed.{IsCounted};
ghost use Rattle.ic_gate.specs.Encoding.{Encode, decoded};

use ic_base::{Bytes, Items, Record, Records};
use ic_wire::{Unread, WireRefused, read_records, record_bytes, record_of};
use std::alloc::{AllocError, Global};
use std::marker::Model;
use std::mem;

/// The bytes of records (docs/FORMATS.md, "Records"), one record behind another. They take less room than the records themselves.
#[derive(Drop)]
pub struct SpelledRecords {
    bytes: Bytes,
    /// Where each of them ends among the bytes.
    ends: Items<u32>,
}

impl Model for SpelledRecords {
    ghost use Rattle.std.specs.Prelude.{List};
    ghost use Rattle.ic_base.specs.declared.record.Record.{Record};
    ghost use Rattle.ic_gate.specs.Encoding.{decoded, Encode};

    ghost Value = { List Record };

    ghost view = { λ s. decoded s.bytes };

    ghost invariant = { λ s. Encode s.bytes s.ends (decoded s.bytes) };
}

impl SpelledRecords {
    /// No record.
    pub fn new(alloc: Global) -> SpelledRecords
        ensures { result ≡ [] }
    {
        SpelledRecords {
            bytes: Items::new(alloc),
            ends: Items::new(alloc),
        }
    }

    /// The records that these bytes are, which end here among them.
    pub fn from_parts(bytes: Bytes, ends: Items<u32>) -> SpelledRecords
        requires { Encode bytes ends (decoded bytes) }
        ensures { result ≡ decoded bytes }
    {
        SpelledRecords { bytes, ends }
    }

    /// The bytes of these records.
    pub fn of(alloc: Global, records: &[Record]) -> Result<SpelledRecords, AllocError>
        requires { AllByRecursion IsCounted records.now }
        ensures { IfOk result (λ all. all ≡ records.now) }
    {
        let mut all = SpelledRecords::new(alloc);
        for stored in records {
            all.push(alloc, stored)?;
        }
        Ok(all)
    }

    /// How many there are.
    fn len(&self) -> usize
        ensures count { result ≡ length self.now }
        ensures few { result < 2 ^ 63 }
    {
        self.ends.as_slice().len()
    }

    /// Where the first n of them end among the bytes.
    fn end_of(&self, n: usize) -> usize
        requires { n ≤ length self.now }
        ensures { result ≡ length (spellings (take n self.now)) }
    {
        if n == 0 {
            0
        } else {
            self.ends.as_slice()[n - 1] as usize
        }
    }

    /// Adds a record behind them.
    pub fn push(&mut self, alloc: Global, stored: &Record) -> Result<(), AllocError>
        requires { IsCounted stored.now }
        ensures added { OnOk result (self.new ≡ self.old ++ stored.now ∷ []) }
        ensures same { OnErr result (self.new ≡ self.old) }
    {
        let before = self.bytes.len();
        record_bytes(alloc, stored, &mut self.bytes)?;
        let Ok(()) = push_end(&mut self.ends, self.bytes.len()) else {
            shorten(alloc, &mut self.bytes, before);
            return Err(AllocError);
        };
        Ok(())
    }

    /// The first n of them.
    pub fn first(self, n: usize) -> SpelledRecords
        ensures { result ≡ take n self }
    {
        if self.len() <= n {
            return self;
        }
        let end = self.end_of(n);
        let mut bytes = self.bytes.into_vec();
        let mut ends = self.ends.into_vec();
        bytes.truncate(end);
        ends.truncate(n);
        SpelledRecords {
            bytes: Items::from_vec(bytes),
            ends: Items::from_vec(ends),
        }
    }

    /// Them, and others behind them.
    pub fn followed_by(self, others: &SpelledRecords) -> Result<SpelledRecords, AllocError>
        ensures { IfOk result (λ all. all ≡ self ++ others.now) }
    {
        let (all, added) = self.with(others.bytes.as_slice(), others.ends.as_slice());
        added?;
        Ok(all)
    }

    /// Adds others behind them.
    pub fn extend(&mut self, alloc: Global, others: &SpelledRecords) -> Result<(), AllocError>
        ensures added { OnOk result (self.new ≡ self.old ++ others.now) }
        ensures same { OnErr result (self.new ≡ self.old) }
    {
        let before = mem::replace(self, SpelledRecords::new(alloc));
        let (all, added) = before.with(others.bytes.as_slice(), others.ends.as_slice());
        *self = all;
        added
    }

    /// Them, and behind them the records that these bytes are, which end here among the bytes. Where memory runs out they are alone.
    fn with(self, more: &[u8], more_ends: &[u32]) -> (SpelledRecords, Result<(), AllocError>)
        requires { Encode more.now more_ends.now (decoded more.now) }
        ensures added { OnOk result.1 (result.0 ≡ self ++ decoded more.now) }
        ensures same { OnErr result.1 (result.0 ≡ self) }
    {
        let mut bytes = self.bytes.into_vec();
        let mut ends = self.ends;
        let before = bytes.len();
        let count = ends.len();
        let Ok(()) = bytes.extend_from_slice(more) else {
            let same = Items::from_vec(bytes);
            return (SpelledRecords { bytes: same, ends }, Err(AllocError));
        };
        for end in more_ends {
            match push_end(&mut ends, before + *end as usize) {
                Ok(()) => {}
                Err(why) => {
                    let mut kept_bytes = bytes;
                    let mut kept = ends.into_vec();
                    kept_bytes.truncate(before);
                    kept.truncate(count);
                    let old_bytes = Items::from_vec(kept_bytes);
                    let old_ends = Items::from_vec(kept);
                    let old = SpelledRecords {
                        bytes: old_bytes,
                        ends: old_ends,
                    };
                    return (old, Err(why));
                }
            }
        }
        let whole = Items::from_vec(bytes);
        let all = SpelledRecords { bytes: whole, ends };
        (all, Ok(()))
    }

    /// The bytes.
    pub fn bytes(&self) -> &[u8]
        ensures bytes { result.now ≡ spellings self.now }
        ensures fit { AllByRecursion Fits self.now }
    {
        self.bytes.as_slice()
    }

    /// The record at this place among them.
    pub fn record(&self, alloc: Global, i: usize) -> Result<Record, AllocError>
        requires { i < length self.now }
        ensures { IfOk result (λ stored. slice_get self.now i ≡ Some stored) }
    {
        match record_of(alloc, &self.bytes.as_slice()[self.end_of(i)..]) {
            Ok((stored, _)) => Ok(stored),
            Err(Unread::Cut) => unreachable!(),
            Err(Unread::Memory) => Err(AllocError),
        }
    }

    /// The records.
    pub fn records(&self, alloc: Global) -> Result<Records, AllocError>
        ensures { IfOk result (λ records. records ≡ self.now) }
    {
        match read_records(alloc, self.bytes.as_slice()) {
            Ok(records) => Ok(records),
            Err(WireRefused::BadAt(_)) => unreachable!(),
            Err(WireRefused::Memory) => Err(AllocError),
        }
    }
}

/// Keeps the first n bytes alone.
pub(crate) fn shorten(alloc: Global, bytes: &mut Bytes, n: usize)
    ensures { bytes.new ≡ take n bytes.old }
{
    let mut kept = mem::replace(bytes, Items::new(alloc)).into_vec();
    kept.truncate(n);
    *bytes = Items::from_vec(kept);
}

/// Adds an offset. No log has so many bytes that one doesn't fit.
pub fn push_end(ends: &mut Items<u32>, end: usize) -> Result<(), AllocError>
    ensures ok { OnOk result (ends.new ≡ ends.old ++ end ∷ []) }
    ensures err { OnErr result (ends.new ≡ ends.old) }
{
    match u32::try_from(end) {
        Ok(end) => Ok(ends.push(end)?),
        Err(_) => Err(AllocError),
    }
}
