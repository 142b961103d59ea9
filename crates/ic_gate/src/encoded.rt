ghost use Rattle.std.specs.Prelude.{◌≡◌, ◌<◌, ◌^◌, ◌++◌, [], ◌∷◌, length, take, drop, map, slice_get, Some, IfOk, OnOk, OnErr};
ghost use Rattle.std.specs.List.{AllByRecursion};
ghost use Rattle.ic_base.specs.declared.record.Record.{Record as Stored};
ghost use Rattle.def_log.specs.Log.{is_checkpoint, end_with_checkpoint};
ghost use Rattle.def_step.specs.Replay.{behind_checkpoint};
ghost use Rattle.ic_wire.specs.Placed.{IsCounted};
ghost use Rattle.ic_gate.specs.Encoding.{tag_of, kind_of};

use crate::record_list::RecordList;
use crate::records::kind_of;
use crate::spelled::{SpelledRecords, shorten};
use ic_base::{Items, Record, Records};
use std::alloc::{AllocError, Global};
use std::marker::Model;

/// Records as a log has them: the kind of each, and their bytes, which may be dropped.
#[derive(Drop)]
pub struct EncodedRecords {
    list: RecordList,
    /// The kind of each of them.
    kinds: Items<u8>,
    /// Their bytes. None once they were dropped.
    spelled: Option<SpelledRecords>,
}

impl Model for EncodedRecords {
    ghost use Rattle.std.specs.Prelude.{List};
    ghost use Rattle.ic_base.specs.declared.record.Record.{Record};
    ghost use Rattle.ic_gate.specs.Encoding.{AreKept};

    ghost Value = { List Record };

    ghost view = { λ s. s.list.list };

    ghost invariant = { λ s. AreKept s.list.list s.kinds s.spelled };
}

impl EncodedRecords {
    /// The kind of an outcome that didn't abort, and the tag of each outcome.
    pub const OUTCOME: u8 = 5;
    /// The kind of a checkpoint, which is its tag too.
    pub const CHECKPOINT: u8 = 8;
    /// The kind of an outcome that aborted.
    pub const ABORTED: u8 = 11;

    /// No record.
    pub fn new(alloc: Global) -> EncodedRecords
        ensures { result ≡ [] }
    {
        EncodedRecords {
            list: RecordList::new(),
            kinds: Items::new(alloc),
            spelled: Some(SpelledRecords::new(alloc)),
        }
    }

    /// The records that these bytes are, with their kinds.
    pub(crate) fn from_parts(spelled: SpelledRecords, kinds: Items<u8>) -> EncodedRecords
        requires { kinds ≡ map kind_of spelled }
        ensures { result ≡ spelled }
    {
        EncodedRecords {
            list: RecordList::of(&spelled),
            kinds,
            spelled: Some(spelled),
        }
    }

    /// These records.
    pub fn of(alloc: Global, records: &[Record]) -> Result<EncodedRecords, AllocError>
        requires { AllByRecursion IsCounted records.now }
        ensures { IfOk result (λ all. all ≡ records.now) }
    {
        let spelled = SpelledRecords::of(alloc, records)?;
        let mut kinds = Items::new(alloc);
        push_kinds(alloc, &mut kinds, records)?;
        Ok(EncodedRecords::from_parts(spelled, kinds))
    }

    /// Drops the bytes. From then on `record` and `records` answer as where memory runs out.
    pub fn drop_bytes(&mut self)
        ensures { self.new ≡ self.old }
    {
        self.spelled = None;
    }

    /// How many there are.
    pub fn len(&self) -> usize
        ensures count { result ≡ length self.now }
        ensures few { result < 2 ^ 63 }
    {
        self.kinds.as_slice().len()
    }

    /// Adds a record behind them.
    pub fn push(&mut self, alloc: Global, stored: &Record) -> Result<(), AllocError>
        requires { IsCounted stored.now }
        ensures added { OnOk result (self.new ≡ self.old ++ stored.now ∷ []) }
        ensures same { OnErr result (self.new ≡ self.old) }
    {
        self.kinds.push(kind_of(stored))?;
        if let Some(spelled) = &mut self.spelled {
            if let Err(why) = spelled.push(alloc, stored) {
                let _kind = self.kinds.pop();
                return Err(why);
            }
        }
        self.list = RecordList::with(&self.list, stored);
        Ok(())
    }

    /// Adds records behind them, whose bytes these are.
    pub(crate) fn extend(
        &mut self,
        alloc: Global,
        adds: &[Record],
        spelled: &SpelledRecords,
    ) -> Result<(), AllocError>
        requires { spelled.now ≡ adds.now }
        ensures added { OnOk result (self.new ≡ self.old ++ adds.now) }
        ensures same { OnErr result (self.new ≡ self.old) }
    {
        let before = self.len();
        push_kinds(alloc, &mut self.kinds, adds)?;
        if let Some(kept) = &mut self.spelled {
            if let Err(why) = kept.extend(alloc, spelled) {
                shorten(alloc, &mut self.kinds, before);
                return Err(why);
            }
        }
        self.list = RecordList::followed_by(&self.list, &RecordList::of(spelled));
        Ok(())
    }

    /// The first n of them.
    pub fn first(self, n: usize) -> EncodedRecords
        ensures { result ≡ take n self }
    {
        let list = RecordList::first(&self.list, n);
        let mut kinds = self.kinds.into_vec();
        kinds.truncate(n);
        let spelled = match self.spelled {
            Some(all) => Some(all.first(n)),
            None => None,
        };
        EncodedRecords {
            list,
            kinds: Items::from_vec(kinds),
            spelled,
        }
    }

    /// Them, and others behind them. The bytes of both are there, or none.
    pub fn followed_by(self, others: EncodedRecords) -> Result<EncodedRecords, AllocError>
        ensures { IfOk result (λ all. all ≡ self ++ others) }
    {
        self.with(&others)
    }

    /// Them, and a copy of others behind them.
    fn with(self, others: &EncodedRecords) -> Result<EncodedRecords, AllocError>
        ensures { IfOk result (λ all. all ≡ self ++ others.now) }
    {
        let list = RecordList::followed_by(&self.list, &others.list);
        let mut kinds = self.kinds.into_vec();
        kinds.extend_from_slice(others.kinds.as_slice())?;
        let spelled = match self.spelled {
            Some(before) => match &others.spelled {
                Some(behind) => Some(before.followed_by(behind)?),
                None => None,
            },
            None => None,
        };
        Ok(EncodedRecords {
            list,
            kinds: Items::from_vec(kinds),
            spelled,
        })
    }

    /// The kind of the record at this place among them: its first byte (docs/FORMATS.md, "Records"), but an outcome that aborted has a
    /// number of its own.
    pub fn kind(&self, i: usize) -> u8
        requires { i < length self.now }
        ensures { (r : Stored) → slice_get self.now i ≡ Some r → result ≡ kind_of r }
    {
        self.kinds.as_slice()[i]
    }

    /// The number that tells what kind of record stands at this place among them (docs/FORMATS.md, "Records"): its first byte.
    pub fn tag(&self, i: usize) -> u8
        requires { i < length self.now }
        ensures { (r : Stored) → slice_get self.now i ≡ Some r → result ≡ tag_of r }
    {
        let kind = self.kind(i);
        if kind == EncodedRecords::ABORTED {
            EncodedRecords::OUTCOME
        } else {
            kind
        }
    }

    /// Whether the record at this place among them is a checkpoint.
    fn is_checkpoint(&self, i: usize) -> bool
        requires { i < length self.now }
        ensures { (r : Stored) → slice_get self.now i ≡ Some r → result ≡ is_checkpoint r }
    {
        self.tag(i) == EncodedRecords::CHECKPOINT
    }

    /// Whether the last of those behind the first n is a checkpoint.
    pub fn end_with_checkpoint(&self, n: usize) -> bool
        ensures { result ≡ end_with_checkpoint (drop n self.now) }
    {
        let len = self.len();
        n < len && self.is_checkpoint(len - 1)
    }

    /// How many there are behind the last checkpoint.
    pub fn count_behind(&self) -> usize
        ensures { result ≡ length (behind_checkpoint self.now) }
    {
        let len = self.len();
        for back in 0..len {
            if self.is_checkpoint(len - 1 - back) {
                return back;
            }
        }
        len
    }

    /// A copy of them.
    pub fn copy(&self, alloc: Global) -> Result<EncodedRecords, AllocError>
        ensures { IfOk result (λ all. all ≡ self.now) }
    {
        EncodedRecords::new(alloc).with(self)
    }

    /// The record at this place among them.
    pub fn record(&self, alloc: Global, i: usize) -> Result<Record, AllocError>
        requires { i < length self.now }
        ensures { IfOk result (λ stored. slice_get self.now i ≡ Some stored) }
    {
        match &self.spelled {
            Some(all) => all.record(alloc, i),
            None => Err(AllocError),
        }
    }

    /// The records.
    pub fn records(&self, alloc: Global) -> Result<Records, AllocError>
        ensures { IfOk result (λ records. records ≡ self.now) }
    {
        match &self.spelled {
            Some(all) => all.records(alloc),
            None => Err(AllocError),
        }
    }
}

/// Adds the kind of each of these records.
fn push_kinds(alloc: Global, kinds: &mut Items<u8>, records: &[Record]) -> Result<(), AllocError>
    ensures added { OnOk result (kinds.new ≡ kinds.old ++ map kind_of records.now) }
    ensures same { OnErr result (kinds.new ≡ kinds.old) }
{
    let before = kinds.len();
    for stored in records {
        if kinds.push(kind_of(stored)).is_err() {
            shorten(alloc, kinds, before);
            return Err(AllocError);
        }
    }
    Ok(())
}
