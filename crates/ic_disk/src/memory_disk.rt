ghost use Rattle.std.specs.Prelude.{◌≡◌, ◌≢◌, ◌+◌, ◌<◌, ◌≤◌, ◌^◌, ◌||◌, ⊤, nat_lt, [], ◌∷◌, ◌++◌, length, take, drop, refl, vec_len, vec_capacity, IfOk, OnOk, OnErr, Err, is_err, true};
ghost use Rattle.std.proofs.Common.{inl, inr};
ghost use Rattle.std.proofs.Math.Nat.{not-le_of_lt};
ghost use Rattle.def_log.specs.Torn.{written};
ghost use Rattle.def_log.specs.Images.{TornFrom, Elapses};
ghost use Rattle.ic_disk.specs.Calls.{no_calls, fails_next, after_call};
ghost use Rattle.ic_disk.specs.Causes.{IsCaused};
ghost use Rattle.ic_disk.specs.Stops.{no_stop};
ghost use Rattle.ic_disk.specs.Memory.{counted, writes_made, IsThere, WasThere};
ghost use Rattle.ic_disk.specs.declared.disk.DiskError.TheVariants.{Memory};

use crate::call_count::CallCount;
use crate::failing::Calls;
use crate::past::Past;
use crate::{Disk, DiskError};
use std::alloc::{AllocError, Global};
use std::marker::Model;

/// A disk in memory, whose calls fail where it was told so. Each call is done at once, so a crash leaves what is there.
#[derive(Drop)]
pub struct MemDisk {
    bytes: Vec<u8>,
    capacity: usize,
    calls: Calls,
    made: CallCount,
    /// What the disk tells of earlier moments.
    past: Past,
}

impl Model for MemDisk {
    ghost use Rattle.std.specs.Prelude.{◌≡◌, ◌≤◌, ◌-◌, min, length, vec_len, vec_capacity};
    ghost use Rattle.def_log.specs.Torn.{all_written};
    ghost use Rattle.ic_disk.specs.Memory.{MemoryDisk};

    ghost Value = { MemoryDisk };

    ghost view = { λ s. record { bytes = s.bytes.items; capacity = s.capacity; calls = s.calls; made = s.made.made; spare = min (vec_capacity s.bytes - vec_len s.bytes) s.past.spare; first = s.past.first; writes = s.past.writes } };

    ghost invariant = { λ s. (length s.bytes.items ≤ s.capacity) × (s.bytes.items ≡ all_written s.past.first s.past.writes) };
}

impl MemDisk {
    /// A disk with these bytes. The calls length, read_at, write_at and sync are counted from 1, and those
    /// whose number is in `failing` fail.
    pub fn new(
        alloc: Global,
        content: &[u8],
        capacity: usize,
        failing: &[u64],
    ) -> Result<MemDisk, AllocError>
        requires { length content.now ≤ capacity }
        ensures bytes { IfOk result (λ d. d.bytes ≡ content.now) }
        ensures capacity { IfOk result (λ d. d.capacity ≡ capacity) }
        ensures calls { IfOk result (λ d. d.calls ≡ no_calls failing.now) }
        ensures made { IfOk result (λ d. d.made ≡ 0) }
        ensures first { IfOk result (λ d. d.first ≡ content.now) }
        ensures writes { IfOk result (λ d. d.writes ≡ []) }
    {
        let bytes = Vec::from_slice(alloc, content)?;
        let calls = Calls::new(alloc, failing)?;
        let past = Past::new(alloc, content)?;
        Ok(MemDisk {
            bytes,
            capacity,
            calls,
            made: CallCount::new(),
            past,
        })
    }

    /// All that was written, whether or not a sync came behind it.
    pub fn bytes(&self) -> &[u8]
        ensures { result.now ≡ self.now.bytes }
    {
        self.bytes.as_slice()
    }
}

// Writes over what is there, and past the end.
fn overwrite(file: &mut Vec<u8>, at: usize, bytes: &[u8])
    requires place { at ≤ vec_len file.old }
    requires room { vec_len file.old + length bytes.now ≤ vec_capacity file.old }
    ensures written { file.new.items ≡ written file.old.items at bytes.now }
    ensures capacity { vec_capacity file.old ≤ vec_capacity file.new }
{
    if bytes.len() <= file.len() - at {
        file.as_mut_slice()[at..at + bytes.len()].copy_from_slice(bytes);
    } else {
        file.truncate(at);
        file.extend_from_slice(bytes).unwrap();
    }
}

impl Disk for MemDisk {
    ghost tells = { λ d. ⊤ };

    ghost seen = { λ d. d.bytes };

    ghost keeps = { λ d. ⊤ };

    ghost may_leave = { IsThere };

    ghost moment = { writes_made };

    ghost left_since = { WasThere };

    ghost settled = { λ d. true };

    ghost faults = { λ d. d.calls.faults };

    ghost spare = { λ d. d.spare };

    ghost stopped = { λ d. ⊥ };

    ghost calls = { λ d. d.made };

    ghost calls_within = { λ d. 0 };

    ghost stop = { λ d. no_stop };

    ghost keeping_tells = { λ d keeps. keeps };

    ghost read_may_stay = { λ d keeps. refl };

    ghost counts_now = { λ d time image keeps settled earlier left. inl left };

    ghost only_now = { λ d image keeps left. elim left [
      | inl now ↦ now
      | inr held ↦ absurd (not-le_of_lt held.2 held.1)
    ] };

    fn fault_count(&self) -> u64 {
        self.calls.faults()
    }

    fn reserve(&mut self, _alloc: Global, bytes: usize) -> Result<(), DiskError>
        ensures room { OnOk result (bytes ≤ self.new.spare) }
        ensures memory { OnErr result (result ≡ Err Memory) }
        ensures after { self.new ≡ record self.old { spare = self.new.spare } }
        ensures kept { self.old.spare ≤ self.new.spare }
    {
        self.bytes.reserve(bytes)?;
        self.past.reserve(bytes)?;
        Ok(())
    }

    fn length(&mut self) -> Result<u64, DiskError>
        ensures value { IfOk result (λ n. n ≡ length self.old.bytes) }
        ensures fails { is_err result ≡ fails_next self.old.calls }
        ensures after { self.new ≡ counted (is_err result) self.old }
        ensures cause { IsCaused self.old.calls.faults self.new.calls.faults ⊥ result }
        ensures no_memory { result ≢ Err Memory }
    {
        self.made = CallCount::after(&self.made);
        if self.calls.fails(true) {
            return Err(DiskError::Failed);
        }
        Ok(self.bytes.len() as u64)
    }

    fn read_at(&mut self, alloc: Global, at: u64, count: usize) -> Result<Vec<u8>, DiskError>
        requires { at + count ≤ length self.old.bytes }
        ensures bytes { IfOk result (λ v. v.items ≡ take count (drop at self.old.bytes)) }
        ensures count { IfOk result (λ v. length v.items ≡ count) }
        ensures fails { result ≢ Err Memory → is_err result ≡ fails_next self.old.calls }
        ensures after { result ≢ Err Memory → self.new ≡ counted (is_err result) self.old }
        ensures memory { result ≡ Err Memory → self.new ≡ self.old }
        ensures cause { IsCaused self.old.calls.faults self.new.calls.faults ⊥ result }
    {
        let start = at as usize;
        let copy = Vec::from_slice(alloc, &self.bytes.as_slice()[start..start + count])?;
        self.made = CallCount::after(&self.made);
        if self.calls.fails(true) {
            return Err(DiskError::Failed);
        }
        Ok(copy)
    }

    fn write_at(&mut self, at: u64, bytes: &[u8]) -> Result<(), DiskError>
        requires place { at ≤ length self.old.bytes }
        requires fits { at + length bytes.now < 2 ^ 64 }
        requires spare { length bytes.now + 32 ≤ self.old.spare }
        ensures written { OnOk result (self.new.bytes ≡ written self.old.bytes at bytes.now) }
        ensures failed { OnErr result (self.new ≡ counted true self.old) }
        ensures first { self.new.first ≡ self.old.first }
        ensures taken { OnOk result (self.new.writes ≡ self.old.writes ++ (at, bytes.now) ∷ []) }
        ensures crash { Elapses writes_made WasThere IsThere (TornFrom at (length bytes.now) (IsThere self.old)) self.old self.new }
        ensures fails { is_err result ≡ (fails_next self.old.calls || nat_lt self.old.capacity (at + length bytes.now)) }
        ensures calls { self.new.calls ≡ after_call (is_err result) self.old.calls }
        ensures made { self.new.made ≡ self.old.made + 1 }
        ensures capacity { self.new.capacity ≡ self.old.capacity }
        ensures room { self.old.spare ≤ self.new.spare + (length bytes.now + 32) }
        ensures cause { IsCaused self.old.calls.faults self.new.calls.faults ⊥ result }
        ensures no_memory { result ≢ Err Memory }
    {
        let start = at as usize;
        let fits = bytes.len() <= self.capacity - start;
        self.made = CallCount::after(&self.made);
        if self.calls.fails(fits) {
            return Err(DiskError::Failed);
        }
        overwrite(&mut self.bytes, start, bytes);
        self.past.add(start, bytes);
        Ok(())
    }

    fn sync(&mut self) -> Result<(), DiskError>
        ensures fails { is_err result ≡ fails_next self.old.calls }
        ensures after { self.new ≡ counted (is_err result) self.old }
        ensures cause { IsCaused self.old.calls.faults self.new.calls.faults ⊥ result }
        ensures no_memory { result ≢ Err Memory }
    {
        self.made = CallCount::after(&self.made);
        if self.calls.fails(true) {
            return Err(DiskError::Failed);
        }
        Ok(())
    }
}
