ghost use Rattle.std.specs.Prelude.{◌≡◌, ◌≢◌, ◌↔◌, ◌+◌, ◌<◌, ◌≤◌, ◌^◌, ℕ, Bool, true, List, [], ◌∷◌, length, take, drop, is_ok, IfOk, OnOk, OnErr, Ok, Err};
ghost use Rattle.def_log.specs.Torn.{written};
ghost use Rattle.def_log.specs.Images.{TornFrom, LeavesJust, Elapses};
ghost use Rattle.ic_disk.specs.declared.disk.DiskError.TheVariants.{Failed, Memory};
ghost use Rattle.ic_disk.specs.Below.{AddsAtMost};
ghost use Rattle.ic_disk.specs.Causes.{IsCaused};
ghost use Rattle.ic_disk.specs.Stops.{StopState, AsksLength, Reads, Writes, Syncs, IsSameStop, Obeys};

use std::alloc::{AllocError, AllocFailed, Global};

/// Why a disk's call has no effect that can be relied on.
#[derive(Clone, Copy, Debug, PartialEq, Eq)]
pub enum DiskError {
    /// The device failed; its count of faults rose.
    Failed,
    /// The disk stands stopped.
    Stopped,
    /// Want of memory; the disk is as before.
    Memory,
}

impl From<AllocError> for DiskError {
    ghost from_gives = { λ _ e. e ≡ Memory };

    fn from(_: AllocError) -> Self {
        DiskError::Memory
    }
}

impl<T: Drop> From<AllocFailed<T>> for DiskError {
    ghost from_gives = { λ _ e. e ≡ Memory };

    fn from(_: AllocFailed<T>) -> Self {
        DiskError::Memory
    }
}

/// A file of bytes that is read and written at offsets (docs/FORMATS.md, "The disk").
pub trait Disk {
    /// Whether the disk tells its bytes. Where it doesn't, `seen` says nothing.
    ghost tells: { Self → Type 0 };

    /// The bytes that a read gives.
    ghost seen: { Self → List ℕ };

    /// Whether the disk keeps the disk model (docs/FORMATS.md, "What a crash may leave"). Where it doesn't, `may_leave`,
    /// `moment` and `left_since` say nothing.
    ghost keeps: { Self → Type 0 };

    /// The bytes that a crash may leave, now or in a sync that comes next.
    ghost may_leave: { Self → List ℕ → Type 0 };

    /// The moment, as a number that doesn't fall.
    ghost moment: { Self → ℕ };

    /// The bytes that a crash at some moment from that one on might have left, within a call or between two.
    ghost left_since: { Self → ℕ → List ℕ → Type 0 };

    /// Whether no write waits for a sync.
    ghost settled: { Self → Bool };

    /// How often the device has failed. It stands still at 2^64 - 1.
    ghost faults: { Self → ℕ };

    /// How many bytes can still be written without memory.
    ghost spare: { Self → ℕ };

    /// Whether the disk stands stopped: each device call is then refused.
    ghost stopped: { Self → Type 0 };

    /// How many device calls were made: of length, read_at, write_at and sync.
    ghost calls: { Self → ℕ };

    /// How many device calls were made of the disk that it stands on; where it stands on none, none.
    ghost calls_within: { Self → ℕ };

    /// The stop that is set, if one is, and what it makes of the writes that wait for a sync.
    ghost stop: { Self → StopState };

    /// How often the device has failed. It is no device call.
    fn fault_count(&self) -> u64
        ensures { result ≡ faults self.now };

    /// Makes room for writes. It is no device call.
    fn reserve(&mut self, alloc: Global, bytes: usize) -> Result<(), DiskError>
        ensures tells { tells self.old ↔ tells self.new }
        ensures keeps { keeps self.old ↔ keeps self.new }
        ensures settled { settled self.old ≡ true → settled self.new ≡ true }
        ensures seen { tells self.old → seen self.new ≡ seen self.old }
        ensures crash { keeps self.old → Elapses moment left_since may_leave (may_leave self.old) self.old self.new }
        ensures faults { faults self.new ≡ faults self.old }
        ensures stopped { stopped self.old ↔ stopped self.new }
        ensures calls { calls self.new ≡ calls self.old }
        ensures below { calls_within self.new ≡ calls_within self.old }
        ensures stop { IsSameStop (tells self.old) (stop self.old) (stop self.new) }
        ensures room { OnOk result (bytes ≤ spare self.new) }
        ensures kept { spare self.old ≤ spare self.new }
        ensures memory { OnErr result (result ≡ Err Memory) };

    /// The length of the file in bytes. A file that isn't there has length 0.
    fn length(&mut self) -> Result<u64, DiskError>
        ensures tells { tells self.old ↔ tells self.new }
        ensures keeps { keeps self.old ↔ keeps self.new }
        ensures settled { settled self.old ≡ true → OnOk result (settled self.new ≡ true) }
        ensures value { tells self.old → IfOk result (λ n. n ≡ length (seen self.old)) }
        ensures seen { tells self.old → OnOk result (seen self.new ≡ seen self.old) }
        ensures unmoved { tells self.old → settled self.old ≡ true → seen self.new ≡ seen self.old }
        ensures crash { keeps self.old → Elapses moment left_since may_leave (may_leave self.old) self.old self.new }
        ensures room { spare self.old ≤ spare self.new }
        ensures calls { calls self.new ≡ calls self.old + 1 }
        ensures below { AddsAtMost AsksLength (stop self.old) (calls_within self.old) (calls_within self.new) }
        ensures stop { Obeys (tells self.old) (result ≡ Err Failed) (AsksLength ∷ []) (stop self.old) (is_ok result) (seen self.new) (stop self.new) }
        ensures cause { IsCaused (faults self.old) (faults self.new) (stopped self.new) result }
        ensures no_memory { result ≢ Err Memory };

    /// So many bytes from an offset on.
    fn read_at(&mut self, alloc: Global, at: u64, count: usize) -> Result<Vec<u8>, DiskError>
        requires { tells self.old → at + count ≤ length (seen self.old) }
        ensures tells { tells self.old ↔ tells self.new }
        ensures keeps { keeps self.old ↔ keeps self.new }
        ensures settled { settled self.old ≡ true → OnOk result (settled self.new ≡ true) }
        ensures bytes { tells self.old → IfOk result (λ v. v.items ≡ take count (drop at (seen self.old))) }
        ensures count { IfOk result (λ v. length v.items ≡ count) }
        ensures seen { tells self.old → OnOk result (seen self.new ≡ seen self.old) }
        ensures unmoved { tells self.old → settled self.old ≡ true → seen self.new ≡ seen self.old }
        ensures memory { tells self.old → result ≡ Err Memory → seen self.new ≡ seen self.old }
        ensures crash { keeps self.old → Elapses moment left_since may_leave (may_leave self.old) self.old self.new }
        ensures room { spare self.old ≤ spare self.new }
        ensures calls { OnOk result (calls self.new ≡ calls self.old + 1) }
        ensures at_most { calls self.new ≤ calls self.old + 1 }
        ensures below { AddsAtMost Reads (stop self.old) (calls_within self.old) (calls_within self.new) }
        ensures stop { Obeys (tells self.old) (result ≡ Err Failed) (Reads ∷ []) (stop self.old) (is_ok result) (seen self.new) (stop self.new) }
        ensures cause { IsCaused (faults self.old) (faults self.new) (stopped self.new) result };

    /// Writes over what is there, and past the end.
    fn write_at(&mut self, at: u64, bytes: &[u8]) -> Result<(), DiskError>
        requires place { tells self.old → at ≤ length (seen self.old) }
        requires fits { at + length bytes.now < 2 ^ 64 }
        requires spare { length bytes.now + 32 ≤ spare self.old }
        ensures tells { tells self.old ↔ tells self.new }
        ensures keeps { keeps self.old ↔ keeps self.new }
        ensures written { tells self.old → OnOk result (seen self.new ≡ written (seen self.old) at bytes.now) }
        ensures crash { keeps self.old → Elapses moment left_since may_leave
            (TornFrom at (length bytes.now) (may_leave self.old)) self.old self.new }
        ensures room { spare self.old ≤ spare self.new + (length bytes.now + 32) }
        ensures calls { calls self.new ≡ calls self.old + 1 }
        ensures below { AddsAtMost (Writes at bytes.now) (stop self.old) (calls_within self.old) (calls_within self.new) }
        ensures stop { Obeys (tells self.old) (result ≡ Err Failed) (Writes at bytes.now ∷ []) (stop self.old) (is_ok result) (seen self.new) (stop self.new) }
        ensures cause { IsCaused (faults self.old) (faults self.new) (stopped self.new) result }
        ensures no_memory { result ≢ Err Memory };

    /// Makes what was written outlast a crash.
    fn sync(&mut self) -> Result<(), DiskError>
        ensures tells { tells self.old ↔ tells self.new }
        ensures keeps { keeps self.old ↔ keeps self.new }
        ensures settled { OnOk result (settled self.new ≡ true) }
        ensures durable { keeps self.old → OnOk result (LeavesJust (may_leave self.new) (seen self.new)) }
        ensures seen { tells self.old → OnOk result (seen self.new ≡ seen self.old) }
        ensures unmoved { tells self.old → settled self.old ≡ true → seen self.new ≡ seen self.old }
        ensures crash { keeps self.old → Elapses moment left_since may_leave (may_leave self.old) self.old self.new }
        ensures room { spare self.old ≤ spare self.new }
        ensures calls { calls self.new ≡ calls self.old + 1 }
        ensures below { AddsAtMost Syncs (stop self.old) (calls_within self.old) (calls_within self.new) }
        ensures stop { Obeys (tells self.old) (result ≡ Err Failed) (Syncs ∷ []) (stop self.old) (is_ok result) (seen self.new) (stop self.new) }
        ensures cause { IsCaused (faults self.old) (faults self.new) (stopped self.new) result }
        ensures no_memory { result ≢ Err Memory };

    /// A disk that keeps the model tells its bytes.
    ghost keeping_tells: { (disk : Self) → keeps disk → tells disk };

    /// What a read gives is one of the images that a crash may leave.
    ghost read_may_stay: { (disk : Self) → keeps disk → may_leave disk (seen disk) };

    /// Where no write waits, this moment is one of those since an earlier one.
    ghost counts_now: { (disk : Self) (time : ℕ) (image : List ℕ) → keeps disk → settled disk ≡ true → time ≤ moment disk →
        may_leave disk image → left_since disk time image };

    /// Since this moment there is no other.
    ghost only_now: { (disk : Self) (image : List ℕ) → keeps disk →
        left_since disk (moment disk) image → may_leave disk image };
}
