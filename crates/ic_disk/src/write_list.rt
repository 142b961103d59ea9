ghost use Rattle.std.specs.Prelude.{◌≡◌, ◌↔◌, ◌+◌, ◌≤◌, ◌-◌, ℕ, List, [], ◌∷◌, ◌++◌, length, take, replicate, sum_by, OnOk, IfSome};
ghost use Rattle.ic_disk.specs.Past.{filled, writes_of};
ghost use Rattle.ic_disk.specs.TornDisks.{need, total, is_none_held, ends, AreShort, Gives};

use std::alloc::{AllocError, Global};
use std::marker::Model;

/// Writes in order, kept in memory that was made before.
#[derive(Drop)]
pub(crate) struct WriteList {
    /// The offset of each write, and how many bytes it has.
    pub(crate) places: Vec<(usize, usize)>,
    /// The bytes of all writes, one after the other.
    pub(crate) bytes: Vec<u8>,
}

// A write takes its bytes, and at most 32 for its place.
impl Model for WriteList {
    ghost use Rattle.std.specs.Prelude.{◌≡◌, ◌-◌, ◌*◌, min, length, sum_by, vec_len, vec_capacity};
    ghost use Rattle.ic_disk.specs.Past.{ListedWrites, writes_of};

    ghost Value = { ListedWrites };

    ghost view = { λ s. record { writes = writes_of s.places.items s.bytes.items; spare = min (vec_capacity s.bytes - vec_len s.bytes) (32 * (vec_capacity s.places - vec_len s.places)) } };

    ghost invariant = { λ s. sum_by (λ place. place.1) s.places.items ≡ length s.bytes.items };
}

impl WriteList {
    /// No write.
    pub(crate) fn new(alloc: Global) -> WriteList
        ensures { result.writes ≡ [] }
    {
        WriteList {
            places: Vec::new(alloc),
            bytes: Vec::new(alloc),
        }
    }

    /// Makes room for writes of so many bytes, with 32 for each.
    pub(crate) fn reserve(&mut self, bytes: usize) -> Result<(), AllocError>
        ensures room { OnOk result (bytes ≤ self.new.spare) }
        ensures kept { self.old.spare ≤ self.new.spare }
        ensures after { self.new ≡ record self.old { spare = self.new.spare } }
    {
        self.bytes.reserve(bytes)?;
        self.places.reserve(bytes / 32 + 1)
    }

    /// Adds a write.
    pub(crate) fn add(&mut self, at: usize, bytes: &[u8])
        requires { length bytes.now + 32 ≤ self.old.spare }
        ensures writes { self.new.writes ≡ self.old.writes ++ (at, bytes.now) ∷ [] }
        ensures room { self.old.spare ≤ self.new.spare + (length bytes.now + 32) }
    {
        self.places.push_reserved((at, bytes.len()));
        self.bytes.extend_from_slice(bytes).unwrap();
    }

    /// Puts a byte in place of each one behind the first so many.
    pub(crate) fn fill(&mut self, keep: usize, byte: u8)
        ensures writes { self.new.writes ≡ filled keep byte self.old.writes }
        ensures room { self.old.spare ≤ self.new.spare }
    {
        fill_behind(&mut self.bytes, keep, byte);
    }

    /// Whether there is no write.
    pub(crate) fn is_empty(&self) -> bool
        ensures { result ≡ is_none_held self.now.writes }
    {
        self.places.is_empty()
    }

    /// How many bytes the writes have.
    pub(crate) fn count(&self) -> usize
        ensures { result ≡ total self.now.writes }
    {
        self.bytes.len()
    }

    /// Where the writes end that end last.
    pub(crate) fn end(&self) -> u64
        requires { AreShort self.now.writes }
        ensures { result ≡ ends self.now.writes }
    {
        end_of(&self.places, &self.bytes)
    }

    /// The least length of a file that the writes reach, and that has no fewer bytes behind them than that.
    pub(crate) fn least_below(&self, end: u64) -> u64
        requires { AreShort self.now.writes }
        ensures { (file : List ℕ) → (result ≤ length file) ↔ Gives file self.now.writes end }
    {
        least_below(&self.places, &self.bytes, end)
    }

    /// How many spare bytes of a disk the writes need, where that many can be counted.
    pub(crate) fn need(&self) -> Option<usize>
        ensures { IfSome result (λ n. n ≡ need self.now.writes) }
    {
        self.places
            .len()
            .checked_mul(32)?
            .checked_add(self.bytes.len())
    }

    /// Forgets the writes.
    pub(crate) fn clear(&mut self)
        ensures writes { self.new.writes ≡ [] }
        ensures room { self.old.spare ≤ self.new.spare }
    {
        self.places.clear();
        self.bytes.clear();
    }
}

// Puts a byte in place of each one behind the first so many.
fn fill_behind(bytes: &mut [u8], keep: usize, byte: u8)
    ensures { bytes.new ≡ take keep bytes.old ++ replicate (length bytes.old - keep) byte }
{
    let front = bytes.len().min(keep);
    bytes[front..].fill(byte);
}

// Where the writes at these places end that end last.
fn end_of(places: &[(usize, usize)], bytes: &[u8]) -> u64
    requires whole { sum_by (λ place. place.1) places.now ≡ length bytes.now }
    requires short { AreShort (writes_of places.now bytes.now) }
    ensures { result ≡ ends (writes_of places.now bytes.now) }
{
    let Some((&(at, count), others)) = places.split_first() else {
        return 0;
    };
    let (_, rest) = bytes.split_at(count);
    end_of(others, rest).max((at + count) as u64)
}

// The least length of a file that the writes at these places reach, and that has no fewer bytes behind them than that.
fn least_below(places: &[(usize, usize)], bytes: &[u8], end: u64) -> u64
    requires whole { sum_by (λ place. place.1) places.now ≡ length bytes.now }
    requires short { AreShort (writes_of places.now bytes.now) }
    ensures { (file : List ℕ) → (result ≤ length file) ↔ Gives file (writes_of places.now bytes.now) end }
{
    let Some((&(at, count), others)) = places.split_first() else {
        return end;
    };
    let (_, rest) = bytes.split_at(count);
    let behind = least_below(others, rest, end);
    if behind <= (at + count) as u64 {
        at as u64
    } else {
        behind
    }
}
