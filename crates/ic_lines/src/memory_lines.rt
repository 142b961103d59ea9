ghost use Rattle.std.specs.Prelude.{◌≡◌, ◌≤◌, ◌↔◌, ⊤, IsTrue, IfOk, OnOk, OnErr, Err, IfSome};
ghost use Rattle.std.specs.Bool.{OnTrue};
ghost use Rattle.ic_disk.specs.Calls.{no_calls, fails_next, after_call};
ghost use Rattle.ic_disk.specs.Causes.{Rose};
ghost use Rattle.ic_lines.specs.Lines.{first_read, behind_line, IsLine};
ghost use Rattle.ic_lines.specs.declared.lines.LineError.TheVariants.{Failed};

use crate::first::{first_line, read_of};
use crate::{LineError, Lines, Read};
use std::alloc::{AllocError, Global};
use std::marker::Model;

/// The lines of a text in memory, whose calls fail where they were told so. A call that fails takes nothing off the text.
#[derive(Drop)]
pub struct MemLines {
    text: Vec<u8>,
    /// How many bytes of the text were taken.
    taken: usize,
    failing: Vec<u64>,
    made: u64,
    faults: u64,
}

impl Model for MemLines {
    ghost use Rattle.std.specs.Prelude.{◌≤◌, drop, vec_len};
    ghost use Rattle.ic_lines.specs.Sources.{MemoryLines};

    ghost Value = { MemoryLines };

    ghost view = { λ s. record { left = drop s.taken s.text.items; calls = record { failing = s.failing.items; made = s.made; faults = s.faults } } };

    ghost invariant = { λ s. s.taken ≤ vec_len s.text };
}

impl MemLines {
    /// The lines of these bytes. The calls are counted from 1, and those whose number is in `failing` fail.
    pub fn new(alloc: Global, text: &[u8], failing: &[u64]) -> Result<MemLines, AllocError>
        ensures left { IfOk result (λ m. m.left ≡ text.now) }
        ensures calls { IfOk result (λ m. m.calls ≡ no_calls failing.now) }
    {
        let text = Vec::from_slice(alloc, text)?;
        let failing = Vec::from_slice(alloc, failing)?;
        Ok(MemLines {
            text,
            taken: 0,
            failing,
            made: 0,
            faults: 0,
        })
    }

    // Counts one more call, and answers whether it fails.
    fn fails(&mut self) -> bool
        ensures failed { result ≡ fails_next self.old.calls }
        ensures after { self.new ≡ record self.old { calls = after_call result self.old.calls } }
        ensures later { self.old.calls.faults ≤ self.new.calls.faults }
        ensures rose { OnTrue result (Rose self.old.calls.faults self.new.calls.faults) }
    {
        self.made = self.made.saturating_add(1);
        let failed = self.failing.contains(&self.made);
        if failed {
            self.faults = self.faults.saturating_add(1);
        }
        failed
    }

    // What is left.
    fn left(&self) -> &[u8]
        ensures { result.now ≡ self.now.left }
    {
        &self.text[self.taken..]
    }

    // Takes the first line off what is left.
    fn take(&mut self, alloc: Global, limit: usize) -> Result<Option<Read>, AllocError>
        ensures read { IfOk result (λ r. r ≡ first_read limit self.old.left) }
        ensures rest { OnOk result (self.new.left ≡ behind_line self.old.left) }
        ensures kept { OnErr result (self.new.left ≡ self.old.left) }
        ensures line { IfOk result (λ r. IfSome r (IsLine limit)) }
        ensures calls { self.new.calls ≡ self.old.calls }
    {
        let line = first_line(self.left());
        let count = line.len();
        let front = Vec::from_slice(alloc, &line[..count.min(limit.saturating_add(1))])?;
        self.taken += count;
        Ok(read_of(front, limit))
    }
}

impl Lines for MemLines {
    ghost tells = { λ m. ⊤ };

    ghost left = { λ m. m.left };

    ghost faults = { λ m. m.calls.faults };

    fn fault_count(&self) -> u64 {
        self.faults
    }

    fn next(&mut self, alloc: Global, limit: usize) -> Result<Option<Read>, LineError>
        ensures read { IfOk result (λ r. r ≡ first_read limit self.old.left) }
        ensures rest { OnOk result (self.new.left ≡ behind_line self.old.left) }
        ensures kept { OnErr result (self.new.left ≡ self.old.left) }
        ensures line { IfOk result (λ r. IfSome r (IsLine limit)) }
        ensures fails { (result ≡ Err Failed) ↔ IsTrue (fails_next self.old.calls) }
        ensures calls { self.new.calls ≡ after_call (fails_next self.old.calls) self.old.calls }
        ensures failed { result ≡ Err Failed → Rose self.old.calls.faults self.new.calls.faults }
        ensures later { self.old.calls.faults ≤ self.new.calls.faults }
    {
        if self.fails() {
            return Err(LineError::Failed);
        }
        Ok(self.take(alloc, limit)?)
    }
}
