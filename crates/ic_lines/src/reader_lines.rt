ghost use Rattle.std.specs.Prelude.{◌≡◌, ◌≢◌, ◌↔◌, ◌≤◌, ◌++◌, ℕ, List, [], true, false, All, take, length, vec_len, vec_capacity, IsSome, IfSome, OnSome, unwrap_or, OnOk, IfOk, Err};
ghost use Rattle.std.specs.Io.{StopsAt, IsEmptyOrEndsWith};
ghost use Rattle.std.specs.Io.KnownBytes.{Consumes, IsAtEnd};
ghost use Rattle.std.specs.Io.BufRead.{take_through, DropsThrough};
ghost use Rattle.ic_disk.specs.Causes.{Rose};
ghost use Rattle.ic_lines.specs.Lines.{first_read, behind_line, IsLine};
ghost use Rattle.ic_lines.specs.declared.lines.LineError.TheVariants.{Failed, Memory};

use crate::first::{first_line, read_of};
use crate::{LineError, Lines, Read};
use std::alloc::Global;
use std::io;
use std::io::{BufRead, ErrorKind};
use std::marker::Model;

/// The lines of a reader. Once a read has failed, each one fails.
#[derive(Drop)]
pub struct ReaderLines<B: BufRead + Drop> {
    reader: B,
    faults: u64,
    is_broken: bool,
}

impl<B: BufRead + Drop> Model for ReaderLines<B> {
    ghost use Rattle.ic_lines.specs.Sources.{LinesOf};

    ghost Value = { LinesOf B };

    ghost view = { λ s. record { reader = s.reader; faults = s.faults; broken = s.is_broken } };
}

impl<B: BufRead + Drop> ReaderLines<B> {
    /// Nothing is read yet.
    pub fn new(reader: B) -> ReaderLines<B>
        ensures { result ≡ record { reader = reader; faults = 0; broken = false } }
    {
        ReaderLines {
            reader,
            faults: 0,
            is_broken: false,
        }
    }
}

// Takes off the reader what it holds of a line, the byte 10 that ends it included, and keeps the first bytes of it, for which there
// is room. Answers whether the line is at its end.
fn take_piece<B: BufRead>(reader: &mut B, line: &mut Vec<u8>, room: usize) -> io::Result<bool>
    requires within { vec_len line.old ≤ room }
    requires room { room ≤ vec_capacity line.old }
    ensures within { vec_len line.new ≤ room }
    ensures room { room ≤ vec_capacity line.new }
    ensures taken { IfOk result (λ done. (piece : List ℕ) × StopsAt piece 10
        × (line.new.items ≡ take room (line.old.items ++ piece))
        × Consumes (B.remaining reader.old) (B.remaining reader.new) piece
        × (done ≢ true → All (λ b. b ≢ 10) piece)
        × (done ≡ true → IsEmptyOrEndsWith piece 10)
        × (done ≡ true → length piece ≡ 0 → OnSome (B.remaining reader.old) (IsAtEnd (B.remaining reader.new)))) }
{
    let held = match reader.fill_buf() {
        Ok(held) => held,
        Err(e) if e.kind() == ErrorKind::Interrupted => return Ok(false),
        Err(e) => return Err(e),
    };
    let piece = first_line(held);
    let count = piece.len();
    let is_done = count == 0 || piece[count - 1] == b'\n';
    line.extend_from_slice(&piece[..count.min(room - line.len())])
        .unwrap();
    reader.consume(count);
    Ok(is_done)
}

// Takes the first line off the reader, the byte 10 that ends it included, and keeps the first bytes of it, for which there is room.
fn take_line<B: BufRead>(reader: &mut B, line: &mut Vec<u8>, room: usize) -> io::Result<()>
    requires empty { line.old.items ≡ [] }
    requires room { room ≤ vec_capacity line.old }
    ensures line { OnOk result (IfSome (B.remaining reader.old) (λ bytes. line.new.items ≡ take room (take_through 10 bytes))) }
    ensures rest { OnOk result (DropsThrough (B.remaining reader.old) (B.remaining reader.new) 10) }
    ensures stops { OnOk result (StopsAt line.new.items 10) }
{
    for _ in 0..u64::MAX {
        if take_piece(reader, line, room)? {
            return Ok(());
        }
    }
    Err(io::Error::from(ErrorKind::Interrupted))
}

impl<B: BufRead + Drop> Lines for ReaderLines<B> {
    ghost tells = { λ s. (s.broken ≡ false) × IsSome (B.remaining s.reader) };

    ghost left = { λ s. unwrap_or (B.remaining s.reader) [] };

    ghost faults = { λ s. s.faults };

    fn fault_count(&self) -> u64 {
        self.faults
    }

    #[tactic(auto, using(crate::proofs::Cuts::line_read))]
    fn next(&mut self, alloc: Global, limit: usize) -> Result<Option<Read>, LineError>
        ensures tells { (self.old.broken ≡ false) × IsSome (B.remaining self.old.reader) → result ≢ Err Failed →
            (self.new.broken ≡ false) × IsSome (B.remaining self.new.reader) }
        ensures read { (self.old.broken ≡ false) × IsSome (B.remaining self.old.reader) →
            IfOk result (λ r. r ≡ first_read limit (unwrap_or (B.remaining self.old.reader) [])) }
        ensures rest { (self.old.broken ≡ false) × IsSome (B.remaining self.old.reader) →
            OnOk result (unwrap_or (B.remaining self.new.reader) [] ≡ behind_line (unwrap_or (B.remaining self.old.reader) [])) }
        ensures kept { result ≡ Err Memory → self.new ≡ self.old }
        ensures line { IfOk result (λ r. IfSome r (IsLine limit)) }
        ensures broken { self.new.broken ≡ true ↔ (result ≡ Err Failed) }
        ensures for_good { self.old.broken ≡ true → result ≡ Err Failed }
        ensures failed { result ≡ Err Failed → Rose self.old.faults self.new.faults }
        ensures later { self.old.faults ≤ self.new.faults }
    {
        if self.is_broken {
            self.faults = self.faults.saturating_add(1);
            return Err(LineError::Failed);
        }
        let Some(room) = limit.checked_add(1) else {
            return Err(LineError::Memory);
        };
        let mut line = Vec::with_capacity(alloc, room)?;
        if take_line(&mut self.reader, &mut line, room).is_err() {
            self.is_broken = true;
            self.faults = self.faults.saturating_add(1);
            return Err(LineError::Failed);
        }
        Ok(read_of(line, limit))
    }
}
