ghost use Rattle.std.specs.Prelude.{◌≤◌, vec_len};

use std::io;
use std::io::ErrorKind;

/// A reader of a text. Its reads are counted from 1: those whose number is in `failing` fail, and of the others each third one is
/// interrupted.
#[derive(Drop)]
pub struct CaseReader {
    text: Vec<u8>,
    /// How many bytes of the text were read.
    read: usize,
    failing: Vec<u64>,
    made: u64,
    ghost within: { read ≤ vec_len text },
}

impl CaseReader {
    /// Nothing is read yet.
    pub fn new(text: Vec<u8>, failing: Vec<u64>) -> CaseReader {
        CaseReader {
            text,
            read: 0,
            failing,
            made: 0,
        }
    }
}

impl io::Read for CaseReader {
    fn read(&mut self, buf: &mut [u8]) -> io::Result<usize> {
        self.made = self.made.saturating_add(1);
        if self.failing.contains(&self.made) {
            return Err(io::Error::from(ErrorKind::Other));
        }
        if self.made % 3 == 0 {
            return Err(io::Error::from(ErrorKind::Interrupted));
        }
        let count = buf.len().min(self.text.len() - self.read);
        buf[..count].copy_from_slice(&self.text[self.read..self.read + count]);
        self.read += count;
        Ok(count)
    }
}
