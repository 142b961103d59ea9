ghost use Rattle.std.specs.Prelude.{◌≡◌, ◌≤◌, [], None, length, IfOk};

use crate::byte_lists::ByteLists;
use crate::{TextError, Texts};
use ic_base::Word;
use std::alloc::Global;
use std::io::{ErrorKind, Read};
use std::marker::Model;
use std::rt::Files;
use std::{fs, io};

/// The texts of the host's files. They tell nothing: what the host does is trusted.
#[derive(Drop)]
pub struct FileTexts<R: Files + Drop> {
    rt: R,
    faults: u64,
    asked: ByteLists,
}

// Contracts see their count of faults and the names that were asked for.
impl<R: Files + Drop> Model for FileTexts<R> {
    ghost use Rattle.ic_disk.specs.Memory.{HostTexts};

    ghost Value = { HostTexts };

    ghost view = { λ s. record { faults = s.faults; asked = s.asked.lists } };
}

impl<R: Files + Drop> FileTexts<R> {
    /// No file is open: each text is the file of its name, opened, read and closed in one call.
    pub fn new(rt: R) -> FileTexts<R>
        ensures { result ≡ record { faults = 0; asked = [] } }
    {
        FileTexts {
            rt,
            faults: 0,
            asked: ByteLists::new(),
        }
    }
}

const PIECE: usize = 4096;

// Some next bytes of a file, none at its end. A read that a signal interrupts is made again.
fn read_some<F: Read>(file: &mut F, buffer: &mut [u8]) -> io::Result<usize>
    ensures within { IfOk result (λ n. n ≤ length buffer.old) }
{
    for _ in 0..u64::MAX {
        match file.read(buffer) {
            Err(e) if e.kind() == ErrorKind::Interrupted => {}
            answer => return answer,
        }
    }
    Err(io::Error::from(ErrorKind::Interrupted))
}

// All the bytes of a file, of which at most one above the limit is read.
fn read_whole<F: Read>(alloc: Global, file: &mut F, limit: usize) -> Result<Vec<u8>, TextError>
    ensures short { IfOk result (λ v. length v.items ≤ limit) }
{
    let mut text = Vec::new(alloc);
    let mut piece = [0u8; PIECE];
    'pieces: for _ in 0..u64::MAX {
        let room = limit - text.len();
        let wanted = room.min(PIECE - 1) + 1;
        let Ok(count) = read_some(file, &mut piece[..wanted]) else {
            return Err(TextError::Failed);
        };
        if count == 0 {
            return Ok(text);
        }
        if room < count {
            return Err(TextError::TooLong);
        }
        text.extend_from_slice(&piece[..count])?;
    }
    Err(TextError::Failed)
}

fn read_file<R: Files>(
    rt: &R,
    alloc: Global,
    name: &[u8],
    limit: usize,
) -> Result<Vec<u8>, TextError>
    ensures short { IfOk result (λ v. length v.items ≤ limit) }
{
    let Ok(path) = str::from_utf8(name) else {
        return Err(TextError::Failed);
    };
    let Ok(mut file) = fs::open(rt, path) else {
        return Err(TextError::Failed);
    };
    read_whole(alloc, &mut file, limit)
}

impl<R: Files + Drop> Texts for FileTexts<R> {
    ghost tells = { λ t. ⊥ };

    ghost held = { λ t name. None };

    ghost faults = { λ t. t.faults };

    ghost asked = { λ t. t.asked };

    fn fault_count(&self) -> u64 {
        self.faults
    }

    fn read(&mut self, alloc: Global, name: &Word, limit: usize) -> Result<Vec<u8>, TextError> {
        self.asked = ByteLists::with(&self.asked, name.as_slice());
        let answer = read_file(&self.rt, alloc, name.as_slice(), limit);
        if let Err(TextError::Failed) = answer {
            self.faults = self.faults.saturating_add(1);
        }
        answer
    }
}
