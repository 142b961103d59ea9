use ic_base::limits::{FIRST_GATE, LOG_BYTES};
use std::fs::File;
use std::io;
use std::io::ErrorKind;
use std::os::unix::fs::FileExt;

/// How many bytes a gate and the length of its batch have.
const HEAD: usize = 5;

const PIECE: usize = 4096;

// The offset of the last open gate, or of the first gate where none is open. What stands between the directory and it was
// synced before it was opened.
fn last_open_gate(file: &File) -> io::Result<u64> {
    let mut last = FIRST_GATE;
    let mut gate = FIRST_GATE;
    for _ in 0..u64::MAX {
        let mut head = [0u8; HEAD];
        match file.read_exact_at(&mut head, gate) {
            Ok(()) => {}
            Err(e) if e.kind() == ErrorKind::UnexpectedEof => return Ok(last),
            Err(e) => return Err(e),
        }
        let [1, a, b, c, d] = head else {
            return Ok(last);
        };
        let length = u32::from_be_bytes([a, b, c, d]);
        last = gate;
        gate = gate.saturating_add(HEAD as u64 + u64::from(length));
    }
    Ok(last)
}

// Writes once more, in place, the bytes of the file between two offsets.
fn write_again(file: &File, from: u64, to: u64) -> io::Result<()> {
    let mut piece = [0u8; PIECE];
    for at in (from..to).step_by(PIECE) {
        let count = (to - at).min(PIECE as u64) as usize;
        file.read_exact_at(&mut piece[..count], at)?;
        file.write_all_at(&piece[..count], at)?;
    }
    Ok(())
}

/// Writes once more, in place, the header and directory of a log and what it has from its last open gate on: the kernel may
/// take them for written, and the medium not have them (docs/FORMATS.md, "A sync that failed"). A file that is too long for
/// a log isn't relied on, and stays.
pub(crate) fn write_back(file: &File) -> io::Result<()> {
    let end = file.metadata()?.len();
    if end > LOG_BYTES {
        return Ok(());
    }
    write_again(file, 0, end.min(FIRST_GATE))?;
    write_again(file, last_open_gate(file)?, end)
}
