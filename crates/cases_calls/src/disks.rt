use case_words::Words;
use ic_base::{Fill, Stop};
use ic_disk::{Disk, MemDisk, TornDisk};
use std::alloc::{AllocError, Global};
use std::io;

/// The fingerprint of the scenario.
pub const PRINT: [u8; 32] = [7; 32];

/// The disk of a component: in memory, with a stop that can be set.
pub type CallDisk = TornDisk<MemDisk>;

/// A stop: its call, how many bytes arrive, and the fill, where 256 is the old bytes.
pub fn stop(words: &mut Words<'_>) -> Stop {
    let (call, keep, fill) = (words.medium(), words.medium(), words.place());
    let fill = match u8::try_from(fill) {
        Ok(byte) => Fill::Byte(byte),
        Err(_) => Fill::Old,
    };
    Stop { call, keep, fill }
}

/// A number that tells bytes from others.
fn fold(bytes: &[u8]) -> u64 {
    let mut fold = 7_u64;
    for byte in bytes {
        fold = fold.wrapping_mul(31).wrapping_add(u64::from(*byte));
    }
    fold
}

/// Prints how long a file is, and the number that tells its bytes from others.
fn tell_bytes(rt: &HostRuntime, bytes: &[u8]) -> io::Result<()> {
    println!(rt; "{} {}", bytes.len(), fold(bytes))
}

/// A disk with these bytes, with room for these at least, of which some calls fail.
fn filled(
    alloc: Global,
    bytes: &[u8],
    capacity: usize,
    failing: &[u64],
) -> Result<CallDisk, AllocError> {
    let disk = MemDisk::new(alloc, bytes, capacity.max(bytes.len()), failing)?;
    Ok(TornDisk::new(alloc, disk))
}

/// The disk behind a power cut, whose file it prints. Some calls from there on fail.
pub fn behind_cut(
    rt: &HostRuntime,
    disk: CallDisk,
    capacity: usize,
    failing: &[u64],
) -> io::Result<CallDisk> {
    let inner = disk.into_inner();
    tell_bytes(rt, inner.bytes())?;
    Ok(filled(rt.alloc(), inner.bytes(), capacity, failing)?)
}
