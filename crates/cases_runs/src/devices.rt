use case_words::Words;
use ic_base::{Bytes, Items, Word};
use ic_disk::{MemDisk, MemSink, MemTexts};
use std::alloc::{AllocError, Global};

/// The names of the texts.
const NAMES: [&[u8]; 3] = [b"scenario", b"schedule", b"policy"];

/// How many bytes a disk or the output has room for.
const ROOM: usize = 16_384;

/// The devices of a run: the first disk is blank, and each other one holds its number.
#[derive(Drop)]
pub struct Devices {
    pub texts: MemTexts,
    pub out: MemSink,
    pub disks: Vec<MemDisk>,
}

/// The word that bytes are.
pub fn word(alloc: Global, bytes: &[u8]) -> Result<Word, AllocError> {
    Ok(Items::from_vec(bytes.to_vec(alloc)?))
}

/// A text behind its name.
fn named(alloc: Global, name: &[u8], text: &[u8]) -> Result<(Word, Bytes), AllocError> {
    let name = word(alloc, name)?;
    Ok((name, word(alloc, text)?))
}

/// The texts behind their names.
fn held(alloc: Global, texts: &[Vec<u8>]) -> Result<Vec<(Word, Bytes)>, AllocError> {
    let mut held: Vec<(Word, Bytes)> = Vec::new(alloc);
    for (name, text) in NAMES.iter().zip(texts) {
        held.push(named(alloc, name, text.as_slice())?)?;
    }
    Ok(held)
}

/// Texts of which a read fails.
fn texts(alloc: Global, given: &[Vec<u8>], failing: u64) -> Result<MemTexts, AllocError> {
    MemTexts::new(alloc, held(alloc, given)?, &[failing])
}

/// A disk for each component that a scenario may have. A call of the first one fails.
fn disks(alloc: Global, failing: u64) -> Result<Vec<MemDisk>, AllocError> {
    let mut disks = Vec::new(alloc);
    disks.push(MemDisk::new(alloc, b"", ROOM, &[failing])?)?;
    for number in 1..32_u8 {
        disks.push(MemDisk::new(alloc, &[number], ROOM, &[])?)?;
    }
    Ok(disks)
}

/// Devices with these texts: the numbers of the read, the put and the call of the first disk that fail, and 0 for none.
pub fn make_devices(
    alloc: Global,
    given: &[Vec<u8>],
    words: &mut Words<'_>,
) -> Result<Devices, AllocError> {
    let texts = texts(alloc, given, words.number())?;
    let out = MemSink::new(alloc, ROOM, &[words.number()])?;
    let disks = disks(alloc, words.number())?;
    Ok(Devices { texts, out, disks })
}

/// Whether each disk but the first one holds its number.
pub fn are_kept(disks: &[MemDisk]) -> bool {
    let mut are_kept = true;
    for (number, disk) in (0..32_u8).zip(disks).skip(1) {
        are_kept = are_kept && disk.bytes() == [number].as_slice();
    }
    are_kept
}
