ghost use Rattle.std.specs.List.{AllByRecursion};
ghost use Rattle.ic_wire.specs.Placed.{IsCounted};

use case_words::{Words, no_call, tell};
use ic_base::{Bytes, Items, Record};
use ic_wire::{copied_records, placed_records, read_records, record_bytes};
use std::alloc::{AllocError, Global};
use std::io;

/// The bytes of records, one behind the other.
fn spelled(alloc: Global, records: &[Record]) -> Result<Bytes, AllocError>
    requires { AllByRecursion IsCounted records.now }
{
    let mut out = Bytes::new(alloc);
    for stored in records {
        record_bytes(alloc, stored, &mut out)?;
    }
    Ok(out)
}

/// Prints records, and the bytes of them.
fn tell_spelled(rt: &HostRuntime, records: &[Record]) -> io::Result<()>
    requires { AllByRecursion IsCounted records.now }
{
    let bytes = spelled(rt.alloc(), records)?;
    println!(rt;
        "{records:?} {}",
        hex::encode(rt.alloc(), bytes.as_slice())?
    )
}

/// The records that bytes are, and whether these are the bytes of them.
#[tactic(auto, using(ic_wire::proofs::Counted::all_counted))]
fn read(rt: &HostRuntime, bytes: &[u8]) -> io::Result<()> {
    match read_records(rt.alloc(), bytes) {
        Ok(records) => tell_spelled(rt, records.as_slice()),
        Err(refused) => tell(rt, &refused),
    }
}

/// The places of records.
fn places(alloc: Global, placed: &[(u64, Record)]) -> Result<Items<u64>, AllocError> {
    let mut places = Items::new(alloc);
    for (place, _) in placed {
        places.push(*place)?;
    }
    Ok(places)
}

/// Prints places, and copies of the records.
fn tell_placed(rt: &HostRuntime, placed: &[(u64, Record)]) -> io::Result<()> {
    let places = places(rt.alloc(), placed)?;
    let copies = copied_records(rt.alloc(), placed)?;
    println!(rt; "{:?} {:?}", places.as_slice(), copies.as_slice())
}

/// The places of the records that bytes are, and the records once more.
fn placed(rt: &HostRuntime, at: u32, bytes: &[u8]) -> io::Result<()> {
    match placed_records(rt.alloc(), u64::from(at), bytes) {
        Ok(placed) => tell_placed(rt, placed.as_slice()),
        Err(refused) => tell(rt, &refused),
    }
}

/// Reads records: their bytes.
fn read_given(rt: &HostRuntime, words: &mut Words<'_>) -> io::Result<()> {
    let bytes = words.bytes(rt.alloc())?;
    read(rt, bytes.as_slice())
}

/// Reads records with their places: the place of the first one, and their bytes.
fn placed_given(rt: &HostRuntime, words: &mut Words<'_>) -> io::Result<()> {
    let at = words.medium();
    let bytes = words.bytes(rt.alloc())?;
    placed(rt, at, bytes.as_slice())
}

/// Reads records.
pub fn answer(rt: &HostRuntime, words: &mut Words<'_>) -> io::Result<()> {
    match words.word() {
        "records" => read_given(rt, words),
        "placed" => placed_given(rt, words),
        other => no_call(rt, other),
    }
}
