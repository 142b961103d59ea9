ghost use Rattle.std.specs.Prelude.{◌≡◌, ◌<◌, All};
ghost use Rattle.def_log.specs.Spelling.{Fits};

use case_words::{Words, say, tell};
use ic_base::{Args, ComId, Msg, Program, Steps};
use ic_disk::MemDisk;
use ic_gate::{EncodedRecords, LoadRefused};
use ic_pcom::{Restored, restore};
use ic_replay::{Replay, ReplayRefused};
use ic_wire::read_records;
use std::alloc::{AllocError, Global};
use std::io;
use std::marker::Brand;
use std::sync::ledger::{Blank, Ledger};

/// Feeds a replay all messages that it waits for, each with the same content.
fn fed<L: Ledger>(
    alloc: Global,
    program: &Program,
    replay: &mut Replay,
    to: ComId,
    args: Args,
    steps: &mut Steps<L>,
) -> Result<(), ReplayRefused> {
    for _ in 0..1000_u32 {
        let Some((from, k)) = replay.needs() else {
            break;
        };
        let msg = Msg {
            from,
            to,
            k,
            stamp: 2,
            handler: 0,
            args,
        };
        replay.feed(alloc, program, msg, steps)?;
    }
    Ok(())
}

/// Prints how many records were played, what is waited for, and the values.
fn tell_replay(rt: &HostRuntime, replay: &Replay) -> io::Result<()> {
    println!(rt;
        "{} {:?} {:?}",
        replay.played(),
        replay.needs(),
        replay.state().vars.as_slice()
    )
}

/// Feeds a replay, and prints how it stands.
fn tell_fed<L: Ledger>(
    rt: &HostRuntime,
    program: &Program,
    replay: &mut Replay,
    to: ComId,
    args: Args,
    steps: &mut Steps<L>,
) -> io::Result<()> {
    match fed(rt.alloc(), program, replay, to, args, steps) {
        Ok(()) => tell_replay(rt, replay),
        Err(refused) => tell(rt, &refused),
    }
}

/// Replays records; each message that is waited for has the same content. Prints how many were played and the values.
fn replayed<L: Ledger>(
    rt: &HostRuntime,
    program: &Program,
    records: EncodedRecords,
    com: ComId,
    args: Args,
    blank: Blank,
) -> io::Result<()>
    requires name { blank.name ≡ L.name }
    requires parts { blank.parts ≡ L.parts }
    requires some { 0 < blank.parts }
    requires fields { All Fits records }
{
    let mut steps: Steps<L> = Steps::from_blank(blank);
    match Replay::begin(rt.alloc(), program, com, records, &mut steps) {
        Ok(mut replay) => tell_fed(rt, program, &mut replay, com, args, &mut steps),
        Err(refused) => tell(rt, &refused),
    }
}

/// Replays the records of a component: their bytes, and the values of each message.
pub fn replay(rt: &HostRuntime, program: &Program, words: &mut Words<'_>) -> io::Result<()> {
    let com = words.com();
    let bytes = words.bytes(rt.alloc())?;
    let Some(args) = words.args(rt.alloc())? else {
        return say(rt, "too many values");
    };
    match read_records(rt.alloc(), bytes.as_slice()) {
        Ok(records) => {
            let records = EncodedRecords::of(rt.alloc(), records.as_slice())?;
            replayed::<Brand>(rt, program, records, com, args, Blank::new(1))
        }
        Err(refused) => tell(rt, &refused),
    }
}

/// Prints what a recovery made of a disk.
fn tell_restored(rt: &HostRuntime, up: &Restored<MemDisk>) -> io::Result<()> {
    println!(rt;
        "{} {:?} {} {:?} {} {}",
        up.replay.played(),
        up.replay.needs(),
        up.replay.records().len(),
        up.places.as_slice(),
        up.log.forced(),
        up.log.size()
    )
}

/// Prints why there is none, and how many bytes the disk still has.
fn tell_refused(rt: &HostRuntime, refused: &LoadRefused<MemDisk>) -> io::Result<()> {
    println!(rt; "{:?} {}", refused.why, refused.disk.bytes().len())
}

/// Recovers a component from the bytes of its log.
fn restored<L: Ledger>(
    rt: &HostRuntime,
    program: &Program,
    com: ComId,
    disk: MemDisk,
    print: &[u8; 32],
    blank: Blank,
) -> io::Result<()>
    requires name { blank.name ≡ L.name }
    requires parts { blank.parts ≡ L.parts }
    requires some { 0 < blank.parts }
{
    let mut steps: Steps<L> = Steps::from_blank(blank);
    match restore(rt.alloc(), program, com, disk, print, &mut steps) {
        Ok(up) => tell_restored(rt, &up),
        Err(refused) => tell_refused(rt, &refused),
    }
}

/// A disk that is full of these bytes.
fn full(alloc: Global, words: &mut Words<'_>) -> Result<MemDisk, AllocError> {
    let content = words.bytes(alloc)?;
    MemDisk::new(alloc, content.as_slice(), content.len(), &[])
}

/// Recovers a component: the byte of which the scenario's fingerprint is made, and the bytes of the log.
pub fn recover(rt: &HostRuntime, program: &Program, words: &mut Words<'_>) -> io::Result<()> {
    let com = words.com();
    let print = [words.byte(); 32];
    let disk = full(rt.alloc(), words)?;
    restored::<Brand>(rt, program, com, disk, &print, Blank::new(1))
}
