ghost use Rattle.std.specs.Prelude.{◌≡◌, ◌≤◌, length, IfOk};
ghost use Rattle.std.specs.List.{AllByRecursion};
ghost use Rattle.def_facts.specs.Flat.{HasFlatParts};
ghost use Rattle.def_facts.specs.Playable.{IsPlayable};
ghost use Rattle.def_syntax.specs.Allowed.{IsSmall};
ghost use Rattle.law_run.specs.ProgramBytes.{HasBytes};
ghost use Rattle.law_syntax.specs.Events.{IsEvent};
ghost use Rattle.test_live.specs.declared.chain.TheConstants.{DISKS};

use ic_base::{Bytes, Policy, Word};
use ic_disk::{MemDisk, MemTexts, TornDisk};
use ic_joins::run_threads;
use ic_live::{Gate, Returned};
use ic_plan::{Inputs, RunTexts, TextNames, read_texts};
use ic_run::take_disks;
use std::alloc::Global;
use std::sync::Wait;
use std::test::Fail;
use std::thread::Threads;

/// Three components, of which each sends on to the next what it takes.
const CHAIN: &[u8] =
    b"pcom first\n  on give n\n    send second take n\n  end\nend\npcom second\n  on take n\n    send third take n\n  end\nend\npcom third\n  var total 0\n  on take n\n    set total total + n\n  end\nend\n";

/// Ten inputs of the first.
const PLAN: &[u8] =
    b"input first give 1\ninput first give 1\ninput first give 1\ninput first give 1\ninput first give 1\ninput first give 1\ninput first give 1\ninput first give 1\ninput first give 1\ninput first give 1\n";

/// How many bytes a disk has room for.
const ROOM: usize = 65536;

/// How many disks there are.
const DISKS: usize = 32;

/// How large a run is.
#[derive(Clone, Copy)]
pub struct Size {
    pub workers: u8,
    pub lane: u16,
    pub turns: u32,
}

/// A text, or a word.
fn word(alloc: Global, bytes: &[u8]) -> Result<Word, Fail> {
    Ok(Word::from_vec(Vec::from_slice(alloc, bytes)?))
}

/// The program of the chain, its fingerprint and its plan, read.
fn read_chain(alloc: Global) -> Result<RunTexts, Fail>
    ensures small { IfOk result (λ r. IsSmall r.program) }
    ensures playable { IfOk result (λ r. IsPlayable r.program) }
    ensures flat { IfOk result (λ r. HasFlatParts r.program) }
    ensures bytes { IfOk result (λ r. HasBytes r.program) }
    ensures events { IfOk result (λ r. AllByRecursion (IsEvent r.program) r.schedule.events) }
{
    let mut held: Vec<(Word, Bytes)> = Vec::new(alloc);
    held.push((word(alloc, b"scenario")?, word(alloc, CHAIN)?))?;
    held.push((word(alloc, b"plan")?, word(alloc, PLAN)?))?;
    let mut texts = MemTexts::new(alloc, held, &[])?;
    let (scenario, schedule) = (word(alloc, b"scenario")?, word(alloc, b"plan")?);
    let names = TextNames {
        scenario: &scenario,
        schedule: &schedule,
        policy: None,
    };
    match read_texts(alloc, Inputs::Plain, names, &mut texts) {
        Ok(read) => Ok(read),
        Err(_) => Err("a text is refused")?,
    }
}

/// Blank disks in memory.
fn blank_disks(alloc: Global) -> Result<Vec<MemDisk>, Fail>
    ensures { IfOk result (λ disks. length disks.items ≡ DISKS) }
{
    let mut disks = Vec::new(alloc);
    for made in 0..DISKS {
        let _ = made;
        disks.push(MemDisk::new(alloc, b"", ROOM, &[])?)?;
    }
    Ok(disks)
}

/// A live run of the chain, up to its joins.
pub fn run<G: Gate + Sync, R: Threads + Wait + Sync>(
    rt: &R,
    alloc: Global,
    gate: &G,
    size: Size,
) -> Result<Returned<TornDisk<MemDisk>>, Fail>
    requires { 1 ≤ size.lane }
{
    let texts = read_chain(alloc)?;
    let policy = Policy {
        workers: size.workers,
        lane: size.lane,
        turns: size.turns,
        ..texts.policy
    };
    let mut disks = blank_disks(alloc)?;
    let taken = take_disks(alloc, &texts.program, &mut disks)?;
    let plan = texts.schedule.events.as_slice();
    match run_threads(
        rt,
        alloc,
        &texts.program,
        &texts.fingerprint,
        taken,
        plan,
        &policy,
        gate,
    ) {
        Ok(returned) => Ok(returned),
        Err(_) => Err("the run is refused")?,
    }
}
