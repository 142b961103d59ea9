ghost use Rattle.std.specs.Prelude.{◌≡◌, ◌<◌, ◌≤◌, false, length};
ghost use Rattle.ic_base.specs.declared.limits.TheConstants.{COMPONENTS};
ghost use Rattle.ic_pcom.specs.Views.{is_closed};

use crate::disks::{CallDisk, PRINT, behind_cut, stop};
use case_words::{Words, no_call, packet, say, tell};
use ic_base::limits::COMPONENTS;
use ic_base::{ComId, Packet, Program, Steps};
use ic_disk::{Disk, MemDisk, TornDisk};
use ic_gate::{LoadRefused, Log};
use ic_pcom::{Pcom, Step};
use std::alloc::Global;
use std::marker::Brand;
use std::sync::ledger::{Blank, Ledger};
use std::{io, mem};

/// A Pcom that is up or replays, or the disk that its crash left.
#[derive(Drop)]
pub struct Place {
    pcom: Option<Pcom<CallDisk>>,
    disk: Option<CallDisk>,
}

/// One over a blank disk; no write goes past its capacity, and some calls fail.
fn fresh(
    alloc: Global,
    program: &Program,
    com: ComId,
    capacity: usize,
    failing: &[u64],
) -> Option<Pcom<CallDisk>> {
    let disk = MemDisk::new(alloc, b"", capacity, failing).ok()?;
    let Ok(log) = Log::create(alloc, TornDisk::new(alloc, disk), &PRINT, com.0) else {
        return None;
    };
    match Pcom::fresh(alloc, program, com, log) {
        Ok(pcom) => Some(pcom),
        Err(_) => None,
    }
}

/// Gives it an input.
fn input(
    rt: &HostRuntime,
    program: &Program,
    pcom: &mut Pcom<CallDisk>,
    words: &mut Words<'_>,
) -> io::Result<()>
    requires open { is_closed pcom.old ≡ false }
{
    let handler = words.byte();
    match words.args(rt.alloc())? {
        Some(args) => tell(rt, &pcom.input(rt.alloc(), program, handler, args)),
        None => say(rt, "too many values"),
    }
}

/// Gives it a packet, and prints what it tells of the step and how many records it played in it.
fn gets<L: Ledger>(
    rt: &HostRuntime,
    program: &Program,
    pcom: &mut Pcom<CallDisk>,
    p: &Packet,
    blank: Blank,
) -> io::Result<()>
    requires name { blank.name ≡ L.name }
    requires parts { blank.parts ≡ L.parts }
    requires some { 0 < blank.parts }
    requires open { is_closed pcom.old ≡ false }
    requires few { length program.now.components ≤ COMPONENTS }
{
    let mut steps: Steps<L> = Steps::from_blank(blank);
    tell(rt, &pcom.on_packet(rt.alloc(), program, p, &mut steps))
}

fn get(
    rt: &HostRuntime,
    program: &Program,
    pcom: &mut Pcom<CallDisk>,
    words: &mut Words<'_>,
) -> io::Result<()>
    requires open { is_closed pcom.old ≡ false }
{
    match packet(rt.alloc(), words)? {
        Some(p) if program.components.len() <= COMPONENTS => {
            gets::<Brand>(rt, program, pcom, &p, Blank::new(1))
        }
        _ => say(rt, "no packet"),
    }
}

/// Makes a call on one that is open.
fn call(
    rt: &HostRuntime,
    program: &Program,
    pcom: &mut Pcom<CallDisk>,
    what: &str,
    words: &mut Words<'_>,
) -> io::Result<()>
    requires open { is_closed pcom.old ≡ false }
{
    match what {
        "input" => input(rt, program, pcom, words),
        "get" => get(rt, program, pcom, words),
        "force" => tell(rt, &pcom.force(rt.alloc())),
        "checkpoint" => tell(rt, &pcom.checkpoint(rt.alloc())),
        "resend" => tell(rt, &pcom.resend(rt.alloc())),
        "emit" => tell(rt, &pcom.emit(rt.alloc())),
        other => no_call(rt, other),
    }
}

/// What is read of one.
fn state(rt: &HostRuntime, pcom: &Pcom<CallDisk>) -> io::Result<()> {
    println!(rt;
        "{:?} {} {} {} {} {} {} {} {} {:?}",
        pcom.waits_at(),
        pcom.buffered(),
        pcom.since_checkpoint(),
        pcom.is_replaying(),
        pcom.in_hand(),
        pcom.has_due(),
        pcom.unshown(),
        pcom.held(),
        pcom.played(),
        pcom.vars()
    )
}

/// Prints the records that its log would hold once it is forced.
fn tell_records(rt: &HostRuntime, pcom: &Pcom<CallDisk>) -> io::Result<()> {
    let records = pcom.records().records(rt.alloc())?;
    tell(rt, &records.as_slice())
}

/// Sets a stop.
fn arm(rt: &HostRuntime, pcom: &mut Pcom<CallDisk>, words: &mut Words<'_>) -> io::Result<()> {
    pcom.arm(stop(words));
    say(rt, "armed")
}

/// What is read of one by a number.
fn read(
    rt: &HostRuntime,
    pcom: &mut Pcom<CallDisk>,
    what: &str,
    words: &mut Words<'_>,
) -> io::Result<()> {
    match what {
        "state" => state(rt, pcom),
        "unstable" => tell(rt, &pcom.unstable(usize::from(words.place()))),
        "taken" => tell(rt, &pcom.has_taken(words.com(), words.number())),
        "records" => tell_records(rt, pcom),
        "arm" => arm(rt, pcom, words),
        "disarm" => tell(rt, &pcom.disarm()),
        _ => say(rt, "closed"),
    }
}

/// Whether a call is one that reads, or sets a stop.
fn is_read(what: &str) -> bool {
    matches!(
        what,
        "state" | "unstable" | "taken" | "records" | "arm" | "disarm"
    )
}

/// What comes of a disk: the component that it holds, with what is told of it, or the disk again.
fn recovered<L: Ledger, D: Disk + Drop>(
    alloc: Global,
    program: &Program,
    com: ComId,
    disk: D,
    blank: Blank,
) -> Result<(Pcom<D>, Step), LoadRefused<D>>
    requires name { blank.name ≡ L.name }
    requires parts { blank.parts ≡ L.parts }
    requires some { 0 < blank.parts }
{
    let mut steps: Steps<L> = Steps::from_blank(blank);
    Pcom::recover(alloc, program, com, disk, &PRINT, &mut steps)
}

impl Place {
    /// Nothing.
    pub fn new() -> Place {
        Place {
            pcom: None,
            disk: None,
        }
    }

    fn begin(
        &mut self,
        rt: &HostRuntime,
        program: &Program,
        com: ComId,
        words: &mut Words<'_>,
    ) -> io::Result<()> {
        let capacity = words.medium() as usize;
        let failing = words.numbers(rt.alloc())?;
        self.begin_over(rt.alloc(), program, com, capacity, failing.as_slice());
        tell(rt, &self.pcom.is_some())
    }

    /// A fresh one over a blank disk, if there is one, takes the place of what was there.
    fn begin_over(
        &mut self,
        alloc: Global,
        program: &Program,
        com: ComId,
        capacity: usize,
        failing: &[u64],
    ) {
        drop(mem::replace(
            &mut self.pcom,
            fresh(alloc, program, com, capacity, failing),
        ));
    }

    fn crash(&mut self, rt: &HostRuntime, words: &mut Words<'_>) -> io::Result<()> {
        let capacity = words.medium() as usize;
        let failing = words.numbers(rt.alloc())?;
        self.cut(rt, capacity, failing.as_slice())
    }

    /// Its disk behind a power cut, if there is one.
    fn cut(&mut self, rt: &HostRuntime, capacity: usize, failing: &[u64]) -> io::Result<()> {
        let Some(pcom) = self.pcom.take() else {
            return say(rt, "no Pcom");
        };
        let disk = behind_cut(rt, pcom.crash(), capacity, failing)?;
        drop(mem::replace(&mut self.disk, Some(disk)));
        Ok(())
    }

    fn recover(&mut self, rt: &HostRuntime, program: &Program, com: ComId) -> io::Result<()> {
        let Some(disk) = self.disk.take() else {
            return say(rt, "no disk");
        };
        match recovered::<Brand, CallDisk>(rt.alloc(), program, com, disk, Blank::new(1)) {
            Ok((pcom, step)) => {
                self.stands(pcom);
                tell(rt, &step)
            }
            Err(refused) => {
                self.is_left(refused.disk);
                tell(rt, &refused.why)
            }
        }
    }

    fn stands(&mut self, pcom: Pcom<CallDisk>) {
        drop(mem::replace(&mut self.pcom, Some(pcom)));
    }

    fn is_left(&mut self, disk: CallDisk) {
        drop(self.pcom.take());
        drop(mem::replace(&mut self.disk, Some(disk)));
    }

    fn call(
        &mut self,
        rt: &HostRuntime,
        program: &Program,
        what: &str,
        words: &mut Words<'_>,
    ) -> io::Result<()> {
        match &mut self.pcom {
            Some(pcom) if is_read(what) || pcom.is_closed() => read(rt, pcom, what, words),
            Some(pcom) => call(rt, program, pcom, what, words),
            None => say(rt, "no Pcom"),
        }
    }

    /// Makes the call of a line on the Pcom of this number.
    pub fn answer(
        &mut self,
        rt: &HostRuntime,
        program: &Program,
        com: ComId,
        words: &mut Words<'_>,
    ) -> io::Result<()> {
        match words.word() {
            "new" => self.begin(rt, program, com, words),
            "crash" => self.crash(rt, words),
            "recover" => self.recover(rt, program, com),
            what => self.call(rt, program, what, words),
        }
    }
}
