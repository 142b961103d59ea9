use crate::disks::{CallDisk, PRINT, behind_cut, stop};
use case_words::{Words, no_call, packet, say, tell};
use ic_base::limits::COMPONENTS;
use ic_base::{ComId, Packet, Program, Request, Session};
use ic_disk::{MemDisk, TornDisk};
use ic_gate::Log;
use ic_tcom::Tcom;
use std::alloc::Global;
use std::{io, mem};

/// A Tcom that is up, or the disk that its crash left.
#[derive(Drop)]
pub struct Bank {
    com: ComId,
    tcom: Option<Tcom<CallDisk>>,
    disk: Option<CallDisk>,
}

/// One over a blank disk; no write goes past its capacity, and some calls fail.
fn fresh(
    alloc: Global,
    program: &Program,
    com: ComId,
    capacity: usize,
    failing: &[u64],
) -> Option<Tcom<CallDisk>> {
    let disk = MemDisk::new(alloc, b"", capacity, failing).ok()?;
    let Ok(log) = Log::create(alloc, TornDisk::new(alloc, disk), &PRINT, com.0) else {
        return None;
    };
    match Tcom::fresh(alloc, program, com, log) {
        Ok(tcom) => Some(tcom),
        Err(_) => None,
    }
}

/// Serves a packet, if the Tcom is open.
fn serve(
    rt: &HostRuntime,
    program: &Program,
    tcom: &mut Tcom<CallDisk>,
    p: &Packet,
) -> io::Result<()> {
    if tcom.is_closed() || program.components.len() > COMPONENTS {
        return say(rt, "closed");
    }
    tell(rt, &tcom.on_packet(rt.alloc(), program, p))
}

/// Whether a packet is answered.
fn is_served(alloc: Global, program: &Program, tcom: &mut Tcom<CallDisk>, p: &Packet) -> bool {
    if tcom.is_closed() || program.components.len() > COMPONENTS {
        return false;
    }
    matches!(tcom.on_packet(alloc, program, p), Ok(Some(_)))
}

/// A put of 7 in a first request, and the commit behind it.
fn put_and_commit(from: ComId, to: ComId, n: u64) -> [Packet; 2] {
    let session = Session {
        epoch: 1,
        counter: n,
    };
    let put = Packet::Op {
        from,
        to,
        n,
        place: 0,
        session: None,
        request: Request::Put(0, 7),
    };
    let commit = Packet::Commit {
        from,
        to,
        n,
        place: 1,
        session,
        stamp: 0,
    };
    [put, commit]
}

/// How many of the packets of so many transactions are answered.
fn serve_many(
    alloc: Global,
    program: &Program,
    tcom: &mut Tcom<CallDisk>,
    to: ComId,
    words: &mut Words<'_>,
) -> u32 {
    let (from, count) = (words.com(), words.medium());
    let mut served = 0_u32;
    for i in 0..count {
        let [put, commit] = put_and_commit(from, to, u64::from(i) + 1);
        if is_served(alloc, program, tcom, &put) {
            served = served.wrapping_add(1);
        }
        if is_served(alloc, program, tcom, &commit) {
            served = served.wrapping_add(1);
        }
    }
    served
}

/// Prints the records of its log.
fn tell_records(rt: &HostRuntime, tcom: &Tcom<CallDisk>) -> io::Result<()> {
    let records = tcom.records().records(rt.alloc())?;
    tell(rt, &records.as_slice())
}

/// Prints how it stands.
fn state(rt: &HostRuntime, tcom: &Tcom<CallDisk>) -> io::Result<()> {
    println!(rt;
        "{} {} {}",
        tcom.epoch(),
        tcom.records().len(),
        tcom.is_closed()
    )
}

/// What is read of one.
fn read(
    rt: &HostRuntime,
    tcom: &Tcom<CallDisk>,
    what: &str,
    words: &mut Words<'_>,
) -> io::Result<()> {
    match what {
        "ledger" => tell(rt, &tcom.ledger(words.place())),
        "decided" => tell(rt, &tcom.decided(words.com(), words.number())),
        "records" => tell_records(rt, tcom),
        "state" => state(rt, tcom),
        other => no_call(rt, other),
    }
}

/// Serves the packet that the words are.
fn get(
    rt: &HostRuntime,
    program: &Program,
    tcom: &mut Tcom<CallDisk>,
    words: &mut Words<'_>,
) -> io::Result<()> {
    match packet(rt.alloc(), words)? {
        Some(p) => serve(rt, program, tcom, &p),
        None => say(rt, "no packet"),
    }
}

/// Sets a stop.
fn arm(rt: &HostRuntime, tcom: &mut Tcom<CallDisk>, words: &mut Words<'_>) -> io::Result<()> {
    tcom.arm(stop(words));
    say(rt, "armed")
}

/// Makes a call on one that is up.
fn call(
    rt: &HostRuntime,
    program: &Program,
    com: ComId,
    tcom: &mut Tcom<CallDisk>,
    what: &str,
    words: &mut Words<'_>,
) -> io::Result<()> {
    match what {
        "get" => get(rt, program, tcom, words),
        "many" => tell(rt, &serve_many(rt.alloc(), program, tcom, com, words)),
        "arm" => arm(rt, tcom, words),
        "disarm" => tell(rt, &tcom.disarm()),
        _ => read(rt, tcom, what, words),
    }
}

impl Bank {
    /// None.
    pub fn new() -> Bank {
        Bank {
            com: ComId(0),
            tcom: None,
            disk: None,
        }
    }

    fn begin(
        &mut self,
        rt: &HostRuntime,
        program: &Program,
        words: &mut Words<'_>,
    ) -> io::Result<()> {
        self.com = words.com();
        let capacity = words.medium() as usize;
        let failing = words.numbers(rt.alloc())?;
        self.begin_over(rt.alloc(), program, capacity, failing.as_slice());
        tell(rt, &self.tcom.is_some())
    }

    /// A fresh one over a blank disk, if there is one, takes the place of what was there.
    fn begin_over(&mut self, alloc: Global, program: &Program, capacity: usize, failing: &[u64]) {
        drop(mem::replace(
            &mut self.tcom,
            fresh(alloc, program, self.com, capacity, failing),
        ));
    }

    fn crash(&mut self, rt: &HostRuntime, words: &mut Words<'_>) -> io::Result<()> {
        let capacity = words.medium() as usize;
        let failing = words.numbers(rt.alloc())?;
        self.cut(rt, capacity, failing.as_slice())
    }

    /// Its disk behind a power cut, if there is one.
    fn cut(&mut self, rt: &HostRuntime, capacity: usize, failing: &[u64]) -> io::Result<()> {
        let Some(tcom) = self.tcom.take() else {
            return say(rt, "no Tcom");
        };
        let disk = behind_cut(rt, tcom.crash(), capacity, failing)?;
        drop(mem::replace(&mut self.disk, Some(disk)));
        Ok(())
    }

    fn recover(&mut self, rt: &HostRuntime, program: &Program) -> io::Result<()> {
        let Some(disk) = self.disk.take() else {
            return say(rt, "no disk");
        };
        match Tcom::recover(rt.alloc(), program, self.com, disk, &PRINT) {
            Ok(tcom) => {
                self.stands(tcom);
                say(rt, "up")
            }
            Err(refused) => {
                self.is_left(refused.disk);
                tell(rt, &refused.why)
            }
        }
    }

    fn stands(&mut self, tcom: Tcom<CallDisk>) {
        drop(mem::replace(&mut self.tcom, Some(tcom)));
    }

    fn is_left(&mut self, disk: CallDisk) {
        drop(mem::replace(&mut self.disk, Some(disk)));
    }

    /// Makes the call of a line on the Tcom.
    pub fn answer(
        &mut self,
        rt: &HostRuntime,
        program: &Program,
        words: &mut Words<'_>,
    ) -> io::Result<()> {
        match words.word() {
            "new" => self.begin(rt, program, words),
            "crash" => self.crash(rt, words),
            "recover" => self.recover(rt, program),
            what => match &mut self.tcom {
                Some(tcom) => call(rt, program, self.com, tcom, what, words),
                None => say(rt, "no Tcom"),
            },
        }
    }
}
