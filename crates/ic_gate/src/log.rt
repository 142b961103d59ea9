ghost use Rattle.std.specs.Prelude.{◌≡◌, ◌+◌, ◌<◌, ◌≤◌, false, true, length, Some, is_some};
ghost use Rattle.std.proofs.Props.{props};
ghost use Rattle.std.specs.Coded.{Coded-set, coded_list, coded_ℕ};
ghost use Rattle.ic_base.specs.declared.limits.TheConstants.{FIRST_GATE, LOG_BYTES};
ghost use Rattle.def_log.specs.Directory.{slots_in};
ghost use Rattle.def_log.specs.Images.{LeavesJust};
ghost use Rattle.ic_gate.specs.Behind.{room_for, room_to_mark};
ghost use Rattle.def_log.specs.Changes.{gate_from, forced_from, is_start};

use crate::device::{write_gated, write_slot};
use crate::directory::Directory;
use crate::fresh::begin;
use crate::load::read_log;
use crate::reading::ClosedGate;
use crate::refusals::refusal_of;
use crate::tail::read_tail;
use crate::write_buffer::WriteBuffer;
use crate::{AppendRefused, Batches, ForceRefused, LoadRefused};
use ic_base::limits::{FIRST_GATE, LOG_BYTES, SLOTS};
use ic_disk::Disk;
use std::alloc::Global;

/// A log on a disk of its own (docs/FORMATS.md, "The log").
#[derive(Drop)]
pub struct Log<D: Disk> {
    pub(crate) disk: D,
    /// The offset of the closed gate.
    gate: u64,
    /// The gate from which positions are counted: the first one, or that of the tail by which the log was loaded.
    start: u64,
    /// How many payload bytes the batches from there on have.
    forced: u64,
    /// The open slots.
    directory: Directory,
    /// The gate of the batch that the last changing call forced, if it was a force that wrote one.
    last: Option<u64>,
    buffered: WriteBuffer,
    closed: bool,
    ghost at_gate: { D.tells disk → closed ≡ false → gate_from start (D.seen disk) ≡ Some gate } by { Prim.hlevel props },
    ghost counted: { D.tells disk → closed ≡ false → forced_from start (D.seen disk) ≡ Some forced } by { Prim.hlevel props },
    ghost listed: { D.tells disk → closed ≡ false → slots_in (D.seen disk) ≡ directory } by { Prim.hlevel (props, Coded-set (coded_list coded_ℕ)) },
    // While the log is open a crash leaves just what a read gives. Crates above may rely on it.
    pub ghost durable: { D.keeps disk → closed ≡ false → LeavesJust (D.may_leave disk) (D.seen disk) } by { Prim.hlevel props },
    // Nothing waits for a sync, so no crash or stop behind this moment touches what stands.
    pub ghost settled: { closed ≡ false → D.settled disk ≡ true } by { Prim.hlevel props },
    ghost begun: { is_start start directory ≡ true } by { Prim.hlevel props },
    ghost high: { FIRST_GATE ≤ start },
    ghost short: { gate < LOG_BYTES },
    ghost few: { start + forced ≤ gate },
    ghost fits: { 0 < length buffered → gate + 6 + length buffered ≤ LOG_BYTES },
    ghost reserved: { closed ≡ false → 0 < length buffered → room_for buffered + room_to_mark ≤ D.spare disk },
    ghost to_mark: { closed ≡ false → is_some last ≡ true → room_to_mark ≤ D.spare disk },
    ghost alone: { is_some last ≡ true → length buffered ≡ 0 } by { Prim.hlevel props },
    ghost last_short: { (offset : _) → last ≡ Some offset → offset < LOG_BYTES } by { Prim.hlevel props },
}

impl<D: Disk> Log<D> {
    ghost use Rattle.std.specs.Prelude.{◌≡◌, ◌+◌, ◌<◌, ◌≤◌, [], ℕ, length, Some, None, Err, is_ok, is_some, slice_get, unwrap_or, OnOk, IfOk, IfErr, true, false};
    ghost use Rattle.def_log.specs.Sizes.{size_in};
    ghost use Rattle.ic_disk.specs.Disk.{Keeps, Rests, Makes, CrashLeaves};
    ghost use Rattle.ic_gate.specs.Creating.{create_calls, RefusesToCreate};
    ghost use Rattle.ic_gate.specs.Reading.{load_calls, tail_calls, Stands, RefusesToLoad, RefusesToLoadTail};
    ghost use Rattle.ic_gate.specs.Calls.{Appends, KeepsBatches, FailsToAppend, Forces, FailsToForce, IsBeforeOrBehind, force_calls, Marks, IsBeforeOrMarked, mark_calls, IsFault, disk_left, disk_loaded, disk_tail_loaded, IsOver, Creates, Loads, LoadsTail};
    ghost use Rattle.ic_gate.specs.Logs.{disk_of, size_of, forced_of, buffered_of, slots_of, last_of, is_closed};

    /// A log of no batches on an empty disk: the header and the first gate, synced.
    pub fn create(
        alloc: Global,
        disk: D,
        fingerprint: &[u8; 32],
        owner: u8,
    ) -> Result<Log<D>, LoadRefused<D>>
        requires { D.tells disk → D.seen disk ≡ [] }
        ensures step { IfOk result (Creates D.Disk disk fingerprint.now owner) }
        ensures disk { Keeps D.Disk disk (disk_left result) }
        ensures calls { Makes D.Disk (create_calls fingerprint.now owner) (is_ok result) (IsFault result) disk (disk_left result) }
        ensures refused { IfErr result (λ refused. RefusesToCreate D.Disk disk refused.disk refused.why) }
    {
        let mut disk = disk;
        match begin(alloc, &mut disk, fingerprint, owner) {
            Ok((directory, buffered)) => Ok(Log {
                disk,
                gate: FIRST_GATE,
                start: FIRST_GATE,
                forced: 0,
                directory,
                last: None,
                buffered,
                closed: false,
            }),
            Err(why) => Err(LoadRefused { disk, why }),
        }
    }

    /// An open log that stands on a disk, with nothing buffered.
    pub(crate) fn over(
        disk: D,
        start: u64,
        closed: ClosedGate,
        directory: Directory,
        buffered: WriteBuffer,
    ) -> Log<D>
        requires stands { Stands D.Disk disk start closed.at closed.forced directory }
        requires begun { is_start start directory ≡ true }
        requires high { FIRST_GATE ≤ start }
        requires short { closed.at < LOG_BYTES }
        requires few { start + closed.forced ≤ closed.at }
        requires empty { buffered ≡ [] }
        ensures { IsOver D.Disk disk start closed.at closed.forced directory result }
    {
        Log {
            disk,
            gate: closed.at,
            start,
            forced: closed.forced,
            directory,
            last: None,
            buffered,
            closed: false,
        }
    }

    /// The log that a disk holds, with its batches. It syncs, asks for the length and reads the whole file once.
    pub fn load(
        alloc: Global,
        disk: D,
        fingerprint: &[u8; 32],
        owner: u8,
    ) -> Result<(Log<D>, Batches), LoadRefused<D>>
        ensures step { IfOk result (Loads D.Disk disk fingerprint.now owner) }
        ensures disk { Keeps D.Disk disk (disk_loaded result) }
        // It writes nothing, so a crash leaves nothing more.
        ensures crash { CrashLeaves D.Disk disk (disk_loaded result) (D.may_leave disk) }
        ensures calls { Makes D.Disk load_calls (is_ok result) (IsFault result) disk (disk_loaded result) }
        ensures refused { IfErr result (λ refused. RefusesToLoad D.Disk disk fingerprint.now owner refused.disk refused.why) }
    {
        let mut disk = disk;
        match read_log(alloc, &mut disk, fingerprint, owner) {
            Ok((frame, directory, buffered)) => Ok((
                Log {
                    disk,
                    gate: frame.gate,
                    start: frame.start,
                    forced: frame.forced,
                    directory,
                    last: None,
                    buffered,
                    closed: false,
                },
                frame.batches,
            )),
            Err(why) => Err(LoadRefused { disk, why }),
        }
    }

    /// The log that a disk holds, with the batches of its tail, and the place of the slot that names the first of them. It syncs,
    /// asks for the length, and reads the header and the tail. Positions are counted from the first payload byte of the tail.
    pub fn load_tail(
        alloc: Global,
        disk: D,
        fingerprint: &[u8; 32],
        owner: u8,
    ) -> Result<(Log<D>, Batches, Option<u64>), LoadRefused<D>>
        ensures step { IfOk result (LoadsTail D.Disk disk fingerprint.now owner) }
        ensures disk { Keeps D.Disk disk (disk_tail_loaded result) }
        // It writes nothing, so a crash leaves nothing more.
        ensures crash { CrashLeaves D.Disk disk (disk_tail_loaded result) (D.may_leave disk) }
        ensures calls { Makes D.Disk tail_calls (is_ok result) (IsFault result) disk (disk_tail_loaded result) }
        ensures refused { IfErr result (λ refused. RefusesToLoadTail D.Disk disk fingerprint.now owner refused.disk refused.why) }
    {
        let mut disk = disk;
        match read_tail(alloc, &mut disk, fingerprint, owner) {
            Ok(tail) => Ok((
                Log {
                    disk,
                    gate: tail.frame.gate,
                    start: tail.frame.start,
                    forced: tail.frame.forced,
                    directory: tail.directory,
                    last: None,
                    buffered: tail.buffered,
                    closed: false,
                },
                tail.frame.batches,
                tail.slot,
            )),
            Err(why) => Err(LoadRefused { disk, why }),
        }
    }

    /// Adds to what the next force makes a batch, and makes room on the disk for that force and a mark.
    pub fn append(&mut self, alloc: Global, bytes: &[u8]) -> Result<(), AppendRefused>
        ensures step { OnOk result (Appends self.old bytes.now self.new) }
        ensures log { KeepsBatches self.old self.new }
        ensures disk { Rests D.Disk (disk_of self.old) (disk_of self.new) }
        ensures crash { CrashLeaves D.Disk (disk_of self.old) (disk_of self.new) (D.may_leave (disk_of self.old)) }
        ensures refused { IfErr result (FailsToAppend self.old bytes.now self.new) }
    {
        if self.closed {
            return Err(AppendRefused::Closed);
        }
        let taken = self.gate + 6 + self.buffered.len() as u64;
        if taken > LOG_BYTES || LOG_BYTES - taken < bytes.len() as u64 {
            return Err(AppendRefused::Full);
        }
        let room = self.buffered.len() + bytes.len() + 144;
        if self.disk.reserve(alloc, room).is_err() {
            return Err(AppendRefused::Memory);
        }
        self.buffered.extend(bytes)?;
        self.last = None;
        Ok(())
    }

    /// Makes what is buffered a batch that stands: the batch is written and synced before its gate is opened and synced.
    /// It takes no memory.
    pub fn force(&mut self) -> Result<(), ForceRefused>
        ensures step { OnOk result (Forces self.old self.new) }
        ensures still { buffered_of self.old ≡ [] → disk_of self.new ≡ disk_of self.old }
        ensures disk { Keeps D.Disk (disk_of self.old) (disk_of self.new) }
        // A crash at each moment of the call leaves the old batches, or these and the whole new one.
        ensures crash { is_closed self.old ≡ false →
            CrashLeaves D.Disk (disk_of self.old) (disk_of self.new) (IsBeforeOrBehind self.old) }
        ensures calls { Makes D.Disk (force_calls self.old) (is_ok result) (result ≡ Err ForceRefused.Failed) (disk_of self.old) (disk_of self.new) }
        ensures refused { IfErr result (FailsToForce self.old self.new) }
    {
        if self.closed {
            return Err(ForceRefused::Closed);
        }
        let added = self.buffered.len() as u64;
        if added == 0 {
            return Ok(());
        }
        match write_gated(&mut self.disk, self.gate, self.buffered.as_slice()) {
            Ok(()) => {
                self.last = Some(self.gate);
                self.gate += 5 + added;
                self.forced += added;
                self.buffered.clear();
                Ok(())
            }
            Err(error) => {
                self.closed = true; // How much of the batch stands isn't known.
                Err(refusal_of(error))
            }
        }
    }

    /// Names the batch that the last call forced in the first slot that isn't open: the offset of its gate is written and synced
    /// before the slot's gate is opened and synced. Where all slots are open it does nothing. It takes no memory.
    pub fn mark(&mut self) -> Result<(), ForceRefused>
        requires { is_some (last_of self.old) ≡ true }
        ensures step { OnOk result (Marks self.old self.new (unwrap_or (last_of self.old) 0)) }
        ensures disk { Keeps D.Disk (disk_of self.old) (disk_of self.new) }
        // A crash at each moment of the call leaves the same batches, and the old directory or this slot too.
        ensures crash { is_closed self.old ≡ false →
            CrashLeaves D.Disk (disk_of self.old) (disk_of self.new) (IsBeforeOrMarked self.old (unwrap_or (last_of self.old) 0)) }
        ensures calls { Makes D.Disk (mark_calls self.old) (is_ok result) (result ≡ Err ForceRefused.Failed) (disk_of self.old) (disk_of self.new) }
        ensures refused { IfErr result (FailsToForce self.old self.new) }
    {
        if self.closed {
            return Err(ForceRefused::Closed);
        }
        let Some(offset) = self.last else {
            unreachable!()
        };
        let used = self.directory.len();
        if used == SLOTS {
            self.last = None;
            return Ok(());
        }
        match write_slot(&mut self.disk, used, offset) {
            Ok(()) => {
                self.directory.push(offset);
                self.last = None;
                Ok(())
            }
            Err(error) => {
                self.closed = true;
                Err(refusal_of(error))
            }
        }
    }

    /// The offset in the i-th open slot, counted from 0; None exactly past the last.
    pub fn slot(&self, i: u32) -> Option<u64>
        ensures { result ≡ slice_get (slots_of self.now) i }
    {
        self.directory.get(i as usize)
    }

    /// How many payload bytes stand on the disk.
    pub fn forced(&self) -> u64
        ensures { result ≡ forced_of self.now }
    {
        self.forced
    }

    /// How many payload bytes there are, forced and buffered.
    pub fn end(&self) -> u64
        ensures { result ≡ forced_of self.now + length (buffered_of self.now) }
    {
        self.forced + self.buffered.len() as u64
    }

    /// How many bytes of the file are the log.
    pub fn size(&self) -> u64
        ensures value { result ≡ size_of self.now }
        ensures short { result ≤ LOG_BYTES }
        ensures of_file { D.tells (disk_of self.now) → is_closed self.now ≡ false → (size : ℕ) →
            size_in (D.seen (disk_of self.now)) ≡ Some size → size ≡ result }
    {
        self.gate + 1
    }

    /// Whether the log takes nothing more. Its disk can be loaded again.
    pub fn is_closed(&self) -> bool
        ensures { result ≡ is_closed self.now }
    {
        self.closed
    }

    /// Gives up the log; what is buffered is lost.
    pub fn into_disk(self) -> D
        ensures { result ≡ disk_of self }
    {
        self.disk
    }
}
