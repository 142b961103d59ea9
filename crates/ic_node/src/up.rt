ghost use Rattle.std.specs.Prelude.{◌≡◌, ◌&&◌, cond, ◌+◌, ◌≤◌, true, length, is_ok, IfOk, IfErr};
ghost use Rattle.ic_disk.specs.Disk.{Keeps, CrashLeaves};
ghost use Rattle.ic_base.specs.declared.events.Answer.TheVariants as answers;
ghost use Rattle.ic_pcom.specs.Views.{component_of, played_of};
ghost use Rattle.ic_tcom.specs.Recovering.{IsBeforeOrBegun};
ghost use Rattle.def_step.specs.World.{load_calls};
ghost use Rattle.ic_gate.specs.Reading as reading;
ghost use Rattle.ic_node.specs.DeviceCalls.{AreMade, is_up};
ghost use Rattle.ic_node.specs.Loading.{IsLoaded, disk_loaded};
ghost use Rattle.ic_node.specs.TcomComing.{TcomEnds, TcomFails, tcom_disk};
ghost use Rattle.ic_node.specs.ComingUp.{IsBeyondLoad, PcomIsUp, PcomFails, FailsToLoadTail, pcom_disk, told_up, is_halt, in_load};
ghost use Rattle.ic_disk.specs.Torns.{is_working};

use crate::done::Done;
use crate::load::reloaded;
use crate::stop::NEVER;
use ic_base::{Answer, ComId, Program, Steps, Stop, is_a_tcom};
use ic_disk::{Disk, TornDisk};
use ic_gate::{EncodedRecords, LoadRefused, LoadWhy, load_encoded, load_tail_records};
use ic_pcom::{Pcom, Step};
use ic_tcom::Tcom;
use std::alloc::Global;
use std::sync::ledger::Ledger;

/// Whether a load or a recovery was cut off by its stop.
pub(crate) fn is_cut(reached: bool, why: LoadWhy) -> bool
    ensures { result ≡ (reached && is_halt why) }
{
    match why {
        LoadWhy::Stopped => reached,
        _ => false,
    }
}

/// The device calls of a recovery's load.
pub(crate) fn calls_of_load(program: &Program, com: ComId) -> u32
    ensures { result ≡ load_calls program.now «com» }
{
    if is_a_tcom(program, com) { 3 } else { 4 }
}

/// The stop of a recovery, where it lies within a load of so many device calls.
pub(crate) fn stop_in_load(calls: u32, stop: Option<Stop>) -> Option<Stop>
    ensures { result ≡ in_load calls stop }
{
    match stop {
        Some(stop) => { if stop.call <= calls { Some(stop) } else { None } }
        None => None,
    }
}

/// The records of a component's log whose load is cut off by a stop: it is loaded whole once more behind it.
pub(crate) fn cut_load<D: Disk>(
    alloc: Global,
    program: &Program,
    com: ComId,
    disk: TornDisk<D>,
    fingerprint: &[u8; 32],
    stop: Stop,
) -> Result<(TornDisk<D>, EncodedRecords), LoadRefused<TornDisk<D>>>
    requires works { is_working ⟦<TornDisk<D> as Disk>⟧ disk ≡ true }
    requires settled { ⟦<TornDisk<D> as Disk>⟧.settled disk ≡ true }
    requires first { 1 ≤ stop.call }
    requires within { stop.call ≤ load_calls program.now «com» }
    ensures step { IfOk result (IsLoaded D.Disk disk fingerprint.now «com».0) }
    ensures disk { Keeps ⟦<TornDisk<D> as Disk>⟧ disk (disk_loaded result) }
    ensures crash { CrashLeaves ⟦<TornDisk<D> as Disk>⟧ disk (disk_loaded result) (⟦<TornDisk<D> as Disk>⟧.may_leave disk) }
    ensures calls { (disk_loaded result).made ≤ disk.made + (stop.call + length reading.load_calls) }
    ensures refused { IfErr result (FailsToLoadTail D.Disk disk fingerprint.now «com».0) }
{
    let mut disk = disk;
    disk.arm(stop);
    let refused = if is_a_tcom(program, com) {
        let loaded = load_encoded(alloc, disk, fingerprint, com.0);
        let Err(refused) = loaded else { unreachable!() };
        refused
    } else {
        let loaded = load_tail_records(alloc, disk, fingerprint, com.0);
        let Err(refused) = loaded else { unreachable!() };
        refused
    };
    let mut disk = refused.disk;
    let reached = disk.disarm();
    if is_cut(reached, refused.why) {
        return reloaded(alloc, com, disk, fingerprint);
    }
    Err(LoadRefused {
        disk,
        why: refused.why,
    })
}

/// A Pcom comes up from its log, whose load its stop doesn't cut off.
pub(crate) fn pcom_up<D: Disk, L: Ledger>(
    alloc: Global,
    program: &Program,
    com: ComId,
    disk: TornDisk<D>,
    fingerprint: &[u8; 32],
    stop: Stop,
    steps: &mut Steps<L>,
) -> Result<(Pcom<TornDisk<D>>, Step), LoadRefused<TornDisk<D>>>
    requires works { is_working ⟦<TornDisk<D> as Disk>⟧ disk ≡ true }
    requires beyond { IsBeyondLoad 4 stop }
    ensures step { IfOk result (PcomIsUp D.Disk program.now «com» disk) }
    ensures disk { Keeps ⟦<TornDisk<D> as Disk>⟧ disk (pcom_disk result) }
    ensures crash { CrashLeaves ⟦<TornDisk<D> as Disk>⟧ disk (pcom_disk result) (⟦<TornDisk<D> as Disk>⟧.may_leave disk) }
    ensures calls { AreMade stop 4 (is_ok result) disk.made (pcom_disk result).made }
    ensures refused { IfErr result (PcomFails D.Disk program.now «com» disk fingerprint.now) }
    ensures steps { IfOk result (λ up. steps.new ≡ steps.old + played_of up.0) }
{
    let mut disk = disk;
    disk.arm(stop);
    match Pcom::recover(alloc, program, com, disk, fingerprint, steps) {
        Ok((mut pcom, told)) => {
            pcom.arm(NEVER);
            Ok((pcom, told))
        }
        Err(refused) => Err(refused),
    }
}

/// The answer of a Pcom that came up.
fn up_answer(replays: bool) -> Answer
    ensures { result ≡ cond replays answers.Replaying answers.Up }
{
    if replays {
        Answer::Replaying
    } else {
        Answer::Up
    }
}

/// What is told of a Pcom that came up.
pub(crate) fn done_up<D: Disk>(pcom: &Pcom<D>, told: Step) -> Done
    ensures { result ≡ told_up (component_of pcom.now) told (played_of pcom.now) }
{
    Done {
        answer: up_answer(pcom.is_replaying()),
        puts: told.puts,
        shown: told.shown,
        aborted: told.aborted,
        played: pcom.played(),
    }
}

/// How a recovery of a Tcom ends that isn't refused.
#[derive(Drop)]
pub(crate) enum Recovery<D: Disk> {
    /// It is up.
    Up(Tcom<D>),
    /// Its stop cut off the force of the next epoch's record; this is its disk.
    Cut(D),
}

/// A Tcom comes up from its log, whose load its stop doesn't cut off, in the next epoch.
pub(crate) fn tcom_up<D: Disk>(
    alloc: Global,
    program: &Program,
    com: ComId,
    disk: TornDisk<D>,
    fingerprint: &[u8; 32],
    stop: Stop,
) -> Result<Recovery<TornDisk<D>>, LoadRefused<TornDisk<D>>>
    requires works { is_working ⟦<TornDisk<D> as Disk>⟧ disk ≡ true }
    requires settled { ⟦<TornDisk<D> as Disk>⟧.settled disk ≡ true }
    requires beyond { IsBeyondLoad 3 stop }
    ensures step { IfOk result (TcomEnds D.Disk program.now «com» disk stop) }
    ensures disk { Keeps ⟦<TornDisk<D> as Disk>⟧ disk (tcom_disk result) }
    ensures crash { CrashLeaves ⟦<TornDisk<D> as Disk>⟧ disk (tcom_disk result) (IsBeforeOrBegun ⟦<TornDisk<D> as Disk>⟧ program.now «com» disk) }
    ensures calls { AreMade stop 7 (is_up result) disk.made (tcom_disk result).made }
    ensures refused { IfErr result (TcomFails D.Disk program.now «com» disk fingerprint.now) }
{
    let mut disk = disk;
    disk.arm(stop);
    match Tcom::recover(alloc, program, com, disk, fingerprint) {
        Ok(mut tcom) => {
            tcom.arm(NEVER);
            Ok(Recovery::Up(tcom))
        }
        Err(refused) => {
            let mut disk = refused.disk;
            let reached = disk.disarm();
            if is_cut(reached, refused.why) {
                return Ok(Recovery::Cut(disk));
            }
            Err(LoadRefused {
                disk,
                why: refused.why,
            })
        }
    }
}
