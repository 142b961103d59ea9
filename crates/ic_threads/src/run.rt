ghost use Rattle.std.specs.Prelude.{◌≡◌, ◌⊎◌, ◌+◌, ◌≤◌, ◌<◌, length, option_map, OnOk, IfErr, IfSome};
ghost use Rattle.std.specs.List.{AllByRecursion};
ghost use Rattle.std.specs.Vec.{vec_len, vec_capacity};
ghost use Rattle.ic_base.specs.declared.limits.TheConstants.{COMPONENTS};
ghost use Rattle.ic_run.specs.Agendas.{MayCome, MayRun};
ghost use Rattle.ic_threads.specs.Completing.{Completes};
ghost use Rattle.ic_threads.specs.Runs.{FinishesOf, FailsToFinish, HandsBack, LivesOver, Lives, put_in};
ghost use Rattle.ic_world.specs.Allowing.{GoesOn};
ghost use Rattle.ic_world.specs.Opening.{disks_in};

use crate::concluding::conclude;
use crate::counting::together;
use crate::joined::{Joined, join};
use crate::refusing::refused_in;
use crate::serial::do_left;
use ic_base::{Program, Steps};
use ic_disk::{Disk, Sink, TornDisk};
use ic_joins::run_threads;
use ic_live::OpenGate;
use ic_plan::RunTexts;
use ic_report::{NO_MEMORY, Why, end_as};
use ic_run::{Tally, put_back, take_disks, why_of_cut};
use std::alloc::Global;
use std::marker::Brand;
use std::sync::Wait;
use std::sync::ledger::{Blank, Ledger};
use std::thread::Threads;

/// What comes back of a run: the disks of its components, unless memory was wanting; and how it ended.
type Ended<D> = (Option<Vec<D>>, Result<(), Why>);

/// Does what is left behind the joins, and prints the outputs and the summary of both phases.
fn finish<K: Sink, D: Disk, L: Ledger>(
    alloc: Global,
    texts: &RunTexts,
    joined: &mut Joined<TornDisk<D>>,
    out: &mut K,
    steps: &mut Steps<L>,
) -> Result<(), Why>
    requires world { GoesOn texts.now.program joined.old.world }
    requires events { AllByRecursion (MayCome texts.now.program) joined.old.left }
    ensures done { OnOk result (FinishesOf D.Disk K.Sink texts.now joined.old joined.new out.old out.new) }
    ensures cut { IfErr result (FailsToFinish D.Disk K.Sink texts.now joined.old joined.new out.old out.new) }
{
    let serial = match do_left(
        alloc,
        &mut joined.world,
        &texts.program,
        &texts.policy,
        joined.left.as_slice(),
        Tally::none(),
        &mut joined.shown,
        steps,
    ) {
        Ok(serial) => serial,
        Err(cut) => return Err(why_of_cut(&texts.fingerprint, cut)),
    };
    let Some(tally) = together(joined.tally, serial) else {
        return Err(Why::Memory);
    };
    conclude(
        alloc,
        &texts.program,
        texts.policy.report,
        tally,
        joined.played,
        joined.shown.as_slice(),
        &joined.world,
        out,
    )
}

/// Runs texts over the disks of the components. Each record that a recovery plays behind the joins is counted as one step in a ledger, which
/// is made from a blank.
fn live_over<K: Sink, D: Disk + Drop + Send, L: Ledger, R: Threads + Wait + Sync>(
    rt: &R,
    alloc: Global,
    texts: &RunTexts,
    out: &mut K,
    disks: Vec<D>,
    blank: Blank,
) -> Ended<D>
    requires name { blank.name ≡ L.name }
    requires parts { blank.parts ≡ L.parts }
    requires some { 0 < blank.parts }
    requires may { MayRun texts.now }
    requires lane { 1 ≤ texts.now.policy.lane }
    requires disks { length disks.items ≡ disks_in texts.now.program.components }
    ensures lives { LivesOver D.Disk K.Sink texts.now disks.items (option_map (λ v. v.items) result.0) out.old out.new result.1 }
    ensures count { IfSome result.0 (λ back. length back.items ≡ disks_in texts.now.program.components) }
{
    let count = disks.len();
    let Ok(mut back) = Vec::with_capacity(alloc, count) else {
        return (Some(disks), Err(Why::Memory));
    };
    let plan = texts.schedule.events.as_slice();
    let returned = match run_threads(
        rt,
        alloc,
        &texts.program,
        &texts.fingerprint,
        disks,
        plan,
        &texts.policy,
        &OpenGate,
    ) {
        Ok(returned) => returned,
        Err(refused) => {
            let (disks, why) = refused_in(alloc, texts, count, refused);
            return (disks, Err(why));
        }
    };
    let Ok(mut joined) = join(alloc, texts, returned) else {
        return (None, Err(Why::Memory));
    };
    let mut steps: Steps<L> = Steps::from_blank(blank);
    let ended = finish(alloc, texts, &mut joined, out, &mut steps);
    joined.world.into_disks(&mut back);
    (Some(back), ended)
}

/// Puts the disks that came back into the places of their components.
fn hand_back<D: Drop>(program: &Program, disks: &mut Vec<D>, back: Option<Vec<D>>)
    requires count { IfSome back (λ b. length b.items ≡ disks_in program.now.components) }
    requires enough { IfSome back (λ b. length program.now.components ≤ length disks.old.items + length b.items) }
    requires room { IfSome back (λ b. vec_len disks.old + vec_len b ≤ vec_capacity disks.old) }
    ensures { disks.new.items ≡ put_in program.now disks.old.items (option_map (λ v. v.items) back) }
{
    if let Some(back) = back {
        put_back(program, disks, back);
    }
}

/// Runs what texts ask for over blank disks, in threads and behind their joins, and prints its outputs and its summary. The disk at the
/// place of each Pcom and Tcom is its own; all others aren't touched. All are handed back, but where memory was wanting. The status is 0 where
/// it did all it was asked for (docs/FORMATS.md, "Statuses"). It may wait for locks.
pub fn live_texts<K: Sink, D: Disk + Drop + Send, R: Threads + Wait + Sync>(
    rt: &R,
    alloc: Global,
    texts: &RunTexts,
    out: &mut K,
    disks: &mut Vec<D>,
) -> u8
    requires disks { length disks.old.items ≡ COMPONENTS }
    requires may { MayRun texts.now }
    requires lane { 1 ≤ texts.now.policy.lane }
    ensures lives { Lives D.Disk K.Sink texts.now disks.old.items disks.new.items out.old out.new result }
    ensures disks { (result ≡ 12) ⊎ HandsBack texts.now.program disks.old.items disks.new.items }
    ensures completes { Completes D.Disk K.Sink texts.now disks.old.items disks.new.items out.old out.new result }
{
    let Ok(taken) = take_disks(alloc, &texts.program, disks) else {
        return NO_MEMORY;
    };
    let blank = Blank::new(1);
    let (back, ended) = live_over::<K, D, Brand, R>(rt, alloc, texts, out, taken, blank);
    hand_back(&texts.program, disks, back);
    match ended {
        Ok(()) => 0,
        Err(why) => end_as(alloc, b"iclive", Some(&texts.program), out, &why),
    }
}
