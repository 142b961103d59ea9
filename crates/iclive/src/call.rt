ghost use Rattle.std.specs.Prelude.{◌≡◌, ◌⊎◌, length, option_map};
ghost use Rattle.ic_base.specs.declared.limits.TheConstants.{COMPONENTS};
ghost use Rattle.ic_plan.specs.CommandViews.{names_seen};
ghost use Rattle.iclive.specs.Calls.{Answers, Ends, RefusesNamed, RunsNamed};
ghost use Rattle.iclive.specs.Words.{named_by};

use ic_base::{Fault, Word};
use ic_disk::{Disk, Sink, Texts};
use ic_plan::{Inputs, TextNames, any_dashed, names_in, read_texts};
use ic_report::{DeviceCounts, NO_MEMORY, Why, end_as};
use ic_run::why_of_texts;
use ic_threads::live_texts;
use std::alloc::Global;
use std::sync::Wait;
use std::thread::Threads;

/// What the words name: the texts of a scenario, a plan and maybe a policy. No word begins with `-`.
fn named_by<'a>(words: &'a [Word]) -> Option<TextNames<'a>>
    ensures { option_map names_seen result ≡ named_by words.now }
{
    if any_dashed(words) {
        None
    } else {
        names_in(words)
    }
}

/// Runs the named texts.
fn live_named<T: Texts, K: Sink, D: Disk + Drop + Send, R: Threads + Wait + Sync>(
    rt: &R,
    alloc: Global,
    names: TextNames<'_>,
    texts: &mut T,
    out: &mut K,
    disks: &mut Vec<D>,
) -> u8
    requires { length disks.old.items ≡ COMPONENTS }
    ensures { RefusesNamed D.Disk K.Sink disks.old.items disks.new.items out.old out.new result T.Texts texts.old texts.new (names_seen names.entry) ⊎ RunsNamed D.Disk K.Sink disks.old.items disks.new.items out.old out.new result T.Texts texts.old texts.new (names_seen names.entry) }
{
    match read_texts(alloc, Inputs::Plain, names, texts) {
        Ok(asked) => live_texts(rt, alloc, &asked, out, disks),
        Err(refused) => end_as(alloc, b"iclive", None, out, &why_of_texts(refused)),
    }
}

/// Does what the words ask for.
fn answer<T: Texts, K: Sink, D: Disk + Drop + Send, R: Threads + Wait + Sync>(
    rt: &R,
    alloc: Global,
    words: &Vec<Word>,
    texts: &mut T,
    out: &mut K,
    disks: &mut Vec<D>,
) -> u8
    requires { length disks.old.items ≡ COMPONENTS }
    ensures { Answers D.Disk K.Sink disks.old.items disks.new.items out.old out.new result T.Texts texts.old texts.new (named_by words.now.items) }
{
    match named_by(words.as_slice()) {
        None => end_as(alloc, b"iclive", None, out, &Why::Fault(Fault::Usage)),
        Some(names) => live_named(rt, alloc, names, texts, out, disks),
    }
}

/// Runs the texts that the words name, in threads and behind their joins, over the disks, one for each component a scenario may have. The
/// status is 0 where it did all it was asked for and no count of faults rose (docs/FORMATS.md, "Statuses"). It may wait for locks.
pub fn live<T: Texts, K: Sink, D: Disk + Drop + Send, R: Threads + Wait + Sync>(
    rt: &R,
    alloc: Global,
    words: &Vec<Word>,
    texts: &mut T,
    out: &mut K,
    disks: &mut Vec<D>,
) -> u8
    requires { length disks.old.items ≡ COMPONENTS }
    ensures answers { Ends D.Disk K.Sink T.Texts disks.old.items disks.new.items out.old out.new texts.old texts.new result (named_by words.now.items) }
{
    let Ok(counts) = DeviceCounts::of(alloc, texts, out, disks.as_slice()) else {
        return NO_MEMORY;
    };
    match answer(rt, alloc, words, texts, out, disks) {
        0 => counts.status(texts, out, disks.as_slice()),
        status => status,
    }
}
