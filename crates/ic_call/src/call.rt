ghost use Rattle.std.specs.Prelude.{◌≡◌, ◌⊎◌, length};
ghost use Rattle.ic_base.specs.declared.limits.TheConstants.{COMPONENTS};
ghost use Rattle.def_syntax.specs.Commands.{command_of};
ghost use Rattle.ic_plan.specs.CommandViews.{names_seen};
ghost use Rattle.ic_run.specs.declared.opening.Opening.TheVariants.{Anew};
ghost use Rattle.ic_call.specs.Calls.{Answers, Ends, RefusesNamed, RunsNamed, RefusesLarge, RunsLarge};

use ic_audit::audit;
use ic_base::{Fault, Word};
use ic_disk::{Disk, Sink, Texts};
use ic_plan::{Command, Inputs, TextNames, command_of, large_texts, read_texts};
use ic_report::{DeviceCounts, NO_MEMORY, Why, end_with};
use ic_run::{Opening, run_texts, why_of_texts};
use std::alloc::Global;

/// Runs the named texts.
fn run_named<T: Texts, K: Sink, D: Disk + Drop>(
    alloc: Global,
    opening: Opening,
    names: TextNames<'_>,
    texts: &mut T,
    out: &mut K,
    disks: &mut Vec<D>,
) -> u8
    requires { length disks.old.items ≡ COMPONENTS }
    ensures { RefusesNamed D.Disk K.Sink disks.old.items disks.new.items out.old out.new result T.Texts texts.old texts.new (names_seen names.entry) ⊎ RunsNamed D.Disk K.Sink disks.old.items disks.new.items out.old out.new result T.Texts texts.old texts.new opening (names_seen names.entry) }
{
    match read_texts(alloc, Inputs::Plain, names, texts) {
        Ok(asked) => run_texts(alloc, opening, &asked, out, disks),
        Err(refused) => end_with(alloc, None, out, &why_of_texts(refused)),
    }
}

/// Runs the large run of a number.
fn run_large<K: Sink, D: Disk + Drop>(
    alloc: Global,
    number: u32,
    out: &mut K,
    disks: &mut Vec<D>,
) -> u8
    requires { length disks.old.items ≡ COMPONENTS }
    ensures { RefusesLarge D.Disk K.Sink disks.old.items disks.new.items out.old out.new result number ⊎ RunsLarge D.Disk K.Sink disks.old.items disks.new.items out.old out.new result number }
{
    match large_texts(alloc, number) {
        Ok(asked) => run_texts(alloc, Opening::Anew, &asked, out, disks),
        Err(refused) => end_with(alloc, None, out, &why_of_texts(refused)),
    }
}

/// Does what the words ask for over the disks.
fn answer<T: Texts, K: Sink, D: Disk + Drop>(
    alloc: Global,
    words: &Vec<Word>,
    texts: &mut T,
    out: &mut K,
    disks: &mut Vec<D>,
) -> u8
    requires { length disks.old.items ≡ COMPONENTS }
    ensures { Answers D.Disk K.Sink disks.old.items disks.new.items out.old out.new result T.Texts texts.old texts.new (command_of words.now.items) }
{
    match command_of(words.as_slice()) {
        None => end_with(alloc, None, out, &Why::Fault(Fault::Usage)),
        Some(Command::Run(names)) => run_named(alloc, Opening::Anew, names, texts, out, disks),
        Some(Command::Resume(names)) => run_named(alloc, Opening::Found, names, texts, out, disks),
        Some(Command::Audit(name)) => audit(alloc, name, texts, out, disks),
        Some(Command::Make(number)) => run_large(alloc, number, out, disks),
    }
}

/// Does what the words ask for over the disks, one for each component a scenario may have: a run, a run over the logs that
/// are found, an audit of them, or a large run. The status is 0 where it did all it was asked for and no count of faults rose
/// (docs/FORMATS.md, "Statuses").
pub fn run<T: Texts, K: Sink, D: Disk + Drop>(
    alloc: Global,
    words: &Vec<Word>,
    texts: &mut T,
    out: &mut K,
    disks: &mut Vec<D>,
) -> u8
    requires { length disks.old.items ≡ COMPONENTS }
    ensures answers { Ends D.Disk K.Sink T.Texts disks.old.items disks.new.items out.old out.new texts.old texts.new result (command_of words.now.items) }
{
    let Ok(counts) = DeviceCounts::of(alloc, texts, out, disks.as_slice()) else {
        return NO_MEMORY;
    };
    match answer(alloc, words, texts, out, disks) {
        0 => counts.status(texts, out, disks.as_slice()),
        status => status,
    }
}
