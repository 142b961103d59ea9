ghost use Rattle.std.specs.Prelude.{◌≡◌, ◌≤◌, ◌⊎◌, ◌++◌, ◌∷◌, [], length};
ghost use Rattle.std.specs.List.{AllByRecursion};
ghost use Rattle.ic_base.specs.declared.limits.TheConstants.{COMPONENTS};
ghost use Rattle.def_two.specs.Ends.{AreOpenings};
ghost use Rattle.def_two.specs.Runs.{IsEvent2};
ghost use Rattle.ic_script.specs.Reading.{openings_in, the_script};
ghost use Rattle.ic_more.specs.Calls.{RunsThis, RefusesNamed, RunsNamed, RefusesTexts, ServesNamed, RefusesStandby, StandsByNamed, Answers, Ends};
ghost use Rattle.ic_more.specs.Words.{command_of};
ghost use Rattle.ic_plan.specs.CommandViews.{names_seen};

use crate::asking::{Asked, read_named};
use crate::command::{Command, command_of};
use crate::ending::{Fault2, Why2, end_with};
use crate::lending::{put_back, take_first};
use crate::running::run_over;
use ic_base::Word;
use ic_clients::run_clients;
use ic_disk::{Disk, Sink, Texts};
use ic_failover::{FailoverRefused, read_failover, run_failover};
use ic_plan::{Inputs, TextNames, read_texts};
use ic_report::{DeviceCounts, NO_MEMORY, end_as, end_done};
use ic_run::why_of_texts;
use std::alloc::Global;

/// Runs a script over the first disks, the chief's and behind it one for each book.
fn run_asked<K: Sink, D: Disk + Drop>(
    alloc: Global,
    asked: &Asked,
    out: &mut K,
    disks: &mut Vec<D>,
) -> u8
    requires long { length asked.now.fingerprint ≡ 32 }
    requires openings { AreOpenings (openings_in asked.now.script.books) }
    requires events { AllByRecursion (IsEvent2 (openings_in asked.now.script.books)) asked.now.script.events }
    requires disks { length disks.old.items ≡ COMPONENTS }
    ensures { RunsThis D.Disk K.Sink disks.old.items disks.new.items out.old out.new result (the_script asked.now.script) asked.now.fingerprint }
{
    let Ok(taken) = take_first(alloc, disks, asked.script.books.len() + 1) else {
        return NO_MEMORY;
    };
    let (taken, lines) = run_over(alloc, asked, taken);
    put_back(disks, taken);
    match lines {
        Ok(lines) => end_done(out, lines.as_slice()),
        Err(why) => end_with(alloc, Some(&asked.script), out, why),
    }
}

/// Runs the named script.
fn run_named<T: Texts, K: Sink, D: Disk + Drop>(
    alloc: Global,
    name: &Word,
    texts: &mut T,
    out: &mut K,
    disks: &mut Vec<D>,
) -> u8
    requires { length disks.old.items ≡ COMPONENTS }
    ensures asked { T.asked texts.new ≡ T.asked texts.old ++ name.now ∷ [] }
    ensures runs { RefusesNamed D.Disk K.Sink disks.old.items disks.new.items out.old out.new result T.Texts texts.old texts.new name.now ⊎ RunsNamed D.Disk K.Sink disks.old.items disks.new.items out.old out.new result T.Texts texts.old texts.new name.now }
{
    match read_named(alloc, texts, name) {
        Ok(asked) => run_asked(alloc, &asked, out, disks),
        Err(why) => end_with(alloc, None, out, why),
    }
}

/// Runs the named texts, with each input the request of a client.
fn serve_named<T: Texts, K: Sink, D: Disk + Drop>(
    alloc: Global,
    names: TextNames<'_>,
    texts: &mut T,
    out: &mut K,
    disks: &mut Vec<D>,
) -> u8
    requires { length disks.old.items ≡ COMPONENTS }
    ensures { RefusesTexts D.Disk K.Sink disks.old.items disks.new.items out.old out.new result T.Texts texts.old texts.new (names_seen names.entry) ⊎ ServesNamed D.Disk K.Sink disks.old.items disks.new.items out.old out.new result T.Texts texts.old texts.new (names_seen names.entry) }
{
    match read_texts(alloc, Inputs::Numbered, names, texts) {
        Ok(asked) => run_clients(alloc, b"icmore", &asked, out, disks),
        Err(refused) => end_as(alloc, b"icmore", None, out, &why_of_texts(refused)),
    }
}

/// Runs the named texts, with a standby of the Pcom of a name.
fn stand_by_named<T: Texts, K: Sink, D: Disk + Drop>(
    alloc: Global,
    who: &Word,
    names: TextNames<'_>,
    texts: &mut T,
    out: &mut K,
    disks: &mut Vec<D>,
) -> u8
    requires { length disks.old.items ≡ COMPONENTS }
    ensures { RefusesStandby D.Disk K.Sink disks.old.items disks.new.items out.old out.new result T.Texts texts.old texts.new who.now (names_seen names.entry) ⊎ StandsByNamed D.Disk K.Sink disks.old.items disks.new.items out.old out.new result T.Texts texts.old texts.new who.now (names_seen names.entry) }
{
    match read_failover(alloc, who, names, texts) {
        Ok(asked) => run_failover(alloc, b"icmore", &asked, out, disks),
        Err(FailoverRefused::NoPcom) => end_with(alloc, None, out, Why2::Fault(Fault2::Usage)),
        Err(FailoverRefused::Texts(refused)) => {
            end_as(alloc, b"icmore", None, out, &why_of_texts(refused))
        }
    }
}

/// Does what the words ask for over the disks.
fn answer<T: Texts, K: Sink, D: Disk + Drop>(
    alloc: Global,
    words: &[Word],
    texts: &mut T,
    out: &mut K,
    disks: &mut Vec<D>,
) -> u8
    requires { length disks.old.items ≡ COMPONENTS }
    ensures { Answers D.Disk K.Sink disks.old.items disks.new.items out.old out.new result T.Texts texts.old texts.new (command_of words.now) }
{
    match command_of(words) {
        None => end_with(alloc, None, out, Why2::Fault(Fault2::Usage)),
        Some(Command::Two(name)) => run_named(alloc, name, texts, out, disks),
        Some(Command::Clients(names)) => serve_named(alloc, names, texts, out, disks),
        Some(Command::Standby(who, names)) => stand_by_named(alloc, who, names, texts, out, disks),
    }
}

/// Does what the words ask for over the disks, of which there are 32: `two` runs a script of moves over the first of them, `clients` a
/// scenario with numbered clients, and `standby` one with a standby of one of its components. The status is 0 where it did all it was asked for and no count of faults rose (docs/FORMATS.md,
/// "Statuses").
pub fn more<T: Texts, K: Sink, D: Disk + Drop>(
    alloc: Global,
    words: &Vec<Word>,
    texts: &mut T,
    out: &mut K,
    disks: &mut Vec<D>,
) -> u8
    requires { length disks.old.items ≡ COMPONENTS }
    ensures answers { Ends D.Disk K.Sink T.Texts disks.old.items disks.new.items out.old out.new texts.old texts.new result (command_of words.now.items) }
{
    let Ok(counts) = DeviceCounts::of(alloc, texts, out, disks.as_slice()) else {
        return NO_MEMORY;
    };
    match answer(alloc, words.as_slice(), texts, out, disks) {
        0 => counts.status(texts, out, disks.as_slice()),
        status => status,
    }
}
