ghost use Rattle.std.specs.Prelude.{◌≡◌, ◌⊎◌, ◌∷◌, [], length};
ghost use Rattle.ic_base.specs.declared.limits.TheConstants.{COMPONENTS};
ghost use Rattle.ic_report.specs.Outputs.{Puts, FailsToPut};
ghost use Rattle.ic_serve.specs.Calls.{names_of, names_seen, usage_line, RefusesNamed, ServesNamed, Answers, Ends};

use crate::run::serve_lines;
use crate::words::names_of;
use ic_base::Word;
use ic_disk::{Disk, Sink, Texts};
use ic_lines::Lines;
use ic_plan::{ServedNames, read_served};
use ic_report::{DeviceCounts, NO_MEMORY, PRINT_FAILED, end_as};
use ic_run::why_of_texts;
use std::alloc::Global;

/// The last line of a call whose words have no form.
const USAGE: &[u8] = b"icserve: usage: SCENARIO [POLICY]\n";

/// The status of such a call.
const NO_FORM: u8 = 2;

/// Ends a call whose words have no form.
fn end_unasked<K: Sink>(out: &mut K) -> u8
    ensures { ((result ≡ 2) × Puts K.Sink (usage_line ∷ []) out.old out.new) ⊎ ((result ≡ 9) × FailsToPut K.Sink (usage_line ∷ []) out.old out.new) }
{
    match out.put(USAGE) {
        Ok(()) => NO_FORM,
        Err(_) => PRINT_FAILED,
    }
}

/// Serves lines to the run of the named texts.
fn serve_named<T: Texts, I: Lines, K: Sink, D: Disk + Drop>(
    alloc: Global,
    names: ServedNames<'_>,
    texts: &mut T,
    lines: &mut I,
    out: &mut K,
    disks: &mut Vec<D>,
) -> u8
    requires { length disks.old.items ≡ COMPONENTS }
    ensures { RefusesNamed D.Disk K.Sink T.Texts I.Lines disks.old.items disks.new.items out.old out.new texts.old texts.new lines.old lines.new result (names_seen names.entry) ⊎ ServesNamed D.Disk K.Sink T.Texts I.Lines disks.old.items disks.new.items out.old out.new texts.old texts.new lines.old lines.new result (names_seen names.entry) }
{
    match read_served(alloc, names, texts) {
        Ok(asked) => serve_lines(alloc, &asked, lines, out, disks),
        Err(refused) => end_as(alloc, b"icserve", None, out, &why_of_texts(refused)),
    }
}

/// Does what the words ask for over the disks.
fn answer<T: Texts, I: Lines, K: Sink, D: Disk + Drop>(
    alloc: Global,
    words: &[Word],
    texts: &mut T,
    lines: &mut I,
    out: &mut K,
    disks: &mut Vec<D>,
) -> u8
    requires { length disks.old.items ≡ COMPONENTS }
    ensures { Answers D.Disk K.Sink T.Texts I.Lines disks.old.items disks.new.items out.old out.new texts.old texts.new lines.old lines.new result (names_of words.now) }
{
    match names_of(words) {
        Some(names) => serve_named(alloc, names, texts, lines, out, disks),
        None => end_unasked(out),
    }
}

/// Does what the words ask for over the disks, of which there are 32: serves lines to the run of a scenario, and maybe a policy. The status
/// is 0 where all lines were answered and no count of faults rose (docs/FORMATS.md, "Statuses").
pub fn serve<T: Texts, I: Lines, K: Sink, D: Disk + Drop>(
    alloc: Global,
    words: &Vec<Word>,
    texts: &mut T,
    lines: &mut I,
    out: &mut K,
    disks: &mut Vec<D>,
) -> u8
    requires { length disks.old.items ≡ COMPONENTS }
    ensures answers { Ends D.Disk K.Sink T.Texts I.Lines disks.old.items disks.new.items out.old out.new texts.old texts.new lines.old lines.new result (names_of words.now.items) }
{
    let Ok(counts) = DeviceCounts::of(alloc, texts, out, disks.as_slice()) else {
        return NO_MEMORY;
    };
    match answer(alloc, words.as_slice(), texts, lines, out, disks) {
        0 => counts.status(texts, out, disks.as_slice()),
        status => status,
    }
}
