ghost use Rattle.std.specs.Prelude.{◌≡◌, ◌∷◌, ◌++◌, OnOk, codes, decimal};
ghost use Rattle.def_report.specs.Words.{line};
ghost use Rattle.def_two.specs.Printed.{cause_words, ruling_words};
ghost use Rattle.ic_report.specs.Said.{said};
ghost use Rattle.ic_script.specs.Reading.{the_script};

use crate::faults::name_of;
use def_two::{Cause2, Ruling, Script};
use ic_report::{add_number, add_word};
use std::alloc::AllocError;

/// Why a book voted no.
fn add_cause(out: &mut Vec<u8>, cause: Cause2) -> Result<(), AllocError>
    ensures { OnOk result (out.new.items ≡ said out.old.items (cause_words cause)) }
{
    let (word, value, held): (&[u8], u64, u64) = match cause {
        Cause2::Short(value, held) => (b"short", value, held),
        Cause2::Over(value, held) => (b"over", value, held),
    };
    add_word(out, word)?;
    add_number(out, value)?;
    add_number(out, held)?;
    Ok(())
}

/// The decision on a move, if there is one.
fn add_ruling(out: &mut Vec<u8>, script: &Script, ruling: Option<Ruling>) -> Result<(), AllocError>
    ensures { OnOk result (out.new.items ≡ said out.old.items (ruling_words (the_script script.now) ruling)) }
{
    match ruling {
        Some(Ruling::Yes) => add_word(out, b"yes"),
        Some(Ruling::No(book, cause)) => {
            add_word(out, b"no")?;
            add_word(out, name_of(script, book))?;
            add_cause(out, cause)
        }
        None => Ok(()),
    }
}

/// The line of a move.
pub(crate) fn add_move(
    out: &mut Vec<u8>,
    script: &Script,
    n: u64,
    ruling: Option<Ruling>,
) -> Result<(), AllocError>
    ensures { OnOk result (out.new.items ≡ out.old.items ++ line (codes "move" ∷ decimal n ∷ ruling_words (the_script script.now) ruling)) }
{
    out.extend_from_slice(b"move")?;
    add_number(out, n)?;
    add_ruling(out, script, ruling)?;
    out.push(b'\n')?;
    Ok(())
}
