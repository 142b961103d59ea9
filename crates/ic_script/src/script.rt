ghost use Rattle.std.specs.Prelude.{◌≡◌, ◌≤◌, length, IfOk, IfErr, Ok};
ghost use Rattle.ic_base.specs.declared.limits.TheConstants.{TEXT_BYTES};
ghost use Rattle.def_syntax.specs.Text.{lines_of};
ghost use Rattle.def_two.specs.Script as script;
ghost use Rattle.std.specs.List.{AllByRecursion};
ghost use Rattle.def_two.specs.Ends.{AreOpenings};
ghost use Rattle.def_two.specs.Runs.{IsEvent2};
ghost use Rattle.ic_script.specs.Reading.{IsRefusedAs, line_for, openings_in, the_script};

use crate::so_far::SoFar;
use def_two::Script;
use ic_base::limits::TEXT_BYTES;
use ic_base::{Cause, ScenarioRefused};
use ic_tokens::first_line;
use std::alloc::Global;

/// The refusal of a line for a cause; want of memory is of no line.
fn refused_at(line: u32, cause: Cause) -> ScenarioRefused
    ensures cause { result.cause ≡ cause }
    ensures line { result.line ≡ line_for line cause }
{
    match cause {
        Cause::Memory => ScenarioRefused { line: 0, cause },
        _ => ScenarioRefused { line, cause },
    }
}

/// The script of the lines, up to the first that is refused.
fn read_lines(alloc: Global, bytes: &[u8]) -> Result<Script, ScenarioRefused>
    requires short { length bytes.now ≤ TEXT_BYTES }
    ensures accepted { IfOk result (λ s. script.script_of_lines (lines_of bytes.now) ≡ Ok (the_script s)) }
    ensures openings { IfOk result (λ s. AreOpenings (openings_in s.books)) }
    ensures lawful { IfOk result (λ s. AllByRecursion (IsEvent2 (openings_in s.books)) s.events) }
    ensures refused { IfErr result (IsRefusedAs (script.script_of_lines (lines_of bytes.now))) }
{
    let mut so_far = SoFar::new(alloc);
    let mut rest = bytes;
    let mut number = 1;
    while let Some((line, more)) = first_line(rest) {
        match so_far.read_line(alloc, line) {
            Ok(()) => {}
            Err(cause) => return Err(refused_at(number, cause)),
        }
        rest = more;
        number += 1;
    }
    if so_far.books.len() < 1 {
        return Err(ScenarioRefused {
            line: number,
            cause: Cause::Structure,
        });
    }
    Ok(Script {
        books: so_far.books,
        events: so_far.events,
    })
}

/// The script that a text is, or the least line that is refused, with its cause.
#[tactic(auto, unfolding(def_two::specs::Script::script_of))]
pub fn read_script(alloc: Global, bytes: &[u8]) -> Result<Script, ScenarioRefused>
    ensures accepted { IfOk result (λ s. script.script_of bytes.now ≡ Ok (the_script s)) }
    // The law of moves speaks of its books and of each of its events.
    ensures openings { IfOk result (λ s. AreOpenings (openings_in s.books)) }
    ensures lawful { IfOk result (λ s. AllByRecursion (IsEvent2 (openings_in s.books)) s.events) }
    ensures refused { IfErr result (IsRefusedAs (script.script_of bytes.now)) }
{
    if bytes.len() > TEXT_BYTES {
        return Err(ScenarioRefused {
            line: 0,
            cause: Cause::Limit,
        });
    }
    read_lines(alloc, bytes)
}
