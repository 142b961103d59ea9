ghost use Rattle.std.specs.Prelude.{◌≡◌, ◌<◌, ◌≤◌, [], ◌∷◌, ◌++◌, length, false, option_to_list, IfOk, IfErr, OnOk, Ok, Err};
ghost use Rattle.std.specs.List.{AllByRecursion};
ghost use Rattle.ic_base.specs.declared.refusals.Cause.TheVariants.{Memory};
ghost use Rattle.def_syntax.specs.Text.{lines_of, numbered};
ghost use Rattle.def_syntax.specs.Schedule.{all_events, schedule_in, schedule_of, clients_of};
ghost use Rattle.def_syntax.specs.Allowed.{IsSmall, IsAllowed};
ghost use Rattle.ic_plan.specs.Refusals.{IsRefusedAs, line_for};
ghost use Rattle.ic_plan.specs.Verbs.{forms_for};

use crate::line::line_event;
use crate::verb::Inputs;
use ic_base::limits::TEXT_BYTES;
use ic_base::{Cause, Event, Items, Program, ScenarioRefused, Schedule};
use ic_tokens::first_line;
use std::alloc::{AllocError, Global};

pub(crate) const NO_MEMORY: ScenarioRefused = ScenarioRefused {
    line: 0,
    cause: Cause::Memory,
};

/// The refusal of a line for a cause; want of memory is of no line.
pub(crate) fn refused_at(line: u32, cause: Cause) -> ScenarioRefused
    ensures cause { result.cause ≡ cause }
    ensures line { result.line ≡ line_for line cause }
{
    match cause {
        Cause::Memory => NO_MEMORY,
        _ => ScenarioRefused { line, cause },
    }
}

/// Puts what a line gives, if it gives anything, behind what was given before it.
pub(crate) fn add<T: Copy>(items: &mut Items<T>, item: Option<T>) -> Result<(), AllocError>
    ensures { OnOk result (items.new ≡ items.old ++ option_to_list item) }
{
    if let Some(item) = item {
        items.push(item)?;
    }
    Ok(())
}

/// The events of the lines, up to the first that is refused.
fn read_lines(
    alloc: Global,
    inputs: Inputs,
    program: &Program,
    bytes: &[u8],
) -> Result<Schedule, ScenarioRefused>
    requires small { IsSmall program.now }
    requires short { length bytes.now ≤ TEXT_BYTES }
    ensures accepted { IfOk result (λ s. all_events (forms_for inputs) program.now false (numbered 1 (lines_of bytes.now))
        ≡ Ok (s.events, s.halts)) }
    ensures allowed { IfOk result (λ s. AllByRecursion (IsAllowed program.now) s.events) }
    ensures few { IfOk result (λ s. length s.events ≤ length bytes.now) }
    ensures refused { IfErr result
        (IsRefusedAs (all_events (forms_for inputs) program.now false (numbered 1 (lines_of bytes.now)))) }
{
    let mut events = Items::new(alloc);
    let mut halts = false;
    let mut rest = bytes;
    let mut number = 1;
    while let Some((line, more)) = first_line(rest) {
        match line_event(alloc, inputs, program, halts, line) {
            Ok((event, halted)) => match add(&mut events, event) {
                Ok(()) => halts = halted,
                Err(_) => return Err(NO_MEMORY),
            },
            Err(cause) => return Err(refused_at(number, cause)),
        }
        rest = more;
        number += 1;
    }
    Ok(Schedule { events, halts })
}

/// The events of a text with these inputs, or the least line that is refused, with its cause.
#[tactic(auto, unfolding(def_syntax::specs::Schedule::schedule_in))]
pub(crate) fn read_text(
    alloc: Global,
    inputs: Inputs,
    program: &Program,
    bytes: &[u8],
) -> Result<Schedule, ScenarioRefused>
    requires { IsSmall program.now }
    ensures accepted { IfOk result (λ s. schedule_in (forms_for inputs) program.now bytes.now ≡ Ok (s.events, s.halts)) }
    ensures allowed { IfOk result (λ s. AllByRecursion (IsAllowed program.now) s.events) }
    ensures few { IfOk result (λ s. length s.events ≤ length bytes.now) }
    ensures short { OnOk result (length bytes.now ≤ TEXT_BYTES) }
    ensures refused { IfErr result (IsRefusedAs (schedule_in (forms_for inputs) program.now bytes.now)) }
    ensures too_long { TEXT_BYTES < length bytes.now → result ≡ Err (record { line = 0; cause = Cause.Limit }) }
{
    if bytes.len() > TEXT_BYTES {
        return Err(ScenarioRefused {
            line: 0,
            cause: Cause::Limit,
        });
    }
    read_lines(alloc, inputs, program, bytes)
}

/// The events of a schedule of this program, or the least line that is refused, with its cause.
pub fn read_schedule(
    alloc: Global,
    program: &Program,
    bytes: &[u8],
) -> Result<Schedule, ScenarioRefused>
    requires { IsSmall program.now }
    ensures accepted { IfOk result (λ s. schedule_of program.now bytes.now ≡ Ok (s.events, s.halts)) }
    ensures allowed { IfOk result (λ s. AllByRecursion (IsAllowed program.now) s.events) }
    ensures few { IfOk result (λ s. length s.events ≤ length bytes.now) }
    ensures short { OnOk result (length bytes.now ≤ TEXT_BYTES) }
    ensures refused { IfErr result (IsRefusedAs (schedule_of program.now bytes.now)) }
    ensures too_long { TEXT_BYTES < length bytes.now → result ≡ Err (record { line = 0; cause = Cause.Limit }) }
{
    read_text(alloc, Inputs::Plain, program, bytes)
}

/// The events of a schedule with numbered clients: a line `client U Q PCOM HANDLER NUMBER*` stands for the input of the handler with U
/// and Q in front of the values, and no line `input` is one. Or the least line that is refused, with its cause.
pub fn read_clients(
    alloc: Global,
    program: &Program,
    bytes: &[u8],
) -> Result<Schedule, ScenarioRefused>
    requires { IsSmall program.now }
    ensures accepted { IfOk result (λ s. clients_of program.now bytes.now ≡ Ok (s.events, s.halts)) }
    ensures allowed { IfOk result (λ s. AllByRecursion (IsAllowed program.now) s.events) }
    ensures few { IfOk result (λ s. length s.events ≤ length bytes.now) }
    ensures short { OnOk result (length bytes.now ≤ TEXT_BYTES) }
    ensures refused { IfErr result (IsRefusedAs (clients_of program.now bytes.now)) }
    ensures too_long { TEXT_BYTES < length bytes.now → result ≡ Err (record { line = 0; cause = Cause.Limit }) }
{
    read_text(alloc, Inputs::Numbered, program, bytes)
}
