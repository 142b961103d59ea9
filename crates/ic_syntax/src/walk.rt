ghost use Rattle.std.specs.Prelude.{◌≡◌, ◌<◌, ◌≤◌, ◌+◌, ◌^◌, ℕ, [], length, reverse, OnOk, IfOk, IfErr, IsOk, IsSome, Some, ◌++◌, Ok, option_map};
ghost use Rattle.def_syntax.specs.Text.{lines_of, numbered};
ghost use Rattle.def_syntax.specs.Scope.{empty_scope};
ghost use Rattle.def_syntax.specs.Scenario.{seen_behind, seen_if, checked, resolved_if, all_named, named};
ghost use Rattle.ic_items.specs.Views.{item_seen, Fails};
ghost use Rattle.ic_syntax.specs.Views.{builder_lines};
ghost use Rattle.ic_syntax.specs.BuilderStates.{AtTop, state_of};
ghost use Rattle.ic_syntax.specs.ResolvedLine.{Stands, said_lines};
ghost use Rattle.ic_syntax.specs.Passes.{Refuses, behind_line};
ghost use Rattle.ic_syntax.specs.Places.{all_behind, LeadsTo};

use crate::ProgramBuilder;
use crate::line::line_item;
use crate::resolve::{ResolvedLine, resolved};
use ic_base::limits::TEXT_BYTES;
use ic_base::{Cause, ScenarioRefused};
use ic_items::{Components, Fault, Scope, SyntaxLine};
use ic_tokens::first_line;
use std::alloc::{AllocError, Global};

/// A line is refused for the cause that is handed in; want of memory is no line's.
fn refused(number: u32, fault: Fault) -> ScenarioRefused
    ensures cause { result.cause ≡ fault.0 }
    ensures memory { result.cause ≡ Cause.Memory → result.line ≡ 0 }
    ensures other { (result.cause ≡ Cause.Memory → ⊥) → (result.line ≡ number) × (result.cause ≡ fault.0) }
{
    match fault.0 {
        Cause::Memory => ScenarioRefused {
            line: 0,
            cause: Cause::Memory,
        },
        cause => ScenarioRefused {
            line: number,
            cause,
        },
    }
}

fn step_if(alloc: Global, seen: &mut Scope, item: Option<SyntaxLine>) -> Result<(), Fault>
    ensures ok { OnOk result (seen_if seen.old (option_map item_seen item) ≡ Ok seen.new) }
    ensures err { IfErr result (λ e. Fails (seen_if seen.old (option_map item_seen item)) e.0) }
{
    match item {
        Some(item) => seen.step(alloc, item),
        None => Ok(()),
    }
}

#[tactic(auto, unfolding(def_syntax::specs::Scenario::seen_behind))]
fn step_behind(alloc: Global, seen: &mut Scope, line: &[u8]) -> Result<(), Fault>
    ensures ok { OnOk result (seen_behind seen.old line.now ≡ Ok seen.new) }
    ensures err { IfErr result (λ e. Fails (seen_behind seen.old line.now) e.0) }
{
    let item = line_item(alloc, line)?;
    step_if(alloc, seen, item)
}

fn said_of(
    alloc: Global,
    all: &Components,
    seen: &Scope,
    number: u32,
    item: &Option<SyntaxLine>,
) -> Result<ResolvedLine, Fault>
    requires { IsOk (seen_if seen.now (option_map item_seen item.now)) }
    ensures { Stands (resolved_if all.now seen.now number (option_map item_seen item.now)) result }
{
    match item {
        Some(item) => resolved(alloc, all, seen, number, item),
        None => Ok(ResolvedLine::Nothing),
    }
}

fn with_said(
    alloc: Global,
    draft: ProgramBuilder,
    said: ResolvedLine,
) -> Result<ProgramBuilder, AllocError>
    requires { IsSome (all_behind (said_lines said) (state_of draft.place)) }
    ensures lines { IfOk result (λ d. builder_lines d ≡ builder_lines draft ++ said_lines said) }
    ensures spot { IfOk result (λ d. all_behind (said_lines said) (state_of draft.place) ≡ Some (state_of d.place)) }
{
    match said {
        ResolvedLine::Nothing => Ok(draft),
        ResolvedLine::One(line) => draft.with_line(alloc, line),
        ResolvedLine::Two(first, second) => draft.with_line(alloc, first)?.with_line(alloc, second),
    }
}

/// The program in the making, and what is seen, behind one more line that the first pass takes.
#[tactic(auto, unfolding(def_syntax::specs::Scenario::named, def_syntax::specs::Scenario::seen_behind))]
fn name_line(
    alloc: Global,
    all: &Components,
    seen: &mut Scope,
    draft: ProgramBuilder,
    number: u32,
    line: &[u8],
) -> Result<ProgramBuilder, Fault>
    requires leads { LeadsTo seen.old (state_of draft.place) }
    requires taken { IsOk (seen_behind seen.old line.now) }
    ensures ok { IfOk result (λ d. behind_line all.now number line.now (builder_lines draft, seen.old) ≡ Ok (builder_lines d, seen.new)) }
    ensures spot { IfOk result (λ d. LeadsTo seen.new (state_of d.place)) }
    ensures err { IfErr result (λ e. Fails (behind_line all.now number line.now (builder_lines draft, seen.old)) e.0) }
{
    let item = line_item(alloc, line)?;
    let said = said_of(alloc, all, seen, number, &item)?;
    step_if(alloc, seen, item)?;
    Ok(with_said(alloc, draft, said)?)
}

/// What is seen behind all lines, and the number of the line behind the last; or the least line that is refused by itself
/// or by the lines in front of it.
fn walk(alloc: Global, seen: &mut Scope, text: &[u8]) -> Result<u32, ScenarioRefused>
    requires { length text.now ≤ TEXT_BYTES }
    ensures last { IfOk result (λ n. n ≡ length (lines_of text.now) + 1) }
    ensures ok { OnOk result ((last : ℕ) → checked last seen.old (numbered 1 (lines_of text.now)) ≡ checked last seen.new []) }
    ensures err { IfErr result (λ e. (last : ℕ) → Refuses (checked last seen.old (numbered 1 (lines_of text.now))) e) }
{
    let mut rest = text;
    let mut number = 1;
    while let Some((line, more)) = first_line(rest) {
        match step_behind(alloc, seen, line) {
            Ok(()) => {}
            Err(fault) => return Err(refused(number, fault)),
        }
        rest = more;
        number += 1;
    }
    Ok(number)
}

/// The first pass: what is seen behind all lines.
#[tactic(auto, unfolding(def_syntax::specs::Scenario::checked))]
pub fn first_pass(alloc: Global, text: &[u8]) -> Result<Scope, ScenarioRefused>
    requires { length text.now ≤ TEXT_BYTES }
    ensures ok { IfOk result (λ s. checked (length (lines_of text.now) + 1) empty_scope (numbered 1 (lines_of text.now)) ≡ Ok s) }
    ensures err { IfErr result (Refuses (checked (length (lines_of text.now) + 1) empty_scope (numbered 1 (lines_of text.now)))) }
{
    let mut seen = Scope::nothing(alloc);
    let last = walk(alloc, &mut seen, text)?;
    if seen.is_open() {
        return Err(ScenarioRefused {
            line: last,
            cause: Cause::Structure,
        });
    }
    Ok(seen)
}

/// The second pass, over a text that the first one takes: the program of the text, or the least line with a name that
/// stands for nothing or a wrong number of operands.
pub fn second_pass(
    alloc: Global,
    all: &Components,
    text: &[u8],
) -> Result<ProgramBuilder, ScenarioRefused>
    requires short { length text.now ≤ TEXT_BYTES }
    requires taken { IsOk (checked (length (lines_of text.now) + 1) empty_scope (numbered 1 (lines_of text.now))) }
    ensures spot { IfOk result (λ d. state_of d.place ≡ AtTop) }
    ensures ok { IfOk result (λ d. all_named all.now empty_scope (numbered 1 (lines_of text.now)) ≡ Ok (builder_lines d)) }
    ensures err { IfErr result (Refuses (all_named all.now empty_scope (numbered 1 (lines_of text.now)))) }
{
    let mut seen = Scope::nothing(alloc);
    let mut draft = ProgramBuilder::new(alloc);
    let mut rest = text;
    let mut number = 1;
    while let Some((line, more)) = first_line(rest) {
        match name_line(alloc, all, &mut seen, draft, number, line) {
            Ok(longer) => draft = longer,
            Err(unnamed) => return Err(refused(number, unnamed)),
        }
        rest = more;
        number += 1;
    }
    Ok(draft)
}
