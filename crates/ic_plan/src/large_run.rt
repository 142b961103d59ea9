ghost use Rattle.std.specs.Prelude.{◌≡◌, IfOk, IfErr};
ghost use Rattle.std.specs.List.{AllByRecursion};
ghost use Rattle.def_syntax.specs.Allowed.{IsAllowed};
ghost use Rattle.def_syntax.specs.Large.{large_scenario, large_schedule};
ghost use Rattle.law_syntax.specs.Events.{IsEvent};
ghost use Rattle.ic_plan.specs.Accepted.{IsAccepted};
ghost use Rattle.ic_plan.specs.Large.{SayRun, RefuseRun, IsLarge, IsLargeRefused};

use crate::readings::{scenario_in, schedule_in};
use crate::run_texts::RunTexts;
use crate::{DEFAULTS, Inputs, TextsRefused, make_large};
use ic_base::{Policy, ReportLevel};
use std::alloc::Global;

/// How many records a component of the large run has behind its last checkpoint before the next one.
const CHECKPOINT_EVERY: u32 = 16;

/// What a scenario and a schedule ask for, with the policy of the large run.
fn run_in(alloc: Global, scenario: &[u8], schedule: &[u8]) -> Result<RunTexts, TextsRefused>
    ensures says { IfOk result (SayRun scenario.now schedule.now) }
    ensures accepted { IfOk result (λ r. IsAccepted r.program) }
    ensures allowed { IfOk result (λ r. AllByRecursion (IsAllowed r.program) r.schedule.events) }
    ensures events { IfOk result (λ r. AllByRecursion (IsEvent r.program) r.schedule.events) }
    ensures refused { IfErr result (RefuseRun scenario.now schedule.now) }
{
    let scene = scenario_in(alloc, scenario)?;
    let events = schedule_in(alloc, Inputs::Plain, &scene.program, schedule)?;
    Ok(RunTexts {
        program: scene.program,
        fingerprint: scene.fingerprint,
        schedule: events,
        policy: Policy {
            checkpoint_every: CHECKPOINT_EVERY,
            report: ReportLevel::Summary,
            ..DEFAULTS
        },
    })
}

/// What the texts of the large run with this number ask for (docs/FORMATS.md, "The large run").
pub fn large_texts(alloc: Global, number: u32) -> Result<RunTexts, TextsRefused>
    ensures says { IfOk result (IsLarge number) }
    ensures accepted { IfOk result (λ r. IsAccepted r.program) }
    ensures allowed { IfOk result (λ r. AllByRecursion (IsAllowed r.program) r.schedule.events) }
    ensures events { IfOk result (λ r. AllByRecursion (IsEvent r.program) r.schedule.events) }
    ensures refused { IfErr result (IsLargeRefused number) }
{
    match make_large(alloc, number) {
        Ok((scenario, schedule)) => run_in(alloc, scenario.as_slice(), schedule.as_slice()),
        Err(_) => Err(TextsRefused::Memory),
    }
}
