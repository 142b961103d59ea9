ghost use Rattle.std.specs.Prelude.{◌≡◌, ◌≤◌, length, true, IfOk, IfErr, Ok};
ghost use Rattle.std.specs.List.{AllByRecursion};
ghost use Rattle.def_syntax.specs.Allowed.{IsSmall, IsAllowed};
ghost use Rattle.def_policy.specs.Policies.{IsInRange};
ghost use Rattle.law_syntax.specs.Events.{IsEvent};
ghost use Rattle.ic_plan.specs.Accepted.{IsAccepted};
ghost use Rattle.ic_plan.specs.Asking as asked;
ghost use Rattle.ic_plan.specs.Asking.{SaysProgram, SaysSchedule};
ghost use Rattle.ic_plan.specs.Refusing.{RefusesScenario, RefusesSchedule, RefusesPolicy, OrMemory};
ghost use Rattle.ic_plan.specs.Numbering.{IsNumberedFor};
ghost use Rattle.ic_plan.specs.Verbs.{forms_for};
ghost use Rattle.ic_plan.specs.Views.{scenario_refusal, schedule_refusal, policy_refusal};

use crate::schedule::read_text;
use crate::{Inputs, TextsRefused, read_policy};
use ic_base::limits::TEXT_BYTES;
use ic_base::{Cause, Policy, PolicyRefused, Program, Schedule};
use ic_syntax::{fingerprint, read_scenario};
use std::alloc::Global;

/// The program of a scenario's text, and its fingerprint.
#[derive(Drop)]
pub(crate) struct Scene {
    pub(crate) program: Program,
    pub(crate) fingerprint: [u8; 32],
}

/// The refusal of a scenario, of which want of memory is none.
fn of_scenario(line: u32, cause: Cause) -> TextsRefused
    ensures { result ≡ scenario_refusal line cause }
{
    match cause {
        Cause::Memory => TextsRefused::Memory,
        _ => TextsRefused::Scenario(line, cause),
    }
}

/// The refusal of a schedule, of which want of memory is none.
fn of_schedule(line: u32, cause: Cause) -> TextsRefused
    ensures { result ≡ schedule_refusal line cause }
{
    match cause {
        Cause::Memory => TextsRefused::Memory,
        _ => TextsRefused::Schedule(line, cause),
    }
}

/// The refusal of a policy, of which want of memory is none.
fn of_policy(e: PolicyRefused) -> TextsRefused
    ensures { result ≡ policy_refusal e }
{
    match e {
        PolicyRefused::Memory => TextsRefused::Memory,
        _ => TextsRefused::Policy(e),
    }
}

/// The program that a scenario's text stands for.
#[tactic(auto, using(crate::proofs::Recovered::is_accepted))]
pub(crate) fn scenario_in(alloc: Global, bytes: &[u8]) -> Result<Scene, TextsRefused>
    ensures says { IfOk result (λ s. SaysProgram s.program s.fingerprint bytes.now) }
    ensures accepted { IfOk result (λ s. IsAccepted s.program) }
    ensures refused { IfErr result (OrMemory RefusesScenario bytes.now) }
{
    let program = match read_scenario(alloc, bytes) {
        Ok(program) => program,
        Err(e) => return Err(of_scenario(e.line, e.cause)),
    };
    let fingerprint = fingerprint(bytes);
    Ok(Scene {
        program,
        fingerprint,
    })
}

/// The schedule with these inputs that a text stands for. It has no more events than the text has bytes.
#[tactic(auto, using(crate::proofs::Recovered::each_event, crate::proofs::Numbered::each_numbered))]
pub(crate) fn schedule_in(
    alloc: Global,
    inputs: Inputs,
    program: &Program,
    bytes: &[u8],
) -> Result<Schedule, TextsRefused>
    requires { IsSmall program.now }
    ensures says { IfOk result (λ s. SaysSchedule (forms_for inputs) program.now s bytes.now) }
    ensures short { IfOk result (λ s. length s.events ≤ TEXT_BYTES) }
    ensures allowed { IfOk result (λ s. AllByRecursion (IsAllowed program.now) s.events) }
    ensures events { IfOk result (λ s. AllByRecursion (IsEvent program.now) s.events) }
    ensures numbered { IfOk result (λ s. AllByRecursion (IsNumberedFor inputs) s.events) }
    ensures refused { IfErr result (OrMemory (RefusesSchedule (forms_for inputs) program.now) bytes.now) }
{
    let schedule = match read_text(alloc, inputs, program, bytes) {
        Ok(schedule) => schedule,
        Err(e) => return Err(of_schedule(e.line, e.cause)),
    };
    Ok(schedule)
}

/// The policy that a text of a length within the limit asks for.
pub(crate) fn policy_in(alloc: Global, bytes: &[u8]) -> Result<Policy, TextsRefused>
    requires { length bytes.now ≤ TEXT_BYTES }
    ensures says { IfOk result (λ p. asked.policy_in bytes.now ≡ Ok p) }
    ensures range { IfOk result IsInRange }
    ensures refused { IfErr result (OrMemory RefusesPolicy bytes.now) }
{
    let policy = match read_policy(alloc, bytes) {
        Ok(policy) => policy,
        Err(e) => return Err(of_policy(e)),
    };
    Ok(policy)
}
