ghost use Rattle.std.specs.Prelude.{◌≡◌, ◌↔◌, ◌≤◌, [], ◌∷◌, ◌++◌, Some, Err, option_map, IfOk, OnOk, IfErr};
ghost use Rattle.std.specs.List.{AllByRecursion};
ghost use Rattle.def_policy.specs.Policies.{IsInRange};
ghost use Rattle.def_syntax.specs.Allowed.{IsSmall, IsAllowed};
ghost use Rattle.ic_disk.specs.Causes.{IsTooLong};
ghost use Rattle.ic_plan.specs.Accepted.{IsAccepted};
ghost use Rattle.ic_plan.specs.CommandViews.{names_seen};
ghost use Rattle.law_syntax.specs.Events.{IsEvent};
ghost use Rattle.ic_plan.specs.Asking.{Holds, SaysProgram, SaysSchedule, IsPolicyOf, AreTexts, AreServedTexts};
ghost use Rattle.ic_plan.specs.Keeping.{each_name, served_names, AskFor, KeepsTexts, HasReadCause};
ghost use Rattle.ic_plan.specs.Numbering.{IsNumberedFor};
ghost use Rattle.ic_plan.specs.Verbs.{forms_for};
ghost use Rattle.ic_plan.specs.Refusing.{Refuses, RefusesScenario, RefusesSchedule, RefusesPolicy, AreRefused, AreServedRefused};

use crate::readings::{Scene, policy_in, scenario_in, schedule_in};
use crate::run_texts::{RunTexts, ServedTexts};
use crate::{DEFAULTS, Inputs, ServedNames, TextNames, TextsRefused};
use ic_base::limits::TEXT_BYTES;
use ic_base::{Cause, Policy, PolicyRefused, Program, Schedule, Word};
use ic_disk::{TextError, Texts};
use std::alloc::Global;

/// The program of a named scenario.
fn read_scene<T: Texts>(alloc: Global, texts: &mut T, name: &Word) -> Result<Scene, TextsRefused>
    ensures says { T.tells texts.old → IfOk result (λ s. Holds (T.held texts.old) name.now (SaysProgram s.program s.fingerprint)) }
    ensures refused { T.tells texts.old → IfErr result (Refuses RefusesScenario (T.held texts.old) name.now) }
    ensures fits { T.tells texts.old → result ≡ Err TextsRefused.Memory → ¬ IsTooLong (T.held texts.old name.now) TEXT_BYTES }
    ensures accepted { IfOk result (λ s. IsAccepted s.program) }
    ensures cause { IfErr result (HasReadCause T.Texts texts.old texts.new) }
    ensures texts { KeepsTexts T.Texts texts.old texts.new }
    ensures asked { T.asked texts.new ≡ T.asked texts.old ++ name.now ∷ [] }
{
    match texts.read(alloc, name, TEXT_BYTES) {
        Ok(bytes) => scenario_in(alloc, bytes.as_slice()),
        Err(TextError::TooLong) => Err(TextsRefused::Scenario(0, Cause::Limit)),
        Err(TextError::Failed) => Err(TextsRefused::Read),
        Err(TextError::Memory) => Err(TextsRefused::Memory),
    }
}

/// The named schedule of a program, with these inputs.
fn read_events<T: Texts>(
    alloc: Global,
    texts: &mut T,
    inputs: Inputs,
    program: &Program,
    name: &Word,
) -> Result<Schedule, TextsRefused>
    requires { IsSmall program.now }
    ensures says { T.tells texts.old → IfOk result (λ s. Holds (T.held texts.old) name.now (SaysSchedule (forms_for inputs) program.now s)) }
    ensures refused { T.tells texts.old → IfErr result (Refuses (RefusesSchedule (forms_for inputs) program.now) (T.held texts.old) name.now) }
    ensures fits { T.tells texts.old → result ≡ Err TextsRefused.Memory → ¬ IsTooLong (T.held texts.old name.now) TEXT_BYTES }
    ensures allowed { IfOk result (λ s. AllByRecursion (IsAllowed program.now) s.events) }
    ensures events { IfOk result (λ s. AllByRecursion (IsEvent program.now) s.events) }
    ensures numbered { IfOk result (λ s. AllByRecursion (IsNumberedFor inputs) s.events) }
    ensures cause { IfErr result (HasReadCause T.Texts texts.old texts.new) }
    ensures texts { KeepsTexts T.Texts texts.old texts.new }
    ensures asked { T.asked texts.new ≡ T.asked texts.old ++ name.now ∷ [] }
{
    match texts.read(alloc, name, TEXT_BYTES) {
        Ok(bytes) => schedule_in(alloc, inputs, program, bytes.as_slice()),
        Err(TextError::TooLong) => Err(TextsRefused::Schedule(0, Cause::Limit)),
        Err(TextError::Failed) => Err(TextsRefused::Read),
        Err(TextError::Memory) => Err(TextsRefused::Memory),
    }
}

/// The policy of a named text.
fn read_pace<T: Texts>(alloc: Global, texts: &mut T, name: &Word) -> Result<Policy, TextsRefused>
    ensures says { T.tells texts.old → IfOk result (IsPolicyOf (T.held texts.old) (Some name.now)) }
    ensures range { IfOk result IsInRange }
    ensures refused { T.tells texts.old → IfErr result (Refuses RefusesPolicy (T.held texts.old) name.now) }
    ensures fits { T.tells texts.old → result ≡ Err TextsRefused.Memory → ¬ IsTooLong (T.held texts.old name.now) TEXT_BYTES }
    ensures cause { IfErr result (HasReadCause T.Texts texts.old texts.new) }
    ensures texts { KeepsTexts T.Texts texts.old texts.new }
    ensures asked { T.asked texts.new ≡ T.asked texts.old ++ name.now ∷ [] }
{
    match texts.read(alloc, name, TEXT_BYTES) {
        Ok(bytes) => policy_in(alloc, bytes.as_slice()),
        Err(TextError::TooLong) => Err(TextsRefused::Policy(PolicyRefused::Range)),
        Err(TextError::Failed) => Err(TextsRefused::Read),
        Err(TextError::Memory) => Err(TextsRefused::Memory),
    }
}

/// What the texts with these names ask for, with a schedule that has these inputs. Each text is read once, and the first refusal ends it.
pub fn read_texts<T: Texts>(
    alloc: Global,
    inputs: Inputs,
    names: TextNames<'_>,
    texts: &mut T,
) -> Result<RunTexts, TextsRefused>
    ensures says { T.tells texts.old → IfOk result (AreTexts (forms_for inputs) (names_seen names.entry) (T.held texts.old)) }
    // The recovery theorem speaks of the program.
    ensures accepted { IfOk result (λ r. IsAccepted r.program) }
    ensures allowed { IfOk result (λ r. AllByRecursion (IsAllowed r.program) r.schedule.events) }
    // It speaks of each event of the schedule.
    ensures events { IfOk result (λ r. AllByRecursion (IsEvent r.program) r.schedule.events) }
    ensures numbered { IfOk result (λ r. AllByRecursion (IsNumberedFor inputs) r.schedule.events) }
    ensures range { IfOk result (λ r. IsInRange r.policy) }
    ensures refused { T.tells texts.old → IfErr result (AreRefused (forms_for inputs) (names_seen names.entry) (T.held texts.old)) }
    ensures cause { IfErr result (HasReadCause T.Texts texts.old texts.new) }
    ensures texts { KeepsTexts T.Texts texts.old texts.new }
    ensures asked { AskFor (each_name (names_seen names.entry)) (T.asked texts.old) (T.asked texts.new) }
    ensures all_asked { OnOk result (T.asked texts.new ≡ T.asked texts.old ++ each_name (names_seen names.entry)) }
{
    let scene = read_scene(alloc, texts, names.scenario)?;
    let schedule = read_events(alloc, texts, inputs, &scene.program, names.schedule)?;
    let policy = match names.policy {
        None => DEFAULTS,
        Some(name) => read_pace(alloc, texts, name)?,
    };
    Ok(RunTexts {
        program: scene.program,
        fingerprint: scene.fingerprint,
        schedule,
        policy,
    })
}

/// What the texts with these names ask for, of a run that serves lines. Each text is read once, and the first refusal ends it.
pub fn read_served<T: Texts>(
    alloc: Global,
    names: ServedNames<'_>,
    texts: &mut T,
) -> Result<ServedTexts, TextsRefused>
    ensures says { T.tells texts.old → IfOk result (AreServedTexts names.entry.scenario.now (option_map (λ w. w.now) names.entry.policy) (T.held texts.old)) }
    // The recovery theorem speaks of the program.
    ensures accepted { IfOk result (λ r. IsAccepted r.program) }
    ensures refused { T.tells texts.old → IfErr result (AreServedRefused names.entry.scenario.now (option_map (λ w. w.now) names.entry.policy) (T.held texts.old)) }
    ensures cause { IfErr result (HasReadCause T.Texts texts.old texts.new) }
    ensures texts { KeepsTexts T.Texts texts.old texts.new }
    ensures asked { AskFor (served_names names.entry.scenario.now (option_map (λ w. w.now) names.entry.policy)) (T.asked texts.old) (T.asked texts.new) }
    ensures all_asked { OnOk result (T.asked texts.new ≡ T.asked texts.old ++ served_names names.entry.scenario.now (option_map (λ w. w.now) names.entry.policy)) }
{
    let scene = read_scene(alloc, texts, names.scenario)?;
    let policy = match names.policy {
        None => DEFAULTS,
        Some(policy) => read_pace(alloc, texts, policy)?,
    };
    let fingerprint = scene.fingerprint;
    Ok(ServedTexts {
        program: scene.program,
        fingerprint,
        policy,
    })
}
