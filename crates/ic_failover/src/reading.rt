ghost use Rattle.std.specs.Prelude.{◌≡◌, ◌≤◌, ◌++◌, ◌∷◌, [], length, true, option_map, IfOk, IfErr, IfSome, OnOk, Ok, Some};
ghost use Rattle.std.specs.List.{AllByRecursion};
ghost use Rattle.def_syntax.specs.Allowed.{IsSmall};
ghost use Rattle.def_syntax.specs.Schedule.{named_from, is_pcom};
ghost use Rattle.ic_base.specs.Programs.{is_a_pcom};
ghost use Rattle.ic_base.specs.declared.limits.TheConstants.{COMPONENTS, TEXT_BYTES};
ghost use Rattle.ic_failover.specs.Asking.{MayBeOrdered, SaysOrders, RefusesOrders, AreFailoverTexts, AreFailoverRefused, IsRestOf, RefusesRest, HasFailoverCause};
ghost use Rattle.ic_plan.specs.Accepted.{IsAccepted};
ghost use Rattle.ic_plan.specs.Asking as asked;
ghost use Rattle.ic_plan.specs.Asking.{Holds, IsPolicyOf};
ghost use Rattle.ic_plan.specs.CommandViews.{names_seen};
ghost use Rattle.ic_plan.specs.Keeping.{each_name, if_named, AskFor, KeepsTexts, HasReadCause};
ghost use Rattle.ic_plan.specs.Refusing.{Refuses, RefusesPolicy, OrMemory};

use crate::texts::{FailoverRefused, FailoverTexts};
use def_standby::Orders;
use ic_base::limits::TEXT_BYTES;
use ic_base::{Cause, ComId, Kind, Policy, PolicyRefused, Program, Word};
use ic_disk::{TextError, Texts};
use ic_plan::{
    DEFAULTS, ServedNames, ServedTexts, TextNames, TextsRefused, read_policy, read_served,
    read_standby,
};
use std::alloc::Global;

/// The Pcom of this name.
fn pcom_named(program: &Program, name: &[u8]) -> Option<ComId>
    requires { length program.now.components ≤ COMPONENTS }
    ensures found { option_map (λ c. c.0) result ≡ option_map (λ x. x.0) (named_from 0 is_pcom name.now program.now.components) }
    ensures pcom { IfSome result (λ c. is_a_pcom program.now c ≡ true) }
{
    for (i, component) in program.components.as_slice().iter().enumerate() {
        if name == component.name.as_slice() {
            return match component.kind {
                Kind::Pcom => Some(ComId(i as u8)),
                Kind::Tcom | Kind::Xcom => None,
            };
        }
    }
    None
}

/// The orders that a schedule's text stands for.
fn orders_in(alloc: Global, program: &Program, bytes: &[u8]) -> Result<Orders, TextsRefused>
    requires { IsSmall program.now }
    ensures says { IfOk result (λ s. SaysOrders program.now s bytes.now) }
    ensures orders { IfOk result (λ s. AllByRecursion (MayBeOrdered program.now) s.orders) }
    ensures refused { IfErr result (OrMemory (RefusesOrders program.now) bytes.now) }
{
    match read_standby(alloc, program, bytes) {
        Ok(orders) => Ok(orders),
        Err(refused) => match refused.cause {
            Cause::Memory => Err(TextsRefused::Memory),
            cause => Err(TextsRefused::Schedule(refused.line, cause)),
        },
    }
}

/// The orders of the named schedule.
fn read_orders<T: Texts>(
    alloc: Global,
    texts: &mut T,
    program: &Program,
    name: &Word,
) -> Result<Orders, TextsRefused>
    requires { IsSmall program.now }
    ensures says { T.tells texts.old → IfOk result (λ s. Holds (T.held texts.old) name.now (SaysOrders program.now s)) }
    ensures orders { IfOk result (λ s. AllByRecursion (MayBeOrdered program.now) s.orders) }
    ensures refused { T.tells texts.old → IfErr result (Refuses (RefusesOrders program.now) (T.held texts.old) name.now) }
    ensures cause { IfErr result (HasReadCause T.Texts texts.old texts.new) }
    ensures texts { KeepsTexts T.Texts texts.old texts.new }
    ensures asked { T.asked texts.new ≡ T.asked texts.old ++ name.now ∷ [] }
{
    match texts.read(alloc, name, TEXT_BYTES) {
        Ok(bytes) => orders_in(alloc, program, bytes.as_slice()),
        Err(TextError::TooLong) => Err(TextsRefused::Schedule(0, Cause::Limit)),
        Err(TextError::Failed) => Err(TextsRefused::Read),
        Err(TextError::Memory) => Err(TextsRefused::Memory),
    }
}

/// The policy that a text asks for.
fn policy_in(alloc: Global, bytes: &[u8]) -> Result<Policy, TextsRefused>
    requires { length bytes.now ≤ TEXT_BYTES }
    ensures says { IfOk result (λ p. asked.policy_in bytes.now ≡ Ok p) }
    ensures refused { IfErr result (OrMemory RefusesPolicy bytes.now) }
{
    match read_policy(alloc, bytes) {
        Ok(policy) => Ok(policy),
        Err(PolicyRefused::Memory) => Err(TextsRefused::Memory),
        Err(refused) => Err(TextsRefused::Policy(refused)),
    }
}

/// The policy of the named text.
fn read_pace<T: Texts>(alloc: Global, texts: &mut T, name: &Word) -> Result<Policy, TextsRefused>
    ensures says { T.tells texts.old → IfOk result (IsPolicyOf (T.held texts.old) (Some name.now)) }
    ensures refused { T.tells texts.old → IfErr result (Refuses RefusesPolicy (T.held texts.old) name.now) }
    ensures cause { IfErr result (HasReadCause T.Texts texts.old texts.new) }
    ensures texts { KeepsTexts T.Texts texts.old texts.new }
    ensures asked { T.asked texts.new ≡ T.asked texts.old ++ name.now ∷ [] }
{
    match texts.read(alloc, name, TEXT_BYTES) {
        Ok(bytes) => policy_in(alloc, bytes.as_slice()),
        Err(TextError::TooLong) => Err(TextsRefused::Policy(PolicyRefused::Range)),
        Err(TextError::Failed) => Err(TextsRefused::Read),
        Err(TextError::Memory) => Err(TextsRefused::Memory),
    }
}

/// What the schedule and the policy with these names ask for, behind a scenario that was read.
fn read_rest<T: Texts>(
    alloc: Global,
    scene: ServedTexts,
    who: ComId,
    names: TextNames<'_>,
    texts: &mut T,
) -> Result<FailoverTexts, TextsRefused>
    requires { IsSmall scene.program }
    ensures says { T.tells texts.old → IfOk result (IsRestOf scene.program scene.fingerprint who (names_seen names.entry) (T.held texts.old)) }
    ensures same { IfOk result (λ r. (r.program ≡ scene.program) × (r.who ≡ who)) }
    ensures orders { IfOk result (λ r. AllByRecursion (MayBeOrdered r.program) r.orders.orders) }
    ensures refused { T.tells texts.old → IfErr result (RefusesRest scene.program (names_seen names.entry) (T.held texts.old)) }
    ensures cause { IfErr result (HasReadCause T.Texts texts.old texts.new) }
    ensures texts { KeepsTexts T.Texts texts.old texts.new }
    ensures asked { AskFor ((names_seen names.entry).schedule ∷ if_named (names_seen names.entry).policy) (T.asked texts.old) (T.asked texts.new) }
    ensures all_asked { OnOk result (T.asked texts.new ≡ T.asked texts.old ++ (names_seen names.entry).schedule ∷ if_named (names_seen names.entry).policy) }
{
    let orders = read_orders(alloc, texts, &scene.program, names.schedule)?;
    let policy = match names.policy {
        None => DEFAULTS,
        Some(name) => read_pace(alloc, texts, name)?,
    };
    Ok(FailoverTexts {
        program: scene.program,
        fingerprint: scene.fingerprint,
        who,
        orders,
        policy,
    })
}

/// What the texts with these names ask for, of a run with a standby of the Pcom of a name. Each text is read once, and the first refusal
/// ends it; the component is looked up before the schedule is read.
pub fn read_failover<T: Texts>(
    alloc: Global,
    who: &Word,
    names: TextNames<'_>,
    texts: &mut T,
) -> Result<FailoverTexts, FailoverRefused>
    ensures says { T.tells texts.old → IfOk result (AreFailoverTexts who.now (names_seen names.entry) (T.held texts.old)) }
    // The recovery theorem speaks of the program, and of each event of the schedule.
    ensures accepted { IfOk result (λ r. IsAccepted r.program) }
    ensures pcom { IfOk result (λ r. is_a_pcom r.program r.who ≡ true) }
    ensures orders { IfOk result (λ r. AllByRecursion (MayBeOrdered r.program) r.orders.orders) }
    ensures refused { T.tells texts.old → IfErr result (AreFailoverRefused who.now (names_seen names.entry) (T.held texts.old)) }
    ensures cause { IfErr result (HasFailoverCause T.Texts texts.old texts.new) }
    ensures texts { KeepsTexts T.Texts texts.old texts.new }
    ensures asked { AskFor (each_name (names_seen names.entry)) (T.asked texts.old) (T.asked texts.new) }
    ensures all_asked { OnOk result (T.asked texts.new ≡ T.asked texts.old ++ each_name (names_seen names.entry)) }
{
    let scenario = ServedNames {
        scenario: names.scenario,
        policy: None,
    };
    let scene = match read_served(alloc, scenario, texts) {
        Ok(scene) => scene,
        Err(refused) => return Err(FailoverRefused::Texts(refused)),
    };
    let Some(who) = pcom_named(&scene.program, who.as_slice()) else {
        return Err(FailoverRefused::NoPcom);
    };
    match read_rest(alloc, scene, who, names, texts) {
        Ok(asked) => Ok(asked),
        Err(refused) => Err(FailoverRefused::Texts(refused)),
    }
}
