ghost use Rattle.std.specs.Prelude.{◌≡◌, ◌≤◌, Ok, Err, option_map, IfOk, IfErr, MatchResult, OnOk};
ghost use Rattle.def_syntax.specs.Text.{look_up};
ghost use Rattle.toml.specs.View.{view, table_view};
ghost use Rattle.ic_plan.specs.Keys.{IsFirstRefusal, IsOfFirstKey};
ghost use Rattle.def_policy.specs.Policies.{keys, levels, number_in, level_in, with_setting, with_key, with_members, defaults, policy_of, IsInRange, PolicyRefusedAs};

use def_policy::Setting;
use ic_base::{Policy, PolicyRefused, ReportLevel};
use std::alloc::Global;
use toml::{Table, Value};

/// The setting of a key, if there is one.
fn setting_of(key: &[u8]) -> Option<Setting>
    ensures { result ≡ look_up key.now keys }
{
    if key == b"checkpoint_every".as_slice() {
        Some(Setting::CheckpointEvery)
    } else if key == b"force_every".as_slice() {
        Some(Setting::ForceEvery)
    } else if key == b"lane".as_slice() {
        Some(Setting::Lane)
    } else if key == b"report".as_slice() {
        Some(Setting::Report)
    } else if key == b"turns".as_slice() {
        Some(Setting::Turns)
    } else if key == b"workers".as_slice() {
        Some(Setting::Workers)
    } else {
        None
    }
}

fn level_of(word: &[u8]) -> Option<ReportLevel>
    ensures { result ≡ look_up word.now levels }
{
    match word {
        b"full" => Some(ReportLevel::Full),
        b"brief" => Some(ReportLevel::Brief),
        b"summary" => Some(ReportLevel::Summary),
        _ => None,
    }
}

/// The number that a value is, from the one to the other.
fn number_in(low: u32, high: u32, value: &Value) -> Result<u32, PolicyRefused>
    ensures value { result ≡ number_in low high (view value.now) }
    ensures range { IfOk result (λ n. (low ≤ n) × (n ≤ high)) }
{
    match value.as_integer() {
        Some(z) => {
            if i64::from(low) <= z && z <= i64::from(high) {
                Ok(z as u32)
            } else {
                Err(PolicyRefused::Range)
            }
        }
        None => Err(PolicyRefused::Kind),
    }
}

fn level_in(value: &Value) -> Result<ReportLevel, PolicyRefused>
    ensures { result ≡ level_in (view value.now) }
{
    match value.as_str() {
        Some(word) => match level_of(word.as_bytes()) {
            Some(level) => Ok(level),
            None => Err(PolicyRefused::Range),
        },
        None => Err(PolicyRefused::Kind),
    }
}

/// The policy with one setting more.
fn with_setting(policy: Policy, value: &Value, setting: Setting) -> Result<Policy, PolicyRefused>
    requires { IsInRange policy }
    ensures value { result ≡ with_setting policy (view value.now) setting }
    ensures range { IfOk result IsInRange }
{
    match setting {
        Setting::CheckpointEvery => Ok(Policy {
            checkpoint_every: number_in(0, 100000, value)?,
            ..policy
        }),
        Setting::ForceEvery => Ok(Policy {
            force_every: number_in(0, 100000, value)?,
            ..policy
        }),
        Setting::Report => Ok(Policy {
            report: level_in(value)?,
            ..policy
        }),
        Setting::Workers => Ok(Policy {
            workers: number_in(1, 8, value)? as u8,
            ..policy
        }),
        Setting::Lane => Ok(Policy {
            lane: number_in(1, 1024, value)? as u16,
            ..policy
        }),
        Setting::Turns => Ok(Policy {
            turns: number_in(0, 1000000, value)?,
            ..policy
        }),
    }
}

/// The policy with what stands at one key.
#[tactic(auto, unfolding(def_policy::specs::Policies::with_key))]
fn with_key(policy: Policy, key: &[u8], value: &Value) -> Result<Policy, PolicyRefused>
    requires { IsInRange policy }
    ensures value { result ≡ with_key policy key.now (view value.now) }
    ensures range { IfOk result IsInRange }
{
    match setting_of(key) {
        Some(setting) => with_setting(policy, value, setting),
        None => Err(PolicyRefused::Unknown),
    }
}

/// What an empty document asks for.
pub const DEFAULTS: Policy = Policy {
    checkpoint_every: 0,
    force_every: 0,
    report: ReportLevel::Full,
    workers: 2,
    lane: 64,
    turns: 20000,
};

/// The policy that a table asks for.
fn asked_by(table: &Table) -> Result<Policy, PolicyRefused>
    ensures value { result ≡ with_members defaults (table_view table.now) }
    ensures range { IfOk result IsInRange }
    ensures first { IfErr result (IsFirstRefusal (table_view table.now)) }
{
    let mut policy = DEFAULTS;
    for (key, value) in table.iter() {
        match with_key(policy, key.as_bytes(), value) {
            Ok(next) => policy = next,
            Err(e) => return Err(e),
        }
    }
    Ok(policy)
}

/// The policy that a text asks for.
pub fn read_policy(alloc: Global, bytes: &[u8]) -> Result<Policy, PolicyRefused>
    ensures accepted { IfOk result (λ p. policy_of bytes.now ≡ Ok p) }
    ensures range { IfOk result IsInRange }
    ensures refused { IfErr result (PolicyRefusedAs (policy_of bytes.now)) }
    ensures first { IfErr result (IsOfFirstKey bytes.now) }
{
    match toml::table_from_slice(alloc, bytes) {
        Ok(table) => asked_by(&table),
        Err(e) => {
            if e.is_memory() {
                Err(PolicyRefused::Memory)
            } else {
                Err(PolicyRefused::NotToml)
            }
        }
    }
}
