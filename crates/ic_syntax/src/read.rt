ghost use Rattle.std.specs.Prelude.{◌≡◌, ◌<◌, length, IfOk, IfErr, Err};
ghost use Rattle.def_facts.specs.Flat.{HasFlatParts};
ghost use Rattle.def_facts.specs.Playable.{IsPlayable};
ghost use Rattle.def_syntax.specs.Scenario.{IsScenario, scenario_of};
ghost use Rattle.ic_syntax.specs.Limits.{IsWithin};
ghost use Rattle.sha2.specs.Sha256.{sha256};
ghost use Rattle.ic_syntax.specs.Passes.{Refuses};

use crate::walk::{first_pass, second_pass};
use ic_base::limits::TEXT_BYTES;
use ic_base::{Cause, Program, ScenarioRefused};
use sha2::{Digest, Sha256};
use std::alloc::Global;

/// The program for which a text stands (docs/FORMATS.md), or the line and cause for which it is refused. Want of memory may
/// come before any other refusal but that of a text that is too long.
#[tactic(auto, using(crate::proofs::Playing::playable, crate::proofs::Playing::flat))]
pub fn read_scenario(alloc: Global, bytes: &[u8]) -> Result<Program, ScenarioRefused>
    ensures accepted { IfOk result (λ p. IsScenario bytes.now p) }
    ensures within { IfOk result IsWithin }
    // It is one of which the recovery theorem speaks.
    ensures playable { IfOk result IsPlayable }
    ensures flat { IfOk result HasFlatParts }
    ensures refused { IfErr result (Refuses (scenario_of bytes.now)) }
    // It is told before anything is allocated.
    ensures too_long { TEXT_BYTES < length bytes.now → result ≡ Err (record { line = 0; cause = Cause.Limit }) }
{
    read_passes(alloc, bytes)
}

/// The program that the two passes over a text give.
#[tactic(auto, using(crate::proofs::Walks::too_long, crate::proofs::Walks::refused_first, crate::proofs::Walks::refused_second))]
fn read_passes(alloc: Global, bytes: &[u8]) -> Result<Program, ScenarioRefused>
    ensures accepted { IfOk result (λ p. IsScenario bytes.now p) }
    ensures within { IfOk result IsWithin }
    ensures refused { IfErr result (Refuses (scenario_of bytes.now)) }
    ensures too_long { TEXT_BYTES < length bytes.now → result ≡ Err (record { line = 0; cause = Cause.Limit }) }
{
    if bytes.len() > TEXT_BYTES {
        return Err(ScenarioRefused {
            line: 0,
            cause: Cause::Limit,
        });
    }
    let seen = match first_pass(alloc, bytes) {
        Ok(seen) => seen,
        Err(refused) => return Err(refused),
    };
    let declared = seen.into_components();
    match second_pass(alloc, &declared, bytes) {
        Ok(draft) => Ok(draft.finished()),
        Err(refused) => Err(refused),
    }
}

/// What tells a scenario from every other: the SHA-256 of its whole text.
pub fn fingerprint(bytes: &[u8]) -> [u8; 32]
    ensures { result ≡ sha256 bytes.now }
{
    Sha256::digest(bytes)
}
