ghost use Rattle.std.specs.Prelude.{◌≡◌, ◌++◌, ◌∷◌, [], ◌↔◌, ◌≤◌, length, IfOk, IfErr};
ghost use Rattle.ic_base.specs.declared.limits.TheConstants.{COMPONENTS};
ghost use Rattle.ic_disk.specs.Causes.{Rose};
ghost use Rattle.ic_audit.specs.Audits.{IsScene, RefusesScene};

use ic_base::limits::TEXT_BYTES;
use ic_base::{Cause, Fault, Program, Word};
use ic_disk::{TextError, Texts};
use ic_report::Why;
use ic_syntax::{fingerprint, read_scenario};
use std::alloc::Global;

/// The program of a scenario, and its fingerprint.
#[derive(Drop)]
pub struct Scene {
    pub program: Program,
    pub fingerprint: [u8; 32],
}

/// The scenario that a name holds.
pub fn read_scene<T: Texts>(alloc: Global, texts: &mut T, name: &Word) -> Result<Scene, Why>
    ensures asked { T.asked texts.new ≡ T.asked texts.old ++ name.now ∷ [] }
    ensures scene { T.tells texts.old → IfOk result (λ s. IsScene (T.held texts.old) name.now s.program s.fingerprint) }
    ensures few { IfOk result (λ s. length s.program.components ≤ COMPONENTS) }
    ensures refused { IfErr result (RefusesScene (T.tells texts.old) (Rose (T.faults texts.old) (T.faults texts.new)) (T.held texts.old) name.now) }
{
    let bytes = match texts.read(alloc, name, TEXT_BYTES) {
        Ok(bytes) => bytes,
        Err(TextError::TooLong) => return Err(Why::Fault(Fault::Scenario(0, Cause::Limit))),
        Err(TextError::Failed) => return Err(Why::Fault(Fault::Read)),
        Err(TextError::Memory) => return Err(Why::Memory),
    };
    match read_scenario(alloc, &bytes) {
        Ok(program) => Ok(Scene {
            program,
            fingerprint: fingerprint(&bytes),
        }),
        Err(refused) => match refused.cause {
            Cause::Memory => Err(Why::Memory),
            cause => Err(Why::Fault(Fault::Scenario(refused.line, cause))),
        },
    }
}
