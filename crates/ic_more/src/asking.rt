ghost use Rattle.std.specs.Prelude.{◌≡◌, ◌++◌, ◌∷◌, [], length, IfOk, IfErr};
ghost use Rattle.std.specs.List.{AllByRecursion};
ghost use Rattle.def_two.specs.Ends.{AreOpenings};
ghost use Rattle.def_two.specs.Runs.{IsEvent2};
ghost use Rattle.ic_disk.specs.Causes.{Rose};
ghost use Rattle.ic_script.specs.Reading.{openings_in, the_script};
ghost use Rattle.ic_more.specs.Asking.{IsScript, RefusesScript};

use crate::ending::{Fault2, Why2};
use def_two::Script;
use ic_base::limits::TEXT_BYTES;
use ic_base::{Cause, Word};
use ic_disk::{TextError, Texts};
use ic_script::read_script;
use ic_syntax::fingerprint;
use std::alloc::Global;

/// A script, and the fingerprint of its text.
#[derive(Drop)]
pub(crate) struct Asked {
    pub(crate) script: Script,
    pub(crate) fingerprint: [u8; 32],
}

/// The script that a name holds.
pub(crate) fn read_named<T: Texts>(alloc: Global, texts: &mut T, name: &Word) -> Result<Asked, Why2>
    ensures asked { T.asked texts.new ≡ T.asked texts.old ++ name.now ∷ [] }
    ensures script { T.tells texts.old → IfOk result (λ a. IsScript (T.held texts.old) name.now (the_script a.script) a.fingerprint) }
    ensures long { IfOk result (λ a. length a.fingerprint ≡ 32) }
    ensures openings { IfOk result (λ a. AreOpenings (openings_in a.script.books)) }
    ensures lawful { IfOk result (λ a. AllByRecursion (IsEvent2 (openings_in a.script.books)) a.script.events) }
    ensures refused { IfErr result (RefusesScript (T.tells texts.old) (Rose (T.faults texts.old) (T.faults texts.new)) (T.held texts.old) name.now) }
{
    let text = match texts.read(alloc, name, TEXT_BYTES) {
        Ok(text) => text,
        Err(TextError::TooLong) => return Err(Why2::Fault(Fault2::Script(0, Cause::Limit))),
        Err(TextError::Failed) => return Err(Why2::Fault(Fault2::Read)),
        Err(TextError::Memory) => return Err(Why2::Memory),
    };
    match read_script(alloc, text.as_slice()) {
        Ok(script) => Ok(Asked {
            script,
            fingerprint: fingerprint(text.as_slice()),
        }),
        Err(refused) => match refused.cause {
            Cause::Memory => Err(Why2::Memory),
            cause => Err(Why2::Fault(Fault2::Script(refused.line, cause))),
        },
    }
}
