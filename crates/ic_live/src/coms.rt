ghost use Rattle.std.specs.Prelude.{◌≡◌, ◌≤◌, ◌++◌, ◌∷◌, [], length, filter, OnOk, IfOk};
ghost use Rattle.ic_base.specs.declared.limits.TheConstants.{COMPONENTS};
ghost use Rattle.def_run.specs.SystemStates.{has_disk};
ghost use Rattle.ic_live.specs.Berthed.{berthed};

use ic_base::{ComId, Program, is_a_pcom, is_a_tcom};
use std::alloc::{AllocError, Global};

/// A component goes behind these, if it is a Pcom or a Tcom.
fn add_berthed(program: &Program, coms: &mut Vec<ComId>, c: ComId) -> Result<(), AllocError>
    ensures { OnOk result (coms.new.items ≡ coms.old.items ++ filter (has_disk program.now) (c ∷ [])) }
{
    if !(is_a_pcom(program, c) || is_a_tcom(program, c)) {
        return Ok(());
    }
    coms.push(c)?;
    Ok(())
}

/// The components that have a berth, in order: the Pcoms and Tcoms.
pub fn berthed(alloc: Global, program: &Program) -> Result<Vec<ComId>, AllocError>
    requires few { length program.now.components ≤ COMPONENTS }
    ensures { IfOk result (λ coms. coms.items ≡ berthed program.now) }
{
    let mut coms = Vec::new(alloc);
    for i in 0..program.components.len() {
        add_berthed(program, &mut coms, ComId(i as u8))?;
    }
    Ok(coms)
}
