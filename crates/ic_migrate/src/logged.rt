ghost use Rattle.std.specs.Prelude.{◌≡◌, ◌≤◌, length, IfOk, OnOk};
ghost use Rattle.ic_base.specs.declared.limits.TheConstants.{COMPONENTS};
ghost use Rattle.ic_migrate.specs.Logged.{has_log, with_logged, logged};

use ic_base::{ComId, Kind, Program};
use std::alloc::{AllocError, Global};

/// Whether a component of this kind has a log.
fn has_log(kind: Kind) -> bool
    ensures { result ≡ has_log kind }
{
    match kind {
        Kind::Pcom | Kind::Tcom => true,
        Kind::Xcom => false,
    }
}

/// Adds a component of this kind, if it has a log.
fn push_logged(coms: &mut Vec<ComId>, kind: Kind, com: ComId) -> Result<(), AllocError>
    ensures { OnOk result (coms.new.items ≡ with_logged kind «com» coms.old.items) }
{
    if has_log(kind) {
        coms.push(com)?;
    }
    Ok(())
}

/// The components of a program that have logs, in order.
pub fn components_with_logs(alloc: Global, program: &Program) -> Result<Vec<ComId>, AllocError>
    requires { length program.now.components ≤ COMPONENTS }
    ensures { IfOk result (λ coms. coms.items ≡ logged 0 program.now.components) }
{
    let components = program.components.as_slice();
    let mut coms = Vec::new(alloc);
    for i in 0..components.len() {
        push_logged(&mut coms, components[i].kind, ComId(i as u8))?;
    }
    Ok(coms)
}
