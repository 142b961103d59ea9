ghost use Rattle.std.specs.Prelude.{◌≡◌};
ghost use Rattle.def_report.specs.Words.{name_of, handler_of};

use ic_base::{ComId, Program};

/// The declared name of a component.
pub(crate) fn name_of(program: &Program, c: ComId) -> &[u8]
    ensures { result.now ≡ name_of program.now c }
{
    match program.components.as_slice().get(usize::from(c.0)) {
        Some(component) => component.name.as_slice(),
        None => &[],
    }
}

/// The declared name of a handler of a component.
pub(crate) fn handler_of(program: &Program, c: ComId, handler: u8) -> &[u8]
    ensures { result.now ≡ handler_of program.now c handler }
{
    let Some(component) = program.components.as_slice().get(usize::from(c.0)) else {
        return &[];
    };
    match component.handlers.as_slice().get(usize::from(handler)) {
        Some(found) => found.name.as_slice(),
        None => &[],
    }
}
