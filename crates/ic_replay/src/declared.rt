ghost use Rattle.std.specs.Prelude.{◌≡◌};
ghost use Rattle.ic_base.specs.Programs as programs;

use ic_base::{Args, ComId, Kind, Program};

/// Whether a Pcom forces each message that it takes at once.
pub(crate) fn is_immediate(program: &Program, c: ComId) -> bool
    ensures { result ≡ programs.is_immediate program.now c }
{
    match program.components.as_slice().get(usize::from(c.0)) {
        Some(component) => component.immediate,
        None => false,
    }
}

/// Whether a program declares this component as a Pcom.
fn is_a_pcom(program: &Program, c: ComId) -> bool
    ensures { result ≡ programs.is_a_pcom program.now c }
{
    match program.components.as_slice().get(usize::from(c.0)) {
        Some(component) => match component.kind {
            Kind::Pcom => true,
            _ => false,
        },
        None => false,
    }
}

/// Whether d is a Pcom, and another one than c.
pub(crate) fn is_other_pcom(program: &Program, c: ComId, d: ComId) -> bool
    ensures { result ≡ programs.is_other_pcom program.now c d }
{
    is_a_pcom(program, d) && c.0 != d.0
}

/// Whether a component has this handler, with so many arguments.
pub(crate) fn has_handler(program: &Program, c: ComId, handler: u8, args: Args) -> bool
    ensures { result ≡ programs.has_handler program.now c handler args }
{
    match program.components.as_slice().get(usize::from(c.0)) {
        Some(component) => match component.handlers.as_slice().get(usize::from(handler)) {
            Some(h) => usize::from(h.params) == args.len(),
            None => false,
        },
        None => false,
    }
}
