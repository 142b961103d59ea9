ghost use Rattle.std.specs.Prelude.{◌≡◌};
ghost use Rattle.ic_base.specs.Programs as programs;

use crate::{Args, ComId, Kind, Program};

/// Whether a program declares this component as a Pcom.
pub fn is_a_pcom(program: &Program, c: ComId) -> bool
    ensures { result ≡ programs.is_a_pcom program.now c }
{
    match program.components.as_slice().get(usize::from(c.0)) {
        Some(component) => component.kind == Kind::Pcom,
        None => false,
    }
}

/// Whether a program declares this component as a Tcom.
pub fn is_a_tcom(program: &Program, c: ComId) -> bool
    ensures { result ≡ programs.is_a_tcom program.now c }
{
    match program.components.as_slice().get(usize::from(c.0)) {
        Some(component) => component.kind == Kind::Tcom,
        None => false,
    }
}

/// Whether a program declares this component as an Xcom.
pub fn is_an_xcom(program: &Program, c: ComId) -> bool
    ensures { result ≡ programs.is_an_xcom program.now c }
{
    match program.components.as_slice().get(usize::from(c.0)) {
        Some(component) => component.kind == Kind::Xcom,
        None => false,
    }
}

/// Whether a component is declared `immediate`: it forces each message that it takes at once, with its content.
pub fn is_immediate(program: &Program, c: ComId) -> bool
    ensures { result ≡ programs.is_immediate program.now c }
{
    match program.components.as_slice().get(usize::from(c.0)) {
        Some(component) => component.immediate,
        None => false,
    }
}

/// Whether d is a Pcom other than c, which may send to it.
pub fn is_other_pcom(program: &Program, c: ComId, d: ComId) -> bool
    ensures { result ≡ programs.is_other_pcom program.now c d }
{
    is_a_pcom(program, d) && c.0 != d.0
}

/// Whether a component has a handler of this number that takes as many arguments.
pub fn has_handler(program: &Program, c: ComId, handler: u8, args: Args) -> bool
    ensures { result ≡ programs.has_handler program.now c handler args }
{
    match program.components.as_slice().get(usize::from(c.0)) {
        Some(component) => match component.handlers.as_slice().get(usize::from(handler)) {
            Some(found) => usize::from(found.params) == args.len(),
            None => false,
        },
        None => false,
    }
}

/// Whether a component has a key of this number.
pub fn has_key(program: &Program, c: ComId, key: u16) -> bool
    ensures { result ≡ programs.has_key program.now c key }
{
    match program.components.as_slice().get(usize::from(c.0)) {
        Some(component) => usize::from(key) < component.keys.len(),
        None => false,
    }
}
