ghost use Rattle.std.specs.Prelude.{◌≡◌, length, slice_get};
ghost use Rattle.ic_base.specs.Programs as programs;
ghost use Rattle.def_state.specs.ImagePlaces as places;
ghost use Rattle.def_state.specs.Vol.{first_vol};

use ic_base::{ComId, Handler, Kind, Program};

/// Whether a component is a Tcom.
pub(crate) fn is_a_tcom(program: &Program, com: ComId) -> bool
    ensures { result ≡ programs.is_a_tcom program.now «com» }
{
    match program.components.as_slice().get(usize::from(com.0)) {
        Some(component) => component.kind == Kind::Tcom,
        None => false,
    }
}

/// Whether a component is an Xcom.
pub(crate) fn is_an_xcom(program: &Program, com: ComId) -> bool
    ensures { result ≡ programs.is_an_xcom program.now «com» }
{
    match program.components.as_slice().get(usize::from(com.0)) {
        Some(component) => component.kind == Kind::Xcom,
        None => false,
    }
}

/// Whether another component than `c` is a Pcom.
pub(crate) fn is_other_pcom(program: &Program, c: ComId, other: ComId) -> bool
    ensures { result ≡ programs.is_other_pcom program.now c other }
{
    match program.components.as_slice().get(usize::from(other.0)) {
        Some(component) => component.kind == Kind::Pcom && c.0 != other.0,
        None => false,
    }
}

/// The handlers of a component.
pub(crate) fn handlers_of(program: &Program, com: ComId) -> &[Handler]
    ensures { result.now ≡ places.handlers_of program.now «com» }
{
    match program.components.as_slice().get(usize::from(com.0)) {
        Some(component) => component.handlers.as_slice(),
        None => &[],
    }
}

/// How many parameters a handler of a component has.
pub(crate) fn params_of(program: &Program, com: ComId, handler: u8) -> u8
    ensures { result ≡ places.params_of program.now «com» handler }
{
    match handlers_of(program, com).get(usize::from(handler)) {
        Some(handler) => handler.params,
        None => 0,
    }
}

/// How many variables a component has.
pub(crate) fn count_of_vars(program: &Program, com: ComId) -> usize
    ensures { result ≡ length (first_vol program.now «com»).vars }
{
    match program.components.as_slice().get(usize::from(com.0)) {
        Some(component) => component.vars.len(),
        None => 0,
    }
}
