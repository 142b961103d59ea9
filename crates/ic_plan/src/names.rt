ghost use Rattle.std.specs.Prelude.{◌≡◌, ◌<◌, ◌≤◌, length, slice_get, option_map, IsTrue, IfSome, IfOk, IfErr, All, Some};
ghost use Rattle.ic_base.specs.declared.limits.TheConstants.{COMPONENTS, HANDLERS, VALUES};
ghost use Rattle.def_syntax.specs.Schedule.{named_from, handler_from, is_inside, is_pcom};
ghost use Rattle.ic_base.specs.declared.scenario.Handler.{Handler};
ghost use Rattle.def_syntax.specs.Allowed.{IsSmall};
ghost use Rattle.ic_plan.specs.WantedKinds.{kind_test};

use ic_base::{Component, Handler, Kind, Program};

/// Which components an event may name.
#[derive(Clone, Copy, Debug, PartialEq, Eq)]
pub(crate) enum Wanted {
    Pcom,
    /// A Pcom or a Tcom: one with a log of its own.
    Inside,
}

fn passes(wanted: Wanted, kind: Kind) -> bool
    ensures { result ≡ kind_test wanted kind }
{
    match kind {
        Kind::Pcom => true,
        Kind::Tcom => wanted == Wanted::Inside,
        Kind::Xcom => false,
    }
}

/// The component of this name, where it is wanted, and its number.
pub(crate) fn named<'a>(
    program: &'a Program,
    wanted: Wanted,
    name: &[u8],
) -> Option<(u8, &'a Component)>
    requires { length program.now.components ≤ COMPONENTS }
    ensures found { option_map (λ x. (x.0, x.1.now)) result
        ≡ named_from 0 (kind_test wanted) name.now program.now.components }
    ensures there { IfSome result (λ x. slice_get program.now.components x.0 ≡ Some x.1.now) }
    ensures below { IfSome result (λ x. x.0 < length program.now.components) }
    ensures kind { IfSome result (λ x. IsTrue (kind_test wanted x.1.now.kind)) }
{
    for (i, component) in program.components.as_slice().iter().enumerate() {
        if name == component.name.as_slice() {
            if passes(wanted, component.kind) {
                return Some((i as u8, component));
            }
            return None;
        }
    }
    None
}

/// The handler of this name, and its number.
pub(crate) fn handler_of<'a>(component: &'a Component, name: &[u8]) -> Option<(u8, &'a Handler)>
    requires handlers { length component.now.handlers ≤ HANDLERS }
    requires params { All (λ (h : Handler). h.params ≤ VALUES) component.now.handlers }
    ensures few { IfSome result (λ x. x.1.now.params ≤ VALUES) }
    ensures found { option_map (λ x. (x.0, x.1.now)) result
        ≡ handler_from 0 name.now component.now.handlers }
    ensures there { IfSome result (λ x. slice_get component.now.handlers x.0 ≡ Some x.1.now) }
{
    for (i, handler) in component.handlers.as_slice().iter().enumerate() {
        if name == handler.name.as_slice() {
            return Some((i as u8, handler));
        }
    }
    None
}
