ghost use Rattle.std.specs.Prelude.{◌≡◌, ◌≤◌, ◌<◌, ◌∷◌, true, false, length, IfOk};
ghost use Rattle.std.specs.Vec.Iter.{into_iter_items};
ghost use Rattle.ic_base.specs.declared.limits.TheConstants.{COMPONENTS};
ghost use Rattle.def_run.specs.SystemStates.{has_disk};
ghost use Rattle.ic_live.specs.Berthed.{berthed};
ghost use Rattle.ic_joins.specs.Placing.{ArePlaced, IsNext};

use ic_base::{ComId, Items, Program, is_a_pcom, is_a_tcom};
use ic_disk::Disk;
use ic_node::Component;
use std::alloc::{AllocError, Global};
use std::vec::IntoIter;

/// The component in a place: the next of those that have a disk, or one outside.
fn next_in<D: Disk + Drop>(
    alloc: Global,
    program: &Program,
    c: ComId,
    inside: &mut IntoIter<Component<D>>,
) -> Component<D>
    requires { has_disk program.now «c» ≡ true → 0 < length (into_iter_items inside.old) }
    ensures { IsNext program.now «c» (into_iter_items inside.old) (into_iter_items inside.new) result }
{
    if !(is_a_pcom(program, c) || is_a_tcom(program, c)) {
        return Component::outside(alloc, c);
    }
    match inside.next() {
        Some(x) => x,
        None => unreachable!(),
    }
}

/// All components of a program in order: these, which have a disk, in their places, and between them those outside.
pub(crate) fn place_all<D: Disk + Drop>(
    alloc: Global,
    program: &Program,
    inside: Items<Component<D>>,
) -> Result<Vec<Component<D>>, AllocError>
    requires few { length program.now.components ≤ COMPONENTS }
    requires count { length inside ≡ length (berthed program.now) }
    ensures { IfOk result (λ all. ArePlaced program.now inside all.items) }
{
    let mut all = Vec::new(alloc);
    let mut rest = inside.into_vec().into_iter();
    for i in 0..program.components.len() {
        let x = next_in(alloc, program, ComId(i as u8), &mut rest);
        all.push(x)?;
    }
    Ok(all)
}
