ghost use Rattle.std.specs.Prelude.{◌≡◌, ◌+◌, ◌≤◌, ◌<◌, ◌++◌, [], ◌∷◌, not, length, IfOk, OnOk, OnErr};
ghost use Rattle.std.specs.List.{insert};
ghost use Rattle.std.specs.Vec.{vec_len, vec_capacity};
ghost use Rattle.ic_world.specs.Opening.{is_outside, disks_in};
ghost use Rattle.ic_run.specs.Lending.{lent, left_over, merged};

use ic_base::{Kind, Program};
use std::alloc::{AllocError, Global};

/// Whether a component of this kind has a disk.
fn has_disk(kind: Kind) -> bool
    ensures { result ≡ not (is_outside kind) }
{
    match kind {
        Kind::Pcom | Kind::Tcom => true,
        Kind::Xcom => false,
    }
}

/// Appends an element for which there is room.
fn push_reserved<T: Drop>(list: &mut Vec<T>, x: T)
    requires { vec_len list.old < vec_capacity list.old }
    ensures items { list.new.items ≡ list.old.items ++ x ∷ [] }
    ensures len { vec_len list.new ≡ vec_len list.old + 1 }
    ensures capacity { vec_capacity list.old ≤ vec_capacity list.new }
{
    if list.push(x).is_err() {
        unreachable!()
    }
}

/// Puts an element, for which there is room, before the one at a place.
fn insert_reserved<T: Drop>(list: &mut Vec<T>, at: usize, x: T)
    requires within { at ≤ vec_len list.old }
    requires room { vec_len list.old < vec_capacity list.old }
    ensures items { list.new.items ≡ insert list.old.items at x }
    ensures len { vec_len list.new ≡ vec_len list.old + 1 }
    ensures capacity { vec_capacity list.old ≤ vec_capacity list.new }
{
    if list.insert(at, x).is_err() {
        unreachable!()
    }
}

/// Takes the disk of each component that has one, in order; the disk in a component's place is its own. The others stay, in order.
pub fn take_disks<D: Drop>(
    alloc: Global,
    program: &Program,
    disks: &mut Vec<D>,
) -> Result<Vec<D>, AllocError>
    requires { length program.now.components ≤ length disks.old.items }
    ensures taken { IfOk result (λ taken. taken.items ≡ lent program.now.components disks.old.items) }
    ensures left { OnOk result (disks.new.items ≡ left_over program.now.components disks.old.items) }
    ensures kept { OnErr result (disks.new.items ≡ disks.old.items) }
    ensures room { vec_capacity disks.new ≡ vec_capacity disks.old }
{
    let components = program.components.as_slice();
    let mut taken = Vec::with_capacity(alloc, components.len())?;
    let mut at = 0;
    for i in 0..components.len() {
        if has_disk(components[i].kind) {
            push_reserved(&mut taken, disks.remove(at));
        } else {
            at += 1;
        }
    }
    Ok(taken)
}

/// Puts the disks that were taken back in the places of their components.
pub fn put_back<D: Drop>(program: &Program, disks: &mut Vec<D>, taken: Vec<D>)
    requires count { length taken.items ≡ disks_in program.now.components }
    requires enough { length program.now.components ≤ length disks.old.items + length taken.items }
    requires room { vec_len disks.old + vec_len taken ≤ vec_capacity disks.old }
    ensures { disks.new.items ≡ merged program.now.components disks.old.items taken.items }
{
    let components = program.components.as_slice();
    let mut taken = taken.into_iter();
    for i in 0..components.len() {
        if has_disk(components[i].kind) {
            let Some(disk) = taken.next() else {
                unreachable!()
            };
            insert_reserved(disks, i, disk);
        }
    }
}
