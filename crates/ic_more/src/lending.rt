ghost use Rattle.std.specs.Prelude.{◌≡◌, ◌≤◌, ◌+◌, ◌++◌, length, IfOk, OnErr};
ghost use Rattle.std.specs.Vec.{vec_len, vec_capacity};
ghost use Rattle.ic_more.specs.Lending.{Divides};

use std::alloc::{AllocError, Global};

/// Takes so many of the first disks, in order. The others stay, in order.
pub(crate) fn take_first<D: Drop>(
    alloc: Global,
    disks: &mut Vec<D>,
    count: usize,
) -> Result<Vec<D>, AllocError>
    requires { count ≤ length disks.old.items }
    ensures taken { IfOk result (λ taken. Divides count disks.old.items taken.items disks.new.items) }
    ensures kept { OnErr result (disks.new.items ≡ disks.old.items) }
    ensures room { vec_capacity disks.new ≡ vec_capacity disks.old }
{
    let mut taken = Vec::with_capacity(alloc, count)?;
    for _ in 0..count {
        taken.push_reserved(disks.remove(0));
    }
    Ok(taken)
}

/// Puts the disks that were taken back in front of the others.
pub(crate) fn put_back<D: Drop>(disks: &mut Vec<D>, taken: Vec<D>)
    requires { vec_len disks.old + vec_len taken ≤ vec_capacity disks.old }
    ensures { disks.new.items ≡ taken.items ++ disks.old.items }
{
    let mut taken = taken;
    while let Some(disk) = taken.pop() {
        if disks.insert(0, disk).is_err() {
            unreachable!()
        }
    }
}
