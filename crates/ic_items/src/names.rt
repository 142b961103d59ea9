ghost use Rattle.std.specs.Prelude.{◌≡◌, bytes_eq, IfOk};

use ic_base::{Items, Name};
use std::alloc::{AllocError, Global};

/// Names are compared byte by byte.
pub fn same(a: &[u8], b: &[u8]) -> bool
    ensures { result ≡ bytes_eq a.now b.now }
{
    a == b
}

/// The same name once more.
pub fn copied(alloc: Global, name: &Name) -> Result<Name, AllocError>
    ensures { IfOk result (λ n. n ≡ name.now) }
{
    Ok(Items::from_vec(name.as_slice().to_vec(alloc)?))
}
