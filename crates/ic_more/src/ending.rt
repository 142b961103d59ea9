ghost use Rattle.std.specs.Prelude.{option_map, option_copied};
ghost use Rattle.ic_script.specs.Reading.{the_script};
ghost use Rattle.ic_more.specs.Ends.{EndsWith};

use crate::faults::{fault_bytes, status_of};
use def_two::Script;
use ic_base::Cause;
use ic_disk::Sink;
use ic_report::{NO_MEMORY, PRINT_FAILED};
use std::alloc::{AllocError, AllocFailed, Global};

/// Why a call ends before its end, as its last line tells it. Components are the chief, 0, and the books from 1 on.
#[derive(Clone, Copy, Debug, PartialEq, Eq)]
pub enum Fault2 {
    /// The words are no call of the program.
    Usage,
    /// The line, or 0 for the text as a whole, and why the script is refused.
    Script(u32, Cause),
    /// The kept fingerprint, then the given one.
    Foreign(u8, [u8; 32], [u8; 32]),
    /// The place at which the component's log is refused.
    Bad(u8, u64),
    /// One more packet would pass its number.
    Packets,
    LogFull(u8),
    /// The script wasn't read.
    Read,
    Disk(u8),
    NotBlank(u8),
}

/// Why a call ends before its end.
#[derive(Clone, Copy, Debug, PartialEq, Eq)]
pub enum Why2 {
    /// With a last line that tells of this.
    Fault(Fault2),
    /// The output failed.
    Print,
    /// Want of memory.
    Memory,
}

impl From<AllocError> for Why2 {
    ghost use Rattle.std.specs.Prelude.{◌≡◌};
    ghost use Rattle.ic_more.specs.declared.ending.Why2.TheVariants.{Memory};

    ghost from_gives = { λ _ e. e ≡ Memory };

    fn from(_: AllocError) -> Self {
        Why2::Memory
    }
}

impl<T: Drop> From<AllocFailed<T>> for Why2 {
    ghost use Rattle.std.specs.Prelude.{◌≡◌};
    ghost use Rattle.ic_more.specs.declared.ending.Why2.TheVariants.{Memory};

    ghost from_gives = { λ _ e. e ≡ Memory };

    fn from(_: AllocFailed<T>) -> Self {
        Why2::Memory
    }
}

/// Ends a call that is refused or goes no further: prints its last line, and answers its status.
pub(crate) fn end_with<K: Sink>(
    alloc: Global,
    script: Option<&Script>,
    out: &mut K,
    why: Why2,
) -> u8
    ensures { EndsWith K.Sink (option_map the_script (option_copied script.entry)) why out.old out.new result }
{
    let fault = match why {
        Why2::Fault(fault) => fault,
        Why2::Print => return PRINT_FAILED,
        Why2::Memory => return NO_MEMORY,
    };
    let Ok(line) = fault_bytes(alloc, script, fault) else {
        return NO_MEMORY;
    };
    match out.put(line.as_slice()) {
        Ok(()) => status_of(fault),
        Err(_) => PRINT_FAILED,
    }
}
