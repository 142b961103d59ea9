ghost use Rattle.std.specs.Prelude.{option_copied};
ghost use Rattle.ic_report.specs.Ends.{EndsAs, EndsWith, EndsDone};

use crate::{fault_bytes, status_of};
use ic_base::{Fault, Program, Word};
use ic_disk::Sink;
use std::alloc::{AllocError, AllocFailed, Global};

/// The status of a call whose output failed.
pub const PRINT_FAILED: u8 = 9;

/// The status of a call that wants memory.
pub const NO_MEMORY: u8 = 12;

/// Why a call ends before its end.
#[derive(Debug, Drop)]
pub enum Why {
    /// With a last line that tells of this.
    Fault(Fault),
    /// The output failed.
    Print,
    /// Want of memory.
    Memory,
}

impl From<AllocError> for Why {
    ghost use Rattle.std.specs.Prelude.{◌≡◌};
    ghost use Rattle.ic_report.specs.declared.ending.Why.TheVariants.{Memory};

    ghost from_gives = { λ _ e. e ≡ Memory };

    fn from(_: AllocError) -> Self {
        Why::Memory
    }
}

impl<T: Drop> From<AllocFailed<T>> for Why {
    ghost use Rattle.std.specs.Prelude.{◌≡◌};
    ghost use Rattle.ic_report.specs.declared.ending.Why.TheVariants.{Memory};

    ghost from_gives = { λ _ e. e ≡ Memory };

    fn from(_: AllocFailed<T>) -> Self {
        Why::Memory
    }
}

/// Ends a call of a program that is refused or goes no further: prints its last line, which begins with the program's name, and
/// answers its status.
pub fn end_as<K: Sink>(
    alloc: Global,
    tool: &[u8],
    program: Option<&Program>,
    out: &mut K,
    why: &Why,
) -> u8
    ensures { EndsAs K.Sink tool.now (option_copied program.entry) why.now out.old out.new result }
{
    let fault = match why {
        Why::Fault(fault) => fault,
        Why::Print => return PRINT_FAILED,
        Why::Memory => return NO_MEMORY,
    };
    let Ok(name) = Vec::from_slice(alloc, tool) else {
        return NO_MEMORY;
    };
    let Ok(line) = fault_bytes(alloc, &Word::from_vec(name), program, fault) else {
        return NO_MEMORY;
    };
    match out.put(line.as_slice()) {
        Ok(()) => status_of(fault),
        Err(_) => PRINT_FAILED,
    }
}

/// So ends a call of icrun.
pub fn end_with<K: Sink>(alloc: Global, program: Option<&Program>, out: &mut K, why: &Why) -> u8
    ensures { EndsWith K.Sink (option_copied program.entry) why.now out.old out.new result }
{
    end_as(alloc, b"icrun", program, out, why)
}

/// Ends a call that is done: prints its lines all at once, and answers its status.
pub fn end_done<K: Sink>(out: &mut K, lines: &[u8]) -> u8
    ensures { EndsDone K.Sink lines.now out.old out.new result }
{
    match out.put(lines) {
        Ok(()) => 0,
        Err(_) => PRINT_FAILED,
    }
}
