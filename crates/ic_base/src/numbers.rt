ghost use Rattle.std.specs.Prelude.{◌≡◌};
ghost use Rattle.ic_base.specs.Programs as programs;

use crate::Session;
use crate::limits::GREATEST_NUMBER;

/// Whether n may number a message, an output or a transaction: 1 to 2^63 - 1.
pub fn is_number(n: u64) -> bool
    ensures { result ≡ programs.is_number n }
{
    (1..=GREATEST_NUMBER).contains(&n)
}

/// Whether a session is one that a Tcom may give.
pub fn session_fits(session: Session) -> bool
    ensures { result ≡ programs.session_fits session }
{
    session.epoch <= GREATEST_NUMBER && session.counter <= GREATEST_NUMBER
}
