ghost use Rattle.std.specs.Prelude.{OnOk, OnErr};
ghost use Rattle.ic_report.specs.Outputs.{if_any, Puts, FailsToPut};

use ic_disk::{Sink, SinkFailed};

/// Prints a piece in one call; an empty one in none.
pub fn print<K: Sink>(out: &mut K, piece: &[u8]) -> Result<(), SinkFailed>
    ensures printed { OnOk result (Puts K.Sink (if_any piece.now) out.old out.new) }
    ensures failed { OnErr result (FailsToPut K.Sink (if_any piece.now) out.old out.new) }
{
    if piece.is_empty() {
        return Ok(());
    }
    out.put(piece)
}
