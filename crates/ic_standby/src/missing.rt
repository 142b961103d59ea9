ghost use Rattle.std.specs.Prelude.{◌≡◌, true, false, IfSome, IfNone, Some, option_map};
ghost use Rattle.def_standby.specs.Standbys.{first_missing, is_missing, contents_among};
ghost use Rattle.def_step.specs.Replay.{waits_for};
ghost use Rattle.ic_replay.specs.Replaying.{identity_of};

use crate::play::content_at_hand;
use ic_base::{ComId, Msg, Record};

/// The message that a record takes by identity, where it isn't at hand.
fn missing_of(com: ComId, stored: &Record, msgs: &[Msg]) -> Option<(ComId, u64)>
    ensures some { IfSome result (λ x. (is_missing (contents_among «com» msgs.now) stored.now ≡ true) × (waits_for stored.now ≡ Some (identity_of x))) }
    ensures none { IfNone result (is_missing (contents_among «com» msgs.now) stored.now ≡ false) }
{
    match stored {
        Record::Take { from, k, .. } => match content_at_hand(msgs, com, stored) {
            Some(_) => None,
            None => Some((*from, *k)),
        },
        Record::TakeWhole { .. }
        | Record::Input { .. }
        | Record::Value { .. }
        | Record::Outcome { .. }
        | Record::Released { .. }
        | Record::Shown { .. }
        | Record::Checkpoint { .. }
        | Record::Epoch { .. }
        | Record::Decided { .. } => None,
    }
}

/// The first message that one of these records takes by identity and that isn't at hand.
pub(crate) fn first_missing(com: ComId, records: &[Record], msgs: &[Msg]) -> Option<(ComId, u64)>
    ensures { option_map identity_of result ≡ first_missing (contents_among «com» msgs.now) records.now }
{
    for stored in records {
        if let Some(x) = missing_of(com, stored, msgs) {
            return Some(x);
        }
    }
    None
}
