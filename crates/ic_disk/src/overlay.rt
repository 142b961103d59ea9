ghost use Rattle.std.specs.Prelude.{◌≡◌, ◌+◌, ◌≤◌, ℕ, List, length, sum_by};
ghost use Rattle.def_log.specs.Torn.{written, all_written};
ghost use Rattle.ic_disk.specs.Past.{writes_of};
ghost use Rattle.ic_disk.specs.TornDisks.{AreReached, Shows};

use crate::write_list::WriteList;

// Writes over those of the shown bytes, which begin at an offset, that a write covers.
fn overlay_one(shown: &mut [u8], at: usize, place: usize, bytes: &[u8])
    ensures { (file : List ℕ) → place ≤ length file → Shows at file shown.old → Shows at (written file place bytes.now) shown.new }
{
    let start = place.saturating_sub(at);
    let skip = at.saturating_sub(place);
    if shown.len() <= start || bytes.len() <= skip {
        return;
    }
    let count = (shown.len() - start).min(bytes.len() - skip);
    put(shown, start, &bytes[skip..skip + count]);
}

// Writes over what is there.
fn put(shown: &mut [u8], start: usize, bytes: &[u8])
    requires { start + length bytes.now ≤ length shown.old }
    ensures { shown.new ≡ written shown.old start bytes.now }
{
    shown[start..start + bytes.len()].copy_from_slice(bytes);
}

// Writes over those of the shown bytes, which begin at an offset, that writes cover, in order.
fn overlay(shown: &mut [u8], at: usize, places: &[(usize, usize)], bytes: &[u8])
    requires { sum_by (λ place. place.1) places.now ≡ length bytes.now }
    ensures { (file : List ℕ) → AreReached file (writes_of places.now bytes.now) → Shows at file shown.old →
        Shows at (all_written file (writes_of places.now bytes.now)) shown.new }
{
    let Some((&(place, count), others)) = places.split_first() else {
        return;
    };
    let (front, rest) = bytes.split_at(count);
    overlay_one(shown, at, place, front);
    overlay(shown, at, others, rest);
}

/// Writes over those of the shown bytes, which begin at an offset, that writes cover, in order.
pub(crate) fn show_over(shown: &mut Vec<u8>, at: usize, held: &WriteList)
    ensures length { length shown.new.items ≡ length shown.old.items }
    ensures shows { (file : List ℕ) → AreReached file held.now.writes → Shows at file shown.old.items →
        Shows at (all_written file held.now.writes) shown.new.items }
{
    overlay(shown, at, &held.places, &held.bytes);
}
