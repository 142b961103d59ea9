ghost use Rattle.std.specs.Prelude.{◌≡◌, ◌≤◌, ℕ, List, length, take, Result, IfErr, OnOk, None, Err};
ghost use Rattle.ic_base.specs.declared.record.Batch.{Batch};
ghost use Rattle.def_log.specs.Frame.{fingerprint_in, first_difference};
ghost use Rattle.def_former.specs.declared.limits.TheConstants.{FORMER_GATE, FORMER_LOG_BYTES};
ghost use Rattle.def_former.specs.Frame.{former_letters, behind_former_header, IsFormerForeign};
ghost use Rattle.ic_former.specs.Refusals.{IsNotForeign, IsOfFile};

use crate::LoadWhy;
use def_former::limits::FORMER_GATE;

/// The letters at the front of each log of the former format.
const LETTERS: [u8; 8] = *b"ICLOG001";

/// Whether bytes begin with the header of a scenario's log.
pub fn check_header(bytes: &[u8], fingerprint: &[u8; 32]) -> Result<(), LoadWhy>
    requires { length bytes.now ≤ FORMER_LOG_BYTES }
    ensures letters { OnOk result (first_difference former_letters (take 8 bytes.now) ≡ None) }
    ensures long { OnOk result (FORMER_GATE ≤ length bytes.now) }
    ensures fingerprint { OnOk result (fingerprint_in bytes.now ≡ fingerprint.now) }
    ensures bad { IfErr result (λ why. (place : ℕ) → why ≡ LoadWhy.Bad place → (behind : Result (List Batch) ℕ) →
        behind_former_header behind bytes.now ≡ Err place) }
    ensures not_foreign { IfErr result (λ why. (place : ℕ) → why ≡ LoadWhy.Bad place →
        IsNotForeign fingerprint.now bytes.now) }
    ensures foreign { IfErr result (λ why. (kept : List ℕ) → why ≡ LoadWhy.Foreign kept →
        IsFormerForeign fingerprint.now bytes.now kept) }
    ensures why { IfErr result IsOfFile }
{
    let front = &bytes[..bytes.len().min(8)];
    if let Some(place) = first_difference(&LETTERS, front) {
        return Err(LoadWhy::Bad(place as u64));
    }
    if bytes.len() < FORMER_GATE as usize {
        return Err(LoadWhy::Bad(bytes.len() as u64));
    }
    let kept = kept_fingerprint(bytes);
    if kept != *fingerprint {
        return Err(LoadWhy::Foreign(kept));
    }
    Ok(())
}

// The first place, of those that both texts have, at which they differ.
fn first_difference(one: &[u8], other: &[u8]) -> Option<usize>
    ensures { result ≡ first_difference one.now other.now }
{
    for i in 0..one.len().min(other.len()) {
        if one[i] != other[i] {
            return Some(i);
        }
    }
    None
}

// The fingerprint behind the letters.
fn kept_fingerprint(bytes: &[u8]) -> [u8; 32]
    requires { 40 ≤ length bytes.now }
    ensures { result ≡ fingerprint_in bytes.now }
{
    let mut kept = [0; 32];
    kept.copy_from_slice(&bytes[8..40]);
    kept
}
