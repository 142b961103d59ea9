ghost use Rattle.std.specs.Prelude.{◌≡◌, ◌<◌, ◌++◌, ◌∷◌, [], ℕ, Option, length, slice_get, Some, None, IfSome, IfNone};
ghost use Rattle.ic_base.specs.declared.refusals.WorldRefused.{WorldRefused};
ghost use Rattle.ic_live.specs.Berthed.{berthed};
ghost use Rattle.ic_live.specs.Berths.{BerthHolds};
ghost use Rattle.ic_live.specs.Ended.{AreEnded};

use crate::berth::{Berth, Parts};
use crate::held::Held;
use crate::scene::Scene;
use ic_base::{Items, WorldRefused};
use ic_lane::{LaneIn, LaneOut, Mark};
use ic_turn::Progress;
use std::alloc::Global;
use std::sync::Mutex;

/// What comes out of the berths: of each its component, how far that has come, the refusal that ended it, and its lane ends.
#[derive(Drop)]
pub(crate) struct Ended<X: Held, M: Mark> {
    pub components: Items<X>,
    pub progresses: Items<Progress>,
    pub refusals: Items<Option<WorldRefused>>,
    pub ins: Items<Items<LaneIn<M>>>,
    pub outs: Items<Items<LaneOut<M>>>,
}

/// The parts of one berth more.
fn keep<X: Held + Drop, M: Mark>(ended: &mut Ended<X, M>, parts: Parts<X, M>) -> Option<()>
    ensures components { IfSome result (λ _. ended.new.components ≡ ended.old.components ++ parts.component ∷ []) }
    ensures progresses { IfSome result (λ _. ended.new.progresses ≡ ended.old.progresses ++ parts.progress ∷ []) }
    ensures refusals { IfSome result (λ _. ended.new.refusals ≡ ended.old.refusals ++ parts.refused ∷ []) }
    ensures ins { IfSome result (λ _. ended.new.ins ≡ ended.old.ins ++ parts.ins.items ∷ []) }
    ensures outs { IfSome result (λ _. ended.new.outs ≡ ended.old.outs ++ parts.outs.items ∷ []) }
{
    let Parts {
        component,
        progress,
        refused,
        ins,
        outs,
    } = parts;
    ended.components.push(component).ok()?;
    ended.progresses.push(progress).ok()?;
    ended.refusals.push(refused).ok()?;
    ended.ins.push(Items::from_vec(ins)).ok()?;
    ended.outs.push(Items::from_vec(outs)).ok()
}

/// Takes the components out of their berths; None for want of memory. What a lock gives back is known by its type alone, so the place of
/// each is compared.
pub(crate) fn take_out<X: Held + Drop, M: Mark, N: Scene>(
    alloc: Global,
    berths: Vec<Mutex<Berth<X, M, N>>>,
) -> Option<Ended<X, M>>
    ensures ended { IfSome result (λ e. AreEnded (BerthHolds X.node X.which X.file X.tells X.is_over X.has_disk X.faults X.fails N.program N.fingerprint N.plan N.lane N.began M.honest N.fingerprint (berthed N.program)) e.components e.progresses e.refusals e.ins e.outs) }
    ensures count { IfSome result (λ e. length e.components ≡ length berths.items) }
{
    let mut berths = berths;
    berths.reverse();
    let mut ended = Ended {
        components: Items::new(alloc),
        progresses: Items::new(alloc),
        refusals: Items::new(alloc),
        ins: Items::new(alloc),
        outs: Items::new(alloc),
    };
    while let Some(lock) = berths.pop() {
        let berth = lock.into_inner();
        if berth.place() != ended.components.len() {
            return None;
        }
        keep(&mut ended, berth.into_parts())?;
    }
    Some(ended)
}

/// The refusal in the lowest place.
pub(crate) fn lowest(refusals: &[Option<WorldRefused>]) -> Option<(usize, WorldRefused)>
    ensures found { IfSome result (λ r. (slice_get refusals.now r.0 ≡ Some (Some r.1)) × ((k : ℕ) → k < r.0 → slice_get refusals.now k ≡ Some None)) }
    ensures none { IfNone result ((k : ℕ) (r : Option WorldRefused) → slice_get refusals.now k ≡ Some r → r ≡ None) }
{
    for at in 0..refusals.len() {
        if let Some(why) = refusals[at] {
            return Some((at, why));
        }
    }
    None
}
