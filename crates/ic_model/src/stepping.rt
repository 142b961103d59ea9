ghost use Rattle.std.specs.Prelude.{◌≡◌, ◌≢◌, ◌<◌, ◌-◌, ◌∷◌, [], length, slice_get, slice_set, Some, None, IfSome, IfNone, IfOk, IfErr, OnOk};
ghost use Rattle.def_plain.specs.Plain as plain;
ghost use Rattle.def_plain.specs.declared.world.PlainCom.TheVariants as kinds;
ghost use Rattle.ic_base.specs.declared.messages.Act.TheVariants as acts;
ghost use Rattle.ic_model.specs.Views.{touch_seen, talk_seen, NoStepIf};

use crate::cell::Touch;
use crate::indexed::IndexedWorld;
use crate::refusals::StepRefused;
use crate::whole::{Talk, whole_part};
use ic_base::{Act, ComId, Entry, Program, Vals};
use std::alloc::Global;

/// The whole part that a Pcom has in hand, played at once on the ledger that a Tcom has now.
fn part_on(
    alloc: Global,
    program: &Program,
    world: &IndexedWorld,
    tcom: ComId,
    com: ComId,
) -> Result<Talk, StepRefused>
    ensures part { IfOk result (λ talk. plain.part_on program.now world.now tcom «com» ≡ Some (talk_seen talk)) }
    ensures refused { IfErr result (NoStepIf (plain.part_on program.now world.now tcom «com» ≡ None)) }
{
    let Some(ledger) = world.ledger_at(tcom) else {
        return Err(StepRefused::NoStep);
    };
    let Some(pcom) = world.pcom_at(com) else {
        return Err(StepRefused::NoStep);
    };
    let Some(hand) = &pcom.hand else {
        return Err(StepRefused::NoStep);
    };
    let ledger = ledger.copy(alloc)?;
    match whole_part(alloc, program, com, pcom, hand, ledger)? {
        Some((with, talk)) => {
            if with.0 == tcom.0 {
                Ok(talk)
            } else {
                Err(StepRefused::NoStep)
            }
        }
        None => Err(StepRefused::NoStep),
    }
}

/// A Tcom commits the n-th transaction of a Pcom, whose whole part is played on its ledger.
fn commit(
    alloc: Global,
    program: &Program,
    world: &mut IndexedWorld,
    tcom: ComId,
    com: ComId,
    n: u64,
) -> Result<(), StepRefused>
    ensures step { OnOk result (plain.act_step program.now world.old tcom (acts.Commit «com» n) ≡ Some world.new) }
    ensures refused { IfErr result (NoStepIf (plain.act_step program.now world.old tcom (acts.Commit «com» n) ≡ None)) }
{
    let talk = part_on(alloc, program, world, tcom, com)?;
    world.touch(alloc, program, com, Touch::Commit(n, talk.answers))?;
    world.put_ledger(tcom, talk.ledger);
    Ok(())
}

/// Plays one entry. Behind a refusal the world is of no use.
pub(crate) fn plain_step(
    alloc: Global,
    program: &Program,
    world: &mut IndexedWorld,
    entry: &Entry,
) -> Result<(), StepRefused>
    ensures step { OnOk result (plain.plain_step program.now world.old entry.now ≡ Some world.new) }
    ensures refused { IfErr result (NoStepIf (plain.plain_step program.now world.old entry.now ≡ None)) }
{
    let com = entry.com;
    match entry.act {
        Act::Take(from, k) => match world.message_of(from, com, k) {
            Some(message) => {
                let taken = Touch::Message(from, k, message.handler, message.args);
                world.touch(alloc, program, com, taken)
            }
            None => Err(StepRefused::NoStep),
        },
        Act::Input(handler, args) => world.touch(alloc, program, com, Touch::Input(handler, args)),
        Act::Commit(pcom, n) => commit(alloc, program, world, com, pcom, n),
        Act::Abort(n) => world.touch(alloc, program, com, Touch::Abort(n)),
    }
}
