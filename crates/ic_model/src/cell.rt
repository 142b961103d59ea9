ghost use Rattle.std.specs.Prelude.{◌≡◌, ◌∷◌, [], ◌++◌, Some, None, IfOk, IfErr};
ghost use Rattle.def_plain.specs.Cell as cell;
ghost use Rattle.ic_model.specs.Index.{IsIndexOf};
ghost use Rattle.ic_model.specs.Views.{touch_seen, NoStepIf};

use crate::handling::{plays_on, takes};
use crate::index::MessageIndex;
use crate::refusals::StepRefused;
use def_plain::{InHand, PlainPcom};
use ic_base::{Args, ComId, Done, Items, Program, Vals};
use std::alloc::Global;

/// What touches a Pcom.
#[derive(Drop)]
pub(crate) enum Touch {
    /// A message of this sender with this number, its handler and its arguments.
    Message(ComId, u64, u8, Args),
    /// An input, with its handler and its arguments.
    Input(u8, Args),
    /// The abort of its transaction of this number.
    Abort(u64),
    /// The commit of its transaction of this number, with the answers of its requests.
    Commit(u64, Vals),
}

/// The open transaction of a Pcom, which is to be its n-th, ends so.
fn transaction_ends(
    alloc: Global,
    program: &Program,
    com: ComId,
    pcom: PlainPcom,
    index: &mut MessageIndex,
    n: u64,
    end: Done,
) -> Result<PlainPcom, StepRefused>
    requires { IsIndexOf pcom.receipts pcom.sent index.old }
    ensures step { IfOk result (λ next. cell.transaction_ends program.now «com» pcom n end pcom.hand ≡ Some next) }
    ensures refused { IfErr result (NoStepIf (cell.transaction_ends program.now «com» pcom n end pcom.hand ≡ None)) }
    ensures index { IfOk result (λ next. IsIndexOf next.receipts next.sent index.new) }
{
    let PlainPcom {
        vars,
        hand,
        sent,
        receipts,
        outs,
        begun,
    } = pcom;
    let Some(mut hand) = hand else {
        return Err(StepRefused::NoStep);
    };
    if begun != n {
        return Err(StepRefused::NoStep);
    }
    hand.done.push(end)?;
    let rest = PlainPcom {
        vars,
        hand: None,
        sent,
        receipts,
        outs,
        begun,
    };
    Ok(plays_on(alloc, program, com, rest, index, hand)?)
}

/// What a touch makes of a Pcom and of its index.
pub(crate) fn cell_step(
    alloc: Global,
    program: &Program,
    com: ComId,
    pcom: PlainPcom,
    index: &mut MessageIndex,
    touch: Touch,
) -> Result<PlainPcom, StepRefused>
    requires { IsIndexOf pcom.receipts pcom.sent index.old }
    ensures step { IfOk result (λ next. cell.cell_step program.now «com» pcom (touch_seen touch) ≡ Some next) }
    ensures refused { IfErr result (NoStepIf (cell.cell_step program.now «com» pcom (touch_seen touch) ≡ None)) }
    ensures index { IfOk result (λ next. IsIndexOf next.receipts next.sent index.new) }
{
    let mut pcom = pcom;
    match touch {
        Touch::Message(from, k, handler, args) => {
            if pcom.hand.is_some() || !index.take(from, k)? {
                return Err(StepRefused::NoStep);
            }
            pcom.receipts.push((from, k))?;
            let done = Items::new(alloc);
            let hand = InHand {
                handler,
                args,
                done,
            };
            Ok(plays_on(alloc, program, com, pcom, index, hand)?)
        }
        Touch::Input(handler, args) => {
            if pcom.hand.is_some() || !takes(program, com, handler, args) {
                return Err(StepRefused::NoStep);
            }
            let done = Items::new(alloc);
            let hand = InHand {
                handler,
                args,
                done,
            };
            Ok(plays_on(alloc, program, com, pcom, index, hand)?)
        }
        Touch::Abort(n) => transaction_ends(alloc, program, com, pcom, index, n, Done::Aborted),
        Touch::Commit(n, answers) => {
            transaction_ends(
                alloc,
                program,
                com,
                pcom,
                index,
                n,
                Done::Committed(answers),
            )
        }
    }
}
