ghost use Rattle.std.specs.Prelude.{◌≡◌, ◌∷◌, [], ◌++◌, true, false, Some, None, IfOk};
ghost use Rattle.def_play.specs.Playing.{handler_of};
ghost use Rattle.def_plain.specs.Cell as cell;
ghost use Rattle.ic_eval.specs.Handlers.{HasHandler};
ghost use Rattle.ic_model.specs.Index.{IsIndexOf};

use crate::index::MessageIndex;
use def_plain::{InHand, PlainPcom};
use ic_base::{Args, ComId, Items, Played, Program, Vals};
use ic_eval::play;
use std::alloc::{AllocError, Global};

/// Whether a component has a handler of this number.
fn has_handler(program: &Program, com: ComId, handler: u8) -> bool
    ensures there { result ≡ true → HasHandler program.now «com» handler }
    ensures absent { result ≡ false → handler_of program.now «com» handler ≡ None }
{
    match program.components.as_slice().get(usize::from(com.0)) {
        None => false,
        Some(component) => usize::from(handler) < component.handlers.len(),
    }
}

/// Whether a component has this handler, with this number of parameters.
pub(crate) fn takes(program: &Program, com: ComId, handler: u8, args: Args) -> bool
    ensures { result ≡ cell.takes (handler_of program.now «com» handler) args }
{
    match program.components.as_slice().get(usize::from(com.0)) {
        None => false,
        Some(component) => match component.handlers.as_slice().get(usize::from(handler)) {
            None => false,
            Some(h) => usize::from(h.params) == args.len(),
        },
    }
}

/// Plays what a Pcom has in hand, with these answers in its open transaction.
pub(crate) fn hand_played(
    alloc: Global,
    program: &Program,
    com: ComId,
    pcom: &PlainPcom,
    hand: &InHand,
    now: &Vals,
) -> Result<Played, AllocError>
    ensures { IfOk result (λ played. played ≡ cell.hand_played program.now «com» pcom.now hand.now now.now) }
{
    if !has_handler(program, com, hand.handler) {
        let vars = pcom.vars.copy(alloc)?;
        return Ok(Played::Ends(vars, Items::new(alloc), Items::new(alloc)));
    }
    play(
        alloc,
        program,
        com,
        hand.handler,
        &pcom.vars,
        hand.args,
        &hand.done,
        now,
    )
}

/// The items of two lists, one behind the other.
fn joined<T>(first: Items<T>, second: Items<T>) -> Result<Items<T>, AllocError>
where
    T: Drop,
    ensures { IfOk result (λ items. items ≡ first ++ second) }
{
    let mut items = first.into_vec();
    let mut more = second.into_vec();
    items.append(&mut more)?;
    Ok(Items::from_vec(items))
}

/// What a handling makes of its Pcom: at its end it takes effect and the hand is empty; where a transaction begins, the
/// message stays in hand. A count past 64 bits is answered as want of memory.
fn come_to(pcom: PlainPcom, played: Played) -> Result<PlainPcom, AllocError>
    ensures { IfOk result (λ next. next ≡ cell.come_to pcom played) }
{
    match played {
        Played::Ends(vars, sends, outs) => Ok(PlainPcom {
            vars,
            hand: None,
            sent: joined(pcom.sent, sends)?,
            receipts: pcom.receipts,
            outs: joined(pcom.outs, outs)?,
            begun: pcom.begun,
        }),
        _ => match pcom.begun.checked_add(1) {
            Some(begun) => Ok(PlainPcom { begun, ..pcom }),
            None => Err(AllocError),
        },
    }
}

/// A Pcom plays on with this in hand, and its index has the messages that it sends.
pub(crate) fn plays_on(
    alloc: Global,
    program: &Program,
    com: ComId,
    pcom: PlainPcom,
    index: &mut MessageIndex,
    hand: InHand,
) -> Result<PlainPcom, AllocError>
    requires { IsIndexOf pcom.receipts pcom.sent index.old }
    ensures next { IfOk result (λ next. next ≡ cell.plays_on program.now «com» pcom hand) }
    ensures index { IfOk result (λ next. IsIndexOf next.receipts next.sent index.new) }
{
    let none = Items::new(alloc);
    let played = hand_played(alloc, program, com, &pcom, &hand, &none)?;
    let sent_before = pcom.sent.len();
    let holding = PlainPcom {
        hand: Some(hand),
        ..pcom
    };
    let next = come_to(holding, played)?;
    index.send_all(alloc, &next.sent, sent_before)?;
    Ok(next)
}
