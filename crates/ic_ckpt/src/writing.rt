ghost use Rattle.std.specs.Prelude.{◌≡◌, ◌<◌, ◌^◌, ◌++◌, ◌∷◌, length, map, filter, nat_lt, true, None, Some, OnOk, IfOk, IfSome};
ghost use Rattle.std.specs.List.{All, list_all};
ghost use Rattle.def_log.specs.Spelling.{number, value};
ghost use Rattle.def_state.specs.Image.{HasCounts, run_from, senders_of, counted, listed, last_bytes, output_bytes, message_bytes, link_bytes, sender_bytes, image_of};
ghost use Rattle.ic_in.specs.Senders.{are_components, sender_of, above_bound};
ghost use Rattle.ic_ckpt.specs.Views.{seen};

use crate::state::State;
use ic_base::{Bytes, ComId, Items, Msg, Output, Vals};
use ic_edge::Shelf;
use ic_in::Inbox;
use ic_out::Outbox;
use ic_wire::parts::{put_args, put_content, put_number, put_pair, put_value, put_word};
use std::alloc::{AllocError, Global};

/// The variables, behind their count.
fn put_vars(out: &mut Vec<u8>, vars: &Vals) -> Result<(), AllocError>
    requires { length vars.now < 2 ^ 8 }
    ensures { OnOk result (out.new.items ≡ out.old.items ++ counted value vars.now) }
{
    out.push(vars.len() as u8)?;
    for x in vars.as_slice() {
        put_value(out, x)?;
    }
    Ok(())
}

/// The last ended transaction, if there is one.
fn put_last(out: &mut Vec<u8>, last: Option<(ComId, u64)>) -> Result<(), AllocError>
    ensures { OnOk result (out.new.items ≡ out.old.items ++ last_bytes last) }
{
    match last {
        None => out.push(0)?,
        Some((tcom, n)) => {
            out.push(1)?;
            out.push(tcom.0)?;
            put_number(out, n)?;
        }
    }
    Ok(())
}

/// An output that isn't shown.
fn put_output(out: &mut Vec<u8>, output: &Output) -> Result<(), AllocError>
    ensures { OnOk result (out.new.items ≡ out.old.items ++ output_bytes output.now) }
{
    put_number(out, output.m)?;
    out.push(output.to.0)?;
    put_args(out, &output.args)
}

/// The outputs that aren't shown, behind their count.
fn put_outputs(alloc: Global, out: &mut Vec<u8>, shelf: &Shelf) -> Result<(), AllocError>
    requires { length shelf.now.shelf.waiting < 2 ^ 32 }
    ensures { OnOk result (out.new.items ≡ out.old.items ++ listed (λ w. output_bytes w.output) shelf.now.shelf.waiting) }
{
    let mut body = Vec::new(alloc);
    let mut i = 0;
    while let Some(output) = shelf.waiting(i) {
        put_output(&mut body, &output)?;
        i += 1;
    }
    put_word(out, i as u32)?;
    out.extend_from_slice(body.as_slice())?;
    Ok(())
}

/// A link with the number sent on it.
fn put_link(out: &mut Vec<u8>, to: ComId, sent: u64) -> Result<(), AllocError>
    ensures { OnOk result (out.new.items ≡ out.old.items ++ link_bytes (to, sent)) }
{
    out.push(to.0)?;
    put_number(out, sent)
}

/// The links, behind their count.
fn put_links(alloc: Global, out: &mut Vec<u8>, outbox: &Outbox) -> Result<(), AllocError>
    requires { length outbox.now.seen.links < 2 ^ 8 }
    ensures { OnOk result (out.new.items ≡ out.old.items ++ counted link_bytes outbox.now.seen.links) }
{
    let mut body = Vec::new(alloc);
    let mut i = 0;
    while let Some((to, sent)) = outbox.link(i) {
        put_link(&mut body, to, sent)?;
        i += 1;
    }
    out.push(i as u8)?;
    out.extend_from_slice(body.as_slice())?;
    Ok(())
}

/// A held message.
fn put_message(out: &mut Vec<u8>, message: &Msg) -> Result<(), AllocError>
    ensures { OnOk result (out.new.items ≡ out.old.items ++ message_bytes message.now) }
{
    out.push(message.to.0)?;
    put_pair(out, message.k, message.stamp)?;
    put_content(out, message.handler, &message.args)?;
    Ok(())
}

/// The held messages, behind their count.
fn put_messages(alloc: Global, out: &mut Vec<u8>, outbox: &Outbox) -> Result<(), AllocError>
    requires { length outbox.now.seen.held < 2 ^ 32 }
    ensures { OnOk result (out.new.items ≡ out.old.items ++ listed (λ h. message_bytes h.msg) outbox.now.seen.held) }
{
    let mut body = Vec::new(alloc);
    let mut i = 0;
    while let Some(message) = outbox.held(i) {
        put_message(&mut body, &message)?;
        i += 1;
    }
    put_word(out, i as u32)?;
    out.extend_from_slice(body.as_slice())?;
    Ok(())
}

/// The taken numbers of the i-th sender above the one up to which all are taken, behind their count.
fn put_above(alloc: Global, out: &mut Vec<u8>, inbox: &Inbox, i: usize) -> Result<(), AllocError>
    requires peers { are_components inbox.now.seen.taken ≡ true }
    requires few { IfSome (sender_of inbox.now.seen.taken i) (λ x. length (above_bound x.1) < 2 ^ 32) }
    ensures { IfSome (sender_of inbox.now.seen.taken i) (λ x. OnOk result (out.new.items ≡ out.old.items ++ listed number (above_bound x.1))) }
{
    let mut body = Vec::new(alloc);
    let mut j = 0;
    while let Some(k) = inbox.above(i, j) {
        put_number(&mut body, k)?;
        j += 1;
    }
    put_word(out, j as u32)?;
    out.extend_from_slice(body.as_slice())?;
    Ok(())
}

/// The senders with the numbers taken from each, behind their count.
fn put_senders(alloc: Global, out: &mut Vec<u8>, inbox: &Inbox) -> Result<(), AllocError>
    requires peers { are_components inbox.now.seen.taken ≡ true }
    requires few { All (λ x. length (above_bound x.1) < 2 ^ 32) (senders_of inbox.now.seen) }
    ensures { OnOk result (out.new.items ≡ out.old.items ++ counted sender_bytes (senders_of inbox.now.seen)) }
{
    let mut body = Vec::new(alloc);
    let mut i = 0;
    while let Some((from, w)) = inbox.sender(i) {
        body.push(from.0)?;
        put_number(&mut body, w)?;
        put_above(alloc, &mut body, inbox, i)?;
        i += 1;
    }
    out.push(i as u8)?;
    out.extend_from_slice(body.as_slice())?;
    Ok(())
}

/// The image of a state (docs/FORMATS.md, "The image"). Condition: nothing is in hand, and its counts go into their bytes.
pub fn image_bytes(alloc: Global, state: &State) -> Result<Bytes, AllocError>
    requires free { state.now.hand ≡ None }
    requires counts { HasCounts (seen state.now) }
    ensures { IfOk result (λ bytes. bytes ≡ image_of (seen state.now)) }
{
    let mut out = Vec::new(alloc);
    put_number(&mut out, state.clock)?;
    put_vars(&mut out, &state.vars)?;
    put_number(&mut out, state.txn.begun())?;
    put_last(&mut out, state.txn.last())?;
    put_number(&mut out, state.shelf.made())?;
    put_outputs(alloc, &mut out, &state.shelf)?;
    put_links(alloc, &mut out, &state.outbox)?;
    put_messages(alloc, &mut out, &state.outbox)?;
    put_senders(alloc, &mut out, &state.inbox)?;
    Ok(Items::from_vec(out))
}
