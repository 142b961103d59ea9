ghost use Rattle.std.specs.Prelude.{◌≡◌, ◌<◌, ◌^◌, ℕ, length, None, Some, IfOk, IfErr};
ghost use Rattle.def_state.specs.Image as def;
ghost use Rattle.def_state.specs.ImagePlaces.{bad_image_at};
ghost use Rattle.ic_ckpt.specs.declared.image.ImageRefused.TheVariants.{BadAt, Memory};
ghost use Rattle.ic_ckpt.specs.Views.{seen, vol_of, AreWhole};

use crate::misread::Misread;
use crate::parts::{Parts, read_parts};
use crate::state::State;
use ic_base::{ComId, Items, Program};
use ic_edge::Shelf;
use ic_in::Inbox;
use ic_out::Outbox;
use ic_txn::Txn;
use std::alloc::{AllocError, Global};

/// Why bytes give no state.
#[derive(Clone, Copy, Debug, PartialEq, Eq)]
pub enum ImageRefused {
    /// They are no image of this component: the field that begins at this offset is the first that doesn't fit.
    BadAt(usize),
    /// Want of memory; the bytes may be an image.
    Memory,
}

impl From<AllocError> for ImageRefused {
    ghost from_gives = { λ _ e. e ≡ Memory };

    fn from(_: AllocError) -> ImageRefused {
        ImageRefused::Memory
    }
}

/// The state that an image's fields give.
fn state_of(alloc: Global, parts: Parts) -> Result<State, AllocError>
    requires { AreWhole parts }
    ensures { IfOk result (λ s. seen s ≡ vol_of parts) }
{
    Ok(State {
        vars: parts.vars,
        clock: parts.clock,
        outbox: Outbox::from_parts(alloc, &parts.links, &parts.messages)?,
        inbox: Inbox::from_parts(alloc, &parts.senders)?,
        shelf: Shelf::from_parts(alloc, parts.made, &parts.outputs)?,
        txn: Txn::from_parts(parts.begun, parts.last),
        hand: None,
        answers: Items::new(alloc),
        ended_at: 0,
        owes_drop: false,
    })
}

/// The state whose image the bytes are (docs/FORMATS.md, "The image"). All that it holds is due, its messages have their
/// put mark and no stable mark, and no receipt is open. `BadAt` comes exactly where the bytes are no image of this
/// component.
pub fn read_image(
    alloc: Global,
    program: &Program,
    com: ComId,
    bytes: &[u8],
) -> Result<State, ImageRefused>
    ensures state { IfOk result (λ s. def.read_image program.now «com» bytes.now ≡ Some (seen s)) }
    ensures bad { IfErr result (λ e. (place : ℕ) → e ≡ BadAt place → bad_image_at program.now «com» bytes.now ≡ Some place) }
    // So the state has an image.
    ensures free { IfOk result (λ s. s.hand ≡ None) }
    ensures counts { IfOk result (λ s. def.HasCounts (seen s)) }
    // A record holds fewer bytes than this.
    ensures unread { length bytes.now < 2 ^ 32 → IfErr result (λ e. (place : ℕ) → e ≡ BadAt place → def.read_image program.now «com» bytes.now ≡ None) }
{
    match read_parts(alloc, program, com, bytes) {
        Ok(parts) => Ok(state_of(alloc, parts)?),
        Err(Misread::Left(n)) => Err(ImageRefused::BadAt(bytes.len().saturating_sub(n))),
        Err(Misread::Memory) => Err(ImageRefused::Memory),
    }
}
