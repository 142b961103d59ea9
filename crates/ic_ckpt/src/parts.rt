ghost use Rattle.std.specs.Prelude.{◌≡◌, [], Some, IfOk, OnOk};
ghost use Rattle.def_state.specs.Image.{HasCounts, read_image};
ghost use Rattle.def_state.specs.ImagePlaces.{at_end, image};
ghost use Rattle.ic_ckpt.specs.Reads.{Passes};
ghost use Rattle.ic_ckpt.specs.Views.{AreWhole, vol_of};

use crate::declared::count_of_vars;
use crate::fields::{byte, this_byte, time, word};
use crate::misread::Misread;
use crate::reading::{last_txn, links, messages, outputs, senders, values};
use ic_base::{ComId, Links, Msgs, Outputs, Program, Senders, Vals};
use std::alloc::Global;

/// The fields of an image (docs/FORMATS.md, "The image").
#[derive(Drop)]
pub(crate) struct Parts {
    pub clock: u64,
    pub vars: Vals,
    /// How many transactions were begun.
    pub begun: u64,
    /// The last ended transaction, with its Tcom.
    pub last: Option<(ComId, u64)>,
    /// How many outputs were made.
    pub made: u64,
    pub outputs: Outputs,
    pub links: Links,
    pub messages: Msgs,
    pub senders: Senders,
}

/// Nothing stands behind the last field.
fn end(bytes: &[u8]) -> Result<(), Misread>
    ensures none { OnOk result (bytes.now ≡ []) }
    ensures place { Passes (λ _. []) result (at_end bytes.now) }
{
    if bytes.is_empty() {
        Ok(())
    } else {
        Err(Misread::Left(bytes.len()))
    }
}

/// The fields that the bytes spell, to their end.
#[tactic(auto, unfolding(def_state::specs::ImagePlaces::image, def_state::specs::ImagePlaces::counted_values))]
pub(crate) fn read_parts(
    alloc: Global,
    program: &Program,
    c: ComId,
    bytes: &[u8],
) -> Result<Parts, Misread>
    ensures read { IfOk result (λ p. read_image program.now c bytes.now ≡ Some (vol_of p)) }
    ensures whole { IfOk result AreWhole }
    ensures counts { IfOk result (λ p. HasCounts (vol_of p)) }
    ensures place { Passes (λ _. []) result (image program.now c bytes.now) }
{
    let (clock, rest) = time(bytes)?;
    let (count, rest) = this_byte(rest, count_of_vars(program, c))?;
    let (vars, rest) = values(alloc, count, rest)?;
    let (begun, rest) = time(rest)?;
    let (last, rest) = last_txn(program, begun, rest)?;
    let (made, rest) = time(rest)?;
    let (count, rest) = word(rest)?;
    let (outputs, rest) = outputs(alloc, program, made, count, rest)?;
    let (count, rest) = byte(rest)?;
    let (links, rest) = links(alloc, program, c, count, rest)?;
    let (count, rest) = word(rest)?;
    let (messages, rest) = messages(alloc, program, c, clock, &links, count, rest)?;
    let (count, rest) = byte(rest)?;
    let (senders, rest) = senders(alloc, program, c, count, rest)?;
    end(rest)?;
    Ok(Parts {
        clock,
        vars,
        begun,
        last,
        made,
        outputs,
        links,
        messages,
        senders,
    })
}
