ghost use Rattle.std.specs.Prelude.{◌≡◌, ◌++◌, ◌∷◌, [], List, suc, IfOk, IfErr, OnOk, codes, decimal};
ghost use Rattle.def_failover.specs.Telling as definition;
ghost use Rattle.def_report.specs.Words.{line, spaced};
ghost use Rattle.ic_base.specs.declared.events.Trace.{Trace};
ghost use Rattle.ic_failover.specs.Carrying.{note_pieces};
ghost use Rattle.ic_report.specs.Outputs.{Puts};
ghost use Rattle.ic_run.specs.Running.{FailsToTell};
ghost use Rattle.ic_run.specs.Tallies.{Counts, IsOneMore};

use def_failover::Note;
use def_standby::Order;
use ic_base::{Bytes, ReportLevel};
use ic_disk::Sink;
use ic_report::{add_number, add_word, print};
use ic_run::{Cut, Tally};
use itoa::Buffer;
use std::alloc::{AllocError, Global};

fn word_of(order: &Order) -> &'static [u8]
    ensures { result.now ≡ definition.order_word order.now }
{
    match order {
        Order::Ship => b"ship",
        Order::TakeOver => b"takeover",
        Order::Run(_) => &[],
    }
}

/// The words of what is told.
fn add_note(out: &mut Vec<u8>, note: Note) -> Result<(), AllocError>
    ensures { OnOk result (out.new.items ≡ out.old.items ++ spaced (definition.note_words note)) }
{
    match note {
        Note::Down => out.extend_from_slice(b"down"),
        Note::Replaying => out.extend_from_slice(b"replaying"),
        Note::Up => out.extend_from_slice(b"up"),
        Note::Gone => out.extend_from_slice(b"gone"),
        Note::Empty => out.extend_from_slice(b"empty"),
        Note::Applied(have) => {
            out.extend_from_slice(b"applied")?;
            add_number(out, have)
        }
        Note::Done(played) => {
            out.extend_from_slice(b"done")?;
            add_number(out, played)
        }
        Note::Bad => Ok(()),
    }
}

/// The line of an order that is no event, with its number and what is told of it.
fn add_note_line(
    out: &mut Vec<u8>,
    number: u32,
    order: &Order,
    note: Note,
) -> Result<(), AllocError>
    ensures { OnOk result (out.new.items ≡ out.old.items ++ (spaced (decimal number ∷ definition.order_word order.now ∷ []) ++ codes ": " ++ line (definition.note_words note))) }
{
    let mut buffer = Buffer::new();
    out.extend_from_slice(buffer.format(number).as_bytes())?;
    add_word(out, word_of(order))?;
    out.extend_from_slice(b": ")?;
    add_note(out, note)?;
    out.push(b'\n')?;
    Ok(())
}

/// That line at a level: it stands at the level full alone.
fn note_bytes(
    alloc: Global,
    number: u32,
    order: &Order,
    note: Note,
    level: ReportLevel,
) -> Result<Bytes, AllocError>
    ensures { IfOk result (λ b. b ≡ definition.note_lines level number order.now note) }
{
    let mut out = Vec::new(alloc);
    match level {
        ReportLevel::Full => {
            add_note_line(&mut out, number, order, note)?;
            Ok(Bytes::from_vec(out))
        }
        ReportLevel::Brief | ReportLevel::Summary => Ok(Bytes::from_vec(out)),
    }
}

/// Numbers an order that is no event, and prints its line.
pub(crate) fn tell<K: Sink>(
    alloc: Global,
    level: ReportLevel,
    tally: Tally,
    order: &Order,
    note: Note,
    out: &mut K,
) -> Result<Tally, Cut>
    ensures counts { IfOk result (λ now. (traces : List Trace) → Counts traces tally → Counts traces now) }
    ensures more { IfOk result (IsOneMore tally) }
    ensures printed { OnOk result (Puts K.Sink (note_pieces level (suc tally.events) order.now note) out.old out.new) }
    ensures cut { IfErr result (FailsToTell K.Sink (note_pieces level (suc tally.events) order.now note) out.old out.new) }
{
    let Some(now) = tally.noted() else {
        return Err(Cut::Memory);
    };
    let lines = note_bytes(alloc, now.events, order, note, level)?;
    print(out, lines.as_slice())?;
    Ok(now)
}
