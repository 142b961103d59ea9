ghost use Rattle.std.specs.Prelude.{◌≡◌, ◌∷◌, [], OnOk};
ghost use Rattle.def_client.specs.Clients.{item_of, item_words, request_words};
ghost use Rattle.def_report.specs.Words.{name_of, what_words, stop_words, event_words};
ghost use Rattle.ic_report.specs.Said.{said};

use crate::names::{handler_of, name_of};
use crate::writing::{add_number, add_value, add_values, add_values_from, add_word};
use ic_base::{Args, ComId, Event, Fill, Program, Stop, What};
use std::alloc::AllocError;

fn add_stop(out: &mut Vec<u8>, stop: &Option<Stop>) -> Result<(), AllocError>
    ensures { OnOk result (out.new.items ≡ said out.old.items (stop_words stop.now)) }
{
    let Some(stop) = stop else {
        return Ok(());
    };
    add_word(out, b"stop")?;
    add_number(out, u64::from(stop.call))?;
    add_number(out, u64::from(stop.keep))?;
    match stop.fill {
        Fill::Old => add_word(out, b"old"),
        Fill::Byte(b) => add_number(out, u64::from(b)),
    }
}

// A word and the name of a component.
fn add_named(out: &mut Vec<u8>, program: &Program, word: &[u8], c: ComId) -> Result<(), AllocError>
    ensures { OnOk result (out.new.items ≡ said out.old.items (word.now ∷ name_of program.now c ∷ [])) }
{
    add_word(out, word)?;
    add_word(out, name_of(program, c))?;
    Ok(())
}

fn add_what(out: &mut Vec<u8>, program: &Program, what: &What) -> Result<(), AllocError>
    ensures { OnOk result (out.new.items ≡ said out.old.items (what_words program.now what.now)) }
{
    match what {
        What::Input(c, handler, args) => {
            add_named(out, program, b"input", *c)?;
            add_word(out, handler_of(program, *c, *handler))?;
            add_values(out, args)?;
            Ok(())
        }
        What::Deliver(from, to) => {
            add_named(out, program, b"deliver", *from)?;
            add_word(out, name_of(program, *to))?;
            Ok(())
        }
        What::Lose(from, to) => {
            add_named(out, program, b"lose", *from)?;
            add_word(out, name_of(program, *to))?;
            Ok(())
        }
        What::Packet(number) => {
            add_word(out, b"packet")?;
            add_number(out, u64::from(*number))?;
            Ok(())
        }
        What::Force(c) => add_named(out, program, b"force", *c),
        What::Checkpoint(c) => add_named(out, program, b"checkpoint", *c),
        What::Resend(c) => add_named(out, program, b"resend", *c),
        What::Emit(c) => add_named(out, program, b"emit", *c),
        What::Crash(c) => add_named(out, program, b"crash", *c),
        What::Recover(c) => add_named(out, program, b"recover", *c),
    }
}

/// Appends an event in the form of a schedule.
pub(crate) fn add_event(
    out: &mut Vec<u8>,
    program: &Program,
    event: &Event,
) -> Result<(), AllocError>
    ensures { OnOk result (out.new.items ≡ said out.old.items (event_words program.now event.now)) }
{
    add_what(out, program, &event.what)?;
    add_stop(out, &event.stop)?;
    Ok(())
}

// A request: its numbers stand first. Values with fewer than two have no words.
fn add_request(
    out: &mut Vec<u8>,
    program: &Program,
    c: ComId,
    handler: u8,
    args: &Args,
) -> Result<(), AllocError>
    ensures { OnOk result (out.new.items ≡ said out.old.items (request_words program.now (record { who = c; handler = handler; args = args.now }) args.now)) }
{
    let Some(client) = args.get(0) else {
        return Ok(());
    };
    let Some(request) = args.get(1) else {
        return Ok(());
    };
    add_word(out, b"client")?;
    add_value(out, client)?;
    add_value(out, request)?;
    add_word(out, name_of(program, c))?;
    add_word(out, handler_of(program, c, handler))?;
    add_values_from(out, args, 2)?;
    Ok(())
}

/// Appends an event in the form of a schedule with clients, in which each input is a request.
pub(crate) fn add_item(
    out: &mut Vec<u8>,
    program: &Program,
    event: &Event,
) -> Result<(), AllocError>
    ensures { OnOk result (out.new.items ≡ said out.old.items (item_words program.now (item_of event.now))) }
{
    let What::Input(c, handler, args) = &event.what else {
        return add_event(out, program, event);
    };
    add_request(out, program, *c, *handler, args)?;
    add_stop(out, &event.stop)?;
    Ok(())
}
