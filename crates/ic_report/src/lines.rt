ghost use Rattle.std.specs.Prelude.{◌≡◌, ◌∷◌, ◌+◌, ◌++◌, OnOk, IfOk, codes, decimal, if◌then◌else◌};
ghost use Rattle.def_client.specs.Clients.{asked_words, item_of, item_words, item_lines, note_lines, numbered_line};
ghost use Rattle.def_report.specs.Lines.{component_of, its_name, put_line, put_lines, abort_line, shown_line, showing_line, brief_lines, trace_lines};
ghost use Rattle.def_report.specs.Words.{spaced, answer_words};
ghost use Rattle.ic_report.specs.Said.{said, put_words, showing_words, item_in};

use crate::names::name_of;
use crate::packets::{add_answer, add_cause, add_packet, receiver_of, sender_of};
use crate::whats::{add_event, add_item};
use crate::writing::{add_number, add_values, add_word};
use def_client::Asked;
use ic_base::{
    AbortCause, Answer, Bytes, ComId, Event, Output, Packet, Program, ReportLevel, Trace, What,
};
use itoa::Buffer;
use std::alloc::{AllocError, Global};

fn component_of(what: &What, answer: &Answer) -> Option<ComId>
    ensures { result ≡ component_of what.now answer.now }
{
    match what {
        What::Input(c, _, _) => Some(*c),
        What::Deliver(_, to) => Some(*to),
        What::Lose(_, to) => Some(*to),
        What::Packet(_) => match answer {
            Answer::Packet(_, packet, _) => Some(receiver_of(packet)),
            _ => None,
        },
        What::Force(c) => Some(*c),
        What::Checkpoint(c) => Some(*c),
        What::Resend(c) => Some(*c),
        What::Emit(c) => Some(*c),
        What::Crash(c) => Some(*c),
        What::Recover(c) => Some(*c),
    }
}

// The name of the component of an event, empty where it has none.
fn its_name<'a>(program: &'a Program, trace: &Trace) -> &'a [u8]
    ensures { result.now ≡ its_name program.now trace.now }
{
    match component_of(&trace.event.what, &trace.answer) {
        Some(c) => name_of(program, c),
        None => &[],
    }
}

// In which form an event is told.
#[derive(Clone, Copy)]
enum Form {
    // That of a schedule.
    Event,
    // That of a schedule with clients, in which each input is a request.
    Item,
}

fn add_event_in(
    out: &mut Vec<u8>,
    program: &Program,
    form: Form,
    event: &Event,
) -> Result<(), AllocError>
    ensures { OnOk result (out.new.items ≡ said out.old.items (item_words program.now (item_in form event.now))) }
{
    match form {
        Form::Event => add_event(out, program, event),
        Form::Item => add_item(out, program, event),
    }
}

// The number of an event and its words, in a form.
fn add_numbered_event(
    out: &mut Vec<u8>,
    program: &Program,
    form: Form,
    number: u32,
    event: &Event,
) -> Result<(), AllocError>
    ensures { OnOk result (out.new.items ≡ out.old.items ++ spaced (decimal number ∷ item_words program.now (item_in form event.now))) }
{
    let mut buffer = Buffer::new();
    out.extend_from_slice(buffer.format(number).as_bytes())?;
    add_event_in(out, program, form, event)?;
    Ok(())
}

fn add_event_line(
    out: &mut Vec<u8>,
    program: &Program,
    form: Form,
    number: u32,
    trace: &Trace,
) -> Result<(), AllocError>
    ensures { OnOk result (out.new.items ≡ out.old.items ++ numbered_line number (item_words program.now (item_in form trace.now.event)) (answer_words program.now trace.now.answer)) }
{
    add_numbered_event(out, program, form, number, &trace.event)?;
    out.push(b':')?;
    add_answer(out, program, &trace.answer)?;
    out.push(b'\n')?;
    Ok(())
}

// The words of a packet that was put out, behind the first one.
fn add_put_words(
    out: &mut Vec<u8>,
    program: &Program,
    number: u64,
    packet: &Packet,
) -> Result<(), AllocError>
    ensures { OnOk result (out.new.items ≡ said out.old.items (put_words program.now number packet.now)) }
{
    add_number(out, number)?;
    add_word(out, name_of(program, sender_of(packet)))?;
    add_word(out, name_of(program, receiver_of(packet)))?;
    add_packet(out, program, packet)?;
    Ok(())
}

fn add_put_line(
    out: &mut Vec<u8>,
    program: &Program,
    number: u64,
    packet: &Packet,
) -> Result<(), AllocError>
    ensures { OnOk result (out.new.items ≡ out.old.items ++ put_line program.now number packet.now) }
{
    out.extend_from_slice(b"put")?;
    add_put_words(out, program, number, packet)?;
    out.push(b'\n')?;
    Ok(())
}

fn add_put_lines(
    out: &mut Vec<u8>,
    program: &Program,
    first: u32,
    packets: &[Packet],
) -> Result<(), AllocError>
    ensures { OnOk result (out.new.items ≡ out.old.items ++ put_lines program.now first packets.now) }
{
    for (i, packet) in packets.iter().enumerate() {
        add_put_line(out, program, u64::from(first) + i as u64, packet)?;
    }
    Ok(())
}

fn add_abort_line(
    out: &mut Vec<u8>,
    program: &Program,
    name: &[u8],
    aborted: &Option<(u64, AbortCause)>,
) -> Result<(), AllocError>
    ensures { OnOk result (out.new.items ≡ out.old.items ++ abort_line program.now name.now aborted.now) }
{
    let Some((n, cause)) = aborted else {
        return Ok(());
    };
    out.extend_from_slice(b"abort")?;
    add_word(out, name)?;
    add_number(out, *n)?;
    add_cause(out, program, cause)?;
    out.push(b'\n')?;
    Ok(())
}

fn showing_word(before: bool) -> &'static [u8]
    ensures { result.now ≡ (if before then codes "again" else codes "out") }
{
    if before { b"again" } else { b"out" }
}

// The words of an output, behind the first one.
fn add_showing_words(
    out: &mut Vec<u8>,
    program: &Program,
    name: &[u8],
    output: &Output,
) -> Result<(), AllocError>
    ensures { OnOk result (out.new.items ≡ said out.old.items (showing_words program.now name.now output.now)) }
{
    add_word(out, name_of(program, output.to))?;
    add_word(out, name)?;
    add_number(out, output.m)?;
    add_values(out, &output.args)?;
    Ok(())
}

fn add_showing_line(
    out: &mut Vec<u8>,
    program: &Program,
    name: &[u8],
    output: &Output,
    before: bool,
) -> Result<(), AllocError>
    ensures { OnOk result (out.new.items ≡ out.old.items ++ showing_line program.now name.now output.now before) }
{
    out.extend_from_slice(showing_word(before))?;
    add_showing_words(out, program, name, output)?;
    out.push(b'\n')?;
    Ok(())
}

fn add_shown_line(
    out: &mut Vec<u8>,
    program: &Program,
    name: &[u8],
    shown: &Option<(Output, bool)>,
) -> Result<(), AllocError>
    ensures { OnOk result (out.new.items ≡ out.old.items ++ shown_line program.now name.now shown.now) }
{
    match shown {
        None => Ok(()),
        Some((output, before)) => add_showing_line(out, program, name, output, *before),
    }
}

// What stands at the levels full and brief.
fn add_brief_lines(out: &mut Vec<u8>, program: &Program, trace: &Trace) -> Result<(), AllocError>
    ensures { OnOk result (out.new.items ≡ out.old.items ++ brief_lines program.now trace.now) }
{
    let name = its_name(program, trace);
    add_abort_line(out, program, name, &trace.aborted)?;
    add_shown_line(out, program, name, &trace.shown)?;
    Ok(())
}

fn add_full_lines(
    out: &mut Vec<u8>,
    program: &Program,
    form: Form,
    number: u32,
    trace: &Trace,
) -> Result<(), AllocError>
    ensures { OnOk result (out.new.items ≡ out.old.items ++ item_lines program.now ReportLevel.Full number (item_in form trace.now.event) trace.now) }
{
    add_event_line(out, program, form, number, trace)?;
    add_put_lines(out, program, trace.first_put, trace.puts.as_slice())?;
    add_brief_lines(out, program, trace)?;
    Ok(())
}

// The lines of the event of a number, told in a form.
fn lines_in(
    alloc: Global,
    program: &Program,
    form: Form,
    number: u32,
    trace: &Trace,
    level: ReportLevel,
) -> Result<Bytes, AllocError>
    ensures { IfOk result (λ b. b ≡ item_lines program.now level number (item_in form trace.now.event) trace.now) }
{
    let mut out = Vec::new(alloc);
    match level {
        ReportLevel::Full => {
            add_full_lines(&mut out, program, form, number, trace)?;
            Ok(Bytes::from_vec(out))
        }
        ReportLevel::Brief => {
            add_brief_lines(&mut out, program, trace)?;
            Ok(Bytes::from_vec(out))
        }
        ReportLevel::Summary => Ok(Bytes::from_vec(out)),
    }
}

/// The lines of the event of a number, at a level. An unknown component or handler has the empty name.
pub fn trace_bytes(
    alloc: Global,
    program: &Program,
    number: u32,
    trace: &Trace,
    level: ReportLevel,
) -> Result<Bytes, AllocError>
    ensures lines { IfOk result (λ b. b ≡ trace_lines program.now number trace.now level) }
{
    lines_in(alloc, program, Form::Event, number, trace, level)
}

/// The lines of the event of a number, at a level, where each input is the request of a client: its numbers stand first. An
/// unknown component or handler has the empty name.
pub fn item_bytes(
    alloc: Global,
    program: &Program,
    number: u32,
    trace: &Trace,
    level: ReportLevel,
) -> Result<Bytes, AllocError>
    ensures lines { IfOk result (λ b. b ≡ item_lines program.now level number (item_of trace.now.event) trace.now) }
{
    lines_in(alloc, program, Form::Item, number, trace, level)
}

fn add_asked(out: &mut Vec<u8>, answer: &Asked) -> Result<(), AllocError>
    ensures { OnOk result (out.new.items ≡ out.old.items ++ spaced (asked_words answer.now)) }
{
    match answer {
        Asked::New => Ok(()),
        Asked::Pending => out.extend_from_slice(b"pending"),
        Asked::Again(m, args) => {
            out.extend_from_slice(b"again")?;
            add_number(out, *m)?;
            add_values(out, args)?;
            Ok(())
        }
        Asked::Differs => out.extend_from_slice(b"differs"),
    }
}

fn add_note_line(
    out: &mut Vec<u8>,
    program: &Program,
    number: u32,
    event: &Event,
    answer: &Asked,
) -> Result<(), AllocError>
    ensures { OnOk result (out.new.items ≡ out.old.items ++ numbered_line number (item_words program.now (item_of event.now)) (asked_words answer.now)) }
{
    add_numbered_event(out, program, Form::Item, number, event)?;
    out.extend_from_slice(b": ")?;
    add_asked(out, answer)?;
    out.push(b'\n')?;
    Ok(())
}

/// The line of a request that is answered with no step, with its number; it stands at the level full alone. An unknown component
/// or handler has the empty name.
pub fn note_bytes(
    alloc: Global,
    program: &Program,
    number: u32,
    event: &Event,
    answer: &Asked,
    level: ReportLevel,
) -> Result<Bytes, AllocError>
    ensures line { IfOk result (λ b. b ≡ note_lines program.now level number (item_of event.now) answer.now) }
{
    let mut out = Vec::new(alloc);
    match level {
        ReportLevel::Full => {
            add_note_line(&mut out, program, number, event, answer)?;
            Ok(Bytes::from_vec(out))
        }
        ReportLevel::Brief | ReportLevel::Summary => Ok(Bytes::from_vec(out)),
    }
}
