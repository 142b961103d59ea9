ghost use Rattle.std.specs.Prelude.{◌≡◌, ◌++◌, ◌∷◌, [], OnOk, IfOk, codes, decimal, if◌then◌else◌};
ghost use Rattle.std.specs.Fmt.{signed_decimal};
ghost use Rattle.def_report.specs.Words.{line};
ghost use Rattle.def_report.specs.Summaries.{kind_word, cells_of, cell_words, stand_line, stand_lines, inputs_line, outputs_line, summary_lines};
ghost use Rattle.ic_report.specs.Said.{said, input_words, output_words, up_words};

use crate::writing::{add_number, add_numbered, add_word};
use ic_base::{Bytes, Component, Kind, Name, Program, Stand, States, Summary};
use itoa::Buffer;
use std::alloc::{AllocError, Global};

pub(crate) fn kind_word(kind: Kind) -> &'static [u8]
    ensures { result.now ≡ kind_word kind }
{
    match kind {
        Kind::Pcom => b"pcom",
        Kind::Tcom => b"tcom",
        Kind::Xcom => b"xcom",
    }
}

pub(crate) fn cells_of(component: &Component) -> &[(Name, i64)]
    ensures { result.now ≡ cells_of component.now }
{
    match component.kind {
        Kind::Pcom => component.vars.as_slice(),
        Kind::Tcom => component.keys.as_slice(),
        Kind::Xcom => &[],
    }
}

// A name with its value.
fn add_cell(out: &mut Vec<u8>, name: &[u8], value: i64) -> Result<(), AllocError>
    ensures { OnOk result (out.new.items ≡ out.old.items ++ 32 ∷ (name.now ++ 61 ∷ signed_decimal value)) }
{
    let mut buffer = Buffer::new();
    add_word(out, name)?;
    out.push(b'=')?;
    out.extend_from_slice(buffer.format(value).as_bytes())?;
    Ok(())
}

pub(crate) fn add_cells(
    out: &mut Vec<u8>,
    cells: &[(Name, i64)],
    values: &[i64],
) -> Result<(), AllocError>
    ensures { OnOk result (out.new.items ≡ said out.old.items (cell_words cells.now values.now)) }
{
    for (cell, value) in cells.iter().zip(values) {
        add_cell(out, cell.0.as_slice(), *value)?;
    }
    Ok(())
}

// The words of a component that is up, behind the first one.
fn add_up_words(out: &mut Vec<u8>, component: &Component, values: &[i64]) -> Result<(), AllocError>
    ensures { OnOk result (out.new.items ≡ said out.old.items (up_words component.now values.now)) }
{
    add_word(out, component.name.as_slice())?;
    add_word(out, b"up")?;
    add_cells(out, cells_of(component), values)?;
    Ok(())
}

fn add_up_line(out: &mut Vec<u8>, component: &Component, values: &[i64]) -> Result<(), AllocError>
    ensures { OnOk result (out.new.items ≡ out.old.items ++ stand_line component.now (Stand.Up values.now)) }
{
    out.extend_from_slice(kind_word(component.kind))?;
    add_up_words(out, component, values)?;
    out.push(b'\n')?;
    Ok(())
}

fn add_stand_line(out: &mut Vec<u8>, component: &Component, stand: &Stand) -> Result<(), AllocError>
    ensures { OnOk result (out.new.items ≡ out.old.items ++ stand_line component.now stand.now) }
{
    match stand {
        Stand::Up(values) => add_up_line(out, component, values.as_slice()),
        Stand::Replaying => add_bare_stand(out, component, b"replaying"),
        Stand::Down => add_bare_stand(out, component, b"down"),
        Stand::External => Ok(()),
    }
}

// The line of a component without its values.
fn add_bare_stand(out: &mut Vec<u8>, component: &Component, word: &[u8]) -> Result<(), AllocError>
    ensures { OnOk result (out.new.items ≡ out.old.items ++ line (kind_word component.now.kind ∷ component.now.name ∷ word.now ∷ [])) }
{
    out.extend_from_slice(kind_word(component.kind))?;
    add_word(out, component.name.as_slice())?;
    add_word(out, word)?;
    out.push(b'\n')?;
    Ok(())
}

fn add_stand_lines(
    out: &mut Vec<u8>,
    components: &[Component],
    stands: &[Stand],
) -> Result<(), AllocError>
    ensures { OnOk result (out.new.items ≡ out.old.items ++ stand_lines components.now stands.now) }
{
    for (component, stand) in components.iter().zip(stands) {
        add_stand_line(out, component, stand)?;
    }
    Ok(())
}

fn add_input_words(out: &mut Vec<u8>, summary: &Summary) -> Result<(), AllocError>
    ensures { OnOk result (out.new.items ≡ said out.old.items (input_words summary.now)) }
{
    add_numbered(out, b"taken", summary.taken)?;
    add_numbered(out, b"kept", summary.kept)?;
    add_numbered(out, b"lost", summary.lost)?;
    add_numbered(out, b"missed", summary.missed)?;
    Ok(())
}

fn add_inputs_line(out: &mut Vec<u8>, summary: &Summary) -> Result<(), AllocError>
    ensures { OnOk result (out.new.items ≡ out.old.items ++ inputs_line summary.now) }
{
    out.extend_from_slice(b"inputs")?;
    add_input_words(out, summary)?;
    out.push(b'\n')?;
    Ok(())
}

fn add_output_words(out: &mut Vec<u8>, summary: &Summary) -> Result<(), AllocError>
    ensures { OnOk result (out.new.items ≡ said out.old.items (output_words summary.now)) }
{
    add_numbered(out, b"first", summary.first)?;
    add_numbered(out, b"again", summary.again)?;
    Ok(())
}

fn add_outputs_line(out: &mut Vec<u8>, summary: &Summary) -> Result<(), AllocError>
    ensures { OnOk result (out.new.items ≡ out.old.items ++ outputs_line summary.now) }
{
    out.extend_from_slice(b"outputs")?;
    add_output_words(out, summary)?;
    out.push(b'\n')?;
    Ok(())
}

// A line of a word and a number.
pub(crate) fn add_count_line(out: &mut Vec<u8>, word: &[u8], n: u64) -> Result<(), AllocError>
    ensures { OnOk result (out.new.items ≡ out.old.items ++ line (word.now ∷ decimal n ∷ [])) }
{
    out.extend_from_slice(word)?;
    add_number(out, n)?;
    out.push(b'\n')?;
    Ok(())
}

fn add_end_line(out: &mut Vec<u8>, settled: bool) -> Result<(), AllocError>
    ensures { OnOk result (out.new.items ≡ out.old.items ++ line ((if settled then codes "settled" else codes "halted") ∷ [])) }
{
    let word: &[u8] = if settled { b"settled" } else { b"halted" };
    out.extend_from_slice(word)?;
    out.push(b'\n')?;
    Ok(())
}

/// The lines at the end of a run.
pub fn summary_bytes(
    alloc: Global,
    program: &Program,
    summary: &Summary,
) -> Result<Bytes, AllocError>
    ensures lines { IfOk result (λ b. b ≡ summary_lines program.now summary.now) }
{
    let mut out = Vec::new(alloc);
    add_inputs_line(&mut out, summary)?;
    add_outputs_line(&mut out, summary)?;
    add_stand_lines(
        &mut out,
        program.components.as_slice(),
        summary.states.as_slice(),
    )?;
    add_count_line(&mut out, b"played", summary.played)?;
    add_count_line(&mut out, b"history", summary.history)?;
    add_end_line(&mut out, summary.settled)?;
    Ok(Bytes::from_vec(out))
}

/// The lines of all components, each with its values where it is up.
pub fn values_bytes(alloc: Global, program: &Program, states: &States) -> Result<Bytes, AllocError>
    ensures lines { IfOk result (λ b. b ≡ stand_lines program.now.components states.now) }
{
    let mut out = Vec::new(alloc);
    add_stand_lines(&mut out, program.components.as_slice(), states.as_slice())?;
    Ok(Bytes::from_vec(out))
}
