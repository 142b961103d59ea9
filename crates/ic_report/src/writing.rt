ghost use Rattle.std.specs.Prelude.{◌≡◌, [], ◌∷◌, ◌++◌, map, drop, decimal, OnOk};
ghost use Rattle.std.specs.Fmt.{signed_decimal};
ghost use Rattle.ic_report.specs.Said.{said};

use ic_base::Args;
use itoa::Buffer;
use std::alloc::AllocError;

/// Appends a word behind a blank.
pub fn add_word(out: &mut Vec<u8>, word: &[u8]) -> Result<(), AllocError>
    ensures { OnOk result (out.new.items ≡ out.old.items ++ 32 ∷ word.now) }
{
    out.push(b' ')?;
    out.extend_from_slice(word)?;
    Ok(())
}

/// Appends a number behind a blank.
pub fn add_number(out: &mut Vec<u8>, n: u64) -> Result<(), AllocError>
    ensures { OnOk result (out.new.items ≡ out.old.items ++ 32 ∷ decimal n) }
{
    let mut buffer = Buffer::new();
    add_word(out, buffer.format(n).as_bytes())?;
    Ok(())
}

/// Appends a word and a number.
pub(crate) fn add_numbered(out: &mut Vec<u8>, word: &[u8], n: u64) -> Result<(), AllocError>
    ensures { OnOk result (out.new.items ≡ said out.old.items (word.now ∷ decimal n ∷ [])) }
{
    add_word(out, word)?;
    add_number(out, n)?;
    Ok(())
}

pub(crate) fn add_value(out: &mut Vec<u8>, n: i64) -> Result<(), AllocError>
    ensures { OnOk result (out.new.items ≡ out.old.items ++ 32 ∷ signed_decimal n) }
{
    let mut buffer = Buffer::new();
    add_word(out, buffer.format(n).as_bytes())?;
    Ok(())
}

/// Appends each value from a place on, behind a blank.
pub(crate) fn add_values_from(
    out: &mut Vec<u8>,
    values: &Args,
    first: usize,
) -> Result<(), AllocError>
    ensures { OnOk result (out.new.items ≡ said out.old.items (map signed_decimal (drop first values.now))) }
{
    for i in first..values.len() {
        let value = values.get(i).unwrap_or(0);
        add_value(out, value)?;
    }
    Ok(())
}

/// Appends each value behind a blank.
pub(crate) fn add_values(out: &mut Vec<u8>, values: &Args) -> Result<(), AllocError>
    ensures { OnOk result (out.new.items ≡ said out.old.items (map signed_decimal values.now)) }
{
    add_values_from(out, values, 0)
}
