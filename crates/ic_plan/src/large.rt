ghost use Rattle.std.specs.Prelude.{◌≡◌, ◌+◌, ◌%◌, ◌≤◌, [], ◌∷◌, ◌++◌, codes, decimal, OnOk, IfOk};
ghost use Rattle.def_syntax.specs.Large.{text_of, drawn, lines_at, input_lines, inputs_from, large_scenario, large_schedule};

use ic_base::{Bytes, Items};
use std::alloc::{AllocError, Global};

/// How many inputs the schedule has.
const INPUTS: u32 = 200;

/// The scenario: a shop, a store and a till, with a bank for the payments.
const SCENARIO: &[u8] = b"xcom desk
pcom shop
  var orders 0
  on order n
    set orders orders + 1
    send store take n
  end
end
pcom store
  var stock 100000
  on take n
    set stock stock - n
    send till charge n
  end
end
pcom till
  var ok 0
  var bad 0
  on charge n
    txn bank
      get x a
      need x >= n
      put a x - n
      get y b
      put b y + n
      set ok ok + 1
    else
      set bad bad + 1
    end
    out desk ok
  end
end
tcom bank
  key a 100000
  key b 0
end
";

fn scenario() -> &'static [u8]
    ensures { result.now ≡ large_scenario }
{
    SCENARIO
}

/// The number behind a number.
fn drawn(x: u32) -> u32
    ensures { result ≡ drawn x }
{
    ((u64::from(x) * 1_103_515_245 + 12_345) % 2_147_483_648) as u32
}

/// The lines of a draw.
fn lines_at(x: u32) -> &'static [u8]
    ensures { result.now ≡ text_of (lines_at x) }
{
    match (x / 65_536) % 12 {
        0 => b"deliver shop store\n",
        1 => b"deliver store till\n",
        2 => b"deliver till bank\n",
        3 => b"deliver bank till\n",
        4 => b"lose shop store\n",
        5 => b"lose store till\n",
        6 => b"force store\n",
        7 => b"force till\n",
        8 => b"crash store\nrecover store\n",
        9 => b"crash till\nrecover till\n",
        10 => b"checkpoint store\n",
        _ => b"checkpoint till\n",
    }
}

/// Draws the next number, which it answers, and writes its lines.
fn write_draw(text: &mut Vec<u8>, x: u32) -> Result<u32, AllocError>
    ensures lines { OnOk result (text.new.items ≡ text.old.items ++ text_of (lines_at (drawn x))) }
    ensures number { IfOk result (λ y. y ≡ drawn x) }
{
    let next = drawn(x);
    text.extend_from_slice(lines_at(next))?;
    Ok(next)
}

/// Writes the line of the input with this number.
fn write_order(alloc: Global, text: &mut Vec<u8>, i: u32) -> Result<(), AllocError>
    requires { i ≤ 200 }
    ensures { OnOk result (text.new.items ≡ text.old.items ++ ((codes "input shop order " ++ decimal (1 + i % 5)) ++ 10 ∷ [])) }
{
    let line = format!(in alloc; "input shop order {}\n", 1 + i % 5)?;
    text.extend_from_slice(line.as_bytes())?;
    Ok(())
}

/// Writes the lines of an input and of the three draws behind it, and answers the last number that was drawn.
fn write_input(alloc: Global, text: &mut Vec<u8>, i: u32, x: u32) -> Result<u32, AllocError>
    requires { i ≤ 200 }
    ensures lines { OnOk result (text.new.items ≡ text.old.items ++ text_of (input_lines i x)) }
    ensures number { IfOk result (λ y. y ≡ drawn (drawn (drawn x))) }
{
    write_order(alloc, text, i)?;
    let first = write_draw(text, x)?;
    let second = write_draw(text, first)?;
    write_draw(text, second)
}

/// The schedule that a number gives.
fn schedule(alloc: Global, number: u32) -> Result<Vec<u8>, AllocError>
    ensures { IfOk result (λ text. text.items ≡ large_schedule number) }
{
    let mut text = Vec::new(alloc);
    let mut x = number;
    for i in 0..INPUTS {
        x = write_input(alloc, &mut text, i + 1, x)?;
    }
    Ok(text)
}

/// The scenario and the schedule of the large run with this number, two hundred orders among losses and crashes that are
/// drawn from it (docs/FORMATS.md, "The large run").
pub fn make_large(alloc: Global, number: u32) -> Result<(Bytes, Bytes), AllocError>
    ensures scenario { IfOk result (λ texts. texts.0 ≡ large_scenario) }
    ensures schedule { IfOk result (λ texts. texts.1 ≡ large_schedule number) }
{
    let mut held = Vec::new(alloc);
    held.extend_from_slice(scenario())?;
    let schedule = schedule(alloc, number)?;
    Ok((Items::from_vec(held), Items::from_vec(schedule)))
}
