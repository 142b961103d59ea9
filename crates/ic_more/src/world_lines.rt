ghost use Rattle.std.specs.Prelude.{◌≡◌, ◌≤◌, ◌∷◌, ◌++◌, None, map, OnOk, IfOk, codes, decimal};
ghost use Rattle.def_report.specs.Words.{line};
ghost use Rattle.def_two.specs.Ends.{AreOpenings};
ghost use Rattle.def_two.specs.Printed.{move_lines, book_lines, two_lines};
ghost use Rattle.def_two.specs.World.{book_at, next_event2};
ghost use Rattle.ic_report.specs.Said.{said};
ghost use Rattle.ic_script.specs.Reading.{openings_in, the_script};
ghost use Rattle.ic_two_world.specs.Views.{openings_of, world_of, IsGoing};
ghost use Rattle.ic_more.specs.Views.{IsUpWith, AreUp};

use crate::lines::add_move;
use def_two::Script;
use ic_base::Bytes;
use ic_disk::Disk;
use ic_report::{add_number, add_word};
use ic_two_world::TwoWorld;
use std::alloc::{AllocError, Global};

/// The lines of all moves that were begun.
fn add_moves<D: Disk>(
    out: &mut Vec<u8>,
    script: &Script,
    world: &TwoWorld<D>,
) -> Result<(), AllocError>
    requires going { IsGoing D.Disk world.now }
    ensures { OnOk result (out.new.items ≡ out.old.items ++ move_lines (the_script script.now) (world_of world.now)) }
{
    for i in 0..world.begun() {
        add_move(out, script, i + 1, world.ruling(i + 1))?;
    }
    Ok(())
}

/// The values of a book that has so many keys.
fn add_values<D: Disk>(
    out: &mut Vec<u8>,
    world: &TwoWorld<D>,
    book: u8,
    keys: usize,
) -> Result<(), AllocError>
    requires going { IsGoing D.Disk world.now }
    requires up { IsUpWith (openings_of world.now) (world_of world.now) book keys }
    requires few { keys ≤ 64 }
    ensures { OnOk result (out.new.items ≡ said out.old.items (map decimal (book_at (openings_of world.now) (world_of world.now) book).values)) }
{
    for key in 0..keys {
        let Some(value) = world.value(book, key as u16) else {
            unreachable!()
        };
        add_number(out, value)?;
    }
    Ok(())
}

/// The line of a book.
fn add_book<D: Disk>(
    out: &mut Vec<u8>,
    world: &TwoWorld<D>,
    book: u8,
    name: &[u8],
    keys: usize,
) -> Result<(), AllocError>
    requires going { IsGoing D.Disk world.now }
    requires up { IsUpWith (openings_of world.now) (world_of world.now) book keys }
    requires few { keys ≤ 64 }
    ensures { OnOk result (out.new.items ≡ out.old.items ++ line (codes "book" ∷ name.now ∷ map decimal (book_at (openings_of world.now) (world_of world.now) book).values)) }
{
    out.extend_from_slice(b"book")?;
    add_word(out, name)?;
    add_values(out, world, book, keys)?;
    out.push(b'\n')?;
    Ok(())
}

/// The lines of all books.
fn add_books<D: Disk>(
    out: &mut Vec<u8>,
    script: &Script,
    world: &TwoWorld<D>,
) -> Result<(), AllocError>
    requires going { IsGoing D.Disk world.now }
    requires openings { openings_of world.now ≡ openings_in script.now.books }
    requires few { AreOpenings (openings_of world.now) }
    requires up { AreUp (openings_of world.now) (world_of world.now) }
    ensures { OnOk result (out.new.items ≡ out.old.items ++ book_lines (the_script script.now) (world_of world.now) 1 script.now.books) }
{
    let books = script.books.as_slice();
    for i in 0..books.len() {
        let (name, opening) = &books[i];
        add_book(out, world, i as u8 + 1, name.as_slice(), opening.len())?;
    }
    Ok(())
}

/// What a settled world prints: each move with its decision, each book with its values, and that all is settled.
pub(crate) fn world_bytes<D: Disk>(
    alloc: Global,
    script: &Script,
    world: &TwoWorld<D>,
) -> Result<Bytes, AllocError>
    requires going { IsGoing D.Disk world.now }
    requires openings { openings_of world.now ≡ openings_in script.now.books }
    requires few { AreOpenings (openings_of world.now) }
    requires nothing { next_event2 (world_of world.now) ≡ None }
    ensures { IfOk result (λ b. b ≡ two_lines (the_script script.now) (world_of world.now)) }
{
    let mut out = Vec::new(alloc);
    add_moves(&mut out, script, world)?;
    add_books(&mut out, script, world)?;
    out.extend_from_slice(b"settled\n")?;
    Ok(Bytes::from_vec(out))
}
