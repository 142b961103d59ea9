ghost use Rattle.std.specs.Prelude.{◌≡◌, true, IfOk, IfErr};
ghost use Rattle.std.specs.List.{AllByRecursion};
ghost use Rattle.def_two.specs.Book.{first_book, book_of, is_book_log};
ghost use Rattle.def_two.specs.Chief as chief;
ghost use Rattle.def_two.specs.Logs.{records2_in};
ghost use Rattle.def_two.specs.Refusals.{book_misfit, chief_misfit};
ghost use Rattle.ic_moves.specs.Chiefs.{openings_of, docket_of, heard_of, AreCounted};
ghost use Rattle.ic_moves.specs.Cores.{state_of, IsOfLog};
ghost use Rattle.ic_two.specs.Reading.{PlacedFits2};
ghost use Rattle.ic_two.specs.Replays.{FailsToPlay};

use def_two::{Books, Record2};
use ic_gate::LoadWhy;
use ic_moves::{BookCore, ChiefCore};
use std::alloc::Global;

/// What the records of a book's log give; a misfit among them is told by its place.
pub(crate) fn book_behind(
    alloc: Global,
    values: &[u64],
    number: u8,
    placed: &[(u64, Record2)],
) -> Result<BookCore, LoadWhy>
    ensures number { IfOk result (λ core. core.number ≡ number) }
    ensures state { IfOk result (λ core. state_of core ≡ book_of number values.now (records2_in placed.now)) }
    ensures good { IfOk result (λ core. is_book_log number values.now (records2_in placed.now) ≡ true) }
    ensures of_log { IfOk result IsOfLog }
    ensures refused { IfErr result (FailsToPlay (book_misfit number (first_book values.now) placed.now)) }
{
    let mut core = BookCore::first(alloc, number, values)?;
    for (place, r) in placed {
        if !core.fits(*r) {
            return Err(LoadWhy::Bad(*place));
        }
        core.reserve()?;
        core.enter(*r);
    }
    Ok(core)
}

/// What the records of the log of these books' chief give; a misfit among them is told by its place.
pub(crate) fn chief_behind(
    alloc: Global,
    books: &Books,
    placed: &[(u64, Record2)],
) -> Result<ChiefCore, LoadWhy>
    requires fit { AllByRecursion PlacedFits2 placed.now }
    ensures docket { IfOk result (λ core. docket_of core ≡ chief.docket_of (records2_in placed.now)) }
    ensures good { IfOk result (λ core. chief.is_chief_log (openings_of books.now) (records2_in placed.now) ≡ true) }
    ensures heard { IfOk result (λ core. heard_of core ≡ chief.nothing_heard) }
    ensures counted { IfOk result AreCounted }
    ensures refused { IfErr result (FailsToPlay (chief_misfit (openings_of books.now) chief.first_docket placed.now)) }
{
    let mut core = ChiefCore::first(alloc);
    for (place, r) in placed {
        if !core.fits(books, *r) {
            return Err(LoadWhy::Bad(*place));
        }
        core.reserve()?;
        core.enter(*r);
    }
    Ok(core)
}
