ghost use Rattle.std.specs.Prelude.{IfOk};
ghost use Rattle.ic_live.specs.Ended.{AreReturned};
ghost use Rattle.ic_threads.specs.Joined.{JoinsUp};
ghost use Rattle.law_run.specs.ProgramBytes.{IsFit};

use crate::counting::{played_in, tally_of};
use ic_base::{Event, Items, Showings};
use ic_disk::{Disk, TornDisk};
use ic_joins::{assemble, events_left, showings_of};
use ic_live::Returned;
use ic_plan::RunTexts;
use ic_run::Tally;
use ic_world::World;
use std::alloc::{AllocError, Global};

/// What stands behind the joins of a live run.
#[derive(Drop)]
pub(crate) struct Joined<D: Disk> {
    pub world: World<D>,
    /// The events that are left, in order of component and list.
    pub left: Items<Event>,
    /// What was shown in threads, in order of component and showing.
    pub shown: Showings,
    /// What became of the inputs that were done in threads.
    pub tally: Tally,
    /// How many records were played in threads.
    pub played: u64,
}

/// The world behind the joins, with what is left to do and what was counted.
pub(crate) fn join<D: Disk + Drop>(
    alloc: Global,
    texts: &RunTexts,
    returned: Returned<TornDisk<D>>,
) -> Result<Joined<TornDisk<D>>, AllocError>
    requires fit { IsFit texts.now.program }
    requires returned { AreReturned texts.now.program texts.now.fingerprint returned.components returned.progresses }
    ensures { IfOk result (JoinsUp D.Disk texts.now returned.components returned.progresses) }
{
    let components = returned.components;
    let progresses = returned.progresses.as_slice();
    let left = events_left(alloc, progresses)?;
    let shown = showings_of(alloc, components.as_slice(), progresses)?;
    let before = showings_of(alloc, components.as_slice(), progresses)?;
    let Some(tally) = tally_of(progresses) else {
        return Err(AllocError);
    };
    let Some(played) = played_in(progresses) else {
        return Err(AllocError);
    };
    let world = assemble(
        alloc,
        &texts.program,
        &texts.fingerprint,
        components,
        progresses,
        before,
    )?;
    Ok(Joined {
        world,
        left,
        shown,
        tally,
        played,
    })
}
