ghost use Rattle.ic_serve.specs.Services.{IsNew};

use crate::used::Used;
use ic_client::Front;
use ic_run::Tally;
use std::alloc::Global;

/// What a served run keeps beside its world.
#[derive(Drop)]
pub(crate) struct Service {
    /// The requests that were taken.
    pub(crate) front: Front,
    /// What the events of the run were counted for.
    pub(crate) tally: Tally,
    /// How much of its numbers the present world has used.
    pub(crate) used: Used,
    /// How many records were played in the worlds before it.
    pub(crate) played: u64,
    /// How many lines were read.
    pub(crate) lines: u64,
    /// What isn't put yet of the answer to a line.
    pub(crate) piece: Vec<u8>,
}

impl Service {
    /// Nothing is read, done or told.
    pub(crate) fn new(alloc: Global) -> Service
        ensures { IsNew result }
    {
        Service {
            front: Front::new(alloc),
            tally: Tally::none(),
            used: Used::none(),
            played: 0,
            lines: 0,
            piece: Vec::new(alloc),
        }
    }
}
