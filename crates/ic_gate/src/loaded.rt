ghost use Rattle.std.specs.Prelude.{◌≡◌, ℕ, List, length, map, option_map, Some};
ghost use Rattle.std.specs.List.{zip};
ghost use Rattle.def_log.specs.Log.{records_in};

use crate::EncodedRecords;
use crate::batch_reader::BatchReader;
use ic_base::Items;
use std::marker::Model;

/// The records that a load reads, as a log has them, each with its place in the file: the offset of its first byte.
#[derive(Drop)]
pub struct LoadedRecords {
    places: Items<u32>,
    records: EncodedRecords,
}

impl Model for LoadedRecords {
    ghost use Rattle.std.specs.Prelude.{◌≡◌, List, length};
    ghost use Rattle.std.specs.List.{zip};
    ghost use Rattle.def_log.specs.Log.{Placed};

    ghost Value = { List Placed };

    ghost view = { λ s. zip s.places s.records };

    ghost invariant = { λ s. length s.places ≡ length s.records };
}

impl LoadedRecords {
    /// The records that a reader has, which keeps their places.
    pub(crate) fn of(reader: BatchReader) -> LoadedRecords
        requires { option_map length reader.places ≡ Some (length reader.records) }
        ensures { (places : List ℕ) → reader.places ≡ Some places → result ≡ zip places reader.records }
    {
        let (places, records) = reader.finish();
        match places {
            Some(places) => LoadedRecords { places, records },
            None => unreachable!(),
        }
    }

    /// The places, and the records alone. Nothing is copied.
    pub fn into_parts(self) -> (Items<u32>, EncodedRecords)
        ensures places { result.0 ≡ map (λ r. r.0) self }
        ensures records { result.1 ≡ records_in self }
    {
        (self.places, self.records)
    }
}
