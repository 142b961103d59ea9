ghost use Rattle.std.specs.Prelude.{◌≡◌, suc, length, IfOk, IfErr};
ghost use Rattle.def_two.specs.Ends.{AreOpenings};
ghost use Rattle.ic_moves.specs.Chiefs as chiefs;
ghost use Rattle.ic_two_world.specs.Opening.{Starts2, FailsToStart2};

use crate::TwoWorld;
use crate::asking::ask_all;
use crate::making::{begin_all, copy_of, put_on, take_back};
use def_two::{Script, TwoWhy};
use ic_disk::{Disk, TornDisk};
use ic_moves::Network2;
use std::alloc::Global;

/// Why no world begins. The disks are handed back in their order.
#[derive(Drop)]
pub struct TwoStart<D> {
    pub disks: Vec<D>,
    pub why: TwoWhy,
}

impl<D: Disk + Drop> TwoWorld<TornDisk<D>> {
    ghost use Rattle.std.specs.Prelude.{◌≡◌, ◌≤◌, ◌+◌, ◌++◌, length};
    ghost use Rattle.std.specs.Vec.{vec_len, vec_capacity};
    ghost use Rattle.ic_two_world.specs.Opening.{disks_under};
    ghost use Rattle.ic_two_world.specs.Views.{seats_of};

    /// The world of a script: the chief and the books up over fresh logs, one on each disk, in order. First the lengths of all
    /// disks are asked, so a disk that isn't blank leaves all as they were.
    pub fn start(
        alloc: Global,
        script: &Script,
        fingerprint: [u8; 32],
        disks: Vec<D>,
    ) -> Result<TwoWorld<TornDisk<D>>, TwoStart<D>>
        requires openings { AreOpenings (chiefs.openings_of script.now.books) }
        requires disks { length disks.items ≡ suc (length script.now.books) }
        ensures step { IfOk result (Starts2 D.Disk (chiefs.openings_of script.now.books) fingerprint disks.items) }
        ensures refused { IfErr result (FailsToStart2 D.Disk disks.items) }
    {
        let (mut disks, why) = (disks, TwoWhy::Memory);
        if let Err(why) = ask_all(disks.as_mut_slice()) {
            return Err(TwoStart { disks, why });
        }
        let Ok(books) = copy_of(alloc, &script.books) else {
            return Err(TwoStart { disks, why });
        };
        let Ok(network) = Network2::new(alloc) else {
            return Err(TwoStart { disks, why });
        };
        let Ok(mut seats) = Vec::with_capacity(alloc, disks.len()) else {
            return Err(TwoStart { disks, why });
        };
        put_on(alloc, &mut disks, &mut seats);
        if let Err(why) = begin_all(alloc, &script.books, &fingerprint, &mut seats) {
            take_back(&mut disks, seats);
            return Err(TwoStart { disks, why });
        }
        Ok(TwoWorld {
            fingerprint,
            books,
            seats,
            network,
        })
    }

    /// The disks below, in the order of their components, go behind these.
    pub fn into_disks(self, back: &mut Vec<D>)
        requires { vec_len back.old + length (seats_of self) ≤ vec_capacity back.old }
        ensures { back.new.items ≡ back.old.items ++ disks_under (seats_of self) }
    {
        take_back(back, self.seats);
    }
}
