ghost use Rattle.std.specs.Prelude.{◌≡◌, ◌++◌, ◌∷◌, [], List};
ghost use Rattle.ic_lane.specs.Lanes.{In};
ghost use Rattle.ic_live.specs.Grids.{SameLane, InOrder, Paired, IsSquare, FitsRow, Peels};

use ic_base::Items;
use ic_lane::{LaneIn, LaneOut, Mark, close_pair};
use std::alloc::Global;

/// Closes a lane with the last of these ends.
fn close_last<M: Mark>(o: LaneOut<M>, ends: &mut Items<LaneIn<M>>)
    requires { (rest : List In) × (x : In) × (ends.old ≡ rest ++ x ∷ []) × SameLane o x }
    ensures { (x : In) × (ends.old ≡ ends.new ++ x ∷ []) × InOrder o x }
{
    match ends.pop() {
        Some(i) => close_pair(o, i),
        None => unreachable!(),
    }
}

/// Closes the lanes of one sender.
fn close_row<M: Mark>(alloc: Global, row: Items<LaneOut<M>>, ins: &mut Items<Items<LaneIn<M>>>)
    requires { FitsRow row ins.old }
    ensures { Peels row ins.old ins.new }
{
    let mut row = row;
    while let Some(o) = row.pop() {
        let at = row.len();
        let mut ends = ins.replace(at, Items::new(alloc));
        close_last(o, &mut ends);
        let _ = ins.replace(at, ends);
    }
}

/// Closes all lanes, the last sender's first.
pub(crate) fn close_all<M: Mark>(
    alloc: Global,
    outs: Items<Items<LaneOut<M>>>,
    ins: Items<Items<LaneIn<M>>>,
)
    requires square { IsSquare outs ins }
    requires lanes { Paired SameLane outs ins }
    ensures { Paired InOrder outs ins }
{
    let mut outs = outs;
    let mut ins = ins;
    while let Some(row) = outs.pop() {
        close_row(alloc, row, &mut ins);
    }
}
