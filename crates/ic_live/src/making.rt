ghost use Rattle.std.specs.Prelude.{◌≡◌, ◌<◌, ◌≤◌, ◌++◌, ◌∷◌, [], List, length, Some, IfSome, slice_get};
ghost use Rattle.ic_lane.specs.Lanes.{In};
ghost use Rattle.ic_live.specs.Grids.{Grows, IsGrid, placed};

use ic_base::Items;
use ic_lane::{Lane, LaneIn, LaneOut, Mark};
use std::alloc::Global;

/// Puts an end behind those at a place.
fn add_end<M: Mark>(
    alloc: Global,
    ins: &mut Items<Items<LaneIn<M>>>,
    at: usize,
    end: LaneIn<M>,
) -> Option<()>
    requires { at < length ins.old }
    ensures { IfSome result (λ _. (rest : List In) × (slice_get ins.old at ≡ Some rest) × (ins.new ≡ placed ins.old at (rest ++ end ∷ []))) }
{
    let mut ends = ins.replace(at, Items::new(alloc));
    ends.push(end).ok()?;
    let _ = ins.replace(at, ends);
    Some(())
}

/// New lanes of one sender, one to each receiver.
fn make_row<M: Mark>(
    alloc: Global,
    capacity: usize,
    ins: &mut Items<Items<LaneIn<M>>>,
) -> Option<Items<LaneOut<M>>>
    requires { 1 ≤ capacity }
    ensures { IfSome result (λ row. Grows row ins.old ins.new) }
{
    let mut row = Items::new(alloc);
    for at in 0..ins.len() {
        let (o, i) = Lane::pair::<M>(alloc, capacity).ok()?;
        add_end(alloc, ins, at, i)?;
        row.push(o).ok()?;
    }
    Some(row)
}

/// So many receivers with no end yet.
fn no_ends<M: Mark>(alloc: Global, count: usize) -> Option<Items<Items<LaneIn<M>>>>
    ensures { IfSome result (λ ins. IsGrid count [] ins) }
{
    let mut ins = Items::new(alloc);
    for made in 0..count {
        let _ = made;
        ins.push(Items::new(alloc)).ok()?;
    }
    Some(ins)
}

/// A new lane for each ordered pair: the senders' ends by sender, the receivers' by receiver.
pub(crate) fn make_all<M: Mark>(
    alloc: Global,
    count: usize,
    capacity: usize,
) -> Option<(Items<Items<LaneOut<M>>>, Items<Items<LaneIn<M>>>)>
    requires { 1 ≤ capacity }
    ensures grid { IfSome result (λ r. IsGrid count r.0 r.1) }
    ensures count { IfSome result (λ r. length r.0 ≡ count) }
{
    let mut ins = no_ends(alloc, count)?;
    let mut outs = Items::new(alloc);
    for made in 0..count {
        let _ = made;
        let row = make_row(alloc, capacity, &mut ins)?;
        outs.push(row).ok()?;
    }
    Some((outs, ins))
}
