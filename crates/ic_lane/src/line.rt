use crate::mark::Mark;
use crossbeam_queue::RuledArrayQueue;
use crossbeam_queue::protocol::{Join, Lesson, Outcome, Protocol, Split};
use ic_base::Packet;
use std::collections::LinkedList;
use std::marker::PhantomData;

/// What a pass may do, and what it has pushed and popped. No value of it is made.
pub struct Seen {
    pub pushes: bool,
    pub pops: bool,
    pub sent: LinkedList<Packet>,
    pub received: LinkedList<Packet>,
}

/// The rule of a lane (docs/THEOREM.md, "Live runs"), which each kind of step keeps.
pub struct InOrder<M> {
    mark: PhantomData<M>,
}

impl<M: Mark> Protocol<Packet, Seen> for InOrder<M> {
    ghost use Rattle.std.specs.Prelude.{true, []};
    ghost use Rattle.ic_lane.specs.Lanes.{seen, Keeps};

    ghost holds = { Keeps M.honest };

    ghost first = { seen true true [] [] };
}

/// The one pass of a new lane is split into the sender's and the receiver's. Only this and the join change two views.
pub struct Roles;

impl Split<Seen> for Roles {
    ghost use Rattle.std.specs.Prelude.{true, false, []};
    ghost use Rattle.ic_lane.specs.Lanes.{seen};

    ghost left = { λ v. seen true false v.sent [] };

    ghost right = { λ v. seen false true [] v.received };
}

impl Join<Seen> for Roles {
    ghost use Rattle.std.specs.Prelude.{true, false, []};
    ghost use Rattle.ic_lane.specs.Lanes.{seen};

    ghost both = { λ v w. seen true true v.sent w.received };

    ghost spent = { seen false false [] [] };
}

/// A push that adds, or that finds the lane full.
pub struct Sends;

impl Outcome<Packet, Seen> for Sends {
    ghost use Rattle.std.specs.Prelude.{◌≡◌, ◌∷◌, ◌++◌, []};
    ghost use Rattle.ic_lane.specs.Lanes.{seen};

    ghost then = { λ v x w. w ≡ seen v.pushes v.pops (v.sent ++ x ∷ []) v.received };
}

impl Lesson<Packet, Seen> for Sends {
    ghost use Rattle.std.specs.Prelude.{◌≤◌, length};

    ghost fact = { λ v items. length items ≤ length v.sent };
}

/// A pop that takes the front, or that finds the lane empty.
pub struct Takes<M> {
    mark: PhantomData<M>,
}

impl<M: Mark> Outcome<Packet, Seen> for Takes<M> {
    ghost use Rattle.std.specs.Prelude.{◌≡◌, ◌∷◌, ◌++◌, []};
    ghost use Rattle.def_live.specs.Lanes.{HasOneContent};
    ghost use Rattle.ic_lane.specs.Lanes.{seen};

    ghost then = { λ v x w. (w ≡ seen v.pushes v.pops v.sent (v.received ++ x ∷ [])) × (M.honest → HasOneContent (v.received ++ x ∷ [])) };
}

impl<M: Mark> Lesson<Packet, Seen> for Takes<M> {
    ghost use Rattle.std.specs.Prelude.{⊤};

    ghost fact = { λ v items. ⊤ };
}

/// The reading of the joined pass.
pub struct Total;

impl Lesson<Packet, Seen> for Total {
    ghost use Rattle.std.specs.Prelude.{◌≡◌, ◌++◌};

    ghost fact = { λ v items. v.sent ≡ v.received ++ items };
}

pub type Line<M> = RuledArrayQueue<Packet, Seen, InOrder<M>>;
