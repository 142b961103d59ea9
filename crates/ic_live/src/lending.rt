ghost use Rattle.std.specs.Prelude.{◌≡◌, ◌++◌, ◌∷◌, [], List, length, option_to_list};
ghost use Rattle.ic_base.specs.declared.messages.ComId.{ComId};
ghost use Rattle.ic_base.specs.declared.messages.Packet.{Packet};
ghost use Rattle.def_live.specs.Lanes.{HasOneContent, is_between};
ghost use Rattle.def_live.specs.Turns.{Pop, PopInTurn, PopUnless, not_passed_over, brought};
ghost use Rattle.def_step.specs.Packets.{receiver_of};
ghost use Rattle.ic_lane.specs.Lanes.{IsFresh};
ghost use Rattle.ic_live.specs.Ends.{AreApart, ArePopped, ArePushed, HaveOneContent, MayPush, others, sent_to};

use ic_base::{ComId, Packet, What};
use ic_lane::{LaneIn, LaneOut, Mark};
use ic_network::{receiver_of, sender_of};
use std::sync::Wait;

/// Whether a packet is one of this pair.
fn is_between(from: ComId, to: ComId, p: &Packet) -> bool
    ensures { result ≡ is_between from to p.now }
{
    from.0 == sender_of(p).0 && to.0 == receiver_of(p).0
}

/// Pops a lane to a component. A packet that isn't of the lane is passed over.
fn pop_own<M: Mark, R: Wait>(rt: &R, c: ComId, from: ComId, lane: &mut LaneIn<M>) -> Option<Packet>
    ensures lane { lane.new.lane ≡ lane.old.lane }
    ensures pop { (x : Pop) × (x.from ≡ from) × (result ≡ not_passed_over c x) × (lane.new.received ≡ lane.old.received ++ option_to_list x.gave) }
    ensures same { M.honest → HasOneContent lane.new.received }
{
    match lane.pop(rt) {
        Some(p) => {
            if is_between(from, c, &p) {
                Some(p)
            } else {
                None
            }
        }
        None => None,
    }
}

/// The first packet of the lanes of others to a component that isn't passed over, in order of sender. Each lane is popped at most
/// once, and none behind that packet.
pub(crate) fn first_of<M: Mark, R: Wait>(
    rt: &R,
    c: ComId,
    peers: &[ComId],
    ins: &mut Vec<LaneIn<M>>,
) -> Option<Packet>
    requires apart { AreApart peers.now }
    requires count { length ins.old.items ≡ length peers.now }
    ensures pops { (pops : List Pop) × PopInTurn c (others c peers.now) pops × (brought c pops ≡ result) × ArePopped peers.now ins.old.items ins.new.items pops }
    ensures same { M.honest → HaveOneContent ins.old.items → HaveOneContent ins.new.items }
{
    for at in 0..peers.len() {
        let from = peers[at];
        if c.0 == from.0 {
            continue;
        }
        if let Some(p) = pop_own(rt, c, from, &mut ins[at]) {
            return Some(p);
        }
    }
    None
}

/// What the pops of a turn bring. Lanes are popped only where the policy asks for nothing.
pub(crate) fn pops<M: Mark, R: Wait>(
    rt: &R,
    c: ComId,
    peers: &[ComId],
    ins: &mut Vec<LaneIn<M>>,
    asked: &Option<What>,
) -> Option<Packet>
    requires apart { AreApart peers.now }
    requires count { length ins.old.items ≡ length peers.now }
    ensures pops { (pops : List Pop) × PopUnless asked.now c (others c peers.now) pops × (brought c pops ≡ result) × ArePopped peers.now ins.old.items ins.new.items pops }
    ensures same { M.honest → HaveOneContent ins.old.items → HaveOneContent ins.new.items }
{
    match asked {
        Some(_) => None,
        None => first_of(rt, c, peers, ins),
    }
}

/// A packet goes to the lane of its receiver. A full lane loses it.
fn push_one<M: Mark, R: Wait>(
    rt: &R,
    c: ComId,
    peers: &[ComId],
    outs: &mut Vec<LaneOut<M>>,
    p: &Packet,
)
    requires apart { AreApart peers.now }
    requires count { length outs.old.items ≡ length peers.now }
    requires fresh { M.honest → IsFresh (sent_to peers.now outs.old.items (receiver_of p.now)) p.now }
    ensures { ArePushed c peers.now outs.old.items outs.new.items (p.now ∷ []) }
{
    let (from, to) = (sender_of(p), receiver_of(p));
    if c.0 != from.0 {
        return;
    }
    for at in 0..peers.len() {
        if to.0 == peers[at].0 {
            let _ = outs[at].push(rt, *p);
            return;
        }
    }
}

/// Each packet goes to the lane of its receiver.
pub(crate) fn push_all<M: Mark, R: Wait>(
    rt: &R,
    c: ComId,
    peers: &[ComId],
    outs: &mut Vec<LaneOut<M>>,
    puts: &[Packet],
)
    requires apart { AreApart peers.now }
    requires count { length outs.old.items ≡ length peers.now }
    requires once { M.honest → MayPush c peers.now outs.old.items puts.now }
    ensures { ArePushed c peers.now outs.old.items outs.new.items puts.now }
{
    for p in puts {
        push_one(rt, c, peers, outs, p);
    }
}
