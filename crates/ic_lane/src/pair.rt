ghost use Rattle.std.specs.Prelude.{◌≡◌, ◌+◌, ◌≤◌, ◌++◌, ◌∷◌, [], length, IfOk, OnOk, IfErr, MatchOption};
ghost use mathlib.Core.List.{IsPrefix};
ghost use Rattle.ic_base.specs.declared.messages.Packet.TheVariants.{Data};
ghost use Rattle.ic_lane.specs.declared.pair.PushRefused.TheVariants.{Full};
ghost use Rattle.def_live.specs.Lanes.{HasOneContent};
ghost use Rattle.ic_lane.specs.Lanes.{IsFresh};

use crate::line::{Line, Roles, Seen, Sends, Takes, Total};
use crate::mark::Mark;
use crossbeam_queue::Pass;
use ic_base::Packet;
use std::alloc::{AllocError, Global};
use std::marker::Model;
use std::sync::{Arc, Wait};
use std::thread;

/// Why a packet isn't pushed: the lane was full at a step of this call.
#[derive(Clone, Copy, Debug, PartialEq, Eq)]
pub enum PushRefused {
    Full(Packet),
}

/// The sender's end of a lane. Contracts see the lane, its capacity, what was sent, and how many pushes were refused.
#[derive(Drop)]
pub struct LaneOut<M: Mark> {
    line: Arc<Line<M>, Global>,
    pass: Pass<Packet, Seen>,
    fulls: u64,
}

impl<M: Mark> Model for LaneOut<M> {
    ghost use Rattle.std.specs.Prelude.{◌≡◌, [], true, false};
    ghost use Rattle.std.specs.Arc.{arc_value};
    ghost use Rattle.crossbeam_queue.specs.Passes.{view as seen_by, IsPassOf, ruled_capacity};
    ghost use Rattle.def_live.specs.Lanes.{HasOneContent};
    ghost use Rattle.ic_lane.specs.Lanes.{seen, Out};

    ghost Value = { Out };

    ghost view = { λ s. record {
      lane = s.pass.table_id;
      capacity = ruled_capacity (arc_value s.line);
      sent = (seen_by s.pass).sent;
      fulls = s.fulls;
    } };

    ghost invariant = { λ s. IsPassOf (arc_value s.line) s.pass
        × (seen_by s.pass ≡ seen true false (seen_by s.pass).sent [])
        × (M.honest → HasOneContent (seen_by s.pass).sent) };
}

/// The receiver's end of a lane. Contracts see the lane and what was received.
#[derive(Drop)]
pub struct LaneIn<M: Mark> {
    line: Arc<Line<M>, Global>,
    pass: Pass<Packet, Seen>,
}

impl<M: Mark> Model for LaneIn<M> {
    ghost use Rattle.std.specs.Prelude.{◌≡◌, [], true, false};
    ghost use Rattle.std.specs.Arc.{arc_value};
    ghost use Rattle.crossbeam_queue.specs.Passes.{view as seen_by, IsPassOf};
    ghost use Rattle.def_live.specs.Lanes.{HasOneContent};
    ghost use Rattle.ic_lane.specs.Lanes.{seen, In};

    ghost Value = { In };

    ghost view = { λ s. record { lane = s.pass.table_id; received = (seen_by s.pass).received } };

    ghost invariant = { λ s. IsPassOf (arc_value s.line) s.pass
        × (seen_by s.pass ≡ seen false true [] (seen_by s.pass).received)
        × (M.honest → HasOneContent (seen_by s.pass).received) };
}

/// Makes lanes.
pub struct Lane;

impl Lane {
    /// The two ends of a new lane.
    pub fn pair<M: Mark>(
        alloc: Global,
        capacity: usize,
    ) -> Result<(LaneOut<M>, LaneIn<M>), AllocError>
        requires { 1 ≤ capacity }
        ensures lane { IfOk result (λ p. p.0.lane ≡ p.1.lane) }
        ensures sender { IfOk result (λ p. (p.0.capacity ≡ capacity) × (p.0.sent ≡ []) × (p.0.fulls ≡ 0)) }
        ensures receiver { IfOk result (λ p. p.1.received ≡ []) }
    {
        let (line, mut sender) = Line::<M>::ruled(alloc, capacity)?;
        let receiver = line.another::<Roles>(&mut sender);
        let line = Arc::new(alloc, line)?;
        let theirs = Arc::try_clone(&line)?;
        let out = LaneOut {
            line,
            pass: sender,
            fulls: 0,
        };
        let ins = LaneIn {
            line: theirs,
            pass: receiver,
        };
        Ok((out, ins))
    }
}

/// One more than a count. A count that cannot rise waits for ever.
fn one_more<R: Wait>(rt: &R, count: u64) -> u64
    ensures { result ≡ count + 1 }
{
    match count.checked_add(1) {
        Some(more) => more,
        None => {
            for _ in rt.forever() {
                thread::yield_now();
            }
            unreachable!()
        }
    }
}

impl<M: Mark> LaneOut<M> {
    /// Puts a packet behind those sent. It is refused only where the lane was full at a step of this call.
    pub fn push<R: Wait>(&mut self, rt: &R, p: Packet) -> Result<(), PushRefused>
        requires fresh { M.honest → IsFresh self.old.sent p }
        ensures lane { self.new.lane ≡ self.old.lane }
        ensures capacity { self.new.capacity ≡ self.old.capacity }
        ensures ok { OnOk result ((self.new.sent ≡ self.old.sent ++ p ∷ []) × (self.new.fulls ≡ self.old.fulls)) }
        ensures full { IfErr result (λ e. (e ≡ Full p) × (self.new.sent ≡ self.old.sent) × (self.new.fulls ≡ self.old.fulls + 1) × (self.old.capacity ≤ length self.old.sent)) }
    {
        match self.line.push_as::<Sends, R>(rt, &mut self.pass, p) {
            Ok(()) => Ok(()),
            Err(back) => {
                self.fulls = one_more(rt, self.fulls);
                Err(PushRefused::Full(back))
            }
        }
    }
}

impl<M: Mark> LaneIn<M> {
    /// Takes the front off. None only where the lane was empty at a step of this call.
    pub fn pop<R: Wait>(&mut self, rt: &R) -> Option<Packet>
        ensures lane { self.new.lane ≡ self.old.lane }
        ensures received { MatchOption result (self.new.received ≡ self.old.received) (λ p. self.new.received ≡ self.old.received ++ p ∷ []) }
        ensures same { M.honest → HasOneContent self.new.received }
    {
        self.line.pop_as::<Takes<M>, R>(rt, &mut self.pass)
    }
}

/// Ends a lane. What is left in it counts as lost.
pub fn close_pair<M: Mark>(o: LaneOut<M>, i: LaneIn<M>)
    requires { o.lane ≡ i.lane }
    ensures prefix { IsPrefix i.received o.sent }
    ensures same { M.honest → HasOneContent o.sent }
{
    let LaneOut {
        line,
        mut pass,
        fulls: _,
    } = o;
    let LaneIn {
        line: _,
        pass: other,
    } = i;
    line.absorb::<Roles>(&mut pass, other);
    line.learn_as::<Total>(&mut pass);
}
