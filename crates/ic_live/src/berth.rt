ghost use Rattle.std.specs.Prelude.{◌≡◌, ◌≤◌, [], List, length, Some, None, OnOk, IfErr};
ghost use Rattle.ic_base.specs.declared.limits.TheConstants.{COMPONENTS};
ghost use Rattle.ic_node.specs.Meeting.{KeepsDisk, CrashAdds};
ghost use Rattle.ic_node.specs.Views.{com_of};
ghost use Rattle.ic_turn.specs.Doing.{standing_of, choice_adds};
ghost use Rattle.ic_turn.specs.Progresses.{left_of, answers_of, shown_of, turns_of, received_of, packets_of};
ghost use Rattle.ic_turn.specs.Standings.{counted};
ghost use Rattle.def_live.specs.Turns.{Pop};
ghost use Rattle.ic_live.specs.Berthed.{berthed};
ghost use Rattle.ic_live.specs.Berths.{BeginsBerth, BerthHolds, ActsBy, PopsBy, turn_choice, flush_choice};
ghost use Rattle.ic_live.specs.Carrying.{FailsToCarryOut};

use crate::carrying::carry_out;
use crate::held::Held;
use crate::lending::pops;
use crate::next::choose_next;
use crate::scene::Scene;
use crate::words::has_words;
use ic_base::{ComId, Event, Items, Policy, Program, Steps, WorldRefused};
use ic_disk::{Disk, TornDisk};
use ic_lane::{LaneIn, LaneOut, Mark};
use ic_node::Component;
use ic_turn::{Progress, asked, flush_choice};
use std::alloc::Global;
use std::marker::{Model, PhantomData};
use std::sync::Wait;
use std::sync::ledger::Ledger;

/// What a berth is taken apart into.
#[derive(Drop)]
pub(crate) struct Parts<X: Held, M: Mark> {
    pub component: X,
    pub progress: Progress,
    pub refused: Option<WorldRefused>,
    pub ins: Vec<LaneIn<M>>,
    pub outs: Vec<LaneOut<M>>,
}

/// A component with the ends of its lanes and the events of its list. In an honest run it keeps the facts of its component, and nothing
/// of any other.
#[derive(Drop)]
pub struct Berth<X: Held, M: Mark, N: Scene> {
    place: usize,
    fingerprint: [u8; 32],
    component: X,
    progress: Progress,
    /// The components that have a berth, in order.
    peers: Vec<ComId>,
    ins: Vec<LaneIn<M>>,
    outs: Vec<LaneOut<M>>,
    policy: Policy,
    /// The refusal that ended it.
    refused: Option<WorldRefused>,
    scene: PhantomData<N>,
}

impl<X: Held, M: Mark, N: Scene> Model for Berth<X, M, N> {
    ghost use Rattle.ic_live.specs.Berths.{Berthed, BerthHolds};

    ghost Value = { Berthed X };

    ghost view = { λ b. record {
      place = b.place;
      component = b.component;
      progress = b.progress;
      ins = b.ins.items;
      outs = b.outs.items;
      policy = b.policy;
      refused = b.refused;
    } };

    ghost invariant = { λ b. BerthHolds X.node X.which X.file X.tells X.is_over X.has_disk X.faults X.fails N.program N.fingerprint N.plan N.lane N.began M.honest b.fingerprint b.peers.items (record {
      place = b.place;
      component = b.component;
      progress = b.progress;
      ins = b.ins.items;
      outs = b.outs.items;
      policy = b.policy;
      refused = b.refused;
    }) };
}

impl<X: Held, M: Mark, N: Scene> Berth<X, M, N> {
    /// Its place among the berths.
    pub fn place(&self) -> usize
        ensures { result ≡ self.now.place }
    {
        self.place
    }

    /// The refusal that ended it.
    pub fn refused(&self) -> Option<WorldRefused>
        ensures { result ≡ self.now.refused }
    {
        self.refused
    }

    /// Its parts, with what its type kept of them.
    pub(crate) fn into_parts(self) -> Parts<X, M>
        ensures component { result.component ≡ self.component }
        ensures progress { result.progress ≡ self.progress }
        ensures refused { result.refused ≡ self.refused }
        ensures ins { result.ins.items ≡ self.ins }
        ensures outs { result.outs.items ≡ self.outs }
        ensures holds { BerthHolds X.node X.which X.file X.tells X.is_over X.has_disk X.faults X.fails N.program N.fingerprint N.plan N.lane N.began M.honest N.fingerprint (berthed N.program) self }
    {
        let Berth {
            place: _,
            fingerprint: _,
            component,
            progress,
            peers: _,
            ins,
            outs,
            policy: _,
            refused,
            scene: _,
        } = self;
        Parts {
            component,
            progress,
            refused,
            ins,
            outs,
        }
    }
}

impl<D: Disk, M: Mark, N: Scene> Berth<Component<TornDisk<D>>, M, N> {
    /// A component that has just come up over a fresh log, with new lanes, and nothing done of its list.
    pub fn new(
        alloc: Global,
        place: usize,
        fingerprint: [u8; 32],
        component: Component<TornDisk<D>>,
        peers: Vec<ComId>,
        ins: Vec<LaneIn<M>>,
        outs: Vec<LaneOut<M>>,
        events: Items<Event>,
        policy: Policy,
    ) -> Berth<Component<TornDisk<D>>, M, N>
        requires print { fingerprint ≡ N.fingerprint }
        requires begins { BeginsBerth N.program N.fingerprint N.plan N.lane N.began M.honest place component peers.items ins.items outs.items events }
        ensures place { (result.place ≡ place) × (result.policy ≡ policy) }
        ensures component { result.component ≡ component }
        ensures lanes { (result.ins ≡ ins.items) × (result.outs ≡ outs.items) }
        ensures list { (left_of result.progress ≡ events) × (answers_of result.progress ≡ []) × (shown_of result.progress ≡ []) }
        ensures counts { (turns_of result.progress ≡ 0) × (received_of result.progress ≡ 0) × (packets_of result.progress ≡ 0) }
        ensures going { result.refused ≡ None }
    {
        Berth {
            place,
            fingerprint,
            component,
            progress: Progress::new(alloc, events),
            peers,
            ins,
            outs,
            policy,
            refused: None,
            scene: PhantomData,
        }
    }

    /// The component that it is of.
    pub fn com(&self) -> ComId
        ensures { result ≡ com_of self.now.component }
    {
        self.component.com()
    }

    /// The one event that the rule gives on what its pops answered, and none where it gives none (docs/RULES.md, "Live runs"). After a
    /// refusal it makes no turn.
    pub fn turn<L: Ledger, R: Wait>(
        &mut self,
        rt: &R,
        alloc: Global,
        program: &Program,
        steps: &mut Steps<L>,
    ) -> Result<(), WorldRefused>
        requires program { program.now ≡ N.program }
        requires few { length program.now.components ≤ COMPONENTS }
        requires going { self.old.refused ≡ None }
        ensures turn { (pops : List Pop) × PopsBy program.now self.old self.new.ins pops
            × OnOk result (ActsBy program.now N.fingerprint (turn_choice program.now self.old pops) (counted (standing_of self.old.component self.old.progress)) self.old self.new)
            × IfErr result (λ why. FailsToCarryOut D.Disk program.now N.fingerprint (turn_choice program.now self.old pops) self.old.component (received_of self.old.progress) (packets_of self.old.progress) self.new.component why)
            × CrashAdds (choice_adds program.now (turn_choice program.now self.old pops) self.old.component) self.old.component self.new.component }
        ensures ends { IfErr result (λ why. self.new.refused ≡ Some why) }
        ensures place { (self.new.place ≡ self.old.place) × (self.new.policy ≡ self.old.policy) }
        ensures disk { KeepsDisk self.old.component self.new.component }
    {
        let asked = asked(&self.policy, &self.component);
        let peers = self.peers.as_slice();
        let came = pops(rt, self.component.com(), peers, &mut self.ins, &asked);
        has_words(&came);
        let Ok(next) = choose_next(alloc, &self.component, &mut self.progress, asked, came) else {
            self.refused = Some(WorldRefused::Memory);
            return Err(WorldRefused::Memory);
        };
        match carry_out(
            rt,
            alloc,
            program,
            &self.fingerprint,
            peers,
            &mut self.component,
            &mut self.progress,
            &mut self.outs,
            &next,
            steps,
        ) {
            Ok(()) => Ok(()),
            Err(why) => {
                self.refused = Some(why);
                Err(why)
            }
        }
    }

    /// Forces what is buffered, if something is. After a refusal it makes no flush.
    pub fn flush<L: Ledger, R: Wait>(
        &mut self,
        rt: &R,
        alloc: Global,
        program: &Program,
        steps: &mut Steps<L>,
    ) -> Result<(), WorldRefused>
        requires program { program.now ≡ N.program }
        requires few { length program.now.components ≤ COMPONENTS }
        requires going { self.old.refused ≡ None }
        ensures step { OnOk result (ActsBy program.now N.fingerprint (flush_choice program.now self.old) (standing_of self.old.component self.old.progress) self.old self.new) }
        ensures refused { IfErr result (FailsToCarryOut D.Disk program.now N.fingerprint (flush_choice program.now self.old) self.old.component (received_of self.old.progress) (packets_of self.old.progress) self.new.component) }
        ensures ends { IfErr result (λ why. self.new.refused ≡ Some why) }
        ensures ins { self.new.ins ≡ self.old.ins }
        ensures place { (self.new.place ≡ self.old.place) × (self.new.policy ≡ self.old.policy) }
        ensures disk { KeepsDisk self.old.component self.new.component }
        ensures crash { CrashAdds (choice_adds program.now (flush_choice program.now self.old) self.old.component) self.old.component self.new.component }
    {
        let next = flush_choice(&self.component);
        let peers = self.peers.as_slice();
        match carry_out(
            rt,
            alloc,
            program,
            &self.fingerprint,
            peers,
            &mut self.component,
            &mut self.progress,
            &mut self.outs,
            &next,
            steps,
        ) {
            Ok(()) => Ok(()),
            Err(why) => {
                self.refused = Some(why);
                Err(why)
            }
        }
    }
}
