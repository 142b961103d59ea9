ghost use Rattle.std.specs.Prelude.{◌≡◌, true};
ghost use Rattle.std.proofs.Props.{props};
ghost use Rattle.def_state.specs.Vol.{numbers_fit};
ghost use Rattle.ic_ckpt.specs.Views.{seen};

use crate::Shipped;
use crate::missing::first_missing;
use crate::play::play_through;
use ic_base::{ComId, Msg, Program, Record, Steps};
use ic_ckpt::State;
use ic_replay::ReplayRefused;
use std::alloc::{AllocError, Global};
use std::sync::ledger::Ledger;

/// A standby of one persistent component: the state that the first records of its log made, and how many they are. Whoever
/// ships records ships forced ones alone (docs/THEOREM.md, "A standby").
#[derive(Drop)]
pub struct Standby {
    com: ComId,
    state: State,
    have: u64,
    ghost limits: { numbers_fit (seen state) ≡ true } by { Prim.hlevel props },
}

impl Standby {
    ghost use Rattle.std.specs.Prelude.{◌≡◌, ◌+◌, ◌≤◌, true, length, All, IfOk, IfErr};
    ghost use Rattle.def_log.specs.Spelling.{Fits};
    ghost use Rattle.def_standby.specs.Standbys.{first_standby, contents_among};
    ghost use Rattle.ic_standby.specs.Shipping.{Ships, FailsToShip};
    ghost use Rattle.ic_standby.specs.Views.{standby_of, com_of};

    /// A standby that has played no record.
    pub fn new(alloc: Global, program: &Program, com: ComId) -> Result<Standby, AllocError>
        ensures first { IfOk result (λ s. standby_of s ≡ first_standby program.now «com») }
        ensures which { IfOk result (λ s. com_of s ≡ «com») }
    {
        let state = State::first(alloc, program, com)?;
        Ok(Standby {
            com,
            state,
            have: 0,
        })
    }

    /// How many records it has played.
    pub fn have(&self) -> u64
        ensures { result ≡ (standby_of self.now).have }
    {
        self.have
    }

    /// Plays records behind those that it has, each that takes a message by identity with that one of `msgs`; `first` is the
    /// number of records before them. All messages are looked for before one record is played. Where another answer than
    /// Applied is given, it is as before; an error loses it.
    pub fn ship<L: Ledger>(
        self,
        alloc: Global,
        program: &Program,
        first: u64,
        records: &[Record],
        msgs: &[Msg],
        steps: &mut Steps<L>,
    ) -> Result<(Standby, Shipped), ReplayRefused>
        requires fields { All Fits records.now }
        ensures shipped { IfOk result (λ on. Ships program.now (com_of self) (contents_among (com_of self) msgs.now) (standby_of self) first records.now on.1 (standby_of on.0)) }
        ensures which { IfOk result (λ on. com_of on.0 ≡ com_of self) }
        ensures steps { IfOk result (λ on. steps.new + (standby_of self).have ≡ steps.old + (standby_of on.0).have) }
        ensures bound { steps.new ≤ steps.old + length records.now }
        ensures refused { IfErr result (FailsToShip program.now (com_of self) (contents_among (com_of self) msgs.now) (standby_of self) first records.now) }
    {
        let had = self.have;
        if had < first {
            return Ok((self, Shipped::Early(had)));
        }
        if first < had {
            return Ok((self, Shipped::Again(had)));
        }
        if let Some((from, k)) = first_missing(self.com, records, msgs) {
            return Ok((self, Shipped::Missing(from, k)));
        }
        let Some(have) = had.checked_add(records.len() as u64) else {
            return Err(ReplayRefused::Memory);
        };
        let com = self.com;
        let mut state = self.state;
        match play_through(alloc, program, com, records, 0, msgs, &mut state, steps) {
            Ok(()) => Ok((Standby { com, state, have }, Shipped::Applied)),
            Err(why) => Err(why),
        }
    }

    /// The state that its records made.
    pub fn into_state(self) -> State
        ensures { seen result ≡ (standby_of self).state }
    {
        self.state
    }
}
