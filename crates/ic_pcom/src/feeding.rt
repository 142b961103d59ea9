ghost use Rattle.std.specs.Prelude.{◌≡◌, ◌+◌, ◌≤◌, ◌&&◌, false, true, is_ok, length, None, Some, Err, IfErr, IfOk};
ghost use Rattle.ic_base.specs.declared.limits.TheConstants.{COMPONENTS};
ghost use Rattle.ic_base.specs.declared.messages.Packet.TheVariants.{Data};
ghost use Rattle.def_step.specs.Packets.{fits_pcom};
ghost use Rattle.def_step.specs.Pcom.{Gets, is_needed};
ghost use Rattle.ic_disk.specs.Disk.{CrashLeaves, Makes};
ghost use Rattle.ic_pcom.specs.Feeding.{wanted, asked};
ghost use Rattle.ic_pcom.specs.Stages.{is_up};
ghost use Rattle.ic_pcom.specs.Stepping.{calls_of, Does, KeepsLog, FailsToGet, IsBeforeOrStepped};
ghost use Rattle.ic_pcom.specs.Views.{component_of, com_of, disk_of, is_closed};

use crate::restaging::{feed, rise};
use crate::stage::Stage;
use crate::step::{PacketRefused, Step};
use crate::telling::{Outgoing, found, told, with_room};
use crate::{Pcom, StepKind};
use ic_base::limits::GREATEST_NUMBER;
use ic_base::{ComId, Items, Msg, Packet, Program, Steps, has_handler, is_number, is_other_pcom};
use ic_disk::Disk;
use std::alloc::{AllocError, Global};
use std::sync::ledger::Ledger;

/// Whether a message is one that a component may get.
fn fits(program: &Program, com: ComId, msg: Msg) -> bool
    ensures { result ≡ fits_pcom program.now «com» (Data msg) }
{
    is_other_pcom(program, com, msg.from)
        && is_number(msg.k)
        && msg.stamp <= GREATEST_NUMBER
        && has_handler(program, com, msg.handler, msg.args)
}

impl<D: Disk> Pcom<D> {
    /// The message that its replay waits for, where a packet is that.
    fn wanted(&self, program: &Program, p: &Packet) -> Option<Msg>
        ensures { result ≡ wanted program.now (com_of self.now) (component_of self.now).rest p.now }
    {
        let Packet::Data(msg) = *p else {
            return None;
        };
        let Stage::Replays(_, replay) = &self.stage else {
            return None;
        };
        let (from, k) = replay.needs()?;
        if fits(program, self.com, msg) && from == msg.from && k == msg.k {
            Some(msg)
        } else {
            None
        }
    }

    /// The message of its own that a packet asks for, where it is held and due.
    fn asked(&self, program: &Program, p: &Packet) -> Option<Msg>
        ensures { result ≡ asked program.now (com_of self.now) (component_of self.now) p.now }
    {
        let Packet::Fetch { from, k, .. } = *p else {
            return None;
        };
        if !is_other_pcom(program, self.com, from) || !is_number(k) {
            return None;
        }
        self.stage
            .state()
            .outbox
            .fetch(from, k, self.log.forced_end())
    }

    /// What it answers, while it replays, to a packet that isn't the message that it waits for: a Fetch, where it holds what
    /// is asked for. Nothing changes.
    fn answered(&self, alloc: Global, program: &Program, p: &Packet) -> Result<Step, AllocError>
        requires open { is_closed self.now ≡ false }
        requires replays { is_up self.now.stage ≡ false }
        requires other { wanted program.now (com_of self.now) (component_of self.now).rest p.now ≡ None }
        ensures { IfOk result (Does program.now self.now (Gets p.now) self.now) }
    {
        let puts = found(alloc, self.asked(program, p))?;
        Ok(told(StepKind::Same, puts, None, None))
    }

    /// How many records it has still to play.
    fn left(&self) -> usize
        requires replays { is_up self.now.stage ≡ false }
        ensures { result ≡ length (component_of self.now).rest }
    {
        self.log.since_checkpoint() - self.played as usize
    }

    /// Feeds its replay with the message that it waits for. A misfit closes it.
    fn feed<L: Ledger>(
        &mut self,
        alloc: Global,
        program: &Program,
        msg: Msg,
        steps: &mut Steps<L>,
    ) -> Result<Step, PacketRefused>
        requires open { is_closed self.old ≡ false }
        requires replays { is_up self.old.stage ≡ false }
        requires few { length program.now.components ≤ COMPONENTS }
        requires wanted { (fits_pcom program.now (com_of self.old) (Data msg) && is_needed (component_of self.old).rest msg) ≡ true }
        ensures step { IfOk result (Does program.now self.old (Gets (Data msg)) self.new) }
        ensures log { KeepsLog self.old self.new }
        ensures disk { disk_of self.new ≡ disk_of self.old }
        ensures refused { IfErr result (FailsToGet program.now self.old (Data msg) self.new) }
        ensures steps { IfOk result (λ told. steps.new + length (component_of self.new).rest ≡ steps.old + length (component_of self.old).rest) }
        ensures bound { steps.new ≤ steps.old + length (component_of self.old).rest }
        ensures stopped { result ≡ Err PacketRefused.Stopped → steps.new ≡ steps.old }
    {
        let forced = self.log.forced_end();
        let left = self.left();
        let state = self.stage.state();
        let outgoing = Outgoing {
            covers: true,
            forces: false,
            forced,
            receipts: left,
            messages: 0,
            drops: false,
            came: false,
        };
        let Ok(puts) = with_room(Items::new(alloc), state, outgoing) else {
            return Err(PacketRefused::Memory);
        };
        match feed(alloc, program, &mut self.stage, msg, steps) {
            Ok(()) => {
                self.played = self.stage.played();
                Ok(rise(alloc, self.com, forced, &mut self.stage, puts))
            }
            Err(None) => Err(PacketRefused::Memory),
            Err(Some(place)) => {
                self.closed = true;
                Err(PacketRefused::Bad(place))
            }
        }
    }

    /// Gets a packet while it replays: the message for which it waits is played, with the records behind it until one waits
    /// again; a Fetch is answered, and nothing else changes (docs/RULES.md, "Recover").
    pub(crate) fn fed<L: Ledger>(
        &mut self,
        alloc: Global,
        program: &Program,
        p: &Packet,
        steps: &mut Steps<L>,
    ) -> Result<Step, PacketRefused>
        requires open { is_closed self.old ≡ false }
        requires replays { is_up self.old.stage ≡ false }
        requires few { length program.now.components ≤ COMPONENTS }
        ensures step { IfOk result (Does program.now self.old (Gets p.now) self.new) }
        ensures log { KeepsLog self.old self.new }
        ensures crash { CrashLeaves D.Disk (disk_of self.old) (disk_of self.new) (IsBeforeOrStepped program.now self.old (Gets p.now)) }
        ensures calls { Makes D.Disk (calls_of program.now self.old (Gets p.now)) (is_ok result) (result ≡ Err PacketRefused.Failed) (disk_of self.old) (disk_of self.new) }
        ensures refused { IfErr result (FailsToGet program.now self.old p.now self.new) }
        ensures steps { IfOk result (λ told. steps.new + length (component_of self.new).rest ≡ steps.old + length (component_of self.old).rest) }
        ensures bound { steps.new ≤ steps.old + length (component_of self.old).rest }
        ensures stopped { result ≡ Err PacketRefused.Stopped → steps.new ≡ steps.old }
    {
        match self.wanted(program, p) {
            Some(msg) => self.feed(alloc, program, msg, steps),
            None => match self.answered(alloc, program, p) {
                Ok(told) => Ok(told),
                Err(_) => Err(PacketRefused::Memory),
            },
        }
    }
}
