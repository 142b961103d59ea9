ghost use Rattle.std.specs.Prelude.{◌≡◌, ◌<◌, ◌≤◌, false, true, List, length, option_map, is_some, IfErr, OnOk, Some};
ghost use Rattle.ic_base.specs.declared.limits.TheConstants.{COMPONENTS};
ghost use Rattle.ic_base.specs.declared.messages.Packet.{Packet};
ghost use Rattle.def_run.specs.SystemStates.{KeepsLog};
ghost use Rattle.ic_node.specs.Meeting.{KeepsDisk, CrashAdds};
ghost use Rattle.ic_node.specs.Views.{node_of, com_of, file_of, disk_of, is_over, Tells};
ghost use Rattle.ic_turn.specs.Choices.{choice_of};
ghost use Rattle.ic_turn.specs.Doing.{standing_of, choice_adds};
ghost use Rattle.ic_turn.specs.Progresses.{received_of, packets_of};
ghost use Rattle.ic_turn.specs.Standings.{Standing, DoesOne};
ghost use Rattle.ic_live.specs.Carrying.{MayDo, CarriesOut, FailsToCarryOut};
ghost use Rattle.ic_live.specs.Ends.{AreApart, MayPush};

use crate::lending::push_all;
use ic_base::{ComId, Program, Steps, WorldRefused};
use ic_disk::{Disk, TornDisk};
use ic_lane::{LaneOut, Mark};
use ic_node::Component;
use ic_turn::{Choice, Progress, do_choice};
use std::alloc::Global;
use std::sync::Wait;
use std::sync::ledger::Ledger;

/// The event of a choice, if there is one, is done, and behind it what it put out is pushed.
pub(crate) fn carry_out<D: Disk, M: Mark, L: Ledger, R: Wait>(
    rt: &R,
    alloc: Global,
    program: &Program,
    fingerprint: &[u8; 32],
    peers: &[ComId],
    x: &mut Component<TornDisk<D>>,
    progress: &mut Progress,
    outs: &mut Vec<LaneOut<M>>,
    next: &Option<Choice>,
    steps: &mut Steps<L>,
) -> Result<(), WorldRefused>
    requires going { is_over x.old ≡ false }
    requires few { length program.now.components ≤ COMPONENTS }
    requires there { (com_of x.old).0 < length program.now.components }
    requires has { is_some (disk_of x.old) ≡ true }
    requires own { MayDo (com_of x.old) (option_map choice_of next.now) }
    requires logs { Tells x.old → KeepsLog fingerprint.now (com_of x.old) (file_of x.old) (Some (node_of x.old)) }
    requires apart { AreApart peers.now }
    requires count { length outs.old.items ≡ length peers.now }
    requires once { M.honest → (puts : List Packet) (r : Standing) → DoesOne program.now fingerprint.now (com_of x.old) (option_map choice_of next.now) (Tells x.old) puts (standing_of x.old progress.old) r → MayPush (com_of x.old) peers.now outs.old.items puts }
    ensures step { OnOk result (CarriesOut program.now fingerprint.now peers.now (option_map choice_of next.now) x.old progress.old outs.old.items x.new progress.new outs.new.items) }
    ensures refused { IfErr result (FailsToCarryOut D.Disk program.now fingerprint.now (option_map choice_of next.now) x.old (received_of progress.old) (packets_of progress.old) x.new) }
    ensures same { IfErr result (λ why. outs.new.items ≡ outs.old.items) }
    ensures counts { IfErr result (λ why. (received_of progress.new ≡ received_of progress.old) × (packets_of progress.new ≡ packets_of progress.old)) }
    ensures disk { KeepsDisk x.old x.new }
    ensures crash { CrashAdds (choice_adds program.now (option_map choice_of next.now) x.old) x.old x.new }
{
    let Some(choice) = next else {
        return Ok(());
    };
    let c = x.com();
    match do_choice(alloc, program, fingerprint, x, progress, choice, steps) {
        Ok(puts) => {
            push_all(rt, c, peers, outs, puts.as_slice());
            Ok(())
        }
        Err(why) => Err(why),
    }
}
