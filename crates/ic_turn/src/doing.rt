ghost use Rattle.std.specs.Prelude.{◌≡◌, ◌+◌, ◌≤◌, ◌<◌, true, false, length, IsNone, IfSome, IfOk, IfErr, OnOk, Some, is_some};
ghost use Rattle.ic_base.specs.declared.limits.TheConstants.{COMPONENTS, RECEIPTS};
ghost use Rattle.def_live.specs.Turns.{IsOwn, event_of};
ghost use Rattle.def_run.specs.Reports.{played_by};
ghost use Rattle.def_run.specs.SystemStates.{KeepsLog};
ghost use Rattle.ic_node.specs.Doing.{IsAllowed};
ghost use Rattle.ic_node.specs.Meeting.{KeepsDisk, CrashAdds, GoesOn};
ghost use Rattle.ic_node.specs.Views.{node_of, com_of, file_of, disk_of, is_over, Tells};
ghost use Rattle.ic_work.specs.Working as works;
ghost use Rattle.ic_work.specs.Working.{work_receives};
ghost use Rattle.ic_turn.specs.Choices.{choice_of};
ghost use Rattle.ic_turn.specs.Doing.{DoesChoice, FailsToDoChoice, choice_adds};
ghost use Rattle.ic_turn.specs.Progresses.{turns_of, received_of, packets_of};

use crate::choice::{Choice, stop_of, work_of};
use crate::progress::Progress;
use ic_base::limits::RECEIPTS;
use ic_base::{Packets, Program, Steps, Which, WorldRefused};
use ic_disk::{Disk, TornDisk};
use ic_node::Component;
use ic_work::{Work, does_work, receives, refusal};
use std::alloc::Global;
use std::sync::ledger::Ledger;

/// Whether the work receives something; None where that would be one thing more than may be received.
fn admits<D: Disk>(
    program: &Program,
    x: &Component<D>,
    progress: &Progress,
    work: &Work,
) -> Option<bool>
    ensures admitted { IfSome result (λ more. (more ≡ work_receives program.now (com_of x.now) (works.work_of work.now) (node_of x.now)) × (more ≡ true → received_of progress.now < RECEIPTS)) }
    ensures refused { IsNone result → (work_receives program.now (com_of x.now) (works.work_of work.now) (node_of x.now) ≡ true) × (RECEIPTS ≤ received_of progress.now) }
{
    let more = receives(program, x.com(), x, work);
    if more && progress.received == RECEIPTS {
        None
    } else {
        Some(more)
    }
}

/// The event of a choice is done, told and counted. What it puts out is answered.
pub fn do_choice<D: Disk, L: Ledger>(
    alloc: Global,
    program: &Program,
    fingerprint: &[u8; 32],
    x: &mut Component<TornDisk<D>>,
    progress: &mut Progress,
    choice: &Choice,
    steps: &mut Steps<L>,
) -> Result<Packets, WorldRefused>
    requires going { is_over x.old ≡ false }
    requires few { length program.now.components ≤ COMPONENTS }
    requires there { (com_of x.old).0 < length program.now.components }
    requires has { is_some (disk_of x.old) ≡ true }
    requires own { IsOwn (com_of x.old) (choice_of choice.now) }
    requires stop { IsAllowed (event_of (com_of x.old) (choice_of choice.now)).stop }
    requires logs { Tells x.old → KeepsLog fingerprint.now (com_of x.old) (file_of x.old) (Some (node_of x.old)) }
    ensures step { IfOk result (DoesChoice program.now fingerprint.now (choice_of choice.now) x.old progress.old x.new progress.new) }
    ensures turns { turns_of progress.new ≡ turns_of progress.old }
    ensures goes_on { OnOk result (GoesOn x.old x.new) }
    ensures disk { KeepsDisk x.old x.new }
    // A crash at each moment leaves the forced records, or these with all that the work of the choice forces.
    ensures crash { CrashAdds (choice_adds program.now (Some (choice_of choice.now)) x.old) x.old x.new }
    ensures refused { IfErr result (FailsToDoChoice D.Disk program.now fingerprint.now (choice_of choice.now) x.old (received_of progress.old) (packets_of progress.old) x.new) }
    ensures counts { IfErr result (λ why. (received_of progress.new ≡ received_of progress.old) × (packets_of progress.new ≡ packets_of progress.old)) }
    ensures played { OnOk result (steps.new ≡ steps.old + played_by (node_of x.old) (node_of x.new)) }
{
    let c = x.com();
    let work = work_of(c, choice);
    let Some(more) = admits(program, x, progress, &work) else {
        return Err(WorldRefused::Limit(Which::Receipts));
    };
    match does_work(
        alloc,
        program,
        fingerprint,
        x,
        &work,
        stop_of(choice),
        steps,
    ) {
        Ok(done) => progress.tell(choice, more, done),
        Err(why) => Err(refusal(c, why)),
    }
}
