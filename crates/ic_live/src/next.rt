ghost use Rattle.std.specs.Prelude.{◌≡◌, ◌+◌, OnOk, IfOk, option_map};
ghost use Rattle.ic_base.specs.declared.scenario.Program.{Program};
ghost use Rattle.ic_node.specs.Views.{node_of, com_of};
ghost use Rattle.ic_turn.specs.Choices.{choice_of, next_of};
ghost use Rattle.ic_turn.specs.Doing.{standing_of};
ghost use Rattle.ic_turn.specs.Progresses.{left_of, turns_of, received_of, packets_of, played_of};
ghost use Rattle.ic_turn.specs.Standings.{counted};

use ic_base::{Packet, What};
use ic_disk::Disk;
use ic_node::Component;
use ic_turn::{Choice, Progress, choose};
use std::alloc::{AllocError, Global};

/// The event of the next turn, which is counted.
pub(crate) fn choose_next<D: Disk>(
    alloc: Global,
    x: &Component<D>,
    progress: &mut Progress,
    asked: Option<What>,
    came: Option<Packet>,
) -> Result<Option<Choice>, AllocError>
    ensures next { IfOk result (λ next. (program : Program) → option_map choice_of next ≡ next_of program (com_of x.now) (node_of x.now) (turns_of progress.old + 1) (left_of progress.old) asked came) }
    ensures counted { OnOk result (standing_of x.now progress.new ≡ counted (standing_of x.now progress.old)) }
    ensures received { received_of progress.new ≡ received_of progress.old }
    ensures packets { packets_of progress.new ≡ packets_of progress.old }
    ensures played { played_of progress.new ≡ played_of progress.old }
{
    progress.count_turn()?;
    choose(alloc, x, progress, asked, came)
}
