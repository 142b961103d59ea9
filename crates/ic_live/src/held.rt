use ic_disk::{Disk, TornDisk};
use ic_node::Component;

/// What lies in a berth: a component, as the definitions have it, and its disk. It is for contracts alone.
pub trait Held {
    ghost use Rattle.std.specs.Prelude.{ℕ, Bool, List, Option};
    ghost use Rattle.def_live.specs.Turns.{Choice};
    ghost use Rattle.def_step.specs.World.{Node};
    ghost use Rattle.ic_base.specs.declared.messages.ComId.{ComId};
    ghost use Rattle.ic_base.specs.declared.refusals.WorldRefused.{WorldRefused};
    ghost use Rattle.ic_base.specs.declared.scenario.Program.{Program};

    ghost node: { Self → Node };

    ghost which: { Self → ComId };

    /// The bytes that its disk reads.
    ghost file: { Self → List ℕ };

    /// Whether its disk tells its bytes.
    ghost tells: { Self → Type 0 };

    ghost is_over: { Self → Bool };

    ghost has_disk: { Self → Bool };

    /// How often its disk has failed.
    ghost faults: { Self → ℕ };

    /// Why an event of it isn't done, what it received and put out before given.
    ghost fails: { Program → List ℕ → Option Choice → Self → ℕ → ℕ → Self → WorldRefused → Type 0 };
}

impl<D: Disk> Held for Component<TornDisk<D>> {
    ghost use Rattle.std.specs.Prelude.{is_some};
    ghost use Rattle.ic_node.specs.Views.{node_of, com_of, file_of, disk_of, is_over, Tells};
    ghost use Rattle.ic_live.specs.Carrying.{FailsToCarryOut};
    ghost use Rattle.ic_live.specs.Faults.{faults_of};

    ghost node = { λ x. node_of x };

    ghost which = { λ x. com_of x };

    ghost file = { λ x. file_of x };

    ghost tells = { λ x. Tells x };

    ghost is_over = { λ x. is_over x };

    ghost has_disk = { λ x. is_some (disk_of x) };

    ghost faults = { λ x. faults_of x };

    ghost fails = { λ program print next old received packets new why. FailsToCarryOut D.Disk program print next old received packets new why };
}
