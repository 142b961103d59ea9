ghost use Rattle.std.specs.Prelude.{◌≡◌, ◌==◌, [], List, length};
ghost use Rattle.ic_base.specs.declared.record.Record.{Record};
ghost use Rattle.def_step.specs.Pcom.{all_of};
ghost use Rattle.def_step.specs.Replay.{behind_checkpoint};
ghost use Rattle.ic_node.specs.ComingUp.{kept_before, through_last};
ghost use Rattle.ic_pcom.specs.Views.{component_of};

use ic_disk::Disk;
use ic_gate::EncodedRecords;
use ic_pcom::Pcom;
use std::alloc::Global;

/// The records through the last checkpoint, and how many are behind it. Those behind it are given up.
pub(crate) fn through_last(alloc: Global, kept: EncodedRecords) -> (EncodedRecords, usize)
    ensures through { result.0 ≡ through_last kept }
    ensures behind { result.1 ≡ length (behind_checkpoint kept) }
{
    let behind = kept.count_behind();
    let n = kept.len().saturating_sub(behind);
    if n == 0 {
        return (EncodedRecords::new(alloc), behind);
    }
    (kept.first(n), behind)
}

/// Whether a Pcom that came up has as many records behind its last checkpoint as these.
pub(crate) fn reads_same<D: Disk>(pcom: &Pcom<D>, behind: usize) -> bool
    ensures { result ≡ (length (behind_checkpoint (all_of (component_of pcom.now).log)) == behind) }
{
    pcom.since_checkpoint() == behind
}

/// The records that stand before those of a Pcom that came up, of all that its disk held, of which those through the last checkpoint
/// are given. As many were behind it as are behind the last one of the Pcom's.
pub(crate) fn before_own<D: Disk>(
    alloc: Global,
    through: EncodedRecords,
    pcom: &Pcom<D>,
) -> EncodedRecords
    requires forced { (component_of pcom.now).log.buffered ≡ [] }
    ensures { (kept : List Record) → through ≡ through_last kept → length (behind_checkpoint (component_of pcom.now).log.forced) ≡ length (behind_checkpoint kept) →
        result ≡ kept_before kept (component_of pcom.now).log.forced }
{
    let own = pcom.forced();
    let since = pcom.since_checkpoint();
    if own == since {
        return EncodedRecords::new(alloc);
    }
    let n = through.len().saturating_sub(own - since);
    through.first(n)
}
