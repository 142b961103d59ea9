ghost use Rattle.std.specs.Prelude.{◌≡◌, IfOk, IfErr, Ok};
ghost use Rattle.def_log.specs.Loads.{load_of};
ghost use Rattle.ic_audit.specs.Disks.{Refuses, HasFailed, IsLookedAt};
ghost use Rattle.ic_audit.specs.Logs.{behind_load};
ghost use Rattle.ic_audit.specs.Views.{why_of_load};

use ic_base::{ComId, Fault, Records};
use ic_disk::Disk;
use ic_gate::{LoadWhy, load_encoded};
use ic_report::Why;
use std::alloc::Global;

/// Why the log of a component isn't loaded; `given` is the fingerprint of its scenario.
fn why_of_load(com: ComId, why: LoadWhy, given: &[u8; 32]) -> Why
    ensures { result ≡ why_of_load «com» why given.now }
{
    match why {
        LoadWhy::Bad(place) => Why::Fault(Fault::Bad(com, place)),
        LoadWhy::Foreign(kept) => Why::Fault(Fault::Foreign(com, kept, *given)),
        LoadWhy::Failed | LoadWhy::Stopped => Why::Fault(Fault::Disk(com)),
        LoadWhy::Memory => Why::Memory,
    }
}

/// The records of a component's log, by grammar alone. The disk, on which nothing is changed, is handed back.
pub(crate) fn read_log<D: Disk>(
    alloc: Global,
    disk: D,
    given: &[u8; 32],
    com: ComId,
) -> (D, Result<Records, Why>)
    ensures records { D.tells disk → IfOk result.1 (λ rs. behind_load given.now «com» (D.seen disk) (load_of given.now «com».0 (D.seen disk)) ≡ Ok rs) }
    ensures refused { IfErr result.1 (Refuses (D.tells disk) (λ c. (c ≡ «com») × HasFailed D.Disk disk result.0) (behind_load given.now «com» (D.seen disk) (load_of given.now «com».0 (D.seen disk)))) }
    ensures disk { IsLookedAt D.Disk disk result.0 }
{
    match load_encoded(alloc, disk, given, com.0) {
        Ok((log, records)) => {
            let disk = log.into_disk();
            match records.records(alloc) {
                Ok(records) => (disk, Ok(records)),
                Err(_) => (disk, Err(Why::Memory)),
            }
        }
        Err(refused) => (refused.disk, Err(why_of_load(com, refused.why, given))),
    }
}
