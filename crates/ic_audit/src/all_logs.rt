ghost use Rattle.std.specs.Prelude.{◌≡◌, ◌≤◌, ◌<◌, length, map, IfOk, IfErr, Ok};
ghost use Rattle.ic_base.specs.declared.limits.TheConstants.{COMPONENTS};
ghost use Rattle.ic_audit.specs.Disks.{Refuses, AllTell, AreLookedAt};
ghost use Rattle.ic_audit.specs.Logs.{has_log, logs_in};
ghost use Rattle.ic_audit.specs.Steps.{ReadsLogAt, IsFirstToFail};

use crate::one_log::read_log;
use ic_base::{ComId, Items, Kind, Program, Records};
use ic_disk::Disk;
use ic_report::Why;
use std::alloc::Global;

fn has_log(kind: Kind) -> bool
    ensures { result ≡ has_log kind }
{
    match kind {
        Kind::Pcom | Kind::Tcom => true,
        Kind::Xcom => false,
    }
}

/// The log of a component, whose disk stands in its place again. An Xcom has none, and its disk isn't touched.
fn read_log_at<D: Disk>(
    alloc: Global,
    kind: Kind,
    given: &[u8; 32],
    disks: &mut Vec<D>,
    com: ComId,
) -> Result<Records, Why>
    requires { com.0 < length disks.old.items }
    ensures { ReadsLogAt D.Disk kind given.now «com» disks.old.items disks.new.items result }
{
    if !has_log(kind) {
        return Ok(Items::new(alloc));
    }
    let at = usize::from(com.0);
    let disk = disks.remove(at);
    let (disk, log) = read_log(alloc, disk, given, com);
    match disks.insert(at, disk) {
        Ok(()) => log,
        Err(_) => unreachable!(),
    }
}

/// The logs of all components, in order, up to the first that is refused.
pub(crate) fn read_logs<D: Disk>(
    alloc: Global,
    program: &Program,
    given: &[u8; 32],
    disks: &mut Vec<D>,
) -> Result<Vec<Records>, Why>
    requires few { length program.now.components ≤ COMPONENTS }
    requires enough { length program.now.components ≤ length disks.old.items }
    ensures logs { AllTell D.Disk disks.old.items → IfOk result (λ logs. logs_in given.now 0 program.now.components (map D.seen disks.old.items) ≡ Ok logs.items) }
    ensures refused { IfErr result (Refuses (AllTell D.Disk disks.old.items) (IsFirstToFail D.Disk given.now program.now.components disks.old.items disks.new.items) (logs_in given.now 0 program.now.components (map D.seen disks.old.items))) }
    ensures disks { AreLookedAt D.Disk disks.old.items disks.new.items }
{
    let components = program.components.as_slice();
    let mut logs = Vec::new(alloc);
    for i in 0..components.len() {
        let com = ComId(i as u8);
        let log = read_log_at(alloc, components[i].kind, given, disks, com)?;
        logs.push(log)?;
    }
    Ok(logs)
}
