ghost use Rattle.std.specs.Prelude.{◌≡◌, ◌++◌, ◌∷◌, [], ◌≤◌, length, map, IfOk, IfErr, Ok};
ghost use Rattle.ic_base.specs.declared.limits.TheConstants.{COMPONENTS};
ghost use Rattle.def_run.specs.Audits.{audit_of};
ghost use Rattle.ic_disk.specs.Causes.{Rose};
ghost use Rattle.ic_audit.specs.Disks.{Refuses, AllTell, AreLookedAt};
ghost use Rattle.ic_audit.specs.Logs.{audit_in};
ghost use Rattle.ic_audit.specs.Steps.{IsFirstToFail};
ghost use Rattle.ic_audit.specs.Audits.{Audits};
ghost use Rattle.ic_audit.specs.Judged.{RefusesHistory};

use crate::all_logs::read_logs;
use crate::scene::{Scene, read_scene};
use ic_base::{Bytes, Fault, Program, Records, Word};
use ic_disk::{Disk, Sink, Texts};
use ic_model::{PlainRefused, history, plain_run};
use ic_report::{Why, audit_bytes, end_done, end_with};
use std::alloc::Global;

/// The lines of an audit of logs.
fn judged(alloc: Global, program: &Program, logs: &Vec<Records>) -> Result<Bytes, Why>
    requires { length program.now.components ≤ COMPONENTS }
    ensures lines { IfOk result (λ lines. audit_of program.now logs.now.items ≡ Ok lines) }
    ensures refused { IfErr result (RefusesHistory (audit_of program.now logs.now.items)) }
{
    let entries = history(alloc, program, logs)?;
    let world = match plain_run(alloc, program, &entries) {
        Ok(world) => world,
        Err(PlainRefused::Illegal(at)) => return Err(Why::Fault(Fault::Illegal(at as u64))),
        Err(PlainRefused::Memory) => return Err(Why::Memory),
    };
    Ok(audit_bytes(alloc, program, &world, entries.len() as u64)?)
}

/// The lines of an audit of disks.
fn audited<D: Disk>(alloc: Global, scene: &Scene, disks: &mut Vec<D>) -> Result<Bytes, Why>
    requires few { length scene.now.program.components ≤ COMPONENTS }
    requires enough { length scene.now.program.components ≤ length disks.old.items }
    ensures lines { AllTell D.Disk disks.old.items → IfOk result (λ lines. audit_in scene.now.program scene.now.fingerprint (map D.seen disks.old.items) ≡ Ok lines) }
    ensures refused { IfErr result (Refuses (AllTell D.Disk disks.old.items) (IsFirstToFail D.Disk scene.now.fingerprint scene.now.program.components disks.old.items disks.new.items) (audit_in scene.now.program scene.now.fingerprint (map D.seen disks.old.items))) }
    ensures disks { AreLookedAt D.Disk disks.old.items disks.new.items }
{
    let logs = read_logs(alloc, &scene.program, &scene.fingerprint, disks)?;
    judged(alloc, &scene.program, &logs)
}

/// Audits the logs of the scenario that a name holds, each on the disk of its component, and prints the values of the
/// crash-free world, or why there are none. No byte of a disk is changed (docs/RULES.md, "Statuses").
pub fn audit<T: Texts, K: Sink, D: Disk>(
    alloc: Global,
    name: &Word,
    texts: &mut T,
    out: &mut K,
    disks: &mut Vec<D>,
) -> u8
    requires { COMPONENTS ≤ length disks.old.items }
    ensures audit { Audits D.Disk K.Sink (T.tells texts.old) (Rose (T.faults texts.old) (T.faults texts.new)) (T.held texts.old) name.now disks.old.items disks.new.items out.old out.new result }
    ensures asked { T.asked texts.new ≡ T.asked texts.old ++ name.now ∷ [] }
    ensures disks { AreLookedAt D.Disk disks.old.items disks.new.items }
{
    let scene = match read_scene(alloc, texts, name) {
        Ok(scene) => scene,
        Err(why) => return end_with(alloc, None, out, &why),
    };
    match audited(alloc, &scene, disks) {
        Ok(lines) => end_done(out, lines.as_slice()),
        Err(why) => end_with(alloc, Some(&scene.program), out, &why),
    }
}
