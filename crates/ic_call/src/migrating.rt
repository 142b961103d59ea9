ghost use Rattle.std.specs.Prelude.{◌≡◌, ◌≤◌, length, IfOk, IfErr};
ghost use Rattle.ic_base.specs.declared.limits.TheConstants.{COMPONENTS};
ghost use Rattle.def_syntax.specs.Commands.{migrated_in};
ghost use Rattle.ic_call.specs.Migrating.{AnswersMigration, FailsToMigrate, MigratesAll};

use ic_audit::{Scene, read_scene};
use ic_base::{Bytes, Fault, Word};
use ic_disk::{Disk, Sink, Texts};
use ic_migrate::{components_with_logs, migrate_logs};
use ic_plan::migrated_name;
use ic_report::{PRINT_FAILED, Why, end_with, migrated_bytes, print};
use ic_run::{put_back, take_disks, why_of_start};
use std::alloc::Global;

/// Migrates the logs of a scenario, each from the old disk of its component to the new one. The lines to tell.
fn migrate_all<D: Disk + Drop>(
    alloc: Global,
    scene: &Scene,
    old: &mut Vec<D>,
    new: &mut Vec<D>,
) -> Result<Bytes, Why>
    requires few { length scene.now.program.components ≤ COMPONENTS }
    requires old { length scene.now.program.components ≤ length old.old.items }
    requires new { length scene.now.program.components ≤ length new.old.items }
    ensures migrated { IfOk result (λ lines. MigratesAll D.Disk scene.now.program scene.now.fingerprint old.old.items old.new.items new.old.items new.new.items lines) }
    ensures refused { IfErr result (FailsToMigrate D.Disk scene.now.program scene.now.fingerprint old.old.items old.new.items new.old.items new.new.items) }
{
    let program = &scene.program;
    let coms = components_with_logs(alloc, program)?;
    let mut from = take_disks(alloc, program, old)?;
    let Ok(mut to) = take_disks(alloc, program, new) else {
        put_back(program, old, from);
        return Err(Why::Memory);
    };
    let migrated = migrate_logs(
        alloc,
        coms.as_slice(),
        &scene.fingerprint,
        from.as_mut_slice(),
        to.as_mut_slice(),
    );
    put_back(program, old, from);
    put_back(program, new, to);
    match migrated {
        Ok(logs) => Ok(migrated_bytes(alloc, program, coms.as_slice(), logs.as_slice())?),
        Err(why) => Err(why_of_start(&scene.fingerprint, why)),
    }
}

/// Migrates the logs of the scenario that the words name, `migrate SCENARIO`, from the old disks with logs of the former format
/// to the new ones, which are to be blank; a line is printed for each log (docs/RULES.md, "Migration"). The old disks keep their
/// bytes. A crash at any moment leaves each new log whole, or refused as bad.
pub fn migrate<T: Texts, K: Sink, D: Disk + Drop>(
    alloc: Global,
    words: &Vec<Word>,
    texts: &mut T,
    out: &mut K,
    old: &mut Vec<D>,
    new: &mut Vec<D>,
) -> u8
    requires old { length old.old.items ≡ COMPONENTS }
    requires new { length new.old.items ≡ COMPONENTS }
    ensures answers { AnswersMigration D.Disk K.Sink old.old.items old.new.items new.old.items new.new.items out.old out.new result T.Texts texts.old texts.new (migrated_in words.now.items) }
{
    let Some(name) = migrated_name(words.as_slice()) else {
        return end_with(alloc, None, out, &Why::Fault(Fault::Usage));
    };
    let scene = match read_scene(alloc, texts, name) {
        Ok(scene) => scene,
        Err(why) => return end_with(alloc, None, out, &why),
    };
    let lines = match migrate_all(alloc, &scene, old, new) {
        Ok(lines) => lines,
        Err(why) => return end_with(alloc, Some(&scene.program), out, &why),
    };
    match print(out, lines.as_slice()) {
        Ok(()) => 0,
        Err(_) => PRINT_FAILED,
    }
}
