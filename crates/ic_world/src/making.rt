ghost use Rattle.std.specs.Prelude.{◌≡◌, ◌≤◌, ◌<◌, ◌+◌, ◌++◌, ◌∷◌, not, false, [], length, reverse, option_to_list, is_some, OnOk, IfOk, IfErr};
ghost use Rattle.std.specs.Vec.{vec_len, vec_capacity};
ghost use Rattle.ic_base.specs.declared.limits.TheConstants.{COMPONENTS};
ghost use Rattle.def_run.specs.SystemStates.{has_disk};
ghost use Rattle.ic_world.specs.Opening.{is_outside, disks_in, disks_under, start_why, AreBegun, LeavesBegun};
ghost use Rattle.ic_world.specs.Making.{MayBeginAt, MayBeginOver, IsMadeOver, FailsOver, FailsAt, AreMade, FailsToMake};

use crate::opening::StartRefused;
use ic_base::{ComId, Kind, Program, StartWhy};
use ic_disk::{Disk, TornDisk};
use ic_gate::{LoadRefused, LoadWhy};
use ic_node::Component;
use std::alloc::Global;

/// How the components of a world begin.
#[derive(Clone, Copy, Debug)]
pub enum Beginning {
    /// Up, over logs that are made on blank disks.
    Fresh,
    /// Down, over the logs that stand on the disks.
    Found,
}

/// Appends an element for which there is room.
fn push_reserved<T: Drop>(list: &mut Vec<T>, x: T)
    requires { vec_len list.old < vec_capacity list.old }
    ensures items { list.new.items ≡ list.old.items ++ x ∷ [] }
    ensures len { vec_len list.new ≡ vec_len list.old + 1 }
    ensures capacity { vec_capacity list.old ≤ vec_capacity list.new }
{
    if list.push(x).is_err() {
        unreachable!()
    }
}

/// Why a component's log isn't loaded, as the refusal of a world.
fn start_why(c: ComId, why: LoadWhy) -> StartWhy
    ensures { result ≡ start_why «c» why }
{
    match why {
        LoadWhy::Bad(place) => StartWhy::Bad(c, place),
        LoadWhy::Foreign(kept) => StartWhy::Foreign(c, kept),
        LoadWhy::Failed => StartWhy::Failed(c),
        LoadWhy::Stopped => StartWhy::Failed(c),
        LoadWhy::Memory => StartWhy::Memory,
    }
}

/// The disk of the next component, the last of these. One outside has none.
fn next_disk<D: Disk + Drop>(kind: Kind, disks: &mut Vec<D>) -> Option<D>
    requires { is_outside kind ≡ false → 0 < vec_len disks.old }
    ensures rest { reverse disks.old.items ≡ option_to_list result ++ reverse disks.new.items }
    ensures has { is_some result ≡ not (is_outside kind) }
{
    match kind {
        Kind::Xcom => None,
        _ => disks.pop(),
    }
}

/// The component that begins so over a disk, or that is outside.
fn made_over<D: Disk + Drop>(
    alloc: Global,
    program: &Program,
    com: ComId,
    fingerprint: &[u8; 32],
    way: Beginning,
    place: Option<D>,
) -> Result<Component<TornDisk<D>>, LoadRefused<TornDisk<D>>>
    requires there { com.0 < length program.now.components }
    requires has { is_some place ≡ has_disk program.now «com» }
    requires may { MayBeginAt D.Disk way place }
    ensures step { IfOk result (IsMadeOver D.Disk way program.now «com» fingerprint.now place) }
    ensures refused { IfErr result (FailsOver D.Disk way «com» fingerprint.now place) }
{
    match place {
        None => Ok(Component::outside(alloc, com)),
        Some(disk) => {
            let disk = TornDisk::new(alloc, disk);
            match way {
                Beginning::Fresh => Component::start(alloc, program, com, fingerprint, disk),
                Beginning::Found => Component::found(alloc, com, fingerprint, disk),
            }
        }
    }
}

/// The disks of these components go behind these, in order.
pub(crate) fn take_back<D: Disk + Drop>(back: &mut Vec<D>, made: Vec<Component<TornDisk<D>>>)
    requires { vec_len back.old + length (disks_under made.items) ≤ vec_capacity back.old }
    ensures disks { back.new.items ≡ back.old.items ++ disks_under made.items }
    ensures room { vec_capacity back.old ≤ vec_capacity back.new }
{
    let mut made = made;
    made.reverse();
    while let Some(x) = made.pop() {
        if let Some(disk) = x.into_disk() {
            push_reserved(back, disk.into_inner());
        }
    }
}

/// The disks that are left go behind these, the last one first.
fn put_back<D: Disk + Drop>(back: &mut Vec<D>, rest: Vec<D>)
    requires { vec_len back.old + vec_len rest ≤ vec_capacity back.old }
    ensures { back.new.items ≡ back.old.items ++ reverse rest.items }
{
    let mut rest = rest;
    while let Some(disk) = rest.pop() {
        push_reserved(back, disk);
    }
}

/// The components are made in order, each over the last disk that is left. The first that isn't made is told.
fn make_each<D: Disk + Drop>(
    alloc: Global,
    program: &Program,
    fingerprint: &[u8; 32],
    way: Beginning,
    made: &mut Vec<Component<TornDisk<D>>>,
    rest: &mut Vec<D>,
) -> Result<(), (ComId, LoadRefused<TornDisk<D>>)>
    requires few { length program.now.components ≤ COMPONENTS }
    requires none { made.old.items ≡ [] }
    requires room { length program.now.components ≤ vec_capacity made.old }
    requires disks { vec_len rest.old ≡ disks_in program.now.components }
    requires may { MayBeginOver D.Disk way (reverse rest.old.items) }
    ensures step { OnOk result (AreMade D.Disk way program.now fingerprint.now (reverse rest.old.items) made.new.items) }
    ensures refused { IfErr result (λ r. FailsAt D.Disk way program.now fingerprint.now (reverse rest.old.items) r.0 r.1 made.new.items (reverse rest.new.items)) }
    ensures begun { IfErr result (λ r. way ≡ Beginning.Fresh → AreBegun D.Disk program.now fingerprint.now (reverse rest.old.items) (disks_under made.new.items ++ r.1.disk.inner ∷ reverse rest.new.items)) }
{
    let components = program.components.as_slice();
    for i in 0..components.len() {
        let com = ComId(i as u8);
        let place = next_disk(components[i].kind, rest);
        match made_over(alloc, program, com, fingerprint, way, place) {
            Ok(x) => push_reserved(made, x),
            Err(refused) => return Err((com, refused)),
        }
    }
    Ok(())
}

/// All components, which begin so over the disks.
pub(crate) fn make_all<D: Disk + Drop>(
    alloc: Global,
    program: &Program,
    fingerprint: &[u8; 32],
    way: Beginning,
    disks: Vec<D>,
) -> Result<Vec<Component<TornDisk<D>>>, StartRefused<D>>
    requires few { length program.now.components ≤ COMPONENTS }
    requires disks { length disks.items ≡ disks_in program.now.components }
    requires may { MayBeginOver D.Disk way disks.items }
    ensures step { IfOk result (λ made. AreMade D.Disk way program.now fingerprint.now disks.items made.items) }
    ensures refused { IfErr result (FailsToMake D.Disk way program.now fingerprint.now disks.items) }
    ensures begun { IfErr result (λ refused. way ≡ Beginning.Fresh → LeavesBegun D.Disk program.now fingerprint.now disks.items refused) }
{
    let (count, why) = (program.components.as_slice().len(), StartWhy::Memory);
    let Ok(mut back) = Vec::with_capacity(alloc, disks.len()) else {
        return Err(StartRefused { disks, why });
    };
    let Ok(mut made) = Vec::with_capacity(alloc, count) else {
        return Err(StartRefused { disks, why });
    };
    let mut rest = disks;
    rest.reverse();
    match make_each(alloc, program, fingerprint, way, &mut made, &mut rest) {
        Ok(()) => Ok(made),
        Err((com, refused)) => {
            take_back(&mut back, made);
            push_reserved(&mut back, refused.disk.into_inner());
            put_back(&mut back, rest);
            Err(StartRefused {
                disks: back,
                why: start_why(com, refused.why),
            })
        }
    }
}
