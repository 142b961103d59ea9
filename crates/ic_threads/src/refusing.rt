ghost use Rattle.std.specs.Prelude.{◌≡◌, ◌⊎◌, ◌++◌, None, option_map, IfOk, OnOk};
ghost use Rattle.ic_node.specs.Views.{disk_of};
ghost use Rattle.ic_report.specs.declared.ending.Why.TheVariants.{Memory};
ghost use Rattle.ic_run.specs.Whys.{why_of_world};
ghost use Rattle.ic_threads.specs.Runs.{ComeBack, IsUnthreaded};
ghost use Rattle.ic_world.specs.Opening.{disks_in, disks_under, inner_of};

use ic_base::Items;
use ic_disk::{Disk, TornDisk};
use ic_joins::ThreadsRefused;
use ic_live::LiveRefused;
use ic_node::Component;
use ic_plan::RunTexts;
use ic_report::Why;
use ic_run::{Cut, why_of_cut, why_of_start};
use std::alloc::{AllocError, Global};

/// The disk below a component goes behind these, if it has one.
fn add_disk<D: Disk + Drop>(disks: &mut Vec<D>, x: Component<TornDisk<D>>) -> Result<(), AllocError>
    ensures { OnOk result (disks.new.items ≡ disks.old.items ++ inner_of (disk_of x)) }
{
    let Some(disk) = x.into_disk() else {
        return Ok(());
    };
    disks.push(disk.into_inner())?;
    Ok(())
}

/// The disks below these components, in order.
fn disks_of<D: Disk + Drop>(
    alloc: Global,
    components: Items<Component<TornDisk<D>>>,
) -> Result<Vec<D>, AllocError>
    ensures { IfOk result (λ disks. disks.items ≡ disks_under components) }
{
    let mut disks = Vec::new(alloc);
    let mut rest = components.into_vec().into_iter();
    while let Some(x) = rest.next() {
        add_disk(&mut disks, x)?;
    }
    Ok(disks)
}

/// Why a component was refused, with so many disks, those of all components, unless memory was wanting.
fn refused_component<D: Disk + Drop>(
    alloc: Global,
    texts: &RunTexts,
    count: usize,
    refused: LiveRefused<TornDisk<D>>,
) -> (Option<Vec<D>>, Why)
    requires { count ≡ disks_in texts.now.program.components }
    ensures { (ComeBack texts.now.program refused.components (option_map (λ v. v.items) result.0) × (result.1 ≡ why_of_world texts.now.fingerprint refused.why)) ⊎ ((option_map (λ v. v.items) result.0 ≡ None) × (result.1 ≡ Memory)) }
{
    let why = why_of_cut(&texts.fingerprint, Cut::Refused(refused.why));
    let Ok(disks) = disks_of(alloc, refused.components) else {
        return (None, Why::Memory);
    };
    if disks.len() != count {
        return (None, Why::Memory);
    }
    (Some(disks), why)
}

/// Why the threads over so many disks came to nothing, with the disks, unless memory was wanting.
pub(crate) fn refused_in<D: Disk + Drop>(
    alloc: Global,
    texts: &RunTexts,
    count: usize,
    refused: ThreadsRefused<D, TornDisk<D>>,
) -> (Option<Vec<D>>, Why)
    requires { count ≡ disks_in texts.now.program.components }
    ensures { IsUnthreaded texts.now refused (option_map (λ v. v.items) result.0) result.1 }
{
    match refused {
        ThreadsRefused::Start(refused) => (
            Some(refused.disks),
            why_of_start(&texts.fingerprint, refused.why),
        ),
        ThreadsRefused::Run(refused) => refused_component(alloc, texts, count, refused),
        ThreadsRefused::Memory => (None, Why::Memory),
    }
}
