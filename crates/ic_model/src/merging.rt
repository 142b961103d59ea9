ghost use Rattle.std.specs.Prelude.{◌≡◌, ◌≤◌, ◌++◌, length, option_to_list, option_map, IfOk, OnOk};
ghost use Rattle.std.specs.Ordering.{is_lt};
ghost use Rattle.ic_base.specs.declared.limits.TheConstants.{COMPONENTS};
ghost use Rattle.ic_base.specs.declared.messages.ComId.{ComId};
ghost use Rattle.def_plain.specs.History as plain;

use ic_base::{Act, ComId, Entries, Entry, Items, Kind, Program, Record, Records};
use std::alloc::{AllocError, Global};
use std::cmp::Ordering;

/// What a record of a Pcom's log did, with its stamp.
fn pcom_act(record: &Record) -> Option<(u64, Act)>
    ensures { (c : ComId) → option_map (λ x. plain.entry c x.0 x.1) result ≡ plain.pcom_entry c «record».now }
{
    match record {
        Record::Take { from, k, stamp } => Some((*stamp, Act::Take(*from, *k))),
        Record::TakeWhole { from, k, stamp, .. } => Some((*stamp, Act::Take(*from, *k))),
        Record::Input {
            stamp,
            handler,
            args,
        } => Some((*stamp, Act::Input(*handler, *args))),
        Record::Outcome { stamp, n, abort } => match abort {
            Some(_) => Some((*stamp, Act::Abort(*n))),
            None => None,
        },
        _ => None,
    }
}

/// What a record of a Tcom's log did, with its stamp.
fn tcom_act(record: &Record) -> Option<(u64, Act)>
    ensures { (t : ComId) → option_map (λ x. plain.entry t x.0 x.1) result ≡ plain.tcom_entry t «record».now }
{
    match record {
        Record::Decided { stamp, c, n, .. } => Some((*stamp, Act::Commit(*c, *n))),
        _ => None,
    }
}

/// What a record of a log did, with its stamp.
fn act_of(kind: Kind, record: &Record) -> Option<(u64, Act)>
    ensures { (c : ComId) → option_map (λ x. plain.entry c x.0 x.1) result ≡ plain.entry_of kind c «record».now }
{
    match kind {
        Kind::Pcom => pcom_act(record),
        Kind::Tcom => tcom_act(record),
        Kind::Xcom => None,
    }
}

/// The entry of a record, if it makes one, goes behind these.
fn add_entry(
    kind: Kind,
    com: ComId,
    record: &Record,
    entries: &mut Entries,
) -> Result<(), AllocError>
    ensures { OnOk result (entries.new ≡ entries.old ++ option_to_list (plain.entry_of kind «com» «record».now)) }
{
    if let Some((stamp, act)) = act_of(kind, record) {
        entries.push(Entry { com, stamp, act })?;
    }
    Ok(())
}

/// The entries of one log go behind these.
fn add_entries(
    kind: Kind,
    com: ComId,
    log: &Records,
    entries: &mut Entries,
) -> Result<(), AllocError>
    ensures { OnOk result (entries.new ≡ entries.old ++ plain.log_entries kind «com» log.now) }
{
    for record in log.as_slice() {
        add_entry(kind, com, record, entries)?;
    }
    Ok(())
}

/// The entries of logs, one log after another.
fn all_entries(alloc: Global, program: &Program, logs: &Vec<Records>) -> Result<Entries, AllocError>
    requires { length program.now.components ≤ COMPONENTS }
    ensures { IfOk result (λ entries. entries ≡ plain.entries_from 0 program.now.components logs.now.items) }
{
    let components = program.components.as_slice();
    let count = components.len().min(logs.len());
    let mut entries = Items::new(alloc);
    for i in 0..count {
        let com = ComId(i as u8);
        add_entries(components[i].kind, com, &logs[i], &mut entries)?;
    }
    Ok(entries)
}

/// How two entries stand in a history: by their stamps, then by their components.
fn compared(x: &Entry, y: &Entry) -> Ordering
    ensures { is_lt result ≡ plain.is_before x.now y.now }
{
    x.stamp.cmp(&y.stamp).then(x.com.0.cmp(&y.com.0))
}

/// The merged history of logs, one for each component: the taken messages, inputs and aborts of the Pcoms and the
/// commits of the Tcoms by their stamps (Lamport 1978), then by their components, and those that tie in the order of
/// their log.
pub fn history(alloc: Global, program: &Program, logs: &Vec<Records>) -> Result<Entries, AllocError>
    requires { length program.now.components ≤ COMPONENTS }
    ensures { IfOk result (λ entries. entries ≡ plain.history_of program.now logs.now.items) }
{
    let mut entries = all_entries(alloc, program, logs)?.into_vec();
    entries.sort_by(|x, y| compared(x, y))?;
    Ok(Items::from_vec(entries))
}
