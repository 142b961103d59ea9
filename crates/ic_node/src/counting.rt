ghost use Rattle.std.specs.Prelude.{◌≡◌, ◌<◌, ◌^◌, length, slice_get, Some, is_some};
ghost use Rattle.ic_base.specs.declared.messages.ComId.{ComId};
ghost use Rattle.ic_base.specs.declared.record.Record.{Record as Stored};
ghost use Rattle.def_plain.specs.History.{pcom_entry, entry_of, log_entries};

use crate::Component;
use crate::node::Node;
use ic_base::Kind;
use ic_disk::Disk;
use ic_gate::EncodedRecords;

// The kinds of the records that give an entry of the merged history (`EncodedRecords::kind`).

const TAKE: u8 = 1;

const TAKE_WHOLE: u8 = 2;

const INPUT: u8 = 3;

const DECIDED: u8 = 10;

const ABORTED: u8 = 11;

/// Whether the record at this place in a Pcom's log gives an entry of the merged history.
fn is_pcom_entry_at(records: &EncodedRecords, i: usize) -> bool
    requires { i < length records.now }
    ensures { (r : Stored) → slice_get records.now i ≡ Some r → (c : ComId) → result ≡ is_some (pcom_entry c r) }
{
    match records.kind(i) {
        TAKE | TAKE_WHOLE | INPUT | ABORTED => true,
        _ => false,
    }
}

/// Whether the record at this place in a log gives an entry of the merged history.
fn is_entry_at(kind: Kind, records: &EncodedRecords, i: usize) -> bool
    requires { i < length records.now }
    ensures { (r : Stored) → slice_get records.now i ≡ Some r → (c : ComId) → result ≡ is_some (entry_of kind c r) }
{
    match kind {
        Kind::Pcom => is_pcom_entry_at(records, i),
        Kind::Tcom => records.kind(i) == DECIDED,
        Kind::Xcom => false,
    }
}

/// How many entries of the merged history some records of a log give.
fn entries_in(kind: Kind, records: &EncodedRecords) -> usize
    ensures count { (c : ComId) → result ≡ length (log_entries kind c records.now) }
    ensures few { result < 2 ^ 63 }
{
    let mut n = 0;
    for i in 0..records.len() {
        let gives = is_entry_at(kind, records, i);
        if gives {
            n += 1;
        }
    }
    n
}

impl<D: Disk> Component<D> {
    ghost use Rattle.std.specs.Prelude.{◌≡◌, length};
    ghost use Rattle.ic_base.specs.declared.messages.ComId.{ComId};
    ghost use Rattle.def_plain.specs.History.{log_entries};
    ghost use Rattle.def_run.specs.Reports.{log_of_node};
    ghost use Rattle.ic_node.specs.Views.{node_of};

    /// How many entries of the merged history its records give, of a component of this kind (docs/RULES.md, "The merged history").
    /// No record is decoded.
    pub fn count_entries(&self, kind: Kind) -> usize
        ensures { (c : ComId) → result ≡ length (log_entries kind c (log_of_node (node_of self.now))) }
    {
        match &self.node {
            Node::Per(pcom) => {
                let before = entries_in(kind, &self.kept);
                before + entries_in(kind, pcom.records())
            }
            Node::Tra(tcom) => entries_in(kind, tcom.records()),
            Node::Off(_) => entries_in(kind, &self.kept),
            Node::Ext => 0,
        }
    }
}
