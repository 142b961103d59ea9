ghost use Rattle.std.specs.Prelude.{◌≡◌, ◌+◌, ◌<◌, ◌≤◌, cond, map, filter, length, true, false, not, slice_get, slice_set, option_map, OnOk, IfOk, IfSome, None, Some};
ghost use Rattle.std.specs.VecDeque.{deque_len, deque_capacity};
ghost use Rattle.std.specs.List.{AllWithin, position_or_len, remove, list_any};
ghost use Rattle.def_state.specs.Names.{same_identity};
ghost use Rattle.ic_base.specs.declared.limits.TheConstants.{GREATEST_NUMBER};
ghost use Rattle.def_state.specs.Inbox.{empty_inbox, is_taken, took, level, level_of, cover, is_loud, next_ack, after_next_ack};
ghost use Rattle.ic_base.specs.declared.messages.Level.TheVariants.{Stable, Installed};
ghost use Rattle.ic_in.specs.Senders.{AreParts, only_taken, taken_in, are_components, sender_of, with_number, with_bound, number_above};
ghost use Rattle.ic_index.specs.Alone.{StandsAlone};
ghost use Rattle.ic_in.specs.Views.{receipt_of, seen_ack, is_waiting, IsTold, covered_row};

use crate::taken::Taken;
use ic_base::{ComId, Level, Senders};
use ic_index::Arrivals;
use std::alloc::{AllocError, Global};
use std::collections::VecDeque;
use std::marker::Model;

/// What the sender of a message is told of it.
#[derive(Clone, Copy, Debug, PartialEq, Eq)]
pub struct Ack {
    /// The sender.
    pub to: ComId,
    pub k: u64,
    /// Stable or Installed.
    pub level: Level,
}

/// An open receipt: the record of it ends at position `at` of the log.
#[derive(Clone, Copy, Debug)]
pub struct Row {
    from: ComId,
    k: u64,
    at: u64,
    covered: bool,
    /// The level that was last told.
    told: Level,
}

/// The messages that a Pcom has taken, and its open receipts in order of receipt. A receipt is open until Installed is
/// told of it.
#[derive(Drop)]
pub struct Inbox {
    taken: Taken,
    rows: VecDeque<Row>,
    /// The identities of the rows, in their order.
    names: Arrivals,
    /// The rows before this one have nothing more to tell, whatever is forced.
    first: usize,
    /// A row that has isn't forced below this position of the log.
    quiet: u64,
}

impl Model for Inbox {
    ghost use Rattle.std.specs.Prelude.{map, min, ◌-◌};
    ghost use Rattle.std.specs.VecDeque.{deque_capacity, deque_len};
    ghost use Rattle.def_state.specs.Inbox as state;
    ghost use Rattle.ic_index.specs.Room.{WithRoom};

    ghost Value = { WithRoom state.Inbox };

    ghost use Rattle.ic_in.specs.Views.{receipt_of, IsKept};

    ghost view = { λ s. record {
      seen = record { taken = s.taken.seen; receipts = map receipt_of s.rows.items };
      spare = min (deque_capacity s.rows - deque_len s.rows) (min s.names.spare s.taken.spare);
    } };

    ghost invariant = { λ s. IsKept s.taken.seen s.rows.items s.names.seen s.first s.quiet };
}

impl Inbox {
    /// Nothing is taken, and there is room for nothing.
    pub fn new(alloc: Global) -> Inbox
        ensures { result.seen ≡ empty_inbox }
    {
        Inbox {
            taken: Taken::new(alloc),
            rows: VecDeque::new(alloc),
            names: Arrivals::new(alloc),
            first: 0,
            quiet: 0,
        }
    }

    /// The inbox of an image: of each sender the messages up to a number are taken, and those above it, and no receipt is
    /// open.
    pub fn from_parts(alloc: Global, senders: &Senders) -> Result<Inbox, AllocError>
        requires { AreParts senders.now }
        ensures { IfOk result (λ inbox. inbox.seen ≡ only_taken (taken_in senders.now)) }
    {
        Ok(Inbox {
            taken: Taken::from_parts(alloc, senders.as_slice())?,
            rows: VecDeque::new(alloc),
            names: Arrivals::new(alloc),
            first: 0,
            quiet: 0,
        })
    }

    /// Makes room for n more receipts.
    pub fn reserve(&mut self, n: usize) -> Result<(), AllocError>
        ensures same { self.new.seen ≡ self.old.seen }
        ensures room { OnOk result (n ≤ self.new.spare) }
        ensures kept { self.old.spare ≤ self.new.spare }
    {
        self.taken.reserve(n)?;
        self.rows.reserve(n)?;
        self.names.reserve(n)
    }

    /// Whether the message isn't taken.
    pub fn is_new(&self, from: ComId, k: u64) -> bool
        ensures { result ≡ not (is_taken self.now.seen (record { peer = from; k = k })) }
    {
        !self.taken.contains(from, k)
    }

    /// Takes a new message: its receipt is open, last, with nothing told. A whole receipt counts as covered once it is
    /// forced.
    pub fn took(&mut self, from: ComId, k: u64, at: u64, whole: bool)
        requires room { 0 < self.old.spare }
        requires number { (1 ≤ k) × (k ≤ GREATEST_NUMBER) }
        requires new { is_taken self.old.seen (record { peer = from; k = k }) ≡ false }
        ensures taken { self.new.seen ≡ took self.old.seen (record { peer = from; k = k }) at whole }
        ensures room { self.old.spare ≤ self.new.spare + 1 }
    {
        self.taken.insert(from, k);
        self.rows.push_back_reserved(Row {
            from,
            k,
            at,
            covered: whole,
            told: Level::Nothing,
        });
        self.names.push(from, k);
        self.quiet = self.quiet.min(at);
    }

    /// The i-th row.
    fn row(&self, i: usize) -> Option<Row>
        ensures { option_map receipt_of result ≡ slice_get self.now.seen.receipts i }
    {
        self.rows.get(i).copied()
    }

    /// Where the open receipt of this message stands, with its row.
    fn find(&self, from: ComId, k: u64) -> Option<(usize, Row)>
        ensures found { IfSome result (λ p. StandsAlone (λ r. same_identity (record { peer = from; k = k }) r.name) self.now.seen.receipts p.0 (receipt_of p.1)) }
        ensures none { result ≡ None → list_any (λ r. same_identity (record { peer = from; k = k }) r.name) self.now.seen.receipts ≡ false }
    {
        let i = self.names.position(from, k)?;
        Some((i, self.rows[i]))
    }

    /// How many receipts are open.
    pub fn len(&self) -> usize
        ensures { result ≡ length self.now.seen.receipts }
    {
        self.rows.len()
    }

    /// No more open receipts than this have something to tell before more receipts are taken or covered, whatever is forced.
    pub fn left_to_tell(&self) -> usize
        ensures enough { length (filter is_waiting self.now.seen.receipts) ≤ result }
        ensures few { result ≤ length self.now.seen.receipts }
    {
        self.rows.len() - self.first
    }

    /// No more open receipts than this have something to tell once the log is forced up to `forced`.
    pub fn left_loud(&self, forced: u64) -> usize
        ensures enough { length (filter (is_loud forced) self.now.seen.receipts) ≤ result }
        ensures few { result ≤ length self.now.seen.receipts }
    {
        if forced < self.quiet {
            0
        } else {
            self.left_to_tell()
        }
    }

    /// What is known of a message once the log is forced up to `forced`: of an open receipt Installed where it is forced
    /// and covered, Stable where it is forced alone, else Taken; of another taken message Installed; of one that isn't
    /// taken Nothing.
    pub fn level(&self, from: ComId, k: u64, forced: u64) -> Level
        ensures { result ≡ level self.now.seen (record { peer = from; k = k }) forced }
    {
        match self.find(from, k) {
            Some((_, row)) => row.level(forced),
            None => {
                if self.taken.contains(from, k) {
                    Level::Installed
                } else {
                    Level::Nothing
                }
            }
        }
    }

    /// Every open receipt whose record ends at `at` or before is covered.
    pub fn cover(&mut self, at: u64)
        ensures covered { self.new.seen ≡ cover self.old.seen at }
        ensures room { self.old.spare ≤ self.new.spare }
    {
        cover_rows(&mut self.rows, at);
        self.first = 0;
        self.quiet = 0;
    }

    /// The place of the first open receipt that has something to tell once the log is forced up to `forced`, or the
    /// number of open receipts.
    fn loud(&self, forced: u64) -> usize
        ensures { result ≡ position_or_len (is_loud forced) self.now.seen.receipts }
    {
        for i in self.first..self.rows.len() {
            let row = self.rows[i];
            if row.at <= forced && row.is_waiting() {
                return i;
            }
        }
        self.rows.len()
    }

    /// Writes the i-th row again, when it has nothing more to tell.
    fn tell(&mut self, i: usize, row: Row)
        requires { IsTold (slice_get self.old.seen.receipts i) (receipt_of row) }
        ensures told { self.new.seen ≡ record self.old.seen { receipts = slice_set self.old.seen.receipts i (receipt_of row) } }
        ensures room { self.old.spare ≤ self.new.spare }
    {
        self.rows[i] = row;
    }

    /// Passes the first receipts that have nothing more to tell.
    fn pass(&mut self)
        ensures same { self.new.seen ≡ self.old.seen }
        ensures room { self.old.spare ≤ self.new.spare }
    {
        self.first = first_waiting(&self.rows, self.first);
    }

    /// The i-th receipt is open no longer.
    fn remove(&mut self, i: usize)
        requires { i < length self.old.seen.receipts }
        ensures gone { self.new.seen ≡ record self.old.seen { receipts = remove self.old.seen.receipts i } }
        ensures room { self.old.spare ≤ self.new.spare }
    {
        self.names.remove(i);
        let _ = self.rows.remove(i);
        if i < self.first {
            self.first -= 1;
        }
    }

    /// What the first open receipt has to tell that has something to tell once the log is forced up to `forced`: its
    /// level is at least Stable, and above the one that was last told. It is told now, and with Installed the receipt is
    /// no longer open. None exactly where there is none.
    pub fn next_ack(&mut self, forced: u64) -> Option<Ack>
        ensures ack { option_map seen_ack result ≡ next_ack self.old.seen forced }
        ensures told { self.new.seen ≡ after_next_ack self.old.seen forced }
        ensures room { self.old.spare ≤ self.new.spare }
    {
        if forced < self.quiet {
            return None;
        }
        let i = self.loud(forced);
        match self.row(i) {
            Some(row) => Some(self.ack(i, row)),
            None => {
                self.quiet = forced.saturating_add(1);
                None
            }
        }
    }

    /// Tells the level of the i-th receipt, which is forced and has something to tell.
    fn ack(&mut self, i: usize, row: Row) -> Ack
        requires there { slice_get self.old.seen.receipts i ≡ Some (receipt_of row) }
        ensures ack { seen_ack result ≡ record { name = (receipt_of row).name; level = cond row.covered Installed Stable } }
        ensures told { self.new.seen ≡ record self.old.seen { receipts = cond row.covered (remove self.old.seen.receipts i) (slice_set self.old.seen.receipts i (record (receipt_of row) { told = Stable })) } }
        ensures room { self.old.spare ≤ self.new.spare }
    {
        let level = if row.covered {
            self.remove(i);
            Level::Installed
        } else {
            self.tell(
                i,
                Row {
                    told: Level::Stable,
                    ..row
                },
            );
            Level::Stable
        };
        self.pass();
        Ack {
            to: row.from,
            k: row.k,
            level,
        }
    }

    /// The i-th sender by rising component, with the greatest number up to which all its messages are taken. None
    /// exactly past the end.
    pub fn sender(&self, i: usize) -> Option<(ComId, u64)>
        ensures { are_components self.now.seen.taken ≡ true → with_number result ≡ with_bound (sender_of self.now.seen.taken i) }
    {
        self.taken.sender(i)
    }

    /// The j-th taken number of the i-th sender above the one that `sender` gives. None exactly past the end.
    pub fn above(&self, i: usize, j: usize) -> Option<u64>
        ensures { are_components self.now.seen.taken ≡ true → result ≡ number_above (sender_of self.now.seen.taken i) j }
    {
        self.taken.above(i, j)
    }

    /// An equal value, with room for none more.
    pub fn copy(&self, alloc: Global) -> Result<Inbox, AllocError>
        ensures { IfOk result (λ copy. copy.seen ≡ self.now.seen) }
    {
        Ok(Inbox {
            taken: self.taken.copy(alloc)?,
            rows: self.rows.clone()?,
            names: self.names.copy(alloc)?,
            first: self.first,
            quiet: self.quiet,
        })
    }
}

impl Row {
    /// Whether there is more to tell once it is forced.
    fn is_waiting(self) -> bool
        ensures { result ≡ is_waiting (receipt_of self) }
    {
        match self.told {
            Level::Nothing | Level::Taken => true,
            Level::Stable => self.covered,
            Level::Installed => false,
        }
    }

    /// The row once every receipt up to `at` is covered.
    fn cover(self, at: u64) -> Row
        ensures { result ≡ covered_row at self }
    {
        if self.at <= at {
            Row {
                covered: true,
                ..self
            }
        } else {
            self
        }
    }

    /// The level of the receipt once the log is forced up to `forced`.
    fn level(self, forced: u64) -> Level
        ensures { result ≡ level_of forced (receipt_of self) }
    {
        if forced < self.at {
            Level::Taken
        } else if self.covered {
            Level::Installed
        } else {
            Level::Stable
        }
    }
}

/// The place of the first row that has more to tell once it is forced, where none stands before `first`, or the number
/// of rows.
fn first_waiting(rows: &VecDeque<Row>, first: usize) -> usize
    requires within { first ≤ length rows.now.items }
    requires told { AllWithin (λ r. is_waiting (receipt_of r) ≡ false) rows.now.items 0 first }
    ensures within { result ≤ length rows.now.items }
    ensures told { AllWithin (λ r. is_waiting (receipt_of r) ≡ false) rows.now.items 0 result }
{
    for i in first..rows.len() {
        if rows[i].is_waiting() {
            return i;
        }
    }
    rows.len()
}

/// The rows whose record ends at `at` or before are covered.
fn cover_rows(rows: &mut VecDeque<Row>, at: u64)
    ensures covered { rows.new.items ≡ map (covered_row at) rows.old.items }
    ensures len { deque_len rows.new ≡ deque_len rows.old }
    ensures capacity { deque_capacity rows.new ≡ deque_capacity rows.old }
{
    for i in 0..rows.len() {
        let row = rows[i];
        rows[i] = row.cover(at);
    }
}
