ghost use Rattle.std.specs.Prelude.{◌≡◌, map, filter, ◌+◌, ◌<◌, ◌≤◌, ◌↔◌, length, true, false, slice_get, slice_set, option_map, OnOk, IfOk, IfSome, None};
ghost use Rattle.std.specs.List.{All, AllWithin, position_or_len, remove};
ghost use Rattle.std.specs.VecDeque.{deque_len, deque_capacity};
ghost use Rattle.def_state.specs.Vol.{with_put_mark};
ghost use Rattle.def_state.specs.Outbox.{empty_outbox, sent_to, add, is_held, is_held_as, is_due, next_due, after_next_due, unstable, may_become_stable, stable, installed, fetch, is_unstable};
ghost use Rattle.def_state.specs.Names.{number_of};
ghost use Rattle.def_state.specs.Image.{is_rising, numbers_to};
ghost use Rattle.ic_base.specs.declared.messages.ComId.{ComId};
ghost use Rattle.ic_index.specs.Alone.{StandsAlone};
ghost use Rattle.ic_out.specs.Views.{put_row, held_of, IsMarked, is_unput, outbox_of, row_in_image, numbers_among, message_name};

use ic_base::{ComId, Items, Links, Msg, Msgs};
use ic_index::{Arrivals, Counts};
use std::alloc::{AllocError, Global};
use std::collections::VecDeque;
use std::marker::Model;

/// A held message. It may leave once the log is forced up to `at`.
#[derive(Clone, Copy, Debug)]
pub struct Row {
    msg: Msg,
    at: u64,
    put: bool,
    stable: bool,
}

/// The messages that a Pcom holds, in order of sending, and the number sent on each link.
#[derive(Drop)]
pub struct Outbox {
    rows: VecDeque<Row>,
    /// The identities of the rows, in their order.
    names: Arrivals,
    links: Counts,
    /// The rows before this one have their put mark.
    first: usize,
    /// A row without its put mark isn't due below this position of the log.
    quiet: u64,
}

impl Model for Outbox {
    ghost use Rattle.std.specs.Prelude.{map, min, ◌-◌};
    ghost use Rattle.std.specs.VecDeque.{deque_capacity, deque_len};
    ghost use Rattle.def_state.specs.Outbox as state;
    ghost use Rattle.ic_index.specs.Room.{WithRoom};

    ghost Value = { WithRoom state.Outbox };

    ghost use Rattle.ic_out.specs.Views.{held_of, IsKept};

    ghost view = { λ s. record {
      seen = record { held = map held_of s.rows.items; links = s.links.seen };
      spare = min (deque_capacity s.rows - deque_len s.rows) (min s.names.spare s.links.spare);
    } };

    ghost invariant = { λ s. IsKept s.rows.items s.names.seen s.links.seen s.first s.quiet };
}

/// Whether a message has no stable mark, and may leave once the log is forced up to `forced`.
fn is_unstable(row: &Row, forced: u64) -> bool
    ensures { result ≡ is_unstable forced (held_of row.now) }
{
    !row.stable && row.at <= forced
}

impl Outbox {
    /// No message was sent, and there is room for none.
    pub fn new(alloc: Global) -> Outbox
        ensures { result.seen ≡ empty_outbox }
    {
        Outbox {
            rows: VecDeque::new(alloc),
            names: Arrivals::new(alloc),
            links: Counts::new(alloc),
            first: 0,
            quiet: 0,
        }
    }

    /// Makes room for n more messages.
    pub fn reserve(&mut self, n: usize) -> Result<(), AllocError>
        ensures same { self.new.seen ≡ self.old.seen }
        ensures room { OnOk result (n ≤ self.new.spare) }
        ensures kept { self.old.spare ≤ self.new.spare }
    {
        self.rows.reserve(n)?;
        self.names.reserve(n)?;
        self.links.reserve(n)
    }

    /// Holds the message, last. It may leave once the log is forced up to `at`.
    pub fn add(&mut self, msg: Msg, at: u64)
        requires room { 0 < self.old.spare }
        requires next { msg.k ≡ sent_to self.old.seen msg.to + 1 }
        ensures added { self.new.seen ≡ add self.old.seen msg at }
        ensures room { self.old.spare ≤ self.new.spare + 1 }
    {
        let (to, k) = (msg.to, msg.k);
        self.rows.push_back_reserved(Row {
            msg,
            at,
            put: false,
            stable: false,
        });
        self.names.push(to, k);
        self.links.put(to, k);
        self.quiet = self.quiet.min(at);
    }

    /// How many messages were sent to a component.
    pub fn sent(&self, to: ComId) -> u64
        ensures { result ≡ sent_to self.now.seen to }
    {
        self.links.get(to)
    }

    /// The place of the first message that is due and has no put mark, or the number of messages.
    fn due(&self, forced: u64) -> usize
        ensures { result ≡ position_or_len (is_due forced) self.now.seen.held }
    {
        for i in self.first..self.rows.len() {
            let row = self.rows[i];
            if !row.put && row.at <= forced {
                return i;
            }
        }
        self.rows.len()
    }

    /// The i-th row.
    fn row(&self, i: usize) -> Option<Row>
        ensures { option_map held_of result ≡ slice_get self.now.seen.held i }
    {
        self.rows.get(i).copied()
    }

    /// Where the message stands that is held under this identity, with its row.
    fn find(&self, to: ComId, k: u64) -> Option<(usize, Row)>
        ensures found { IfSome result (λ p. StandsAlone (is_held_as (record { peer = to; k = k })) self.now.seen.held p.0 (held_of p.1)) }
        ensures none { result ≡ None → is_held self.now.seen (record { peer = to; k = k }) ≡ false }
    {
        let i = self.names.position(to, k)?;
        Some((i, self.rows[i]))
    }

    /// Writes the i-th row again, with its marks or more.
    fn mark(&mut self, i: usize, row: Row)
        requires { IsMarked (slice_get self.old.seen.held i) (held_of row) }
        ensures marked { self.new.seen ≡ record self.old.seen { held = slice_set self.old.seen.held i (held_of row) } }
        ensures room { self.old.spare ≤ self.new.spare }
    {
        self.rows[i] = row;
    }

    /// Passes the first messages that have their put mark.
    fn pass(&mut self)
        ensures same { self.new.seen ≡ self.old.seen }
        ensures room { self.old.spare ≤ self.new.spare }
    {
        self.first = first_without_put(&self.rows, self.first);
    }

    /// The i-th message is held no longer.
    fn remove(&mut self, i: usize)
        requires { i < length self.old.seen.held }
        ensures gone { self.new.seen ≡ record self.old.seen { held = remove self.old.seen.held i } }
        ensures room { self.old.spare ≤ self.new.spare }
    {
        self.names.remove(i);
        let _ = self.rows.remove(i);
        if i < self.first {
            self.first -= 1;
        }
    }

    /// The first message that is due once the log is forced up to `forced`, and has no put mark. It gets the mark.
    /// None exactly where there is none.
    pub fn next_due(&mut self, forced: u64) -> Option<Msg>
        ensures due { result ≡ next_due self.old.seen forced }
        ensures marked { self.new.seen ≡ after_next_due self.old.seen forced }
        ensures room { self.old.spare ≤ self.new.spare }
    {
        if forced < self.quiet {
            return None;
        }
        let i = self.due(forced);
        match self.row(i) {
            Some(row) => {
                self.mark(i, Row { put: true, ..row });
                self.pass();
                Some(row.msg)
            }
            None => {
                self.quiet = forced.saturating_add(1);
                None
            }
        }
    }

    /// Gives each held message its put mark, as a replay leaves what it regenerates.
    pub fn put_all(&mut self)
        ensures put { self.new.seen ≡ record self.old.seen { held = map with_put_mark self.old.seen.held } }
        ensures room { self.old.spare ≤ self.new.spare }
    {
        put_rows(&mut self.rows);
        self.first = self.rows.len();
    }

    /// Sets the stable mark of a message; it removes nothing. True exactly where the message was held without the
    /// mark.
    pub fn stable(&mut self, to: ComId, k: u64) -> bool
        ensures was { result ≡ may_become_stable self.old.seen (record { peer = to; k = k }) }
        ensures marked { self.new.seen ≡ stable self.old.seen (record { peer = to; k = k }) }
        ensures room { self.old.spare ≤ self.new.spare }
    {
        match self.find(to, k) {
            Some((i, row)) => {
                self.mark(
                    i,
                    Row {
                        stable: true,
                        ..row
                    },
                );
                !row.stable
            }
            None => false,
        }
    }

    /// Whether a message is held.
    pub fn holds(&self, to: ComId, k: u64) -> bool
        ensures { result ≡ is_held self.now.seen (record { peer = to; k = k }) }
    {
        match self.find(to, k) {
            Some(_) => true,
            None => false,
        }
    }

    /// Removes a message. True exactly where it was held.
    pub fn installed(&mut self, to: ComId, k: u64) -> bool
        ensures was { result ≡ is_held self.old.seen (record { peer = to; k = k }) }
        ensures gone { self.new.seen ≡ installed self.old.seen (record { peer = to; k = k }) }
        ensures room { self.old.spare ≤ self.new.spare }
    {
        match self.find(to, k) {
            Some((i, _)) => {
                self.remove(i);
                true
            }
            None => false,
        }
    }

    /// Whether the message is held without a stable mark.
    pub fn may_become_stable(&self, to: ComId, k: u64) -> bool
        ensures { result ≡ may_become_stable self.now.seen (record { peer = to; k = k }) }
    {
        match self.find(to, k) {
            Some((_, row)) => !row.stable,
            None => false,
        }
    }

    /// The message. None exactly where it isn't held, or isn't due once the log is forced up to `forced`.
    pub fn fetch(&self, to: ComId, k: u64, forced: u64) -> Option<Msg>
        ensures { result ≡ fetch self.now.seen (record { peer = to; k = k }) forced }
    {
        match self.find(to, k) {
            Some((_, row)) => {
                if row.at <= forced {
                    Some(row.msg)
                } else {
                    None
                }
            }
            None => None,
        }
    }

    /// How many messages are held.
    pub fn len(&self) -> usize
        ensures { result ≡ length self.now.seen.held }
    {
        self.rows.len()
    }

    /// No more messages than this have no put mark.
    pub fn left_to_put(&self) -> usize
        ensures enough { length (filter is_unput self.now.seen.held) ≤ result }
        ensures few { result ≤ length self.now.seen.held }
    {
        self.rows.len() - self.first
    }

    /// No more messages than this are due without a put mark once the log is forced up to `forced`.
    pub fn left_due(&self, forced: u64) -> usize
        ensures enough { length (filter (is_due forced) self.now.seen.held) ≤ result }
        ensures few { result ≤ length self.now.seen.held }
    {
        if forced < self.quiet {
            0
        } else {
            self.left_to_put()
        }
    }

    /// The i-th, from 0, of the messages without a stable mark that are due once the log is forced up to `forced`.
    /// None exactly past the last of them.
    pub fn unstable(&self, i: usize, forced: u64) -> Option<Msg>
        ensures { result ≡ slice_get (unstable self.now.seen forced) i }
    {
        let mut left = i;
        for j in 0..self.rows.len() {
            let row = self.rows[j];
            if is_unstable(&row, forced) {
                if left == 0 {
                    return Some(row.msg);
                }
                left -= 1;
            }
        }
        None
    }

    /// All messages without a stable mark that are due once the log is forced up to `forced`, in order.
    pub fn all_unstable(&self, alloc: Global, forced: u64) -> Result<Msgs, AllocError>
        ensures { IfOk result (λ messages. messages ≡ unstable self.now.seen forced) }
    {
        let mut messages = Items::new(alloc);
        for j in 0..self.rows.len() {
            let row = self.rows[j];
            if is_unstable(&row, forced) {
                messages.push(row.msg)?;
            }
        }
        Ok(messages)
    }

    /// The i-th link by rising component, with the number sent on it. None exactly past the end.
    pub fn link(&self, i: usize) -> Option<(ComId, u64)>
        ensures { result ≡ slice_get self.now.seen.links i }
    {
        self.links.at(i)
    }

    /// The i-th held message. None exactly past the end.
    pub fn held(&self, i: usize) -> Option<Msg>
        ensures { result ≡ option_map (λ h. h.msg) (slice_get self.now.seen.held i) }
    {
        match self.row(i) {
            Some(row) => Some(row.msg),
            None => None,
        }
    }

    /// The outbox of an image: these numbers were sent on the links, and these messages are held, due, with their put
    /// mark and no stable mark.
    pub fn from_parts(alloc: Global, links: &Links, held: &Msgs) -> Result<Outbox, AllocError>
        requires sent { All (λ m. m.k ≤ number_of 0 links.now m.to) held.now }
        requires rising { (to : ComId) → is_rising (numbers_to (outbox_of links.now held.now) to) ≡ true }
        ensures { IfOk result (λ outbox. outbox.seen ≡ outbox_of links.now held.now) }
    {
        Ok(Outbox {
            rows: rows_of(alloc, held.as_slice())?,
            names: names_of(alloc, held.as_slice())?,
            links: Counts::from_list(alloc, links.as_slice())?,
            first: held.len(),
            quiet: 0,
        })
    }

    /// An equal value, with room for none more.
    pub fn copy(&self, alloc: Global) -> Result<Outbox, AllocError>
        ensures { IfOk result (λ copy. copy.seen ≡ self.now.seen) }
    {
        Ok(Outbox {
            rows: self.rows.clone()?,
            names: self.names.copy(alloc)?,
            links: self.links.copy(alloc)?,
            first: self.first,
            quiet: self.quiet,
        })
    }
}

/// The place of the first row without a put mark, where none stands before `first`, or the number of rows.
fn first_without_put(rows: &VecDeque<Row>, first: usize) -> usize
    requires within { first ≤ length rows.now.items }
    requires put { AllWithin (λ r. r.put ≡ true) rows.now.items 0 first }
    ensures within { result ≤ length rows.now.items }
    ensures put { AllWithin (λ r. r.put ≡ true) rows.now.items 0 result }
{
    for i in first..rows.len() {
        if !rows[i].put {
            return i;
        }
    }
    rows.len()
}

/// Gives each row its put mark.
fn put_rows(rows: &mut VecDeque<Row>)
    ensures put { rows.new.items ≡ map put_row rows.old.items }
    ensures len { deque_len rows.new ≡ deque_len rows.old }
    ensures capacity { deque_capacity rows.new ≡ deque_capacity rows.old }
{
    for i in 0..rows.len() {
        let row = rows[i];
        rows[i] = Row { put: true, ..row };
    }
}

/// The rows of an image's messages.
fn rows_of(alloc: Global, held: &[Msg]) -> Result<VecDeque<Row>, AllocError>
    ensures { IfOk result (λ rows. rows.items ≡ map row_in_image held.now) }
{
    let mut rows = VecDeque::with_capacity(alloc, held.len())?;
    for msg in held {
        rows.push_back_reserved(Row {
            msg: *msg,
            at: 0,
            put: true,
            stable: false,
        });
    }
    Ok(rows)
}

/// The identities of an image's messages.
fn names_of(alloc: Global, held: &[Msg]) -> Result<Arrivals, AllocError>
    requires { (to : ComId) → is_rising (numbers_among held.now to) ≡ true }
    ensures { IfOk result (λ names. names.seen ≡ map message_name held.now) }
{
    let mut names = Arrivals::new(alloc);
    names.reserve(held.len())?;
    for msg in held {
        names.push(msg.to, msg.k);
    }
    Ok(names)
}
