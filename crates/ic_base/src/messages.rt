use crate::{Args, Items, Numbers};

/// A component's number, in order of declaration from 0.
#[derive(Clone, Copy, Debug, PartialEq, Eq)]
pub struct ComId(pub u8);

/// A persistent, a transactional or an external component, as in Barga et al. 2004.
#[derive(Clone, Copy, Debug, PartialEq, Eq)]
pub enum Kind {
    Pcom,
    Tcom,
    Xcom,
}

/// The k-th message on the link of its sender and receiver, with its stamp and content.
#[derive(Clone, Copy, Debug, PartialEq, Eq)]
pub struct Msg {
    pub from: ComId,
    pub to: ComId,
    /// From 1 to 2^63 - 1.
    pub k: u64,
    /// The sender's clock when it sent the message (Lamport 1978): 0 to 2^63 - 1.
    pub stamp: u64,
    /// The number of a handler of the receiver, from 0.
    pub handler: u8,
    pub args: Args,
}

/// The m-th output of its component.
#[derive(Clone, Copy, Debug, PartialEq, Eq)]
pub struct Output {
    /// From 1 to 2^63 - 1.
    pub m: u64,
    /// An Xcom.
    pub to: ComId,
    pub args: Args,
}

/// The counter-th session that a Tcom gave in its epoch.
#[derive(Clone, Copy, Debug, PartialEq, Eq)]
pub struct Session {
    /// Rises with each recovery of the Tcom.
    pub epoch: u64,
    pub counter: u64,
}

/// What a transaction asks of a Tcom, by the number of the key from 0: its value, or to write this one.
#[derive(Clone, Copy, Debug, PartialEq, Eq)]
pub enum Request {
    Get(u16),
    Put(u16, i64),
}

/// The line of a failed `need`; the holder of a key and its transaction; a session's epoch and the present one.
#[derive(Clone, Copy, Debug, PartialEq, Eq)]
pub enum AbortCause {
    Need(u32),
    Held(ComId, u64),
    Epoch(u64, u64),
}

/// What a Tcom decided on a transaction: a commit with this stamp, or an abort.
#[derive(Clone, Copy, Debug, PartialEq, Eq)]
pub enum Decision {
    Committed(u64),
    Aborted(AbortCause),
}

/// What is known of a message at its receiver, in rising order.
#[derive(Clone, Copy, Debug, PartialEq, Eq)]
pub enum Level {
    Nothing,
    Taken,
    /// The record of its receipt is forced, so a crash of the receiver doesn't undo it.
    Stable,
    /// Its content, or what came of it, is forced too, so no replay asks for it again.
    Installed,
}

/// What travels between components.
#[derive(Clone, Copy, Debug, PartialEq, Eq)]
pub enum Packet {
    Data(Msg),
    /// Tells the sender of message k that its receipt is forced.
    Stable {
        from: ComId,
        to: ComId,
        k: u64,
    },
    /// Tells the sender of message k that no replay asks for it again.
    Installed {
        from: ComId,
        to: ComId,
        k: u64,
    },
    /// Asks the sender of message k for it again.
    Fetch {
        from: ComId,
        to: ComId,
        k: u64,
    },
    /// The request of transaction n at this place, from 0. At place 0 it has no session, and later the one that was
    /// given.
    Op {
        from: ComId,
        to: ComId,
        n: u64,
        place: u16,
        session: Option<Session>,
        request: Request,
    },
    /// What the request at this place is answered: the value read or written.
    OpReply {
        from: ComId,
        to: ComId,
        n: u64,
        place: u16,
        session: Session,
        value: i64,
    },
    /// Asks for the commit of transaction n, with its Pcom's clock as stamp.
    Commit {
        from: ComId,
        to: ComId,
        n: u64,
        place: u16,
        session: Session,
        stamp: u64,
    },
    /// Tells the Pcom what is decided on its transaction n.
    Outcome {
        from: ComId,
        to: ComId,
        n: u64,
        place: u16,
        session: Option<Session>,
        decision: Decision,
    },
    /// Tells a Tcom that it need serve the transactions of the sender up to n no longer.
    Drop {
        from: ComId,
        to: ComId,
        n: u64,
    },
}

/// An entry of the merged history, which is in order of stamps (Lamport 1978), then of components.
#[derive(Clone, Copy, Debug, PartialEq, Eq)]
pub struct Entry {
    pub com: ComId,
    pub stamp: u64,
    pub act: Act,
}

/// A taken message, an input, a commit of a Pcom's transaction, an abort.
#[derive(Clone, Copy, Debug, PartialEq, Eq)]
pub enum Act {
    /// The sender, and the number of the message on its link.
    Take(ComId, u64),
    /// The number of the handler, and the values.
    Input(u8, Args),
    /// The Pcom, and the number of its transaction. The entry is the Tcom's.
    Commit(ComId, u64),
    /// The number of the transaction.
    Abort(u64),
}

/// How an ended transaction ended: committed with these answers, or aborted.
#[derive(Debug, Drop)]
pub enum Done {
    Committed(Items<i64>),
    Aborted,
}

/// A message as a handler sends it.
#[derive(Clone, Copy, Debug, PartialEq, Eq)]
pub struct Send {
    pub to: ComId,
    pub handler: u8,
    pub args: Args,
}

/// An output as a handler makes it.
#[derive(Clone, Copy, Debug, PartialEq, Eq)]
pub struct Out {
    pub to: ComId,
    pub args: Args,
}

pub type Msgs = Items<Msg>;

pub type Outputs = Items<Output>;

pub type Packets = Items<Packet>;

pub type Entries = Items<Entry>;

pub type Dones = Items<Done>;

pub type Sends = Items<Send>;

pub type Outs = Items<Out>;

/// Pairs of a component and the number sent to it.
pub type Links = Items<(ComId, u64)>;

/// Triples of a sender, the w such that its numbers 1 to w are taken, and the taken numbers above w.
pub type Senders = Items<(ComId, u64, Numbers)>;

/// Pairs of a component and an output that it showed.
pub type Showings = Items<(ComId, Output)>;
