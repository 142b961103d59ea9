use crate::{AbortCause, Args, Bytes, ComId, Items, Session};

/// One record of a log (docs/FORMATS.md, "Records"). An outcome without a cause is a commit.
#[derive(Debug, Drop)]
pub enum Record {
    /// A message was taken; its sender keeps the content.
    Take {
        from: ComId,
        k: u64,
        stamp: u64,
    },
    /// A message was taken by an immediate component, and here is its content.
    TakeWhole {
        from: ComId,
        k: u64,
        stamp: u64,
        handler: u8,
        args: Args,
    },
    Input {
        stamp: u64,
        handler: u8,
        args: Args,
    },
    /// The answer of the request of transaction n at this place, from 0.
    Value {
        n: u64,
        place: u16,
        session: Session,
        value: i64,
    },
    Outcome {
        stamp: u64,
        n: u64,
        abort: Option<AbortCause>,
    },
    /// Message k to this component need be kept no longer.
    Released {
        to: ComId,
        k: u64,
    },
    Shown {
        m: u64,
    },
    /// The image of a state, from which a recovery may begin.
    Checkpoint {
        image: Bytes,
    },
    /// A Tcom came up, and this is its epoch from here on.
    Epoch {
        epoch: u64,
    },
    /// A Tcom committed transaction n of c.
    Decided {
        stamp: u64,
        c: ComId,
        n: u64,
        writes: Writes,
    },
}

/// Pairs of a key and the value written to it, in order.
pub type Writes = Items<(u16, i64)>;

pub type Records = Items<Record>;

/// The payload of a batch, and where it begins in the file.
#[derive(Debug, Drop)]
pub struct Batch {
    pub at: u64,
    pub payload: Bytes,
}

pub type Batches = Items<Batch>;
