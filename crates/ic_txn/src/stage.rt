use ic_base::{ComId, Request, Session};

/// The open transaction, with its Tcom, the place of its last request and its session.
#[derive(Clone, Copy, Debug)]
pub(crate) enum Stage {
    /// None is open.
    Idle,
    /// It waits for the answer to a request; at place 0 it has no session yet.
    Waiting(ComId, u16, Option<Session>, Request),
    /// The answer is there, and nothing came of it yet.
    Answered(ComId, u16, Session, Request),
    /// Its part is played to its end, and the decision is awaited.
    Committing(ComId, u16, Session),
}
