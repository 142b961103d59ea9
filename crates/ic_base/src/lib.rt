//! What every layer speaks of: names, messages, packets, programs and what they declare, events, records and reports as data.
#![tactic(auto)]

mod args;
mod components;
mod events;
pub mod limits;
mod lists;
mod messages;
mod numbers;
mod played;
mod record;
mod refusals;
mod report;
mod scenario;
mod steps;

pub use args::Args;
pub use components::{
    has_handler, has_key, is_a_pcom, is_a_tcom, is_an_xcom, is_immediate, is_other_pcom,
};
pub use events::{Answer, Answers, Event, Fate, Fill, Schedule, Stop, Trace, What};
pub use lists::{Bytes, Items, Name, Numbers, Vals, Word};
pub use messages::{
    AbortCause, Act, ComId, Decision, Done, Dones, Entries, Entry, Kind, Level, Links, Msg, Msgs,
    Out, Output, Outputs, Outs, Packet, Packets, Request, Send, Senders, Sends, Session, Showings,
};
pub use numbers::{is_number, session_fits};
pub use played::Played;
pub use record::{Batch, Batches, Record, Records, Writes};
pub use refusals::{Cause, PolicyRefused, ScenarioRefused, StartWhy, Which, WorldRefused};
pub use report::{Fault, Policy, ReportLevel, Stand, States, Summary};
pub use scenario::{
    Body, Cells, Component, Components, Expr, Handler, Handlers, Op, Operand, Operands, Program,
    Stmt,
};
pub use steps::Steps;
