use crate::{Cause, ComId, Items, PolicyRefused, Vals};

/// How much of a run is printed (docs/FORMATS.md, "Event lines").
#[derive(Clone, Copy, Debug, PartialEq, Eq)]
pub enum ReportLevel {
    /// A line for each event, with those of packets, aborts and outputs, and the summary.
    Full,
    /// The lines of aborts and outputs, and the summary.
    Brief,
    /// The summary alone.
    Summary,
}

/// What a policy text asks for (docs/FORMATS.md, "Policy").
#[derive(Clone, Copy, Debug, PartialEq, Eq)]
pub struct Policy {
    /// After how many records since the last checkpoint one is due: 0 to 100000, where 0 is never.
    pub checkpoint_every: u32,
    /// After how many buffered records a force is due: 0 to 100000, where 0 is never.
    pub force_every: u32,
    pub report: ReportLevel,
    /// 1 to 8. A run of `icrun` uses neither this nor the next two.
    pub workers: u8,
    /// 1 to 1024.
    pub lane: u16,
    /// 0 to 1000000.
    pub turns: u32,
}

/// How a component stands at the end, with the values of one that is up.
#[derive(Debug, Drop)]
pub enum Stand {
    /// The values of a Pcom's variables or of a Tcom's keys, in order of declaration.
    Up(Vals),
    /// Its replay waits for a message.
    Replaying,
    Down,
    /// It is an Xcom, of which the summary has no line.
    External,
}

pub type States = Items<Stand>;

/// What a whole run came to (docs/FORMATS.md, "Summary").
#[derive(Debug, Drop)]
pub struct Summary {
    pub taken: u64,
    /// Inputs whose step a stop cut off, and whose record the log has.
    pub kept: u64,
    /// Inputs whose step a stop cut off, and whose record the log doesn't have.
    pub lost: u64,
    /// Inputs to a component that was down, replaying or busy.
    pub missed: u64,
    /// Outputs that were shown for the first time in the run.
    pub first: u64,
    /// Outputs that the run had shown before.
    pub again: u64,
    /// One for each component, in order of declaration.
    pub states: States,
    /// Records that recoveries played in the run.
    pub played: u64,
    /// Entries of the merged history at the end.
    pub history: u64,
    /// Whether the world was settled; a run that `halt` ended was not.
    pub settled: bool,
}

/// Why a run ends before its summary (docs/FORMATS.md, "Last lines").
#[derive(Debug, Drop)]
pub enum Fault {
    /// The words are no call of the program (docs/FORMATS.md, "Words").
    Usage,
    /// The line, or 0 for the text as a whole, and why it is refused.
    Scenario(u32, Cause),
    /// The same of a schedule.
    Schedule(u32, Cause),
    /// Why the policy is refused; its lines aren't counted.
    Policy(PolicyRefused),
    /// The kept fingerprint, then the given one.
    Foreign(ComId, [u8; 32], [u8; 32]),
    /// The place at which the log is refused (docs/FORMATS.md, "Where a log is refused").
    Bad(ComId, u64),
    /// The entry of the merged history that has no step in the crash-free world, counted from 0.
    Illegal(u64),
    /// One more input would pass the number of a run (docs/RULES.md, "Limits").
    Receipts,
    /// One more packet would pass the number of a run (docs/RULES.md, "Limits").
    Packets,
    /// The component's log, or a number of its step, would pass its limit (docs/RULES.md, "Limits").
    LogFull(ComId),
    /// A text wasn't read.
    Read,
    /// The component's disk failed, or stands stopped.
    Disk(ComId),
    /// A run begins on blank disks, and the component's isn't one.
    NotBlank(ComId),
}
