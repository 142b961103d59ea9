//! Laws of runs over disks: a chief's and a book's log is read again, a stop leaves it as before the step or behind it, and it is both
//! books or neither.
#![tactic(auto)]

ghost use Rattle.law_two_run.specs.Torn.{IsReadAgain2, TornReadsByGate2};
ghost use Rattle.law_two_run.specs.Runs.{CoreStepsLead, ExecutionsEndBothOrNeither, ExecutionsMeetGoodLogs};

/// Each record is read again from its spelling, whatever follows it.
pub fn records_are_read_again()
    ensures { IsReadAgain2 }
{}

/// What a stop leaves of a log, where it is read at all, reads as the records before the step, or at an open gate with all that it adds.
pub fn torn_images_read_as_before_or_behind()
    ensures { TornReadsByGate2 }
{}

/// A core step over disks that hold the logs is an event of the definitions: what a stop leaves is the log before the step or behind it.
pub fn core_steps_lead()
    ensures { CoreStepsLead }
{}

/// An execution over disks that did all that was to be done ends with both books or neither.
pub fn executions_end_both_or_neither()
    ensures { ExecutionsEndBothOrNeither }
{}

/// Wherever an execution over disks is, no recovery is refused for a bad log or a foreign one.
pub fn executions_meet_good_logs()
    ensures { ExecutionsMeetGoodLogs }
{}
