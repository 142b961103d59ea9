//! Laws over runs with a standby. The statements stand in specs; these functions have them as contracts.
#![tactic(auto)]

ghost use Rattle.law_failover.specs.Growing.{EventsGrowLogs};
ghost use Rattle.law_failover.specs.Failover.{FailoverRunsStand, FailoverRunsEnd, FailoverRunsServe};

/// What is forced stays: over each event, its stop reached or not, a forced log is the beginning of the one behind it.
pub fn events_grow_logs()
    ensures { EventsGrowLogs }
{}

/// A run with a standby stands as the crash-free world where it ends, halted or not.
pub fn failover_runs_stand()
    ensures { FailoverRunsStand }
{}

/// A run with a standby ends as the crash-free world.
pub fn failover_runs_end()
    ensures { FailoverRunsEnd }
{}

/// The standby of a run stands where the first records of its component's log lead, which are forced; a shipment brings all that are, and
/// never fails to play; a takeover leads to the state of the whole log, which it leaves as it is.
pub fn failover_runs_serve()
    ensures { FailoverRunsServe }
{}
