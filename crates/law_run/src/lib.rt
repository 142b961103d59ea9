//! Laws over executions: what holds along each, and what its end has. In each state of a run each number has its bytes, and what a
//! stop leaves of a log reads as before the step or as behind it. The statements stand in specs; these functions have them as
//! contracts.
#![tactic(auto)]

ghost use Rattle.law_run.specs.Aborts.{AbortsHaveCauses};
ghost use Rattle.law_run.specs.Audits.{SoundLogsHaveAudits, RunsHaveAudits, CompleteRunsHaveAudits};
ghost use Rattle.law_run.specs.Ends.{BeginningsAreExplained, RunsStandCrashFree, RunsEndCrashFree, TextRunsStandCrashFree, TextRunsEndCrashFree, RunsAreTakenUp, LeftLogsAreNotRefused};
ghost use Rattle.law_run.specs.Executions.{CoreStepsKeepExplained, ExecutionsStayExplained, ExecutionsGainInputs, ExecutionsStandCrashFree, CompleteRunsEndCrashFree};
ghost use Rattle.law_run.specs.Images.{FoundAtImages, ImagesAreNotRefused};
ghost use Rattle.law_run.specs.Moments.{FoundAtMoments};
ghost use Rattle.law_run.specs.Outputs.{ShownAgainBehindACrash};
ghost use Rattle.law_run.specs.Refusals.{EventsMeetSoundLogs, RunsMeetSoundLogs};
ghost use Rattle.law_run.specs.ScenarioBytes.{ScenariosHaveBytes};
ghost use Rattle.law_run.specs.Torn.{TornReadsByGate, GatesAreShut};
ghost use Rattle.law_run.specs.WorldBytes.{FirstWorldFits, FoundWorldFits, EventsKeepBytes, ImagesHaveBytes};

/// A run over blank disks begins explained, and so does one that is taken up over sound logs.
pub fn runs_begin_explained()
    ensures { BeginningsAreExplained }
{}

/// A core step keeps a world explained.
pub fn core_steps_keep_explained()
    ensures { CoreStepsKeepExplained }
{}

/// Along an execution each state is explained.
pub fn executions_stay_explained()
    ensures { ExecutionsStayExplained }
{}

/// Along an execution each log gains the inputs that are taken or kept, in their order, each once, and no other.
pub fn executions_gain_inputs()
    ensures { ExecutionsGainInputs }
{}

/// Whatever halts a run, with whatever crashes and stops, wherever it is: it stands as the crash-free world of all its records. So from
/// each explained state; over blank disks and over sound logs, with the inputs that each log gained; and so of every scenario with every
/// schedule for it.
pub fn runs_stand_as_crash_free()
    ensures explained { ExecutionsStandCrashFree }
    ensures begun { RunsStandCrashFree }
    ensures texts { TextRunsStandCrashFree }
{}

/// A run that did all that was to be done, with no halt, ends as the crash-free world of its merged logs: from each explained state; over
/// blank disks and over sound logs, with the inputs that each log gained; and so of every scenario with every schedule for it.
pub fn complete_runs_end_as_crash_free()
    ensures explained { CompleteRunsEndCrashFree }
    ensures begun { RunsEndCrashFree }
    ensures texts { TextRunsEndCrashFree }
{}

/// What a run leaves on its disks, wherever it is, is taken up: whatever is found over them begins soundly, with the logs that stood there,
/// and none of them is refused when it is found.
pub fn runs_are_taken_up()
    ensures sound { RunsAreTakenUp }
    ensures found { LeftLogsAreNotRefused }
{}

/// An audit of sound logs prints the values and counts the outputs of the crash-free world that explains them. Wherever a run is, what its
/// disks hold is sound, and so has its audit; behind a run that did all that was to be done it prints the values with which its components
/// stand.
pub fn audits_tell_runs()
    ensures sound { SoundLogsHaveAudits }
    ensures begun { RunsHaveAudits }
    ensures complete { CompleteRunsHaveAudits }
{}

/// An output is shown again only where its Pcom was down after the earlier showing.
pub fn outputs_are_shown_again_behind_crashes()
    ensures { ShownAgainBehindACrash }
{}

/// What is found after a crash of the whole machine at any moment of a step is explained.
pub fn moments_of_steps_are_taken_up()
    ensures { FoundAtMoments }
{}

/// Whatever images a crash of the whole machine leaves at a moment of a step, each the log before the step or that with all that the
/// step adds: the logs that are read from them are sound together, and what is found over them is explained. Where each keeps the
/// fingerprint of the scenario, none is refused when it is found.
pub fn images_of_crashes_are_taken_up()
    ensures sound { FoundAtImages }
    ensures found { ImagesAreNotRefused }
{}

/// Each abort of a run has its cause.
pub fn aborts_have_causes()
    ensures { AbortsHaveCauses }
{}

/// Where a world is explained and the disks keep its logs, no event meets a bad log or a foreign one: no recovery is refused and no replay
/// that is fed, but the recovery of a Tcom that has no room for its Epoch record, or no next epoch. So it is wherever a run is.
pub fn runs_meet_sound_logs()
    ensures explained { EventsMeetSoundLogs }
    ensures begun { RunsMeetSoundLogs }
{}

/// The program of every text that is a scenario has its numbers so: its values have 64 bits, its lists no more items than they may, and
/// the line of a `need` 32 bits.
pub fn scenarios_have_bytes()
    ensures { ScenariosHaveBytes }
{}

/// A run begins so, anew or over logs that were found.
pub fn runs_begin_with_bytes()
    ensures blank { FirstWorldFits }
    ensures found { FoundWorldFits }
{}

/// In an explained world each event that passes no limit keeps it so, its stop reached or not.
pub fn events_keep_bytes()
    ensures { EventsKeepBytes }
{}

/// In an explained world in which it is so, each state of which a log has an image has its bytes in it.
pub fn images_have_bytes()
    ensures { ImagesHaveBytes }
{}

/// What a stop leaves of a log, where it is read at all, is read as the records before the step, or, where the byte of the gate is 1, as
/// those and all that the step adds. Before the step that byte isn't 1.
pub fn torn_images_read_as_before_or_behind()
    ensures torn { TornReadsByGate }
    ensures shut { GatesAreShut }
{}
