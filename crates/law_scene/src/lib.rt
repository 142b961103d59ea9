//! Scenes of whole runs: the texts of a tally that takes two inputs, with a crash and a recovery between them, over blank files, in which all
//! holds together that the theorem on runs asks for and says; and the files of a bank, over which a run is taken up.
#![tactic(auto)]

ghost use Rattle.law_scene.specs.Bank.{FilesAreTakenUp, NumbersHaveBytes};
ghost use Rattle.law_scene.specs.Tally.{TextsAreRead, RunsWhole, PrintsReport, EndsAtTwelve};

/// The texts are a scenario and a schedule of it. Blank files let the run start; it does the four events one after another, each a core
/// step over the bytes of its file, and nothing is next; no limit is reached. It prints its report, and ends as the crash-free world does.
pub fn a_tally_runs_whole()
    ensures texts { TextsAreRead }
    ensures runs { RunsWhole }
    ensures prints { PrintsReport }
    ensures ends { EndsAtTwelve }
{}

/// The logs of a bank, a buyer and a clerk, written to files, let a run begin over them, soundly: a purchase that committed, a booking that
/// was aborted, and a checkpoint. Their numbers have their bytes, and so have those of the program and of the world that is up over them.
pub fn logs_of_a_bank_are_taken_up()
    ensures files { FilesAreTakenUp }
    ensures numbers { NumbersHaveBytes }
{}
