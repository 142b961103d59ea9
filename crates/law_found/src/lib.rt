//! Worlds that are explained: the first one, that of one component that takes inputs alone, one over sound logs that are found on
//! disks, by the past that they tell, and a scene in which all the facts are met.
#![tactic(auto)]

ghost use Rattle.law_found.specs.First.{FirstWorldIsExplained};
ghost use Rattle.law_found.specs.Inputs.{LogsOfInputsAreSound, LogsOfInputsArePlain, AuditTellsTheRun};
ghost use Rattle.law_found.specs.Order.{LogsAreInOrder, DecidedIsNotAborted};
ghost use Rattle.law_found.specs.Past.{FoundLogsAreExplained};
ghost use Rattle.law_found.specs.Resumed.{FoundWorldIsExplained};
ghost use Rattle.law_found.specs.SceneExplained.{LogsAreExplained, LogsAreSound};
ghost use Rattle.law_found.specs.ScenePrograms.{SceneIsPlayable, SceneHasFlatParts};
ghost use Rattle.law_found.specs.SceneWorlds.{WorldIsExplained};
ghost use Rattle.law_found.specs.Trade.{SceneReplays};

/// All components up over empty logs: that world is explained.
pub fn the_first_world_is_explained()
    ensures { FirstWorldIsExplained }
{}

/// The log of a component that takes inputs alone is sound, so its history is legal; the crash-free world has the component where its
/// log leads, and an audit of the log prints the values that the run printed.
pub fn logs_of_inputs_are_sound()
    ensures sound { LogsOfInputsAreSound }
    ensures values { LogsOfInputsArePlain }
    ensures audit { AuditTellsTheRun }
{}

/// In sound logs each decision stands behind what its Pcom did before it, and none is of an aborted transaction.
pub fn sound_logs_are_in_order()
    ensures order { LogsAreInOrder }
    ensures aborts { DecidedIsNotAborted }
{}

/// Sound logs are explained by the packets that they tell of.
pub fn found_logs_are_explained()
    ensures { FoundLogsAreExplained }
{}

/// So is the world in which all components are down over them.
pub fn the_found_world_is_explained()
    ensures { FoundWorldIsExplained }
{}

/// The program of the scene is playable, and its parts are flat: its statements stand where the grammar lets them.
pub fn the_scene_is_playable()
    ensures playable { SceneIsPlayable }
    ensures flat { SceneHasFlatParts }
{}

/// The logs of the scene replay: a purchase that commits, with its message and a checkpoint behind it, and a booking that aborts.
pub fn the_scene_replays()
    ensures { SceneReplays }
{}

/// They have all the facts, with what was put out and received, so they are sound; and the world in which all three are up over them is
/// explained.
pub fn the_scene_is_explained()
    ensures logs { LogsAreExplained }
    ensures sound { LogsAreSound }
    ensures world { WorldIsExplained }
{}
