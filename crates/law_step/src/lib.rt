//! Every step of the whole world keeps it explained. The statements stand in specs; these functions have them as contracts.
#![tactic(auto)]

ghost use Rattle.law_step.specs.Causes.{EventsTellCauses};
ghost use Rattle.law_step.specs.Inputs.{EventsGainInputs};
ghost use Rattle.law_step.specs.Moments.{MomentsAreSound};
ghost use Rattle.law_step.specs.Steps.{EventsKeepExplained, EventsGoOn, ShowingsGoOn};

/// Each event keeps a world explained: a call, a delivery, a loss, a crash or a recovery, its stop reached or not, also one that
/// finds no component or no packet.
pub fn events_keep_the_world_explained()
    ensures explained { EventsKeepExplained }
    ensures past { EventsGoOn }
{}

/// What an event shows has a number above all that its component showed in its present life.
pub fn showings_go_on()
    ensures { ShowingsGoOn }
{}

/// What the disks may leave at a moment of a step, each the log before it or the one behind it, is sound together.
pub fn moments_are_sound()
    ensures { MomentsAreSound }
{}

/// Each abort that an event tells or puts out has its cause.
pub fn events_tell_causes()
    ensures { EventsTellCauses }
{}

/// An event adds to the log of each Pcom the input that it tells as taken or kept there, and no other.
pub fn events_gain_inputs()
    ensures { EventsGainInputs }
{}
