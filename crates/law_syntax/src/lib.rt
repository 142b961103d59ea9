//! What the grammar of scenarios gives of the programs of which the recovery theorem speaks.
#![tactic(auto)]

ghost use Rattle.law_syntax.specs.Events.{SchedulesHaveEvents, ClientSchedulesHaveEvents, AllowedHaveHandlers};
ghost use Rattle.law_syntax.specs.Grammatical.{ScenariosArePlaced, ScenariosHaveFlatParts, ScenariosArePlayable, PlacedArePlayable, PlacedHaveFlatParts};

/// A program whose statements stand where the grammar lets them is playable, and no transaction stands within the part of another.
pub fn placed_programs_are_playable()
    ensures playable { PlacedArePlayable }
    ensures flat { PlacedHaveFlatParts }
{}

/// The program of every text that is a scenario has its statements where the grammar lets them; so it is playable, and its parts are
/// flat (docs/FORMATS.md).
pub fn scenarios_are_playable()
    ensures placed { ScenariosArePlaced }
    ensures playable { ScenariosArePlayable }
    ensures flat { ScenariosHaveFlatParts }
{}

/// Each event of a text that is a schedule is one of which the laws of steps speak: an input has its handler and values of 64 bits, and a
/// stop is counted from 1. An input that is allowed has its handler.
pub fn schedules_have_events()
    ensures text { SchedulesHaveEvents }
    ensures clients { ClientSchedulesHaveEvents }
    ensures allowed { AllowedHaveHandlers }
{}
