//! The table of events: what each does to the log of a Pcom and what it puts out, row by row, what a crash and a loss leave, and what a
//! Pcom has whose replay ended.
#![tactic(auto)]

ghost use Rattle.law_table.specs.Rows.{
  Inputs,
  NewMessages,
  KnownMessages,
  BusyMessages,
  Stables,
  Installeds,
  Fetches,
  Replies,
  Outcomes,
  Strangers,
  Forcings,
  Checkpointings,
  Resendings,
  Emittings,
  Replayings,
  Crashes,
  Losses,
};
ghost use Rattle.law_table.specs.States.{UpHasAllRecords};

/// A Pcom that is up: an input is recorded and forced, unless a message is in hand.
pub fn inputs_are_forced()
    ensures { Inputs }
{}

/// A new message is recorded, and forced where the receiver is immediate; while one is in hand it is put off. A message that was taken is
/// answered with how safe its receipt is.
pub fn messages_are_taken_once()
    ensures fresh { NewMessages }
    ensures known { KnownMessages }
    ensures busy { BusyMessages }
{}

/// What other packets do: a message is marked, or released with a record of it, or sent again; an answer, a failed need and an outcome are
/// recorded. A packet that doesn't fit does nothing.
pub fn packets_are_used()
    ensures stable { Stables }
    ensures installed { Installeds }
    ensures fetch { Fetches }
    ensures reply { Replies }
    ensures outcome { Outcomes }
    ensures stranger { Strangers }
{}

/// A force and a checkpoint force the log, a checkpoint with the image of the state. What is resent is what is owed, and nothing is
/// recorded. An output that is due is shown with a record of it.
pub fn upkeep_is_as_asked()
    ensures force { Forcings }
    ensures checkpoint { Checkpointings }
    ensures resend { Resendings }
    ensures emit { Emittings }
{}

/// A Pcom that replays records nothing, forces nothing and shows nothing.
pub fn a_replay_records_nothing()
    ensures { Replayings }
{}

/// A Pcom that is up has the whole state that all its records give with the messages of the crash-free world: so one whose replay ended.
pub fn a_replay_ends_with_all_records()
    ensures { UpHasAllRecords }
{}

/// A crash leaves the forced records alone, and each packet that waits. A loss takes the oldest packet of its pair, and nothing else.
pub fn crashes_and_losses_take_no_more()
    ensures crash { Crashes }
    ensures lose { Losses }
{}
