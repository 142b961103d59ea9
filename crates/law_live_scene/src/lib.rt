//! A small live run, step by step: what the definitions and the laws of live runs ask can be met.
#![tactic(auto)]

ghost use Rattle.law_live_scene.specs.Scene.{TheSceneRuns};

/// A shop takes an order, a till its message, which asks a bank; the shop crashes, answers are lost, and behind the joins the order goes on
/// to its end: turns, joined lanes, the assembled world, a complete serial phase, and the crash-free world that it ends as.
pub fn the_scene_is_a_live_run()
    ensures { TheSceneRuns }
{}
