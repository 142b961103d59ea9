//! What a Pcom's state is: folded from its log, and as it holds it while it is up.
#![tactic(auto)]

ghost use Rattle.std.specs.Prelude.{◌≡◌, List, Some};
ghost use Rattle.ic_base.specs.declared.messages.ComId.{ComId};
ghost use Rattle.ic_base.specs.declared.scenario.Program.{Program};
ghost use Rattle.ic_base.specs.declared.record.Record.{Record};
ghost use Rattle.def_state.specs.Hist.{Hist, Contents, apply_all, first_hist, after, touches, cells};

/// The crash-free part of a replayed state is what the touches of its records make of the first one.
pub fn the_crash_free_part_is_its_touches()
    ensures { (program : Program) (c : ComId) (contents : Contents) (records : List Record) (h : Hist) → after program c contents records ≡ Some h → cells program c (Some (first_hist program c).plain) (touches program c contents (Some (first_hist program c)) records) ≡ Some h.plain }
{}
