//! The crash-free world, its step and run, and the merged history of logs.
#![tactic(auto)]

ghost use Rattle.std.specs.Prelude.{◌≡◌, List, [], ◌∷◌, ◌++◌, Ok, Err};
ghost use Rattle.std.specs.List.Sorted.{IsStableBy};
ghost use Rattle.ic_base.specs.declared.messages.Entry.{Entry};
ghost use Rattle.ic_base.specs.declared.messages.Act.TheVariants as A;
ghost use Rattle.ic_base.specs.declared.record.Record.{Record};
ghost use Rattle.std.specs.declared.alloc.Global.{Global};
ghost use Rattle.ic_base.specs.declared.scenario.Program.{Program};
ghost use Rattle.def_plain.specs.Plain.{plain_run_of, first_world};
ghost use Rattle.def_plain.specs.History.{entry, is_before, entries_from, history_of, IsOrdered};
ghost use Rattle.def_plain.specs.Scenes.{com_at, tally, two_inputs, summed, trade, one_order, ordered, order_logs, payment, one_payment, paid, payment_logs};

mod world;

pub use world::{InHand, PlainCom, PlainPcom, PlainWorld, Receipts};

/// Without entries the world stays as it was first.
pub fn nothing_happens()
    ensures { (program : Program) → plain_run_of program [] ≡ Ok (first_world program) }
{}

/// Two inputs are summed.
pub fn two_inputs_are_summed()
    ensures { (a : Global) → plain_run_of (tally a) two_inputs ≡ Ok summed }
{}

/// An order goes to the store, and what is left comes back and is shown.
pub fn an_order_is_served()
    ensures { (a : Global) → plain_run_of (trade a) one_order ≡ Ok ordered }
{}

/// A payment that commits moves the amount in the ledger.
pub fn a_payment_is_made()
    ensures { (a : Global) → plain_run_of (payment a) one_payment ≡ Ok paid }
{}

/// The merged history is ordered by stamp and component, entries that tie stay in the order of their log, and no other list is so.
pub fn a_history_is_in_order()
    ensures ordered { (program : Program) (logs : List (List Record)) → IsOrdered is_before (history_of program logs) }
    ensures stable { (program : Program) (logs : List (List Record)) → IsStableBy is_before (entries_from 0 program.components logs) (history_of program logs) }
    ensures only { (program : Program) (logs : List (List Record)) (entries : List Entry) → IsOrdered is_before entries → IsStableBy is_before (entries_from 0 program.components logs) entries → entries ≡ history_of program logs }
{}

/// Logs of the shop, the store and the desk give their entries by stamp; a payment's log gives its commit at the bank.
pub fn small_logs_have_histories()
    ensures order { (a : Global) → history_of (trade a) order_logs ≡ one_order }
    ensures payment { (a : Global) → history_of (payment a) payment_logs ≡ one_payment }
{}

/// The first entry that has no step is named.
pub fn an_entry_without_a_step_is_named()
    ensures abort { (a : Global) → plain_run_of (tally a) (entry (com_at 0) 1 (A.Abort 1) ∷ []) ≡ Err 0 }
    ensures take { (a : Global) → plain_run_of (trade a) (entry (com_at 2) 1 (A.Take (com_at 1) 1) ∷ []) ≡ Err 0 }
    ensures arity { (a : Global) → plain_run_of (tally a) (entry (com_at 0) 1 (A.Input 0 []) ∷ []) ≡ Err 0 }
    ensures again { (a : Global) → plain_run_of (trade a) (one_order ++ entry (com_at 2) 4 (A.Take (com_at 1) 1) ∷ []) ≡ Err 3 }
    ensures commit { (a : Global) → plain_run_of (payment a) (entry (com_at 0) 1 (A.Commit (com_at 1) 1) ∷ []) ≡ Err 0 }
{}
