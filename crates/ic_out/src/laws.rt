ghost use Rattle.std.specs.Prelude.{ℕ};
ghost use Rattle.def_state.specs.Outbox as state;
ghost use Rattle.ic_out.specs.Laws.{TakesTheFirst, TakesAll};

/// Taking the due messages one at a time until there is none gives all of them, in order, and each gets its put mark.
pub fn due_messages_leave_one_by_one()
    ensures first { (o : state.Outbox) (forced : ℕ) → TakesTheFirst o forced }
    ensures all { (o : state.Outbox) (forced n : ℕ) → TakesAll o forced n }
{}
