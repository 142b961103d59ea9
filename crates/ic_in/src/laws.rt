ghost use Rattle.std.specs.Prelude.{ℕ};
ghost use Rattle.def_state.specs.Inbox as state;
ghost use Rattle.ic_in.specs.Laws.{TellsTheFirst, TellsAll};

/// Telling the senders one at a time until there is nothing more to tell tells them all of it, in order.
pub fn senders_are_told_one_by_one()
    ensures first { (i : state.Inbox) (forced : ℕ) → TellsTheFirst i forced }
    ensures all { (i : state.Inbox) (forced n : ℕ) → TellsAll i forced n }
{}
