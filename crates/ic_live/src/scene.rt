use std::marker::Brand;

/// What all berths of one run carry, for contracts alone.
pub trait Scene {
    ghost use Rattle.std.specs.Prelude.{ℕ, List};
    ghost use Rattle.atomic_table.specs.Seated.{TableId};
    ghost use Rattle.ic_base.specs.declared.events.Event.{Event};
    ghost use Rattle.ic_base.specs.declared.messages.ComId.{ComId};
    ghost use Rattle.ic_base.specs.declared.scenario.Program.{Program};

    ghost program: { Program };

    ghost fingerprint: { List ℕ };

    /// The list of each component.
    ghost plan: { ComId → List Event };

    /// The lane of each ordered pair of berths, by their places.
    ghost lane: { ℕ → ℕ → TableId };

    /// How often the disk of the berth in each place had failed as the run began.
    ghost began: { ℕ → ℕ };
}

impl Scene for Brand {
    ghost use Rattle.std.specs.Prelude.{[]};

    ghost program = { record { components = [] } };

    ghost fingerprint = { [] };

    ghost plan = { λ c. [] };

    ghost lane = { λ i j. record { words = 0; slots = 0; views_name = 0; atom = 0; block = 0; offset = 0; slot_names = [] } };

    ghost began = { λ k. 0 };
}
