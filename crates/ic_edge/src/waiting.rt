use ic_base::Output;
use std::marker::Model;

/// An output that may be shown once the log is forced up to the position `at`.
#[derive(Clone, Copy, Debug)]
pub(crate) struct Waiting {
    pub output: Output,
    pub at: u64,
}

impl Model for Waiting {
    ghost use Rattle.def_state.specs.Shelf.{Waiting};

    ghost Value = { Waiting };

    ghost view = { λ w. record { output = w.output; at = w.at } };

    ghost inverse = { λ w. record { output = w.output; at = w.at } };
}
