ghost use Rattle.std.specs.Prelude.{◌≡◌};
ghost use Rattle.def_step.specs.Tcom as step;

use ic_base::ComId;
use std::marker::Model;

/// The n-th transaction of a Pcom, on a Tcom.
#[derive(Clone, Copy, Debug)]
pub(crate) struct Transaction {
    pub tcom: ComId,
    pub peer: ComId,
    pub n: u64,
}

/// A decided transaction of a Pcom, with the stamp of its commit.
#[derive(Clone, Copy, Debug)]
pub(crate) struct Verdict {
    pub peer: ComId,
    pub n: u64,
    pub stamp: u64,
}

impl Verdict {
    /// Whether it decides this transaction.
    pub(crate) fn is_of(&self, c: ComId, n: u64) -> bool
        ensures { result ≡ step.is_of c n self.now }
    {
        c == self.peer && n == self.n
    }
}

impl Model for Verdict {
    ghost use Rattle.def_step.specs.Tcom.{Verdict};

    ghost Value = { Verdict };

    ghost view = { λ v. record { peer = v.peer; n = v.n; stamp = v.stamp } };

    ghost inverse = { λ v. record { peer = v.peer; n = v.n; stamp = v.stamp } };
}
