use ic_standby::Standby;

/// A standby; or, where it has taken over, how many records were shipped to it.
#[derive(Drop)]
pub(crate) enum Side {
    Stands(Standby),
    Gone(u64),
}

impl Side {
    ghost use Rattle.std.specs.Prelude.{◌≡◌};
    ghost use Rattle.ic_failover.specs.Sides.{shipped_of};

    /// How many records its shipments played.
    pub(crate) fn shipped(&self) -> u64
        ensures { result ≡ shipped_of self.now }
    {
        match self {
            Side::Stands(standby) => standby.have(),
            Side::Gone(shipped) => *shipped,
        }
    }
}
