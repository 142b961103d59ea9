ghost use Rattle.ic_migrate.specs.Migrations.{AllAreWholeOrSomeIsRefused};

/// Where each new log is whole or refused, all are whole, or some new log is refused: whoever finds one that is refused takes the new
/// files away and begins again.
pub fn all_are_whole_or_some_is_refused()
    ensures { AllAreWholeOrSomeIsRefused }
{}
