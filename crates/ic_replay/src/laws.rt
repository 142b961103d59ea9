ghost use Rattle.ic_replay.specs.Laws.{AppliesTheRecord, AppliesTheNeed};

/// A record that is applied as it was prepared does what the record does. So does an abort for a need that fails with a
/// value, prepared in the state before that value.
pub fn what_is_prepared_is_recorded()
    ensures applied { AppliesTheRecord }
    ensures need { AppliesTheNeed }
{}
