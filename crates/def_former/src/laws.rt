ghost use Rattle.def_former.specs.Laws.{MigratedReadsTheSame};
ghost use Rattle.def_former.specs.Opening.{UnopenedIsRefused, OpeningLeavesWholeOrRefused};

/// The file that stands for a log of the former format has the same records.
pub fn migrated_reads_the_same()
    ensures { MigratedReadsTheSame }
{}

/// A new log is refused as long as its first letter isn't there.
pub fn is_opened_by_its_first_letter()
    ensures before { UnopenedIsRefused }
    ensures within { OpeningLeavesWholeOrRefused }
{}
