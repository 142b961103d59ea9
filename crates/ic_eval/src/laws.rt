ghost use Rattle.ic_eval.specs.Laws.{ExcludeEachOther, IgnoresSurplus, IsDetermined, AsksNoMore, AsksFew, IsWholeWhereReady, IsReadyWhereWhole};

/// Asks, Ready, NeedFails and Ends exclude each other.
pub fn exclude_each_other()
    ensures { ExcludeEachOther }
{}

/// More answers only matter where one was missing, in the present part and in each committed result.
pub fn ignores_surplus()
    ensures { IgnoresSurplus }
{}

/// Each request of a part is determined by the answers before it.
pub fn is_determined()
    ensures { IsDetermined }
{}

/// A part makes fewer than `limits::REQUESTS`, where its handler has at most `limits::STATEMENTS`.
pub fn asks_few()
    ensures bound { AsksNoMore }
    ensures requests { AsksFew }
{}

/// A part is whole on a ledger exactly where it is ready with what its requests get there in order.
pub fn is_whole_where_ready()
    ensures whole { IsWholeWhereReady }
    ensures ready { IsReadyWhereWhole }
{}
