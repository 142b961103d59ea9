ghost use Rattle.std.specs.Prelude.{◌≡◌, ◌∷◌, ◌++◌, length, codes};
ghost use Rattle.ic_base.specs.declared.limits.TheConstants.{COMPONENTS, HANDLERS, STATEMENTS, NESTING, VALUES, VARIABLES, KEYS, NAME_CHARACTERS};
ghost use Rattle.ic_base.specs.declared.refusals.Cause.TheVariants.{NotText, Word, Limit};
ghost use Rattle.def_syntax.specs.Scenario.{IsRefused};
ghost use Rattle.ic_syntax.specs.Laws.{IsNeverBoth, IsOneOrOther, IsLeastFault, HasOneProgram, IsRefusedTooLong, IsGrammatical, HaveLimits, HasAnyLength, IsReached, SomeComponent, SomeHandler, SomeLine, IsIf, IsTxn, IsSend, IsOut};

/// No text is both a scenario and refused.
pub fn never_both()
    ensures { IsNeverBoth }
{}

/// Every text is a scenario or refused.
pub fn one_or_other()
    ensures { IsOneOrOther }
{}

/// A text is refused for its length, or where the least of its lines that is at fault says so, and only there.
pub fn least_fault()
    ensures { IsLeastFault }
{}

/// Some texts that are refused: for a byte in a comment, for a word, for a ninth parameter, for the first cause of a line, and
/// for the least of two lines.
pub fn refusals()
    ensures not_text { IsRefused (codes "xcom a\n# " ++ 1 ∷ codes "\n") 2 NotText }
    ensures word { IsRefused (codes "xcom a\nxcom B\n") 2 Word }
    ensures limit { IsRefused (codes "pcom p\n on go a b c d e f g h i\n end\nend\n") 2 Limit }
    ensures first { IsRefused (codes "xcom A" ++ 1 ∷ codes "\n") 1 NotText }
    ensures least { IsRefused (codes "xcom A\n" ++ 1 ∷ codes "\n") 1 Word }
{}

/// A text stands for one program.
pub fn one_program()
    ensures { HasOneProgram }
{}

/// No text of more than `limits::TEXT_BYTES` is a scenario.
pub fn refused_too_long()
    ensures { IsRefusedTooLong }
{}

/// The grammar by relations gives a text the programs for which it stands, and no others.
pub fn grammatical()
    ensures { IsGrammatical }
{}

/// No program of a scenario passes a limit.
pub fn limited()
    ensures { HaveLimits }
{}

/// A text may have any length up to the limit.
pub fn any_length()
    ensures { HasAnyLength }
{}

/// Each other limit is reached by some text.
pub fn reached()
    ensures components { IsReached (λ p. length p.components ≡ COMPONENTS) }
    ensures handlers { IsReached (SomeComponent (λ c. length c.handlers ≡ HANDLERS)) }
    ensures statements { IsReached (SomeHandler (λ h. length h.body.stmts.items ≡ STATEMENTS)) }
    ensures choices { IsReached (SomeLine (IsIf NESTING)) }
    ensures transactions { IsReached (SomeLine (IsTxn NESTING)) }
    ensures params { IsReached (SomeHandler (λ h. h.params ≡ VALUES)) }
    ensures sent { IsReached (SomeLine (IsSend VALUES)) }
    ensures shown { IsReached (SomeLine (IsOut VALUES)) }
    ensures vars { IsReached (SomeComponent (λ c. length c.vars ≡ VARIABLES)) }
    ensures keys { IsReached (SomeComponent (λ c. length c.keys ≡ KEYS)) }
    ensures name { IsReached (SomeComponent (λ c. length c.name ≡ NAME_CHARACTERS)) }
{}
