use ic_base::{Items, Name, Op};

/// An operand as it is written.
#[derive(Debug, Drop)]
pub enum RawOperand {
    Digits(i64),
    Named(Name),
}

/// An expression as it is written.
#[derive(Debug, Drop)]
pub enum RawExpr {
    Single(RawOperand),
    Double(RawOperand, Op, RawOperand),
}

pub type Names = Items<Name>;

pub type Terms = Items<RawOperand>;

/// What one line of a scenario says, with the names that it uses.
#[derive(Debug, Drop)]
pub enum SyntaxLine {
    Xcom(Name),
    Tcom(Name),
    /// The name, and whether it is immediate.
    Pcom(Name, bool),
    Key(Name, i64),
    Var(Name, i64),
    /// A handler and its parameters.
    On(Name, Names),
    Set(Name, RawExpr),
    /// The receiver, its handler and the arguments.
    Send(Name, Name, Terms),
    /// The Xcom and the values to show.
    Out(Name, Terms),
    If(RawExpr),
    /// The Tcom.
    Txn(Name),
    /// The local and the key.
    Get(Name, Name),
    /// The key and its new value.
    Put(Name, RawExpr),
    /// What mustn't be 0.
    Need(RawExpr),
    Else,
    End,
}
