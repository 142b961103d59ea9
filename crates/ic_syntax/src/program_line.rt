use ic_base::{ComId, Expr, Kind, Name, Operands};

/// A line of a program, in which each name stands for what it names.
#[derive(Debug, Drop)]
pub enum Line {
    /// A component, and whether it is immediate.
    Head(Name, Kind, bool),
    Var(Name, i64),
    Key(Name, i64),
    /// A handler with the number of its parameters.
    On(Name, u8),
    Set(u8, Expr),
    Send(ComId, u8, Operands),
    Out(ComId, Operands),
    If(Expr),
    Txn(ComId),
    /// The local and the key.
    Get(u16, u16),
    Put(u16, Expr),
    /// The line in the text and the value.
    Need(u32, Expr),
    Else,
    End,
}
