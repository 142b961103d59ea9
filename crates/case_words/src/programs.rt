use crate::Words;
use ic_base::{
    Body, Cells, ComId, Component, Components, Expr, Handler, Handlers, Items, Kind, Op, Operand,
    Operands, Program, Stmt,
};
use std::alloc::{AllocError, Global};
use std::mem;

/// The parts of a program that are read so far. Each part stands before the whole to which it belongs.
#[derive(Drop)]
struct Parts {
    /// The lists of statements that no statement or handler has yet, the inmost last.
    bodies: Vec<Body>,
    handlers: Handlers,
    vars: Cells,
    keys: Cells,
    components: Components,
}

/// An operand: `n VALUE`, `v VARIABLE`, `p PARAMETER` or `l LOCAL`.
fn operand(words: &mut Words<'_>) -> Operand {
    match words.word() {
        "v" => Operand::Var(words.byte()),
        "p" => Operand::Param(words.byte()),
        "l" => Operand::Local(words.place()),
        _ => Operand::Number(words.value()),
    }
}

fn operator(word: &str) -> Option<Op> {
    match word {
        "+" => Some(Op::Add),
        "-" => Some(Op::Sub),
        "*" => Some(Op::Mul),
        "<" => Some(Op::Less),
        "<=" => Some(Op::AtMost),
        "=" => Some(Op::Equal),
        "!=" => Some(Op::NotEqual),
        ">=" => Some(Op::AtLeast),
        ">" => Some(Op::Greater),
        _ => None,
    }
}

/// What is computed: `one OPERAND` or an operator and two operands.
fn expr(words: &mut Words<'_>) -> Expr {
    match operator(words.word()) {
        Some(op) => {
            let left = operand(words);
            Expr::Two(left, op, operand(words))
        }
        None => Expr::One(operand(words)),
    }
}

/// So many operands.
fn operands(alloc: Global, words: &mut Words<'_>) -> Result<Operands, AllocError> {
    let mut items = Vec::new(alloc);
    for _ in 0..words.byte() {
        items.push(operand(words))?;
    }
    match Operands::of(items) {
        Some(operands) => Ok(operands),
        None => Err(AllocError),
    }
}

/// A variable or a key of this value.
fn add_cell(alloc: Global, cells: &mut Cells, words: &mut Words<'_>) -> Result<(), AllocError> {
    cells.push((Items::new(alloc), words.value()))?;
    Ok(())
}

fn kind(words: &mut Words<'_>) -> Kind {
    match words.word() {
        "pcom" => Kind::Pcom,
        "tcom" => Kind::Tcom,
        _ => Kind::Xcom,
    }
}

impl Parts {
    fn new(alloc: Global) -> Parts {
        Parts {
            bodies: Vec::new(alloc),
            handlers: Handlers::new(alloc),
            vars: Cells::new(alloc),
            keys: Cells::new(alloc),
            components: Components::new(alloc),
        }
    }

    /// The inmost list of statements.
    fn body(&mut self, alloc: Global) -> Body {
        match self.bodies.pop() {
            Some(body) => body,
            None => Body {
                stmts: Vec::new(alloc),
            },
        }
    }

    /// A statement with two lists, the second of which is the inmost one.
    fn branch(&mut self, alloc: Global, what: &str, words: &mut Words<'_>) -> Stmt {
        let other = self.body(alloc);
        let first = self.body(alloc);
        if what == "if" {
            Stmt::If(expr(words), first, other)
        } else {
            Stmt::Txn(words.com(), first, other)
        }
    }

    fn statement(
        &mut self,
        alloc: Global,
        what: &str,
        words: &mut Words<'_>,
    ) -> Result<Option<Stmt>, AllocError> {
        Ok(match what {
            "set" => Some(Stmt::Set(words.byte(), expr(words))),
            "send" => {
                let (to, handler) = (words.com(), words.byte());
                Some(Stmt::Send(to, handler, operands(alloc, words)?))
            }
            "out" => Some(Stmt::Out(words.com(), operands(alloc, words)?)),
            "get" => Some(Stmt::Get(words.place(), words.place())),
            "put" => Some(Stmt::Put(words.place(), expr(words))),
            "need" => Some(Stmt::Need(words.medium(), expr(words))),
            "if" | "txn" => Some(self.branch(alloc, what, words)),
            _ => None,
        })
    }

    /// Begins a list of statements.
    fn begin_body(&mut self, alloc: Global) -> Result<(), AllocError> {
        self.bodies.push(Body {
            stmts: Vec::new(alloc),
        })?;
        Ok(())
    }

    /// A handler of the list before it.
    fn handler(&mut self, alloc: Global, words: &mut Words<'_>) -> Result<(), AllocError> {
        let body = self.body(alloc);
        self.handlers.push(Handler {
            name: Items::new(alloc),
            params: words.byte(),
            body,
        })?;
        Ok(())
    }

    /// A component of the variables, keys and handlers before it.
    fn component(&mut self, alloc: Global, words: &mut Words<'_>) -> Result<(), AllocError> {
        let component = Component {
            name: Items::new(alloc),
            kind: kind(words),
            immediate: words.flag(),
            vars: mem::replace(&mut self.vars, Cells::new(alloc)),
            keys: mem::replace(&mut self.keys, Cells::new(alloc)),
            handlers: mem::replace(&mut self.handlers, Handlers::new(alloc)),
        };
        self.components.push(component)?;
        Ok(())
    }

    /// Adds what stands behind a word.
    fn add(&mut self, alloc: Global, what: &str, words: &mut Words<'_>) -> Result<(), AllocError> {
        match what {
            "[" => self.begin_body(alloc),
            "var" => add_cell(alloc, &mut self.vars, words),
            "key" => add_cell(alloc, &mut self.keys, words),
            "handler" => self.handler(alloc, words),
            "component" => self.component(alloc, words),
            _ => self.add_statement(alloc, what, words),
        }
    }

    /// Puts a statement behind those of the inmost list.
    fn add_statement(
        &mut self,
        alloc: Global,
        what: &str,
        words: &mut Words<'_>,
    ) -> Result<(), AllocError> {
        let Some(stmt) = self.statement(alloc, what, words)? else {
            return Ok(());
        };
        let mut body = self.body(alloc);
        body.stmts.push(stmt)?;
        self.bodies.push(body)?;
        Ok(())
    }
}

/// The program that the words are. A list of statements begins with `[`; `if` and `txn` take the two lists before them, a
/// handler the list before it, and a component the variables, keys and handlers before it.
pub fn program(alloc: Global, words: &mut Words<'_>) -> Result<Program, AllocError> {
    let mut parts = Parts::new(alloc);
    for _ in 0..100_000_u32 {
        let what = words.word();
        if what.is_empty() {
            break;
        }
        parts.add(alloc, what, words)?;
    }
    Ok(Program {
        components: parts.components,
    })
}
