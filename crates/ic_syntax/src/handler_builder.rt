ghost use Rattle.std.specs.Prelude.{◌≡◌, [], ◌∷◌, ◌++◌, ◌↔◌, IsTrue, IfOk, IsSome, Some};
ghost use Rattle.def_syntax.specs.Lines.{stmt_lines, body_lines, handler_lines, On, If, Txn, Else, End};
ghost use Rattle.ic_syntax.specs.Views.{line_seen, outer_lines, script_lines};
ghost use Rattle.ic_syntax.specs.BuilderStates.{First, Second, part_of, parts_behind, script_parts};

use crate::Line;
use ic_base::{Body, ComId, Expr, Handler, Name, Stmt};
use std::alloc::{AllocError, Global};

/// Statements, and behind them an `if` or a `txn` whose first or second part is open.
#[derive(Debug, Drop)]
pub enum OpenBlock {
    /// The part of an `if` on this value.
    Then(Vec<Stmt>, Expr),
    /// What stands behind its `else`; the first part is this one.
    Else(Vec<Stmt>, Expr, Body),
    /// The part of a `txn` with this Tcom.
    Part(Vec<Stmt>, ComId),
    /// What stands behind its `else`; the first part is this one.
    Other(Vec<Stmt>, ComId, Body),
}

/// An open handler: what is around the innermost open part, the outermost first, and the statements of that part.
#[derive(Debug, Drop)]
pub struct HandlerBuilder {
    pub name: Name,
    pub params: u8,
    pub outer: Vec<OpenBlock>,
    pub body: Vec<Stmt>,
}

/// The same with its second part open, behind the first one.
fn turned(outer: OpenBlock, first: Body) -> OpenBlock
    requires { part_of outer ≡ First }
    ensures lines { outer_lines result ≡ outer_lines outer ++ (body_lines first.stmts.items ++ Else ∷ []) }
    ensures part { part_of result ≡ Second }
{
    match outer {
        OpenBlock::Then(before, e) => OpenBlock::Else(before, e, first),
        OpenBlock::Part(before, t) => OpenBlock::Other(before, t, first),
        OpenBlock::Else(..) | OpenBlock::Other(..) => unreachable!(),
    }
}

#[tactic(auto, using(def_syntax::proofs::Bodies::body_lines_push))]
fn with_last(mut before: Vec<Stmt>, stmt: Stmt) -> Result<Vec<Stmt>, AllocError>
    ensures { IfOk result (λ v. body_lines v.items ≡ body_lines before.items ++ stmt_lines stmt) }
{
    before.push(stmt)?;
    Ok(before)
}

/// The statements with the ended one, behind its second part.
fn closed(outer: OpenBlock, second: Body) -> Result<Vec<Stmt>, AllocError>
    requires { part_of outer ≡ Second }
    ensures { IfOk result (λ v. body_lines v.items ≡ outer_lines outer ++ (body_lines second.stmts.items ++ End ∷ [])) }
{
    match outer {
        OpenBlock::Else(before, e, first) => with_last(before, Stmt::If(e, first, second)),
        OpenBlock::Other(before, t, first) => with_last(before, Stmt::Txn(t, first, second)),
        OpenBlock::Then(..) | OpenBlock::Part(..) => unreachable!(),
    }
}

impl HandlerBuilder {
    /// The handler of this `on` line, with its number of parameters and no statement yet.
    pub fn begin(alloc: Global, name: Name, params: u8) -> HandlerBuilder
        ensures lines { script_lines result ≡ On name params ∷ [] }
        ensures parts { script_parts result ≡ [] }
    {
        HandlerBuilder {
            name,
            params,
            outer: Vec::new(alloc),
            body: Vec::new(alloc),
        }
    }

    fn with_stmt(self, stmt: Stmt) -> Result<HandlerBuilder, AllocError>
        ensures lines { IfOk result (λ s. script_lines s ≡ script_lines self ++ stmt_lines stmt) }
        ensures parts { IfOk result (λ s. script_parts s ≡ script_parts self) }
    {
        let HandlerBuilder {
            name,
            params,
            outer,
            body,
        } = self;
        let body = with_last(body, stmt)?;
        Ok(HandlerBuilder {
            name,
            params,
            outer,
            body,
        })
    }

    fn with_if(self, alloc: Global, e: Expr) -> Result<HandlerBuilder, AllocError>
        ensures lines { IfOk result (λ s. script_lines s ≡ script_lines self ++ If e ∷ []) }
        ensures parts { IfOk result (λ s. script_parts s ≡ First ∷ script_parts self) }
    {
        let HandlerBuilder {
            name,
            params,
            mut outer,
            body,
        } = self;
        outer.push(OpenBlock::Then(body, e))?;
        Ok(HandlerBuilder {
            name,
            params,
            outer,
            body: Vec::new(alloc),
        })
    }

    fn with_txn(self, alloc: Global, t: ComId) -> Result<HandlerBuilder, AllocError>
        ensures lines { IfOk result (λ s. script_lines s ≡ script_lines self ++ Txn t ∷ []) }
        ensures parts { IfOk result (λ s. script_parts s ≡ First ∷ script_parts self) }
    {
        let HandlerBuilder {
            name,
            params,
            mut outer,
            body,
        } = self;
        outer.push(OpenBlock::Part(body, t))?;
        Ok(HandlerBuilder {
            name,
            params,
            outer,
            body: Vec::new(alloc),
        })
    }

    fn with_else(self, alloc: Global) -> Result<HandlerBuilder, AllocError>
        requires { IsSome (parts_behind Else (script_parts self)) }
        ensures lines { IfOk result (λ s. script_lines s ≡ script_lines self ++ Else ∷ []) }
        ensures parts { IfOk result (λ s. parts_behind Else (script_parts self) ≡ Some (script_parts s)) }
    {
        let HandlerBuilder {
            name,
            params,
            mut outer,
            body,
        } = self;
        let Some(inner) = outer.pop() else {
            unreachable!()
        };
        let other = turned(inner, Body { stmts: body });
        outer.push(other)?;
        Ok(HandlerBuilder {
            name,
            params,
            outer,
            body: Vec::new(alloc),
        })
    }

    /// Ends the innermost open part, a second one.
    fn with_end(self) -> Result<HandlerBuilder, AllocError>
        requires { IsSome (parts_behind End (script_parts self)) }
        ensures lines { IfOk result (λ s. script_lines s ≡ script_lines self ++ End ∷ []) }
        ensures parts { IfOk result (λ s. parts_behind End (script_parts self) ≡ Some (script_parts s)) }
    {
        let HandlerBuilder {
            name,
            params,
            mut outer,
            body,
        } = self;
        let Some(inner) = outer.pop() else {
            unreachable!()
        };
        let before = closed(inner, Body { stmts: body })?;
        Ok(HandlerBuilder {
            name,
            params,
            outer,
            body: before,
        })
    }

    /// A line inside the handler.
    pub fn with_line(self, alloc: Global, line: Line) -> Result<HandlerBuilder, AllocError>
        requires { IsSome (parts_behind (line_seen line) (script_parts self)) }
        ensures lines { IfOk result (λ s. script_lines s ≡ script_lines self ++ line_seen line ∷ []) }
        ensures parts { IfOk result (λ s. parts_behind (line_seen line) (script_parts self) ≡ Some (script_parts s)) }
    {
        match line {
            Line::Set(v, e) => self.with_stmt(Stmt::Set(v, e)),
            Line::Send(p, h, xs) => self.with_stmt(Stmt::Send(p, h, xs)),
            Line::Out(x, xs) => self.with_stmt(Stmt::Out(x, xs)),
            Line::Get(n, k) => self.with_stmt(Stmt::Get(n, k)),
            Line::Put(k, e) => self.with_stmt(Stmt::Put(k, e)),
            Line::Need(at, e) => self.with_stmt(Stmt::Need(at, e)),
            Line::If(e) => self.with_if(alloc, e),
            Line::Txn(t) => self.with_txn(alloc, t),
            Line::Else => self.with_else(alloc),
            Line::End => self.with_end(),
            Line::Head(..) | Line::Var(..) | Line::Key(..) | Line::On(..) => unreachable!(),
        }
    }

    /// Whether no part is open.
    pub fn is_flat(&self) -> bool
        ensures { IsTrue result ↔ (script_parts self.now ≡ []) }
    {
        self.outer.is_empty()
    }

    /// The handler, ended where no part is open.
    pub fn ended(self) -> Handler
        requires { script_parts self ≡ [] }
        ensures { handler_lines result ≡ script_lines self ++ End ∷ [] }
    {
        Handler {
            name: self.name,
            params: self.params,
            body: Body { stmts: self.body },
        }
    }
}
