ghost use Rattle.std.specs.Prelude.{◌≡◌, ◌≤◌, [], ◌∷◌, option_map, length, Ok, IfOk, false};
ghost use Rattle.ic_base.specs.declared.limits.TheConstants.{VALUES};
ghost use Rattle.def_syntax.specs.Scope.{latest, names, passes};
ghost use Rattle.def_syntax.specs.Text.{look_up};
ghost use Rattle.def_syntax.specs.SyntaxLines.{both};
ghost use Rattle.def_syntax.specs.Lines.{On, Set, Send, Out, If, Txn, Get, Put, Need};
ghost use Rattle.def_syntax.specs.Names.{found, place_of, com_id, one_line, sent, meaning, operand_of, operands_of, expr_of, key_of, sent_to, resolved};
ghost use Rattle.ic_items.specs.Views.{term_seen, terms_seen, formula_seen, item_seen};
ghost use Rattle.ic_syntax.specs.ResolvedLine.{Means, MeansInPlace, Stands, StandsAlone, StandsInPlace, said_lines};

use crate::Line;
use ic_base::{Cause, ComId, Expr, Kind, Name, Operand, Operands};
use ic_items::{Components, Declared, Fault, RawExpr, RawOperand, Scope, SyntaxLine, copied};
use std::alloc::Global;

/// What a line stands for.
#[derive(Debug, Drop)]
pub enum ResolvedLine {
    Nothing,
    One(Line),
    Two(Line, Line),
}

/// What a name stands for in an operand.
fn meaning(seen: &Scope, name: &Name) -> Result<Operand, Fault>
    ensures { MeansInPlace (λ o. o) (meaning seen.now name.now) result }
{
    if let Some(i) = seen.place_of_var(name) {
        return Ok(Operand::Var(i));
    }
    if let Some(i) = seen.place_of_param(name) {
        return Ok(Operand::Param(i));
    }
    match seen.local(name) {
        Some(n) => Ok(Operand::Local(n)),
        None => Err(Fault(Cause::Unknown)),
    }
}

fn operand_of(seen: &Scope, term: &RawOperand) -> Result<Operand, Fault>
    ensures { MeansInPlace (λ o. o) (operand_of seen.now (term_seen term.now)) result }
{
    match term {
        RawOperand::Digits(z) => Ok(Operand::Number(*z)),
        RawOperand::Named(n) => meaning(seen, n),
    }
}

fn operands_of(alloc: Global, seen: &Scope, terms: &[RawOperand]) -> Result<Vec<Operand>, Fault>
    ensures means { Means (λ v. v.items) (operands_of seen.now (terms_seen terms.now)) result }
    ensures length { IfOk result (λ v. length v.items ≡ length terms.now) }
{
    let mut operands = Vec::new(alloc);
    for term in terms {
        operands.push(operand_of(seen, term)?)?;
    }
    Ok(operands)
}

fn expr_of(seen: &Scope, formula: &RawExpr) -> Result<Expr, Fault>
    ensures { MeansInPlace (λ e. e) (expr_of seen.now (formula_seen formula.now)) result }
{
    match formula {
        RawExpr::Single(x) => Ok(Expr::One(operand_of(seen, x)?)),
        RawExpr::Double(x, op, y) => {
            let left = operand_of(seen, x)?;
            let right = operand_of(seen, y)?;
            Ok(Expr::Two(left, *op, right))
        }
    }
}

fn variable(seen: &Scope, name: &Name) -> Result<u8, Fault>
    ensures { MeansInPlace (λ i. i) (place_of name.now (latest seen.now).vars) result }
{
    match seen.place_of_var(name) {
        Some(i) => Ok(i),
        None => Err(Fault(Cause::Unknown)),
    }
}

fn key_of(all: &Components, seen: &Scope, name: &Name) -> Result<u16, Fault>
    ensures { MeansInPlace (λ i. i) (key_of all.now seen.now name.now) result }
{
    match all.find(Kind::Tcom, seen.tcom()) {
        Some((_, tcom)) => match tcom.place_of_key(name) {
            Some(i) => Ok(i),
            None => Err(Fault(Cause::Unknown)),
        },
        None => Err(Fault(Cause::Unknown)),
    }
}

#[tactic(auto, unfolding(def_syntax::specs::Names::resolved))]
fn set_line(seen: &Scope, v: &Name, e: &RawExpr) -> Result<Line, Fault>
    ensures { StandsInPlace (one_line (both Set (place_of v.now (latest seen.now).vars) (expr_of seen.now (formula_seen e.now)))) result }
{
    let variable = variable(seen, v)?;
    Ok(Line::Set(variable, expr_of(seen, e)?))
}

fn if_line(seen: &Scope, e: &RawExpr) -> Result<Line, Fault>
    ensures { StandsInPlace (one_line (option_map If (expr_of seen.now (formula_seen e.now)))) result }
{
    Ok(Line::If(expr_of(seen, e)?))
}

fn need_line(seen: &Scope, number: u32, e: &RawExpr) -> Result<Line, Fault>
    ensures { StandsInPlace (one_line (option_map (Need number) (expr_of seen.now (formula_seen e.now)))) result }
{
    Ok(Line::Need(number, expr_of(seen, e)?))
}

fn get_line(all: &Components, seen: &Scope, k: &Name) -> Result<Line, Fault>
    ensures { StandsInPlace (one_line (option_map (Get seen.now.gets) (key_of all.now seen.now k.now))) result }
{
    Ok(Line::Get(seen.gets(), key_of(all, seen, k)?))
}

fn put_line(all: &Components, seen: &Scope, k: &Name, e: &RawExpr) -> Result<Line, Fault>
    ensures { StandsInPlace (one_line (both Put (key_of all.now seen.now k.now) (expr_of seen.now (formula_seen e.now)))) result }
{
    let key = key_of(all, seen, k)?;
    Ok(Line::Put(key, expr_of(seen, e)?))
}

/// The number of the component of this kind and name.
fn number_of(all: &Components, kind: Kind, name: &Name) -> Result<ComId, Fault>
    ensures { MeansInPlace (λ c. c) (option_map (λ x. com_id x.0) (found kind name.now all.now)) result }
{
    match all.find(kind, name) {
        Some((i, _)) => Ok(ComId(i)),
        None => Err(Fault(Cause::Unknown)),
    }
}

fn txn_line(all: &Components, t: &Name) -> Result<Line, Fault>
    ensures { StandsInPlace (one_line (option_map (λ x. Txn (com_id x.0)) (found Kind.Tcom t.now all.now))) result }
{
    Ok(Line::Txn(number_of(all, Kind::Tcom, t)?))
}

/// Operands of which there are no more than eight.
fn few(operands: Vec<Operand>) -> Operands
    requires { length operands.items ≤ VALUES }
    ensures { result ≡ operands.items }
{
    match Operands::of(operands) {
        Some(few) => few,
        None => unreachable!(),
    }
}

fn out_line(
    alloc: Global,
    all: &Components,
    seen: &Scope,
    x: &Name,
    xs: &[RawOperand],
) -> Result<Line, Fault>
    requires { length xs.now ≤ VALUES }
    ensures { StandsAlone (one_line (both (λ c os. Out (com_id c.0) os) (found Kind.Xcom x.now all.now) (operands_of seen.now (terms_seen xs.now)))) result }
{
    let to = number_of(all, Kind::Xcom, x)?;
    let operands = operands_of(alloc, seen, xs)?;
    Ok(Line::Out(to, few(operands)))
}

/// A message to a handler of a component.
fn sent(
    alloc: Global,
    seen: &Scope,
    to: u8,
    receiver: &Declared,
    h: &Name,
    xs: &[RawOperand],
) -> Result<Line, Fault>
    ensures { StandsAlone (sent to (place_of h.now (names receiver.now.handlers)) (look_up h.now receiver.now.handlers) (operands_of seen.now (terms_seen xs.now))) result }
{
    let Some((handler, count)) = receiver.handler(h) else {
        return Err(Fault(Cause::Unknown));
    };
    let operands = operands_of(alloc, seen, xs)?;
    if operands.len() != usize::from(count) {
        return Err(Fault(Cause::Arity));
    }
    Ok(Line::Send(ComId(to), handler, few(operands)))
}

fn send_line(
    alloc: Global,
    all: &Components,
    seen: &Scope,
    p: &Name,
    h: &Name,
    xs: &[RawOperand],
) -> Result<Line, Fault>
    ensures { StandsAlone (sent_to seen.now h.now (terms_seen xs.now) (found Kind.Pcom p.now all.now)) result }
{
    match all.find(Kind::Pcom, p) {
        Some((to, receiver)) => sent(alloc, seen, to, receiver, h, xs),
        None => Err(Fault(Cause::Unknown)),
    }
}

fn on_line(alloc: Global, n: &Name, params: &[Name]) -> Result<Line, Fault>
    requires { length params.now ≤ VALUES }
    ensures { StandsAlone (Ok (On n.now (length params.now) ∷ [])) result }
{
    Ok(Line::On(copied(alloc, n)?, params.len() as u8))
}

/// What a line that passes no limit stands for behind the lines so far.
#[tactic(auto, unfolding(def_syntax::specs::Names::resolved, def_syntax::specs::Scope::passes))]
pub fn resolved(
    alloc: Global,
    all: &Components,
    seen: &Scope,
    number: u32,
    item: &SyntaxLine,
) -> Result<ResolvedLine, Fault>
    requires { passes seen.now (item_seen item.now) ≡ false }
    ensures { Stands (resolved all.now seen.now number (item_seen item.now)) result }
{
    match item {
        SyntaxLine::Xcom(n) => Ok(ResolvedLine::Two(
            Line::Head(copied(alloc, n)?, Kind::Xcom, false),
            Line::End,
        )),
        SyntaxLine::Tcom(n) => Ok(ResolvedLine::One(Line::Head(
            copied(alloc, n)?,
            Kind::Tcom,
            false,
        ))),
        SyntaxLine::Pcom(n, immediate) => Ok(ResolvedLine::One(Line::Head(
            copied(alloc, n)?,
            Kind::Pcom,
            *immediate,
        ))),
        SyntaxLine::Key(n, z) => Ok(ResolvedLine::One(Line::Key(copied(alloc, n)?, *z))),
        SyntaxLine::Var(n, z) => Ok(ResolvedLine::One(Line::Var(copied(alloc, n)?, *z))),
        SyntaxLine::On(n, params) => Ok(ResolvedLine::One(on_line(alloc, n, params.as_slice())?)),
        SyntaxLine::Set(v, e) => Ok(ResolvedLine::One(set_line(seen, v, e)?)),
        SyntaxLine::Send(p, h, xs) => Ok(ResolvedLine::One(send_line(
            alloc,
            all,
            seen,
            p,
            h,
            xs.as_slice(),
        )?)),
        SyntaxLine::Out(x, xs) => Ok(ResolvedLine::One(out_line(
            alloc,
            all,
            seen,
            x,
            xs.as_slice(),
        )?)),
        SyntaxLine::If(e) => Ok(ResolvedLine::One(if_line(seen, e)?)),
        SyntaxLine::Txn(t) => Ok(ResolvedLine::One(txn_line(all, t)?)),
        SyntaxLine::Get(_, k) => Ok(ResolvedLine::One(get_line(all, seen, k)?)),
        SyntaxLine::Put(k, e) => Ok(ResolvedLine::One(put_line(all, seen, k, e)?)),
        SyntaxLine::Need(e) => Ok(ResolvedLine::One(need_line(seen, number, e)?)),
        SyntaxLine::Else => Ok(ResolvedLine::One(Line::Else)),
        SyntaxLine::End => {
            if seen.is_in_then() {
                Ok(ResolvedLine::Two(Line::Else, Line::End))
            } else {
                Ok(ResolvedLine::One(Line::End))
            }
        }
    }
}
