ghost use Rattle.std.specs.Prelude.{◌≡◌, ◌≤◌, ◌<◌, ℤ, List, IfSome, IfNone, length, map, drop, ◌++◌, ◌∷◌, [], IfOk, OnOk, IsTrue, get_or, slice_set, pos, None, Some, ⊤};
ghost use Rattle.def_play.specs.Playing as playing;
ghost use Rattle.ic_eval.specs.Views.{seen, bound_value, part_seen, turn_of, came};

use ic_base::{
    Args, Body, ComId, Done, Expr, Items, Op, Operand, Operands, Out, Outs, Played, Request, Send,
    Sends, Stmt, Vals,
};
use std::alloc::{AllocError, Global};

/// A local that a `get` has bound.
#[derive(Clone, Copy)]
pub struct Local {
    pub number: u16,
    pub value: i64,
}

/// What a handler is played with: its arguments, the results of the transactions that it has ended, and the answers
/// that its present one has got.
#[derive(Clone, Copy)]
pub(crate) struct Handling<'a> {
    pub args: Args,
    pub done: &'a [Done],
    pub answers: &'a [i64],
}

/// The transaction that is being played: its Tcom, and the answers of its requests.
#[derive(Clone, Copy)]
struct Part<'a> {
    tcom: ComId,
    answers: &'a [i64],
}

/// What a played handler has come to.
#[derive(Drop)]
pub struct Evaluation {
    pub vars: Vals,
    pub locals: Items<Local>,
    pub sends: Sends,
    pub outs: Outs,
    pub met: usize,
    pub place: usize,
}

fn item(items: &Vals, i: usize) -> i64
    ensures { result ≡ playing.value_at items.now i }
{
    let s = items.as_slice();
    if i < s.len() { s[i] } else { 0 }
}

fn bound(locals: &Items<Local>, i: u16) -> i64
    ensures { result ≡ bound_value locals.now i }
{
    let listed = locals.as_slice();
    match listed.iter().find(|local| local.number == i) {
        Some(local) => local.value,
        None => 0,
    }
}

fn operand_value(args: Args, course: &Evaluation, o: Operand) -> i64
    ensures { result ≡ playing.operand_value args (seen course.now []) o }
{
    match o {
        Operand::Number(n) => n,
        Operand::Var(i) => item(&course.vars, usize::from(i)),
        Operand::Param(i) => match args.get(usize::from(i)) {
            Some(v) => v,
            None => 0,
        },
        Operand::Local(i) => bound(&course.locals, i),
    }
}

fn truth(b: bool) -> i64
    ensures { result ≡ playing.truth b }
{
    if b { 1 } else { 0 }
}

fn op_value(op: Op, x: i64, y: i64) -> i64
    ensures { result ≡ playing.op_value op x y }
{
    match op {
        Op::Add => x.saturating_add(y),
        Op::Sub => x.saturating_sub(y),
        Op::Mul => x.saturating_mul(y),
        Op::Less => truth(x < y),
        Op::AtMost => truth(x <= y),
        Op::Equal => truth(x == y),
        Op::NotEqual => truth(x != y),
        Op::AtLeast => truth(x >= y),
        Op::Greater => truth(x > y),
    }
}

fn expr_value(args: Args, course: &Evaluation, e: Expr) -> i64
    ensures { result ≡ playing.expr_value args (seen course.now []) e }
{
    match e {
        Expr::One(a) => operand_value(args, course, a),
        Expr::Two(a, op, b) => {
            let x = operand_value(args, course, a);
            let y = operand_value(args, course, b);
            op_value(op, x, y)
        }
    }
}

fn put(items: &mut Vals, i: usize, v: i64)
    ensures { items.new ≡ slice_set items.old i v }
{
    if i < items.len() {
        items.replace(i, v);
    }
}

fn values_of(
    alloc: Global,
    args: Args,
    course: &Evaluation,
    operands: &Operands,
) -> Result<Args, AllocError>
    ensures { IfOk result (λ a. a ≡ map (playing.operand_value args (seen course.now [])) operands.now) }
{
    let mut values: Vec<i64> = Vec::new(alloc);
    let listed = operands.as_slice();
    for o in listed {
        values.push(operand_value(args, course, *o))?;
    }
    // Operands are at most eight, and so are their values.
    Ok(Args::of(values.as_slice()).unwrap())
}

/// Plays a `get`: binds its local to the answer, or asks for it.
fn played_get(
    number: u16,
    key: u16,
    part: &Part<'_>,
    course: &mut Evaluation,
) -> Result<Option<Played>, AllocError>
    ensures met { course.new.met ≡ course.old.met }
    ensures played { (args now : List ℤ) (done : List Done) → IfOk result (λ r. came r (seen course.new done) ≡ playing.turn args now (Stmt.Get number key) (part_seen part.now) (seen course.old done)) }
{
    match part.answers.get(course.place) {
        Some(answer) => {
            let value = *answer;
            course.locals.push(Local { number, value })?;
            course.place += 1;
            Ok(None)
        }
        None => Ok(Some(Played::Asks(part.tcom, Request::Get(key)))),
    }
}

/// Plays a `put`: goes on where it is answered, or asks.
fn played_put(
    key: u16,
    e: Expr,
    args: Args,
    part: &Part<'_>,
    course: &mut Evaluation,
) -> Option<Played>
    ensures met { course.new.met ≡ course.old.met }
    ensures played { (now : List ℤ) (done : List Done) → came result (seen course.new done) ≡ playing.turn args now (Stmt.Put key e) (part_seen part.now) (seen course.old done) }
{
    let value = expr_value(args, course, e);
    match part.answers.get(course.place) {
        Some(_) => {
            course.place += 1;
            None
        }
        None => Some(Played::Asks(part.tcom, Request::Put(key, value))),
    }
}

/// Plays a `need`: goes on, or fails where its condition is 0.
fn played_need(
    line: u32,
    e: Expr,
    args: Args,
    part: &Part<'_>,
    course: &Evaluation,
) -> Option<Played>
    ensures { (now : List ℤ) (done : List Done) → came result (seen course.now done) ≡ playing.turn args now (Stmt.Need line e) (part_seen part.now) (seen course.now done) }
{
    if expr_value(args, course, e) != 0 {
        None
    } else {
        Some(Played::NeedFails(part.tcom, line))
    }
}

/// Plays a `send`.
fn played_send(
    alloc: Global,
    to: ComId,
    handler: u8,
    operands: &Operands,
    args: Args,
    course: &mut Evaluation,
) -> Result<(), AllocError>
    ensures met { course.new.met ≡ course.old.met }
    ensures played { (now : List ℤ) (done : List Done) (p : playing.Part) → IfOk result (λ _. came None (seen course.new done) ≡ playing.turn args now (Stmt.Send to handler operands.now) p (seen course.old done)) }
{
    let args = values_of(alloc, args, course, operands)?;
    course.sends.push(Send { to, handler, args })?;
    Ok(())
}

/// Plays an `out`.
fn played_out(
    alloc: Global,
    to: ComId,
    operands: &Operands,
    args: Args,
    course: &mut Evaluation,
) -> Result<(), AllocError>
    ensures met { course.new.met ≡ course.old.met }
    ensures played { (now : List ℤ) (done : List Done) (p : playing.Part) → IfOk result (λ _. came None (seen course.new done) ≡ playing.turn args now (Stmt.Out to operands.now) p (seen course.old done)) }
{
    let args = values_of(alloc, args, course, operands)?;
    course.outs.push(Out { to, args })?;
    Ok(())
}

/// The result that a transaction takes, if one is left.
fn next_result<'a>(done: &'a [Done], course: &mut Evaluation) -> Option<&'a Done>
    requires { course.old.met ≤ length done.now }
    ensures met { course.new.met ≤ length done.now }
    ensures some { IfSome result (λ d. (seen course.old done.now).left ≡ d.now ∷ (seen course.new done.now).left) }
    ensures none { IfNone result ((seen course.old done.now).left ≡ []) }
    ensures kept { seen course.new done.now ≡ record (seen course.old done.now) { left = (seen course.new done.now).left } }
    ensures none_taken { IfNone result (seen course.new done.now ≡ seen course.old done.now) }
{
    if course.met < done.len() {
        let at = course.met;
        course.met += 1;
        Some(&done[at])
    } else {
        None
    }
}

/// The answer that a part stops with; at its end it is ready.
fn answer_or_ready(r: Option<Played>, t: ComId) -> Played
    ensures { (s : playing.Evaluation) → came (Some result) s ≡ playing.ready t (came r s) }
{
    match r {
        Some(r) => r,
        None => Played::Ready(t),
    }
}

/// Plays statements up to the first that stops.
#[cycle(play)]
fn played_list(
    alloc: Global,
    stmts: &[Stmt],
    handling: &Handling<'_>,
    part: &Part<'_>,
    course: &mut Evaluation,
) -> Result<Option<Played>, AllocError>
    requires { course.old.met ≤ length handling.now.done.now }
    ensures met { course.new.met ≤ length handling.now.done.now }
    ensures played { IfOk result (λ r. came r (seen course.new handling.now.done.now) ≡ playing.in_turn (map (turn_of handling.now) stmts.now) (part_seen part.now) (seen course.old handling.now.done.now)) }
{
    for s in stmts {
        if let Some(r) = played_one(alloc, s, handling, part, course)? {
            return Ok(Some(r));
        }
    }
    Ok(None)
}

/// Plays one statement.
#[cycle(play)]
fn played_one(
    alloc: Global,
    s: &Stmt,
    handling: &Handling<'_>,
    part: &Part<'_>,
    course: &mut Evaluation,
) -> Result<Option<Played>, AllocError>
    requires { course.old.met ≤ length handling.now.done.now }
    ensures met { course.new.met ≤ length handling.now.done.now }
    ensures played { IfOk result (λ r. came r (seen course.new handling.now.done.now) ≡ turn_of handling.now s.now (part_seen part.now) (seen course.old handling.now.done.now)) }
{
    let args = handling.args;
    match s {
        Stmt::Set(i, e) => {
            let v = expr_value(args, course, *e);
            put(&mut course.vars, usize::from(*i), v);
            Ok(None)
        }
        Stmt::Send(to, handler, operands) => {
            played_send(alloc, *to, *handler, operands, args, course)?;
            Ok(None)
        }
        Stmt::Out(to, operands) => {
            played_out(alloc, *to, operands, args, course)?;
            Ok(None)
        }
        Stmt::If(e, then, other) => {
            if expr_value(args, course, *e) != 0 {
                played_list(alloc, &then.stmts, handling, part, course)
            } else {
                played_list(alloc, &other.stmts, handling, part, course)
            }
        }
        Stmt::Txn(t, body, other) => match next_result(handling.done, course) {
            Some(Done::Aborted) => played_list(alloc, &other.stmts, handling, part, course),
            Some(Done::Committed(values)) => {
                let answers = values.as_slice();
                played_part(alloc, *t, answers, body, handling, course)
            }
            None => {
                let r = played_part(alloc, *t, handling.answers, body, handling, course)?;
                Ok(Some(answer_or_ready(r, *t)))
            }
        },
        Stmt::Get(i, key) => played_get(*i, *key, part, course),
        Stmt::Put(key, e) => Ok(played_put(*key, *e, args, part, course)),
        Stmt::Need(line, e) => Ok(played_need(*line, *e, args, part, course)),
    }
}

/// Plays the part of a transaction with these answers.
#[cycle(play)]
fn played_part(
    alloc: Global,
    tcom: ComId,
    answers: &[i64],
    body: &Body,
    handling: &Handling<'_>,
    course: &mut Evaluation,
) -> Result<Option<Played>, AllocError>
    requires { course.old.met ≤ length handling.now.done.now }
    ensures met { course.new.met ≤ length handling.now.done.now }
    ensures played { IfOk result (λ r. came r (seen course.new handling.now.done.now) ≡ playing.in_turn (map (turn_of handling.now) body.now.stmts.items) (record { tcom = tcom; answers = answers.now }) (record (seen course.old handling.now.done.now) { place = 0 })) }
{
    course.place = 0;
    let part = Part { tcom, answers };
    played_list(alloc, &body.stmts, handling, &part, course)
}

/// Plays statements from the start of a handling.
pub fn played_all(
    alloc: Global,
    stmts: &[Stmt],
    vars: Vals,
    handling: &Handling<'_>,
) -> Result<Played, AllocError>
    ensures { IfOk result (λ r. r ≡ playing.played_all stmts.now vars handling.now.args handling.now.done.now handling.now.answers.now) }
{
    let part = Part {
        tcom: ComId(0),
        answers: &[],
    };
    let mut course = Evaluation {
        vars,
        locals: Items::new(alloc),
        sends: Items::new(alloc),
        outs: Items::new(alloc),
        met: 0,
        place: 0,
    };
    match played_list(alloc, stmts, handling, &part, &mut course)? {
        Some(r) => Ok(r),
        None => Ok(Played::Ends(course.vars, course.sends, course.outs)),
    }
}
