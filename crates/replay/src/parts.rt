//! Evaluation by recursion on the parts of a method. A body is at most 64 high and at most 100 calls are open within each
//! other, so the recursion is at most some 13,000 calls deep; a loop takes none.
ghost use Rattle.std.specs.Prelude.{◌≡◌, ◌≤◌, ℕ, Some, Option, MatchResult, slice_get};
ghost use Rattle.core_program.specs.Core.{CallE, NewE, IfS, WhileS, SyncS};
ghost use Rattle.core_program.specs.Views.{program_of, method_of, expr_of, exprs_from, stmt_of, stmts_from};
ghost use Rattle.state.specs.declared.value.Value.{Value};
ghost use Rattle.state.specs.declared.value.Value.TheVariants as value;
ghost use Rattle.replay.specs.Plain as plain;
ghost use Rattle.replay.specs.Answers.{Gives, ended_value};
ghost use Rattle.replay.specs.Evaluation.{lower_of, exprs};
ghost use Rattle.replay.specs.Ends.{IsEvaluationEnd, ended};
ghost use Rattle.replay.specs.Evaluating.{expr_answer, exprs_answer, stmt_answer, block_answer, call_answer, body_answer};

use crate::effects::{
    chosen, computed, follow, fresh_slots, give, make, print, read, slot, start, store, take, write,
};
use crate::ends::{EvalEnd, Flow, ended_value};
use crate::plain::Plain;
use core_program::{CoreExpr, CoreMethod, CoreProgram, CoreStmt, UnaryOp};
use machine::{address_of, as_int, as_truth, binary_value, unary_value};
use paths::{ClassId, MethodId, Path};
use state::{Address, Fault, Value};
use std::alloc::Global;

/// Where parts are evaluated: over which program, for which thread, with how many turns left, and inside how many open calls.
#[derive(Clone, Copy)]
pub(crate) struct Within<'p> {
    pub(crate) alloc: Global,
    pub(crate) program: &'p CoreProgram,
    pub(crate) thread: u32,
    pub(crate) turns: u32,
    pub(crate) depth: u32,
}

/// The value of an expression.
#[tactic(auto, using(crate::proofs::EndLemmas::end_then))]
#[cycle(parts)]
fn expr(at: &Within<'_>, plain: &mut Plain, slots: &[Value], e: &CoreExpr) -> Result<Value, EvalEnd>
    requires { at.now.depth ≤ 100 }
    ensures { MatchResult result
        (λ v. expr_answer (program_of at.now.program.now) at.now.thread at.now.turns at.now.depth slots.now (expr_of e.now) plain.old ≡ Gives v plain.new)
        (λ x. IsEvaluationEnd x (expr_answer (program_of at.now.program.now) at.now.thread at.now.turns at.now.depth slots.now (expr_of e.now) plain.old)) }
{
    match e {
        CoreExpr::Int(n) => Ok(Value::Int(*n)),
        CoreExpr::Truth(b) => Ok(Value::Truth(*b)),
        CoreExpr::Null => Ok(Value::Null),
        CoreExpr::This => slot(slots, 0),
        CoreExpr::Var { slot: x, .. } => slot(slots, *x),
        CoreExpr::Not(a) => {
            let v = expr(at, plain, slots, a)?;
            Ok(unary_value(UnaryOp::Not, v))
        }
        CoreExpr::Neg(a) => {
            let v = expr(at, plain, slots, a)?;
            Ok(unary_value(UnaryOp::Neg, v))
        }
        CoreExpr::Binary(op, a, b) => {
            let v = expr(at, plain, slots, a)?;
            let w = expr(at, plain, slots, b)?;
            computed(binary_value(*op, v, w))
        }
        CoreExpr::And(a, b) => {
            let v = expr(at, plain, slots, a)?;
            if !as_truth(v) {
                return Ok(Value::Truth(false));
            }
            expr(at, plain, slots, b)
        }
        CoreExpr::Or(a, b) => {
            let v = expr(at, plain, slots, a)?;
            if as_truth(v) {
                return Ok(Value::Truth(true));
            }
            expr(at, plain, slots, b)
        }
        CoreExpr::Get(a, field) => {
            let v = expr(at, plain, slots, a)?;
            read(at.program, plain, *field, address_of(v))
        }
        CoreExpr::Call(a, method, args) => called(at, plain, slots, a, *method, args.as_slice()),
        CoreExpr::New(class, args) => made(at, plain, slots, *class, args.as_slice()),
    }
}

/// The value of a call.
#[tactic(auto, using(crate::proofs::EndLemmas::end_then))]
#[cycle(parts)]
fn called(
    at: &Within<'_>,
    plain: &mut Plain,
    slots: &[Value],
    receiver: &CoreExpr,
    method: MethodId,
    args: &[CoreExpr],
) -> Result<Value, EvalEnd>
    requires { at.now.depth ≤ 100 }
    ensures { MatchResult result
        (λ v. expr_answer (program_of at.now.program.now) at.now.thread at.now.turns at.now.depth slots.now (CallE (expr_of receiver.now) method (exprs_from args.now)) plain.old ≡ Gives v plain.new)
        (λ x. IsEvaluationEnd x (expr_answer (program_of at.now.program.now) at.now.thread at.now.turns at.now.depth slots.now (CallE (expr_of receiver.now) method (exprs_from args.now)) plain.old)) }
{
    let on = expr(at, plain, slots, receiver)?;
    let values = all_arguments(at, plain, slots, args)?;
    enter(at, plain, method, address_of(on), values.as_slice())
}

/// The value of a `new`.
#[tactic(auto, using(crate::proofs::EndLemmas::end_then))]
#[cycle(parts)]
fn made(
    at: &Within<'_>,
    plain: &mut Plain,
    slots: &[Value],
    class: ClassId,
    args: &[CoreExpr],
) -> Result<Value, EvalEnd>
    requires { at.now.depth ≤ 100 }
    ensures { MatchResult result
        (λ v. expr_answer (program_of at.now.program.now) at.now.thread at.now.turns at.now.depth slots.now (NewE class (exprs_from args.now)) plain.old ≡ Gives v plain.new)
        (λ x. IsEvaluationEnd x (expr_answer (program_of at.now.program.now) at.now.thread at.now.turns at.now.depth slots.now (NewE class (exprs_from args.now)) plain.old)) }
{
    let values = all_arguments(at, plain, slots, args)?;
    make(
        at.alloc,
        at.program,
        plain,
        at.thread,
        class,
        values.as_slice(),
    )
}

/// The values of arguments, in order.
#[tactic(auto, using(crate::proofs::EndLemmas::end_then))]
#[cycle(parts)]
fn all_arguments(
    at: &Within<'_>,
    plain: &mut Plain,
    slots: &[Value],
    args: &[CoreExpr],
) -> Result<Vec<Value>, EvalEnd>
    requires { at.now.depth ≤ 100 }
    ensures { MatchResult result
        (λ v. exprs (program_of at.now.program.now) at.now.thread (lower_of (program_of at.now.program.now) at.now.thread at.now.turns) at.now.depth slots.now (exprs_from args.now) plain.old ≡ Gives v.items plain.new)
        (λ x. IsEvaluationEnd x (exprs (program_of at.now.program.now) at.now.thread (lower_of (program_of at.now.program.now) at.now.thread at.now.turns) at.now.depth slots.now (exprs_from args.now) plain.old)) }
{
    let mut values = Vec::with_capacity(at.alloc, args.len())?;
    arguments(at, plain, slots, args, &mut values)?;
    Ok(values)
}

/// The values of arguments, put behind others.
#[cycle(parts)]
fn arguments(
    at: &Within<'_>,
    plain: &mut Plain,
    slots: &[Value],
    args: &[CoreExpr],
    values: &mut Vec<Value>,
) -> Result<(), EvalEnd>
    requires { at.now.depth ≤ 100 }
    ensures { MatchResult result
        (λ _. exprs_answer (program_of at.now.program.now) at.now.thread at.now.turns at.now.depth slots.now values.old.items (exprs_from args.now) plain.old ≡ Gives values.new.items plain.new)
        (λ x. IsEvaluationEnd x (exprs_answer (program_of at.now.program.now) at.now.thread at.now.turns at.now.depth slots.now values.old.items (exprs_from args.now) plain.old)) }
{
    for e in args {
        let value = expr(at, plain, slots, e)?;
        values.push(value)?;
    }
    Ok(())
}

/// The value of a call of a method on what a receiver refers to.
#[cycle(parts)]
fn enter(
    at: &Within<'_>,
    plain: &mut Plain,
    method: MethodId,
    on: Option<Address>,
    values: &[Value],
) -> Result<Value, EvalEnd>
    requires { at.now.depth ≤ 100 }
    ensures { MatchResult result
        (λ v. call_answer (program_of at.now.program.now) at.now.thread at.now.turns at.now.depth method on values.now plain.old ≡ Gives v plain.new)
        (λ x. IsEvaluationEnd x (call_answer (program_of at.now.program.now) at.now.thread at.now.turns at.now.depth method on values.now plain.old)) }
{
    match chosen(at.program, plain, method, on) {
        Some((address, found)) => run_body(at, plain, found, address, values),
        None => Err(EvalEnd::Faults(Fault::Null)),
    }
}

/// The value that the body of a method ends with; it takes a turn.
#[cycle(parts)]
fn run_body(
    at: &Within<'_>,
    plain: &mut Plain,
    method: &CoreMethod,
    this: Address,
    values: &[Value],
) -> Result<Value, EvalEnd>
    requires few { at.now.depth ≤ 100 }
    requires listed { (m : ℕ) × (slice_get at.now.program.now.methods.items m ≡ Some method.now) }
    ensures { MatchResult result
        (λ v. body_answer (program_of at.now.program.now) at.now.thread at.now.turns at.now.depth (method_of method.now) this values.now plain.old ≡ Gives v plain.new)
        (λ x. IsEvaluationEnd x (body_answer (program_of at.now.program.now) at.now.thread at.now.turns at.now.depth (method_of method.now) this values.now plain.old)) }
{
    if at.turns == 0 {
        return Err(EvalEnd::Short);
    }
    if at.depth == 100 {
        return Err(EvalEnd::Deep);
    }
    let mut slots = fresh_slots(at.alloc, method, this, values)?;
    let inside = Within {
        turns: at.turns - 1,
        depth: at.depth + 1,
        ..*at
    };
    let flow = statement(&inside, plain, slots.as_mut_slice(), &method.body)?;
    Ok(ended_value(flow))
}

/// Evaluates a statement.
#[tactic(auto, using(crate::proofs::EndLemmas::end_then))]
#[cycle(parts)]
pub(crate) fn statement(
    at: &Within<'_>,
    plain: &mut Plain,
    slots: &mut [Value],
    s: &CoreStmt,
) -> Result<Flow, EvalEnd>
    requires { at.now.depth ≤ 100 }
    ensures { MatchResult result
        (λ f. stmt_answer (program_of at.now.program.now) at.now.thread at.now.turns at.now.depth slots.old (stmt_of s.now) plain.old ≡ Gives (ended f slots.new) plain.new)
        (λ x. IsEvaluationEnd x (stmt_answer (program_of at.now.program.now) at.now.thread at.now.turns at.now.depth slots.old (stmt_of s.now) plain.old)) }
{
    match s {
        CoreStmt::Empty => Ok(Flow::GoesOn),
        CoreStmt::Block(body) => block(at, plain, slots, body.as_slice()),
        CoreStmt::Local { slot, value, .. } => {
            let v = expr(at, plain, slots, value)?;
            store(slots, *slot, v)
        }
        CoreStmt::SetVar(slot, value) => {
            let v = expr(at, plain, slots, value)?;
            store(slots, *slot, v)
        }
        CoreStmt::SetField(receiver, field, value) => {
            let on = expr(at, plain, slots, receiver)?;
            let v = expr(at, plain, slots, value)?;
            write(at.program, plain, *field, address_of(on), v)?;
            Ok(Flow::GoesOn)
        }
        CoreStmt::Do(e, _) => {
            let _ = expr(at, plain, slots, e)?;
            Ok(Flow::GoesOn)
        }
        CoreStmt::If(condition, one, other) => branched(at, plain, slots, condition, one, other),
        CoreStmt::While(condition, body) => looped(at, plain, slots, condition, body),
        CoreStmt::Sync(path, body) => synchronized(at, plain, slots, path, body),
        CoreStmt::Return(None) => Ok(Flow::Returns(None)),
        CoreStmt::Return(Some(e)) => {
            let v = expr(at, plain, slots, e)?;
            Ok(Flow::Returns(Some(v)))
        }
        CoreStmt::Print(e) => {
            let v = expr(at, plain, slots, e)?;
            print(plain, as_int(v))?;
            Ok(Flow::GoesOn)
        }
        CoreStmt::Start(e) => {
            let v = expr(at, plain, slots, e)?;
            start(at.program, plain, address_of(v))?;
            Ok(Flow::GoesOn)
        }
    }
}

/// Evaluates the one of two statements that a condition chooses.
#[tactic(auto, using(crate::proofs::EndLemmas::end_then))]
#[cycle(parts)]
fn branched(
    at: &Within<'_>,
    plain: &mut Plain,
    slots: &mut [Value],
    condition: &CoreExpr,
    one: &CoreStmt,
    other: &CoreStmt,
) -> Result<Flow, EvalEnd>
    requires { at.now.depth ≤ 100 }
    ensures { MatchResult result
        (λ f. stmt_answer (program_of at.now.program.now) at.now.thread at.now.turns at.now.depth slots.old (IfS (expr_of condition.now) (stmt_of one.now) (stmt_of other.now)) plain.old ≡ Gives (ended f slots.new) plain.new)
        (λ x. IsEvaluationEnd x (stmt_answer (program_of at.now.program.now) at.now.thread at.now.turns at.now.depth slots.old (IfS (expr_of condition.now) (stmt_of one.now) (stmt_of other.now)) plain.old)) }
{
    let v = expr(at, plain, slots, condition)?;
    if as_truth(v) {
        statement(at, plain, slots, one)
    } else {
        statement(at, plain, slots, other)
    }
}

/// Evaluates the statements of a block, up to one that returns.
#[cycle(parts)]
fn block(
    at: &Within<'_>,
    plain: &mut Plain,
    slots: &mut [Value],
    body: &[CoreStmt],
) -> Result<Flow, EvalEnd>
    requires { at.now.depth ≤ 100 }
    ensures { MatchResult result
        (λ f. block_answer (program_of at.now.program.now) at.now.thread at.now.turns at.now.depth slots.old (stmts_from body.now) plain.old ≡ Gives (ended f slots.new) plain.new)
        (λ x. IsEvaluationEnd x (block_answer (program_of at.now.program.now) at.now.thread at.now.turns at.now.depth slots.old (stmts_from body.now) plain.old)) }
{
    for s in body {
        match statement(at, plain, slots, s)? {
            Flow::GoesOn => {}
            Flow::Returns(v) => return Ok(Flow::Returns(v)),
        }
    }
    Ok(Flow::GoesOn)
}

/// Evaluates a loop; each of its turns takes one.
#[cycle(parts)]
fn looped(
    at: &Within<'_>,
    plain: &mut Plain,
    slots: &mut [Value],
    condition: &CoreExpr,
    body: &CoreStmt,
) -> Result<Flow, EvalEnd>
    requires { at.now.depth ≤ 100 }
    ensures { MatchResult result
        (λ f. stmt_answer (program_of at.now.program.now) at.now.thread at.now.turns at.now.depth slots.old (WhileS (expr_of condition.now) (stmt_of body.now)) plain.old ≡ Gives (ended f slots.new) plain.new)
        (λ x. IsEvaluationEnd x (stmt_answer (program_of at.now.program.now) at.now.thread at.now.turns at.now.depth slots.old (WhileS (expr_of condition.now) (stmt_of body.now)) plain.old)) }
{
    let mut left = at.turns;
    'turn: loop {
        let here = Within { turns: left, ..*at };
        let v = expr(&here, plain, slots, condition)?;
        if !as_truth(v) {
            return Ok(Flow::GoesOn);
        }
        if left == 0 {
            return Err(EvalEnd::Short);
        }
        left -= 1;
        let next = Within { turns: left, ..*at };
        match statement(&next, plain, slots, body)? {
            Flow::GoesOn => {}
            Flow::Returns(v) => return Ok(Flow::Returns(v)),
        }
    }
}

/// Evaluates a block while the lock of a path is held, and gives the lock back, also where the block returns.
#[cycle(parts)]
fn synchronized(
    at: &Within<'_>,
    plain: &mut Plain,
    slots: &mut [Value],
    path: &Path,
    body: &CoreStmt,
) -> Result<Flow, EvalEnd>
    requires { at.now.depth ≤ 100 }
    ensures { MatchResult result
        (λ f. stmt_answer (program_of at.now.program.now) at.now.thread at.now.turns at.now.depth slots.old (SyncS path.now (stmt_of body.now)) plain.old ≡ Gives (ended f slots.new) plain.new)
        (λ x. IsEvaluationEnd x (stmt_answer (program_of at.now.program.now) at.now.thread at.now.turns at.now.depth slots.old (SyncS path.now (stmt_of body.now)) plain.old)) }
{
    let v = slot(slots, path.root)?;
    let w = follow(at.program, plain, path.fields.as_slice(), v)?;
    let Some(address) = address_of(w) else {
        return Err(EvalEnd::Faults(Fault::Null));
    };
    take(at.alloc, plain, at.thread, address)?;
    let flow = statement(at, plain, slots, body)?;
    give(plain, at.thread, address)?;
    Ok(flow)
}
