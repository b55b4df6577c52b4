//! The rule of a part: its value from those of the parts that it is made of, and from what its context tells.
ghost use Rattle.std.specs.Prelude.{◌≡◌, map, IfOk};
ghost use Rattle.algebra.specs.Basics.{seq_of};
ghost use Rattle.algebra.specs.HeldPaths.{Held};
ghost use Rattle.algebra.specs.Values.{Keeps};
ghost use Rattle.core_program.specs.Locks.{path_of};
ghost use Rattle.core_program.specs.Views.{expr_of, exprs_from, stmt_of, stmts_from};
ghost use Rattle.rules.specs.Effect.{access_of};
ghost use Rattle.rules.specs.Mentions.{paths_of};
ghost use Rattle.effects.specs.Bodies.{part_of};
ghost use Rattle.effects.specs.Rules.{block_value_at, choice_value, expr_rule_in, in_sequence, lock_value, loop_value, rule_in, stmt_rule_in, AreAllKnown};

use crate::accesses::access;
use crate::calls::Called;
use crate::context::Context;
use crate::parts::BodyPart;
use algebra::{Algebra, Basic};
use core_program::{CoreExpr, CoreStmt};
use paths::{FieldId, Path};
use std::alloc::{AllocError as NoMemory, Global};

/// Values one after another. Their number is that of a call's arguments at most, so the recursion isn't deep.
fn sequence<G: Algebra>(alloc: Global, algebra: &mut G, values: &[G::A]) -> Result<G::A, NoMemory>
    requires { AreAllKnown G.IsKnown algebra.old values.now }
    ensures known { IfOk result (λ r. G.IsKnown algebra.new r) }
    ensures value { IfOk result (λ r. (H : Held) → G.value algebra.new r H ≡ in_sequence (map (G.value algebra.old) values.now) H) }
    ensures keeps { Keeps G.IsKnown G.value algebra.old algebra.new }
{
    let Some((first, others)) = values.split_first() else {
        return algebra.leaf(alloc, Basic::Const);
    };
    let rest = sequence(alloc, algebra, others)?;
    algebra.seq(alloc, first, &rest)
}

/// Values one after another, and then a last one.
fn sequence_then<G: Algebra>(
    alloc: Global,
    algebra: &mut G,
    values: &[G::A],
    last: G::A,
) -> Result<G::A, NoMemory>
    requires values { AreAllKnown G.IsKnown algebra.old values.now }
    requires last { G.IsKnown algebra.old last }
    ensures known { IfOk result (λ r. G.IsKnown algebra.new r) }
    ensures value { IfOk result (λ r. (H : Held) → G.value algebra.new r H ≡ seq_of (in_sequence (map (G.value algebra.old) values.now) H) (G.value algebra.old last H)) }
    ensures keeps { Keeps G.IsKnown G.value algebra.old algebra.new }
{
    let first = sequence(alloc, algebra, values)?;
    algebra.seq(alloc, &first, &last)
}

/// Values one after another, and then a basic.
fn then_basic<G: Algebra>(
    alloc: Global,
    algebra: &mut G,
    values: &[G::A],
    last: Basic,
) -> Result<G::A, NoMemory>
    requires { AreAllKnown G.IsKnown algebra.old values.now }
    ensures known { IfOk result (λ r. G.IsKnown algebra.new r) }
    ensures value { IfOk result (λ r. (H : Held) → G.value algebra.new r H ≡ seq_of (in_sequence (map (G.value algebra.old) values.now) H) last) }
    ensures keeps { Keeps G.IsKnown G.value algebra.old algebra.new }
{
    let first = sequence(alloc, algebra, values)?;
    let last = algebra.leaf(alloc, last)?;
    algebra.seq(alloc, &first, &last)
}

/// Reading or writing a field of a receiver.
#[derive(Clone, Copy)]
struct FieldAccess<'a> {
    receiver: &'a CoreExpr,
    field: FieldId,
    writes: bool,
}

/// Values one after another, and then reading or writing a field of a receiver.
fn then_access<G: Algebra, C: Context<G>>(
    alloc: Global,
    context: &C,
    algebra: &mut G,
    values: &[G::A],
    at: &FieldAccess<'_>,
) -> Result<G::A, NoMemory>
    requires { AreAllKnown G.IsKnown algebra.old values.now }
    ensures known { IfOk result (λ r. G.IsKnown algebra.new r) }
    ensures value { IfOk result (λ r. (H : Held) → let P = C.plain context.now in
        G.value algebra.new r H ≡ seq_of (in_sequence (map (G.value algebra.old) values.now) H) (access_of P at.now.writes at.now.field (path_of P (expr_of at.now.receiver.now)) H)) }
    ensures keeps { Keeps G.IsKnown G.value algebra.old algebra.new }
{
    let first = sequence(alloc, algebra, values)?;
    let last = access(
        alloc,
        context.program(),
        algebra,
        at.receiver,
        at.field,
        at.writes,
    )?;
    algebra.seq(alloc, &first, &last)
}

/// Values one after another, and then what a callee gives.
fn then_call<G: Algebra, C: Context<G>>(
    alloc: Global,
    context: &C,
    algebra: &mut G,
    values: &[G::A],
    call: &Called<'_>,
) -> Result<G::A, NoMemory>
    requires ready { C.IsReady context.now }
    requires values { AreAllKnown G.IsKnown algebra.old values.now }
    ensures known { IfOk result (λ r. G.IsKnown algebra.new r) }
    ensures value { IfOk result (λ r. (H : Held) → let P = C.plain context.now in
        G.value algebra.new r H ≡ seq_of (in_sequence (map (G.value algebra.old) values.now) H)
        (C.called context.now call.now.callee (path_of P (expr_of call.now.receiver.now)) (paths_of P (exprs_from call.now.args.now)) H)) }
    ensures keeps { Keeps G.IsKnown G.value algebra.old algebra.new }
{
    let first = sequence(alloc, algebra, values)?;
    let last = context.call_value(alloc, algebra, call.receiver, call.callee, call.args)?;
    algebra.seq(alloc, &first, &last)
}

/// The value of an expression.
fn expr_rule<G: Algebra, C: Context<G>>(
    alloc: Global,
    context: &C,
    algebra: &mut G,
    e: &CoreExpr,
    values: &[G::A],
) -> Result<G::A, NoMemory>
    requires ready { C.IsReady context.now }
    requires values { AreAllKnown G.IsKnown algebra.old values.now }
    ensures known { IfOk result (λ r. G.IsKnown algebra.new r) }
    ensures value { IfOk result (λ r. (H : Held) →
        G.value algebra.new r H ≡ expr_rule_in (C.plain context.now) (C.called context.now) (expr_of e.now) (map (G.value algebra.old) values.now) H) }
    ensures keeps { Keeps G.IsKnown G.value algebra.old algebra.new }
{
    match e {
        CoreExpr::Int(_) | CoreExpr::Truth(_) | CoreExpr::Null | CoreExpr::This => {
            algebra.leaf(alloc, Basic::Const)
        }
        CoreExpr::Var { is_final: true, .. } => algebra.leaf(alloc, Basic::Const),
        CoreExpr::Var { .. } => algebra.leaf(alloc, Basic::Mover),
        CoreExpr::Not(_)
        | CoreExpr::Neg(_)
        | CoreExpr::Binary(_, _, _)
        | CoreExpr::And(_, _)
        | CoreExpr::Or(_, _) => sequence(alloc, algebra, values),
        CoreExpr::Get(receiver, field) => {
            let read = FieldAccess {
                receiver,
                field: *field,
                writes: false,
            };
            then_access(alloc, context, algebra, values, &read)
        }
        CoreExpr::Call(receiver, callee, args) => {
            let call = Called {
                receiver,
                callee: *callee,
                args: args.as_slice(),
            };
            then_call(alloc, context, algebra, values, &call)
        }
        CoreExpr::New(_, _) => then_basic(alloc, algebra, values, Basic::Mover),
    }
}

/// A condition, then either of two branches.
fn choice<G: Algebra>(alloc: Global, algebra: &mut G, values: &[G::A]) -> Result<G::A, NoMemory>
    requires { AreAllKnown G.IsKnown algebra.old values.now }
    ensures known { IfOk result (λ r. G.IsKnown algebra.new r) }
    ensures value { IfOk result (λ r. (H : Held) → G.value algebra.new r H ≡ choice_value (map (G.value algebra.old) values.now) H) }
    ensures keeps { Keeps G.IsKnown G.value algebra.old algebra.new }
{
    let Some((condition, branches)) = values.split_first() else {
        return algebra.leaf(alloc, Basic::Const);
    };
    let Some((first, others)) = branches.split_first() else {
        return algebra.leaf(alloc, Basic::Const);
    };
    let Some((second, _)) = others.split_first() else {
        return algebra.leaf(alloc, Basic::Const);
    };
    let either = algebra.join(alloc, first, second)?;
    algebra.seq(alloc, condition, &either)
}

/// A condition, then a body and the condition again, any number of times.
fn repetition<G: Algebra>(alloc: Global, algebra: &mut G, values: &[G::A]) -> Result<G::A, NoMemory>
    requires { AreAllKnown G.IsKnown algebra.old values.now }
    ensures known { IfOk result (λ r. G.IsKnown algebra.new r) }
    ensures value { IfOk result (λ r. (H : Held) → G.value algebra.new r H ≡ loop_value (map (G.value algebra.old) values.now) H) }
    ensures keeps { Keeps G.IsKnown G.value algebra.old algebra.new }
{
    let Some((condition, bodies)) = values.split_first() else {
        return algebra.leaf(alloc, Basic::Const);
    };
    let Some((body, _)) = bodies.split_first() else {
        return algebra.leaf(alloc, Basic::Const);
    };
    let turn = algebra.seq(alloc, body, condition)?;
    let turns = algebra.star(alloc, &turn)?;
    algebra.seq(alloc, condition, &turns)
}

/// A body with this path locked.
fn locked<G: Algebra>(
    alloc: Global,
    algebra: &mut G,
    path: &Path,
    values: &[G::A],
) -> Result<G::A, NoMemory>
    requires { AreAllKnown G.IsKnown algebra.old values.now }
    ensures known { IfOk result (λ r. G.IsKnown algebra.new r) }
    ensures value { IfOk result (λ r. (H : Held) → G.value algebra.new r H ≡ lock_value path.now (map (G.value algebra.old) values.now) H) }
    ensures keeps { Keeps G.IsKnown G.value algebra.old algebra.new }
{
    let Some((body, _)) = values.split_first() else {
        return algebra.leaf(alloc, Basic::Const);
    };
    algebra.sync(alloc, path, body)
}

/// A statement of a block and then the rest of the block, from both values.
fn statement_and_rest<G: Algebra, C: Context<G>>(
    alloc: Global,
    context: &C,
    algebra: &mut G,
    s: &CoreStmt,
    first: &G::A,
    rest: G::A,
) -> Result<G::A, NoMemory>
    requires ready { C.IsReady context.now }
    requires first { G.IsKnown algebra.old first.now }
    requires rest { G.IsKnown algebra.old rest }
    ensures known { IfOk result (λ r. G.IsKnown algebra.new r) }
    ensures value { IfOk result (λ r. (H : Held) → G.value algebra.new r H ≡
        seq_of (G.value algebra.old first.now H) (G.value algebra.old rest (C.after context.now (stmt_of s.now) H))) }
    ensures keeps { Keeps G.IsKnown G.value algebra.old algebra.new }
{
    let rest = context.before(alloc, algebra, s, rest)?;
    algebra.seq(alloc, first, &rest)
}

/// The statements of a block, from the last to the first.
fn block<G: Algebra, C: Context<G>>(
    alloc: Global,
    context: &C,
    algebra: &mut G,
    body: &[CoreStmt],
    values: &[G::A],
) -> Result<G::A, NoMemory>
    requires ready { C.IsReady context.now }
    requires values { AreAllKnown G.IsKnown algebra.old values.now }
    ensures known { IfOk result (λ r. G.IsKnown algebra.new r) }
    ensures value { IfOk result (λ r. (H : Held) →
        G.value algebra.new r H ≡ block_value_at (C.after context.now) (stmts_from body.now) (map (G.value algebra.old) values.now) H) }
    ensures keeps { Keeps G.IsKnown G.value algebra.old algebra.new }
{
    let mut rest = algebra.leaf(alloc, Basic::Const)?;
    let mut place = body.len().min(values.len());
    while place > 0 {
        place -= 1;
        rest = statement_and_rest(alloc, context, algebra, &body[place], &values[place], rest)?;
    }
    Ok(rest)
}

/// The value of a statement.
fn stmt_rule<G: Algebra, C: Context<G>>(
    alloc: Global,
    context: &C,
    algebra: &mut G,
    s: &CoreStmt,
    values: &[G::A],
) -> Result<G::A, NoMemory>
    requires ready { C.IsReady context.now }
    requires values { AreAllKnown G.IsKnown algebra.old values.now }
    ensures known { IfOk result (λ r. G.IsKnown algebra.new r) }
    ensures value { IfOk result (λ r. (H : Held) →
        G.value algebra.new r H ≡ stmt_rule_in (C.plain context.now) (C.after context.now) (stmt_of s.now) (map (G.value algebra.old) values.now) H) }
    ensures keeps { Keeps G.IsKnown G.value algebra.old algebra.new }
{
    match s {
        CoreStmt::Empty => algebra.leaf(alloc, Basic::Const),
        CoreStmt::Block(body) => block(alloc, context, algebra, body.as_slice(), values),
        CoreStmt::Local { .. } | CoreStmt::SetVar(_, _) => {
            then_basic(alloc, algebra, values, Basic::Mover)
        }
        CoreStmt::SetField(receiver, field, _) => {
            let write = FieldAccess {
                receiver,
                field: *field,
                writes: true,
            };
            then_access(alloc, context, algebra, values, &write)
        }
        CoreStmt::Do(_, _) | CoreStmt::Return(_) => sequence(alloc, algebra, values),
        CoreStmt::If(_, _, _) => choice(alloc, algebra, values),
        CoreStmt::While(_, _) => repetition(alloc, algebra, values),
        CoreStmt::Sync(path, _) => locked(alloc, algebra, path, values),
        CoreStmt::Print(_) | CoreStmt::Start(_) => {
            then_basic(alloc, algebra, values, Basic::Atomic)
        }
    }
}

/// The value of a part, from those of the parts that it is made of.
pub fn rule<G: Algebra, C: Context<G>>(
    alloc: Global,
    context: &C,
    algebra: &mut G,
    part: BodyPart<'_>,
    values: &[G::A],
) -> Result<G::A, NoMemory>
    requires ready { C.IsReady context.now }
    requires values { AreAllKnown G.IsKnown algebra.old values.now }
    ensures known { IfOk result (λ r. G.IsKnown algebra.new r) }
    ensures value { IfOk result (λ r. (H : Held) →
        G.value algebra.new r H ≡ rule_in (C.plain context.now) (C.called context.now) (C.after context.now) (part_of part.entry) (map (G.value algebra.old) values.now) H) }
    ensures keeps { Keeps G.IsKnown G.value algebra.old algebra.new }
{
    match part {
        BodyPart::Expr(e) => expr_rule(alloc, context, algebra, e, values),
        BodyPart::Stmt(s) => stmt_rule(alloc, context, algebra, s, values),
    }
}
