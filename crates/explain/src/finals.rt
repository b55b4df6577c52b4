//! A body with a variable final wherever it is declared and read.

ghost use Rattle.std.specs.Prelude.{◌≡◌, ◌==◌, ◌||◌, IfOk};
ghost use Rattle.core_program.specs.Core.{AndE, BinaryE, CallE, IfS, LocalS, NewE, OrE, SetFieldS, VarE, WhileS};
ghost use Rattle.core_program.specs.Views.{expr_of, exprs_from, stmt_of, stmts_from};
ghost use Rattle.explain.specs.Finalising.{assigns, final_expr, final_exprs, final_stmt, final_stmts, some_assigns};

use core_program::{CoreExpr, CoreOp, CoreStmt, CoreType};
use paths::{ClassId, FieldId, MethodId};
use std::alloc::{AllocError as NoMemory, Global};

/// Whether a statement assigns to a variable that is declared.
#[cycle(assigning)]
pub(crate) fn assigns(slot: u16, s: &CoreStmt) -> bool
    ensures { result ≡ assigns slot (stmt_of s.now) }
{
    match s {
        CoreStmt::SetVar(other, _) => *other == slot,
        CoreStmt::Block(body) => some_assigns(slot, body.as_slice()),
        CoreStmt::If(_, a, b) => assigns(slot, a) || assigns(slot, b),
        CoreStmt::While(_, a) | CoreStmt::Sync(_, a) => assigns(slot, a),
        CoreStmt::Empty
        | CoreStmt::Local { .. }
        | CoreStmt::SetField(_, _, _)
        | CoreStmt::Do(_, _)
        | CoreStmt::Return(_)
        | CoreStmt::Print(_)
        | CoreStmt::Start(_) => false,
    }
}

/// Whether one of the statements of a block does.
#[cycle(assigning)]
fn some_assigns(slot: u16, body: &[CoreStmt]) -> bool
    ensures { result ≡ some_assigns slot (stmts_from body.now) }
{
    for s in body {
        if assigns(slot, s) {
            return true;
        }
    }
    false
}

/// Whether a variable is final, where one is made final.
fn is_final_now(slot: u16, other: u16, is_final: bool) -> bool
    ensures { result ≡ (is_final || (other == slot)) }
{
    is_final || other == slot
}

/// The reading of a variable, where one is made final.
fn variable_node(slot: u16, other: u16, is_final: bool, ty: CoreType) -> CoreExpr
    ensures { expr_of result ≡ VarE other (is_final || (other == slot)) ty }
{
    CoreExpr::Var {
        slot: other,
        is_final: is_final_now(slot, other, is_final),
        ty,
    }
}

fn binary_node(op: CoreOp, parts: (Box<CoreExpr>, Box<CoreExpr>)) -> CoreExpr
    ensures { expr_of result ≡ BinaryE op (expr_of parts.0.value) (expr_of parts.1.value) }
{
    CoreExpr::Binary(op, parts.0, parts.1)
}

fn and_node(parts: (Box<CoreExpr>, Box<CoreExpr>)) -> CoreExpr
    ensures { expr_of result ≡ AndE (expr_of parts.0.value) (expr_of parts.1.value) }
{
    CoreExpr::And(parts.0, parts.1)
}

fn or_node(parts: (Box<CoreExpr>, Box<CoreExpr>)) -> CoreExpr
    ensures { expr_of result ≡ OrE (expr_of parts.0.value) (expr_of parts.1.value) }
{
    CoreExpr::Or(parts.0, parts.1)
}

fn call_node(callee: MethodId, parts: (Box<CoreExpr>, Vec<CoreExpr>)) -> CoreExpr
    ensures { expr_of result ≡ CallE (expr_of parts.0.value) callee (exprs_from parts.1.items) }
{
    CoreExpr::Call(parts.0, callee, parts.1)
}

fn new_node(class: ClassId, args: Vec<CoreExpr>) -> CoreExpr
    ensures { expr_of result ≡ NewE class (exprs_from args.items) }
{
    CoreExpr::New(class, args)
}

/// An expression with a variable final wherever it is read.
#[cycle(expressions)]
fn final_expr(alloc: Global, slot: u16, e: &CoreExpr) -> Result<CoreExpr, NoMemory>
    ensures { IfOk result (λ made. expr_of made ≡ final_expr slot (expr_of e.now)) }
{
    match e {
        CoreExpr::Int(n) => Ok(CoreExpr::Int(*n)),
        CoreExpr::Truth(truth) => Ok(CoreExpr::Truth(*truth)),
        CoreExpr::Null => Ok(CoreExpr::Null),
        CoreExpr::This => Ok(CoreExpr::This),
        CoreExpr::Var {
            slot: other,
            is_final,
            ty,
        } => Ok(variable_node(slot, *other, *is_final, *ty)),
        CoreExpr::Not(a) => Ok(CoreExpr::Not(boxed_expr(alloc, slot, a)?)),
        CoreExpr::Neg(a) => Ok(CoreExpr::Neg(boxed_expr(alloc, slot, a)?)),
        CoreExpr::Binary(op, a, b) => Ok(binary_node(*op, boxed_pair(alloc, slot, a, b)?)),
        CoreExpr::And(a, b) => Ok(and_node(boxed_pair(alloc, slot, a, b)?)),
        CoreExpr::Or(a, b) => Ok(or_node(boxed_pair(alloc, slot, a, b)?)),
        CoreExpr::Get(a, field) => Ok(CoreExpr::Get(boxed_expr(alloc, slot, a)?, *field)),
        CoreExpr::Call(a, callee, args) => {
            let parts = call_parts(alloc, slot, a, args.as_slice())?;
            Ok(call_node(*callee, parts))
        }
        CoreExpr::New(class, args) => {
            let passed = final_exprs(alloc, slot, args.as_slice())?;
            Ok(new_node(*class, passed))
        }
    }
}

/// The same in a box.
#[cycle(expressions)]
fn boxed_expr(alloc: Global, slot: u16, e: &CoreExpr) -> Result<Box<CoreExpr>, NoMemory>
    ensures { IfOk result (λ made. expr_of made.value ≡ final_expr slot (expr_of e.now)) }
{
    let made = final_expr(alloc, slot, e)?;
    Ok(Box::new(alloc, made)?)
}

/// The same of two.
#[cycle(expressions)]
fn boxed_pair(
    alloc: Global,
    slot: u16,
    a: &CoreExpr,
    b: &CoreExpr,
) -> Result<(Box<CoreExpr>, Box<CoreExpr>), NoMemory>
    ensures first { IfOk result (λ made. expr_of made.0.value ≡ final_expr slot (expr_of a.now)) }
    ensures second { IfOk result (λ made. expr_of made.1.value ≡ final_expr slot (expr_of b.now)) }
{
    let first = boxed_expr(alloc, slot, a)?;
    let second = boxed_expr(alloc, slot, b)?;
    Ok((first, second))
}

/// The same of the receiver of a call and of its arguments.
#[cycle(expressions)]
fn call_parts(
    alloc: Global,
    slot: u16,
    receiver: &CoreExpr,
    args: &[CoreExpr],
) -> Result<(Box<CoreExpr>, Vec<CoreExpr>), NoMemory>
    ensures receiver { IfOk result (λ made. expr_of made.0.value ≡ final_expr slot (expr_of receiver.now)) }
    ensures args { IfOk result (λ made. exprs_from made.1.items ≡ final_exprs slot (exprs_from args.now)) }
{
    let receiver = boxed_expr(alloc, slot, receiver)?;
    let passed = final_exprs(alloc, slot, args)?;
    Ok((receiver, passed))
}

/// The same of arguments.
#[cycle(expressions)]
fn final_exprs(alloc: Global, slot: u16, es: &[CoreExpr]) -> Result<Vec<CoreExpr>, NoMemory>
    ensures { IfOk result (λ made. exprs_from made.items ≡ final_exprs slot (exprs_from es.now)) }
{
    let mut made = Vec::new(alloc);
    for e in es {
        made.push(final_expr(alloc, slot, e)?)?;
    }
    Ok(made)
}

/// The declaration of a local, where a variable is made final.
fn local_node(slot: u16, other: u16, is_final: bool, ty: CoreType, value: Box<CoreExpr>) -> CoreStmt
    ensures { stmt_of result ≡ LocalS other (is_final || (other == slot)) ty (expr_of value.value) }
{
    CoreStmt::Local {
        slot: other,
        is_final: is_final_now(slot, other, is_final),
        ty,
        value,
    }
}

fn set_field_node(field: FieldId, parts: (Box<CoreExpr>, Box<CoreExpr>)) -> CoreStmt
    ensures { stmt_of result ≡ SetFieldS (expr_of parts.0.value) field (expr_of parts.1.value) }
{
    CoreStmt::SetField(parts.0, field, parts.1)
}

/// A statement with a variable final wherever it is declared and read.
#[cycle(statements)]
pub(crate) fn final_stmt(alloc: Global, slot: u16, s: &CoreStmt) -> Result<CoreStmt, NoMemory>
    ensures { IfOk result (λ made. stmt_of made ≡ final_stmt slot (stmt_of s.now)) }
{
    match s {
        CoreStmt::Empty => Ok(CoreStmt::Empty),
        CoreStmt::Block(body) => {
            let made = final_stmts(alloc, slot, body.as_slice())?;
            Ok(CoreStmt::Block(made))
        }
        CoreStmt::Local {
            slot: other,
            is_final,
            ty,
            value,
        } => {
            let value = boxed_expr(alloc, slot, value)?;
            Ok(local_node(slot, *other, *is_final, *ty, value))
        }
        CoreStmt::SetVar(other, e) => Ok(CoreStmt::SetVar(*other, boxed_expr(alloc, slot, e)?)),
        CoreStmt::SetField(a, f, b) => Ok(set_field_node(*f, boxed_pair(alloc, slot, a, b)?)),
        CoreStmt::Do(e, drops) => Ok(CoreStmt::Do(boxed_expr(alloc, slot, e)?, *drops)),
        CoreStmt::If(c, a, b) => final_choice(alloc, slot, c, a, b),
        CoreStmt::While(c, a) => final_loop(alloc, slot, c, a),
        CoreStmt::Sync(path, a) => {
            let inside = boxed_stmt(alloc, slot, a)?;
            Ok(CoreStmt::Sync(path.copy(), inside))
        }
        CoreStmt::Return(None) => Ok(CoreStmt::Return(None)),
        CoreStmt::Return(Some(e)) => Ok(CoreStmt::Return(Some(boxed_expr(alloc, slot, e)?))),
        CoreStmt::Print(e) => Ok(CoreStmt::Print(boxed_expr(alloc, slot, e)?)),
        CoreStmt::Start(e) => Ok(CoreStmt::Start(boxed_expr(alloc, slot, e)?)),
    }
}

/// The same in a box.
#[cycle(statements)]
fn boxed_stmt(alloc: Global, slot: u16, s: &CoreStmt) -> Result<Box<CoreStmt>, NoMemory>
    ensures { IfOk result (λ made. stmt_of made.value ≡ final_stmt slot (stmt_of s.now)) }
{
    let made = final_stmt(alloc, slot, s)?;
    Ok(Box::new(alloc, made)?)
}

/// The same of a choice between two.
#[cycle(statements)]
fn final_choice(
    alloc: Global,
    slot: u16,
    condition: &CoreExpr,
    a: &CoreStmt,
    b: &CoreStmt,
) -> Result<CoreStmt, NoMemory>
    ensures { IfOk result (λ made. stmt_of made ≡ IfS (final_expr slot (expr_of condition.now)) (final_stmt slot (stmt_of a.now)) (final_stmt slot (stmt_of b.now))) }
{
    let test = boxed_expr(alloc, slot, condition)?;
    let first = boxed_stmt(alloc, slot, a)?;
    let second = boxed_stmt(alloc, slot, b)?;
    Ok(CoreStmt::If(test, first, second))
}

/// The same of a loop.
#[cycle(statements)]
fn final_loop(
    alloc: Global,
    slot: u16,
    condition: &CoreExpr,
    body: &CoreStmt,
) -> Result<CoreStmt, NoMemory>
    ensures { IfOk result (λ made. stmt_of made ≡ WhileS (final_expr slot (expr_of condition.now)) (final_stmt slot (stmt_of body.now))) }
{
    let test = boxed_expr(alloc, slot, condition)?;
    let turn = boxed_stmt(alloc, slot, body)?;
    Ok(CoreStmt::While(test, turn))
}

/// The same of the statements of a block.
#[cycle(statements)]
fn final_stmts(alloc: Global, slot: u16, body: &[CoreStmt]) -> Result<Vec<CoreStmt>, NoMemory>
    ensures { IfOk result (λ made. stmts_from made.items ≡ final_stmts slot (stmts_from body.now)) }
{
    let mut made = Vec::new(alloc);
    for s in body {
        made.push(final_stmt(alloc, slot, s)?)?;
    }
    Ok(made)
}
