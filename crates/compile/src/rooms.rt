//! The greatest number of operands that stand while a part is done.
ghost use Rattle.std.specs.Prelude.{◌≡◌, ◌+◌, IfOk};
ghost use Rattle.core_program.specs.Views.{expr_of, exprs_from, stmt_of, stmts_from};
ghost use Rattle.compile.specs.Rooms.{expr_room, exprs_room, stmt_room, stmts_room};

use core_program::{CoreExpr, CoreStmt};
use std::alloc::AllocError as NoMemory;

/// One more operand; want of memory where the number is past 32 bits.
fn one_more(n: u32) -> Result<u32, NoMemory>
    ensures { IfOk result (λ more. more ≡ 1 + n) }
{
    n.checked_add(1).ok_or(NoMemory)
}

/// The room of an expression.
#[cycle(rooms)]
pub(crate) fn expr_room(e: &CoreExpr) -> Result<u32, NoMemory>
    ensures { IfOk result (λ n. n ≡ expr_room (expr_of e.now)) }
{
    match e {
        CoreExpr::Not(a) | CoreExpr::Neg(a) | CoreExpr::Get(a, _) => expr_room(a),
        CoreExpr::Binary(_, a, b) => Ok(expr_room(a)?.max(one_more(expr_room(b)?)?)),
        CoreExpr::And(a, b) | CoreExpr::Or(a, b) => Ok(expr_room(a)?.max(expr_room(b)?)),
        CoreExpr::Call(a, _, args) => Ok(expr_room(a)?.max(one_more(exprs_room(
            args.as_slice(),
        )?)?)),
        CoreExpr::New(_, args) => Ok(exprs_room(args.as_slice())?.max(1)),
        CoreExpr::Int(_) | CoreExpr::Truth(_) | CoreExpr::Null => Ok(1),
        CoreExpr::This | CoreExpr::Var { .. } => Ok(1),
    }
}

/// The room of arguments.
#[cycle(rooms)]
fn exprs_room(args: &[CoreExpr]) -> Result<u32, NoMemory>
    ensures { IfOk result (λ n. n ≡ exprs_room (exprs_from args.now)) }
{
    match args.split_first() {
        None => Ok(0),
        Some((first, rest)) => Ok(expr_room(first)?.max(one_more(exprs_room(rest)?)?)),
    }
}

/// The room of a statement.
#[cycle(stmt_rooms)]
pub(crate) fn stmt_room(s: &CoreStmt) -> Result<u32, NoMemory>
    ensures { IfOk result (λ n. n ≡ stmt_room (stmt_of s.now)) }
{
    match s {
        CoreStmt::Empty | CoreStmt::Return(None) => Ok(0),
        CoreStmt::Block(body) => stmts_room(body.as_slice()),
        CoreStmt::Local { value: e, .. } => expr_room(e),
        CoreStmt::SetVar(_, e) | CoreStmt::Do(e, _) | CoreStmt::Print(e) => expr_room(e),
        CoreStmt::Start(e) | CoreStmt::Return(Some(e)) => expr_room(e),
        CoreStmt::SetField(a, _, b) => Ok(expr_room(a)?.max(one_more(expr_room(b)?)?)),
        CoreStmt::If(c, a, b) => Ok(expr_room(c)?.max(stmt_room(a)?.max(stmt_room(b)?))),
        CoreStmt::While(c, a) => Ok(expr_room(c)?.max(stmt_room(a)?)),
        CoreStmt::Sync(_, a) => Ok(stmt_room(a)?.max(1)),
    }
}

/// The room of the statements of a block.
#[cycle(stmt_rooms)]
fn stmts_room(body: &[CoreStmt]) -> Result<u32, NoMemory>
    ensures { IfOk result (λ n. n ≡ stmts_room (stmts_from body.now)) }
{
    let mut most = 0;
    for s in body {
        most = stmt_room(s)?.max(most);
    }
    Ok(most)
}
