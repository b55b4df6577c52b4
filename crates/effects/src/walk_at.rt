//! The walk of a body.
ghost use Rattle.std.specs.Prelude.{◌≡◌, IfOk};
ghost use Rattle.algebra.specs.HeldPaths.{has_path};
ghost use Rattle.core_program.specs.Views.{expr_of, exprs_from, program_of, stmt_of, stmts_from};
ghost use Rattle.rules.specs.Effect.{block_effect, effect, expr_effect, exprs_effect};
ghost use Rattle.rules.specs.Near.{rel_of};

use crate::accesses_at::{access, variable};
use crate::assigned::Assigned;
use crate::calls::{Called, call_effect};
use crate::lists::{copied, with_path};
use crate::locals::after;
use algebra::{Basic, has};
use core_program::{CoreExpr, CoreProgram, CoreStmt};
use paths::Path;
use rules::RelevantSets;
use std::alloc::{AllocError as NoMemory, Global};

/// The effect of an expression where these paths are held.
#[cycle(expression_effect)]
pub fn expr_effect<A: Assigned>(
    alloc: Global,
    program: &CoreProgram,
    sets: &RelevantSets,
    assigned: &A,
    e: &CoreExpr,
    held: &[Path],
) -> Result<Basic, NoMemory>
    ensures { IfOk result (λ b.
        b ≡ expr_effect (program_of program.now) (rel_of sets.now) (A.Assigned.assigned assigned.now) (expr_of e.now) (has_path held.now)) }
{
    match e {
        CoreExpr::Int(_) | CoreExpr::Truth(_) | CoreExpr::Null | CoreExpr::This => Ok(Basic::Const),
        CoreExpr::Var { is_final, .. } => Ok(variable(*is_final)),
        CoreExpr::Not(a) | CoreExpr::Neg(a) => expr_effect(alloc, program, sets, assigned, a, held),
        CoreExpr::Binary(_, a, b) | CoreExpr::And(a, b) | CoreExpr::Or(a, b) => {
            let first = expr_effect(alloc, program, sets, assigned, a, held)?;
            let second = expr_effect(alloc, program, sets, assigned, b, held)?;
            Ok(first.seq(second))
        }
        CoreExpr::Get(a, field) => {
            let receiver = expr_effect(alloc, program, sets, assigned, a, held)?;
            Ok(receiver.seq(access(program, a, *field, false, held)))
        }
        CoreExpr::Call(a, callee, args) => {
            let receiver = expr_effect(alloc, program, sets, assigned, a, held)?;
            let passed = exprs_effect(alloc, program, sets, assigned, args.as_slice(), held)?;
            let call = Called {
                receiver: a,
                callee: *callee,
                args: args.as_slice(),
            };
            let called = call_effect(alloc, program, sets, assigned, &call, held)?;
            Ok(receiver.seq(passed.seq(called)))
        }
        CoreExpr::New(_, args) => {
            let passed = exprs_effect(alloc, program, sets, assigned, args.as_slice(), held)?;
            Ok(passed.seq(Basic::Mover))
        }
    }
}

/// The arguments of a call or a `new`, in sequence.
#[cycle(expression_effect)]
fn exprs_effect<A: Assigned>(
    alloc: Global,
    program: &CoreProgram,
    sets: &RelevantSets,
    assigned: &A,
    es: &[CoreExpr],
    held: &[Path],
) -> Result<Basic, NoMemory>
    ensures { IfOk result (λ b.
        b ≡ exprs_effect (program_of program.now) (rel_of sets.now) (A.Assigned.assigned assigned.now) (exprs_from es.now) (has_path held.now)) }
{
    let mut so_far = Basic::Const;
    for e in es {
        so_far = so_far.seq(expr_effect(alloc, program, sets, assigned, e, held)?);
    }
    Ok(so_far)
}

/// The effect of a statement where these paths are held.
#[cycle(statement_effect)]
pub fn stmt_effect<A: Assigned>(
    alloc: Global,
    program: &CoreProgram,
    sets: &RelevantSets,
    assigned: &A,
    s: &CoreStmt,
    held: &[Path],
) -> Result<Basic, NoMemory>
    ensures { IfOk result (λ b.
        b ≡ effect (program_of program.now) (rel_of sets.now) (A.Assigned.assigned assigned.now) (stmt_of s.now) (has_path held.now)) }
{
    match s {
        CoreStmt::Empty | CoreStmt::Return(None) => Ok(Basic::Const),
        CoreStmt::Block(body) => {
            block_effect(alloc, program, sets, assigned, body.as_slice(), held)
        }
        CoreStmt::Local { value: e, .. } | CoreStmt::SetVar(_, e) => {
            Ok(expr_effect(alloc, program, sets, assigned, e, held)?.seq(Basic::Mover))
        }
        CoreStmt::SetField(a, field, b) => {
            let receiver = expr_effect(alloc, program, sets, assigned, a, held)?;
            let value = expr_effect(alloc, program, sets, assigned, b, held)?;
            Ok(receiver.seq(value.seq(access(program, a, *field, true, held))))
        }
        CoreStmt::Do(e, _) | CoreStmt::Return(Some(e)) => {
            expr_effect(alloc, program, sets, assigned, e, held)
        }
        CoreStmt::If(c, a, b) => {
            let test = expr_effect(alloc, program, sets, assigned, c, held)?;
            let first = stmt_effect(alloc, program, sets, assigned, a, held)?;
            let second = stmt_effect(alloc, program, sets, assigned, b, held)?;
            Ok(test.seq(first.join(second)))
        }
        CoreStmt::While(c, a) => {
            let test = expr_effect(alloc, program, sets, assigned, c, held)?;
            let turn = stmt_effect(alloc, program, sets, assigned, a, held)?;
            Ok(test.seq(turn.seq(test).star()))
        }
        CoreStmt::Sync(path, a) => {
            if has(held, path) {
                return stmt_effect(alloc, program, sets, assigned, a, held);
            }
            let more = with_path(alloc, path, held)?;
            let taken = stmt_effect(alloc, program, sets, assigned, a, more.as_slice())?;
            Ok(taken.lift())
        }
        CoreStmt::Print(e) | CoreStmt::Start(e) => {
            let value = expr_effect(alloc, program, sets, assigned, e, held)?;
            Ok(value.seq(Basic::Atomic))
        }
    }
}

/// The statements of a block in sequence, each at the set that the ones before it leave.
#[cycle(statement_effect)]
fn block_effect<A: Assigned>(
    alloc: Global,
    program: &CoreProgram,
    sets: &RelevantSets,
    assigned: &A,
    body: &[CoreStmt],
    held: &[Path],
) -> Result<Basic, NoMemory>
    ensures { IfOk result (λ b.
        b ≡ block_effect (program_of program.now) (rel_of sets.now) (A.Assigned.assigned assigned.now) (stmts_from body.now) (has_path held.now)) }
{
    let mut so_far = Basic::Const;
    let mut now = copied(alloc, held)?;
    for s in body {
        so_far = so_far.seq(stmt_effect(alloc, program, sets, assigned, s, now.as_slice())?);
        now = after(alloc, program, s, now)?;
    }
    Ok(so_far)
}
