//! The clauses of the methods of a program: those of their required paths, and of what their bodies mention.
ghost use Rattle.std.specs.Prelude.{◌≡◌, ◌≤◌, ◌^◌, ◌+◌, ◌++◌, ◌∷◌, [], true, Some, length, OnOk, IfOk, slice_get};
ghost use Rattle.core_program.specs.Locks.{path_of};
ghost use Rattle.core_program.specs.Views.{program_of, method_of, expr_of, exprs_from, stmt_of, stmts_from};
ghost use Rattle.rules.specs.Mentions.{Names, expr_mentions, exprs_mentions, mentions, block_mentions, paths_of};
ghost use Rattle.rules.specs.Guards.{guard_of, guard_path};
ghost use Rattle.rules.specs.Clauses.{link_clauses, passed_clauses, all_passed, params_of, call_clauses, guard_clauses, clauses_of, method_clauses, clauses_from, fact};

use crate::clauses::{Clause, Link, NearPath, Way, params_of};
use crate::guard::{Guard, guard_at};
use core_program::{CoreExpr, CoreMethod, CoreProgram, CoreStmt, path_of};
use paths::{FieldId, MethodId, Path};
use std::alloc::{AllocError as NoMemory, Global};

/// Where links of a call come from and lead to, and how many parameters the callee has.
#[derive(Drop)]
struct Call {
    callee: MethodId,
    params: usize,
    caller: MethodId,
}

/// The clauses of all methods, in order.
pub(crate) fn clauses_of(alloc: Global, program: &CoreProgram) -> Result<Vec<Clause>, NoMemory>
    requires { length (program_of program.now).methods ≤ 2 ^ 32 }
    ensures { IfOk result (λ clauses.
        let P = program_of program.now in
        clauses.items ≡ clauses_from P 0 P.methods) }
{
    let mut clauses = Vec::new(alloc);
    let methods = program.methods();
    for place in 0..methods.len() {
        add_method(
            program,
            MethodId(place as u32),
            &methods[place],
            &mut clauses,
        )?;
    }
    Ok(clauses)
}

fn add_method(
    program: &CoreProgram,
    id: MethodId,
    method: &CoreMethod,
    clauses: &mut Vec<Clause>,
) -> Result<(), NoMemory>
    ensures { OnOk result (clauses.new.items ≡ clauses.old.items ++ method_clauses (program_of program.now) id (method_of method.now)) }
{
    for path in &method.requires_ {
        add_fact(id, path.copy(), clauses)?;
    }
    add_stmt(program, id, &method.body, clauses)
}

fn add_fact(method: MethodId, path: Path, clauses: &mut Vec<Clause>) -> Result<(), NoMemory>
    ensures { OnOk result (clauses.new.items ≡ clauses.old.items ++ fact method path ∷ []) }
{
    clauses.push(Clause::Fact(NearPath { method, path }))?;
    Ok(())
}

/// The link that what a slot stands for gives, where that has a path.
fn add_link(
    from: MethodId,
    root: usize,
    to: MethodId,
    start: Option<Path>,
    clauses: &mut Vec<Clause>,
) -> Result<(), NoMemory>
    ensures { OnOk result (clauses.new.items ≡ clauses.old.items ++ link_clauses from root to start) }
{
    if let Some(start) = start {
        clauses.push(Clause::Leads(Link {
            from,
            to,
            way: Way::Passed { root, start },
        }))?;
    }
    Ok(())
}

/// The link of what a call passes for a slot, if that is `this` or a parameter of the callee.
fn add_passed(
    call: &Call,
    root: usize,
    start: Option<Path>,
    clauses: &mut Vec<Clause>,
) -> Result<(), NoMemory>
    ensures { OnOk result (clauses.new.items ≡ clauses.old.items ++ passed_clauses call.now.params call.now.callee root call.now.caller start) }
{
    if root <= call.params {
        add_link(call.callee, root, call.caller, start, clauses)
    } else {
        Ok(())
    }
}

fn add_all_passed(
    program: &CoreProgram,
    call: &Call,
    args: &[CoreExpr],
    clauses: &mut Vec<Clause>,
) -> Result<(), NoMemory>
    ensures { OnOk result (clauses.new.items ≡
        clauses.old.items ++ all_passed call.now.params call.now.callee 1 call.now.caller (paths_of (program_of program.now) (exprs_from args.now))) }
{
    for place in 0..args.len() {
        add_passed(call, place + 1, path_of(program, &args[place]), clauses)?;
    }
    Ok(())
}

fn add_call(
    program: &CoreProgram,
    caller: MethodId,
    receiver: &CoreExpr,
    callee: MethodId,
    args: &[CoreExpr],
    clauses: &mut Vec<Clause>,
) -> Result<(), NoMemory>
    ensures { OnOk result (let P = program_of program.now in clauses.new.items ≡
        clauses.old.items ++ call_clauses callee caller (params_of (slice_get P.methods callee)) (path_of P (expr_of receiver.now)) (paths_of P (exprs_from args.now))) }
{
    match params_of(program, callee) {
        None => Ok(()),
        Some(params) => {
            let call = Call {
                callee,
                params,
                caller,
            };
            add_passed(&call, 0, path_of(program, receiver), clauses)?;
            add_all_passed(program, &call, args, clauses)
        }
    }
}

fn add_access(
    program: &CoreProgram,
    method: MethodId,
    receiver: &CoreExpr,
    field: FieldId,
    clauses: &mut Vec<Clause>,
) -> Result<(), NoMemory>
    ensures { OnOk result (let P = program_of program.now in clauses.new.items ≡
        clauses.old.items ++ guard_clauses method (guard_path (guard_of P field (path_of P (expr_of receiver.now))))) }
{
    match guard_at(program, receiver, field) {
        Guard::Named(path) | Guard::WriteNamed(path) => add_fact(method, path, clauses),
        Guard::Final | Guard::Free | Guard::Unnamed | Guard::WriteUnnamed => Ok(()),
    }
}

#[cycle(expressions)]
#[tactic(auto, using(crate::proofs::ClauseLemmas::clauses_append))]
fn add_expr(
    program: &CoreProgram,
    method: MethodId,
    e: &CoreExpr,
    clauses: &mut Vec<Clause>,
) -> Result<(), NoMemory>
    ensures { OnOk result (clauses.new.items ≡
        clauses.old.items ++ clauses_of (program_of program.now) method (expr_mentions (expr_of e.now))) }
{
    match e {
        CoreExpr::Not(a) | CoreExpr::Neg(a) => add_expr(program, method, a, clauses),
        CoreExpr::Binary(_, a, b) => {
            add_expr(program, method, a, clauses)?;
            add_expr(program, method, b, clauses)
        }
        CoreExpr::And(a, b) => {
            add_expr(program, method, a, clauses)?;
            add_expr(program, method, b, clauses)
        }
        CoreExpr::Or(a, b) => {
            add_expr(program, method, a, clauses)?;
            add_expr(program, method, b, clauses)
        }
        CoreExpr::Get(receiver, field) => {
            add_access(program, method, receiver, *field, clauses)?;
            add_expr(program, method, receiver, clauses)
        }
        CoreExpr::Call(receiver, callee, args) => {
            add_call(program, method, receiver, *callee, args.as_slice(), clauses)?;
            add_expr(program, method, receiver, clauses)?;
            add_exprs(program, method, args.as_slice(), clauses)
        }
        CoreExpr::New(_, args) => add_exprs(program, method, args.as_slice(), clauses),
        CoreExpr::Int(_)
        | CoreExpr::Truth(_)
        | CoreExpr::Null
        | CoreExpr::This
        | CoreExpr::Var { .. } => Ok(()),
    }
}

#[cycle(expressions)]
#[tactic(auto, using(crate::proofs::ClauseLemmas::clauses_append))]
fn add_exprs(
    program: &CoreProgram,
    method: MethodId,
    es: &[CoreExpr],
    clauses: &mut Vec<Clause>,
) -> Result<(), NoMemory>
    ensures { OnOk result (clauses.new.items ≡
        clauses.old.items ++ clauses_of (program_of program.now) method (exprs_mentions (exprs_from es.now))) }
{
    for e in es {
        add_expr(program, method, e, clauses)?;
    }
    Ok(())
}

/// What a final local gives: the link of its value, and what the value mentions.
#[tactic(auto, using(crate::proofs::ClauseLemmas::clauses_append))]
fn add_final(
    program: &CoreProgram,
    method: MethodId,
    slot: usize,
    value: &CoreExpr,
    clauses: &mut Vec<Clause>,
) -> Result<(), NoMemory>
    ensures { OnOk result (clauses.new.items ≡
        clauses.old.items ++ clauses_of (program_of program.now) method (Names slot (expr_of value.now) ∷ expr_mentions (expr_of value.now))) }
{
    add_link(method, slot, method, path_of(program, value), clauses)?;
    add_expr(program, method, value, clauses)
}

#[cycle(statements)]
#[tactic(auto, using(crate::proofs::ClauseLemmas::clauses_append))]
fn add_stmt(
    program: &CoreProgram,
    method: MethodId,
    s: &CoreStmt,
    clauses: &mut Vec<Clause>,
) -> Result<(), NoMemory>
    ensures { OnOk result (clauses.new.items ≡
        clauses.old.items ++ clauses_of (program_of program.now) method (mentions (stmt_of s.now))) }
{
    match s {
        CoreStmt::Empty | CoreStmt::Return(None) => Ok(()),
        CoreStmt::Block(body) => add_block(program, method, body.as_slice(), clauses),
        CoreStmt::Local {
            slot,
            is_final: true,
            value,
            ..
        } => add_final(program, method, *slot as usize, value, clauses),
        CoreStmt::Local { value, .. } => add_expr(program, method, value, clauses),
        CoreStmt::SetField(receiver, field, value) => {
            add_access(program, method, receiver, *field, clauses)?;
            add_expr(program, method, receiver, clauses)?;
            add_expr(program, method, value, clauses)
        }
        CoreStmt::If(condition, one, other) => {
            add_expr(program, method, condition, clauses)?;
            add_stmt(program, method, one, clauses)?;
            add_stmt(program, method, other, clauses)
        }
        CoreStmt::While(condition, body) => {
            add_expr(program, method, condition, clauses)?;
            add_stmt(program, method, body, clauses)
        }
        CoreStmt::Sync(path, body) => {
            add_fact(method, path.copy(), clauses)?;
            add_stmt(program, method, body, clauses)
        }
        CoreStmt::SetVar(_, e)
        | CoreStmt::Do(e, _)
        | CoreStmt::Return(Some(e))
        | CoreStmt::Print(e)
        | CoreStmt::Start(e) => add_expr(program, method, e, clauses),
    }
}

#[cycle(statements)]
#[tactic(auto, using(crate::proofs::ClauseLemmas::clauses_append))]
fn add_block(
    program: &CoreProgram,
    method: MethodId,
    body: &[CoreStmt],
    clauses: &mut Vec<Clause>,
) -> Result<(), NoMemory>
    ensures { OnOk result (clauses.new.items ≡
        clauses.old.items ++ clauses_of (program_of program.now) method (block_mentions (stmts_from body.now))) }
{
    for s in body {
        add_stmt(program, method, s, clauses)?;
    }
    Ok(())
}
