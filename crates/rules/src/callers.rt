//! Which methods call a method. A method counts as a caller of those that override it, by the rows that are given.
ghost use Rattle.std.specs.Prelude.{◌≡◌, ◌++◌, ℕ, ◌<◌, ◌≤◌, ◌^◌, List, length, IfOk, OnOk};
ghost use Rattle.core_program.specs.Views.{program_of, expr_of, exprs_from, stmt_of, stmts_from};
ghost use Rattle.rules.specs.Search.{row_at as overs_at};
ghost use Rattle.rules.specs.Called.{expr_callees, exprs_callees, stmt_callees, block_callees, HasCaller, HasCallers, AreCallers};

use crate::rows_of_overriding::Overriding;
use core_program::{CoreExpr, CoreProgram, CoreStmt};
use paths::MethodId;
use std::alloc::{AllocError as NoMemory, Global};
use std::marker::Model;

/// The methods that call one method, by their places.
#[derive(Drop)]
pub struct Callers {
    pub(crate) callers: Vec<usize>,
}

impl Model for Callers {
    ghost use Rattle.std.specs.Prelude.{ℕ, List};

    ghost Value = { List ℕ };

    ghost view = { λ r. r.callers.items };
}

impl Callers {
    /// The methods, by their places.
    pub fn callers(&self) -> &[usize]
        ensures { result.now ≡ self.now }
    {
        self.callers.as_slice()
    }
}

/// Adds the methods that an expression calls.
#[cycle(expression_callees)]
fn put_expr(e: &CoreExpr, callees: &mut Vec<MethodId>) -> Result<(), NoMemory>
    ensures { OnOk result (callees.new.items ≡ callees.old.items ++ expr_callees (expr_of e.now)) }
{
    match e {
        CoreExpr::Int(_)
        | CoreExpr::Truth(_)
        | CoreExpr::Null
        | CoreExpr::This
        | CoreExpr::Var { .. } => Ok(()),
        CoreExpr::Not(a) | CoreExpr::Neg(a) | CoreExpr::Get(a, _) => put_expr(a, callees),
        CoreExpr::Binary(_, a, b) | CoreExpr::And(a, b) | CoreExpr::Or(a, b) => {
            put_expr(a, callees)?;
            put_expr(b, callees)
        }
        CoreExpr::Call(a, m, args) => {
            callees.push(*m)?;
            put_expr(a, callees)?;
            put_exprs(args.as_slice(), callees)
        }
        CoreExpr::New(_, args) => put_exprs(args.as_slice(), callees),
    }
}

/// Adds the methods that arguments call.
#[cycle(expression_callees)]
fn put_exprs(es: &[CoreExpr], callees: &mut Vec<MethodId>) -> Result<(), NoMemory>
    ensures { OnOk result (callees.new.items ≡ callees.old.items ++ exprs_callees (exprs_from es.now)) }
{
    let Some((e, rest)) = es.split_first() else {
        return Ok(());
    };
    put_expr(e, callees)?;
    put_exprs(rest, callees)
}

/// Adds the methods that a statement calls.
#[cycle(statement_callees)]
fn put_stmt(s: &CoreStmt, callees: &mut Vec<MethodId>) -> Result<(), NoMemory>
    ensures { OnOk result (callees.new.items ≡ callees.old.items ++ stmt_callees (stmt_of s.now)) }
{
    match s {
        CoreStmt::Empty | CoreStmt::Return(None) => Ok(()),
        CoreStmt::Block(body) => put_block(body.as_slice(), callees),
        CoreStmt::Local { value: e, .. }
        | CoreStmt::SetVar(_, e)
        | CoreStmt::Do(e, _)
        | CoreStmt::Return(Some(e))
        | CoreStmt::Print(e)
        | CoreStmt::Start(e) => put_expr(e, callees),
        CoreStmt::SetField(a, _, b) => {
            put_expr(a, callees)?;
            put_expr(b, callees)
        }
        CoreStmt::If(c, a, b) => {
            put_expr(c, callees)?;
            put_stmt(a, callees)?;
            put_stmt(b, callees)
        }
        CoreStmt::While(c, a) => {
            put_expr(c, callees)?;
            put_stmt(a, callees)
        }
        CoreStmt::Sync(_, a) => put_stmt(a, callees),
    }
}

/// Adds the methods that statements call.
#[cycle(statement_callees)]
fn put_block(statements: &[CoreStmt], callees: &mut Vec<MethodId>) -> Result<(), NoMemory>
    ensures { OnOk result (callees.new.items ≡ callees.old.items ++ block_callees (stmts_from statements.now)) }
{
    for s in statements {
        put_stmt(s, callees)?;
    }
    Ok(())
}

/// Adds the caller of a method.
fn add_caller(rows: &mut [Callers], callee: MethodId, caller: usize) -> Result<(), NoMemory>
    ensures size { length rows.new ≡ length rows.old }
    ensures added { OnOk result (HasCaller rows.old rows.new callee caller) }
{
    let place = callee.0 as usize;
    if place >= rows.len() {
        return Ok(());
    }
    let row = &mut rows[place];
    if row.callers.last() == Some(&caller) {
        return Ok(());
    }
    row.callers.push(caller)?;
    Ok(())
}

/// Adds the caller of each of these methods.
fn add_callers(rows: &mut [Callers], callees: &[MethodId], caller: usize) -> Result<(), NoMemory>
    ensures size { length rows.new ≡ length rows.old }
    ensures added { OnOk result (HasCallers rows.old rows.new callees.now caller) }
{
    for callee in callees {
        add_caller(rows, *callee, caller)?;
    }
    Ok(())
}

/// No callers of so many methods.
fn no_callers(alloc: Global, count: usize) -> Result<Vec<Callers>, NoMemory>
    ensures { IfOk result (λ rows. length rows.items ≡ count) }
{
    let mut rows = Vec::new(alloc);
    for _ in 0..count {
        rows.push(Callers {
            callers: Vec::new(alloc),
        })?;
    }
    Ok(rows)
}

/// Adds each method to the callers of those that its body calls and of those in its row.
fn add_methods<R: Overriding>(
    alloc: Global,
    program: &CoreProgram,
    over: &R,
    rows: &mut [Callers],
) -> Result<(), NoMemory>
    requires { length (program_of program.now).methods ≤ 2 ^ 32 }
    ensures size { length rows.new ≡ length rows.old }
    ensures callers { OnOk result (AreCallers (program_of program.now) (overs_at (R.rows over.now)) rows.new) }
{
    for (caller, method) in program.methods().iter().enumerate() {
        let mut callees = Vec::new(alloc);
        put_stmt(&method.body, &mut callees)?;
        add_callers(rows, callees.as_slice(), caller)?;
        add_callers(rows, over.row(MethodId(caller as u32)), caller)?;
    }
    Ok(())
}

/// The callers of each method of a program, by these rows of overriding methods.
pub fn callers_of<R: Overriding>(
    alloc: Global,
    program: &CoreProgram,
    over: &R,
) -> Result<Vec<Callers>, NoMemory>
    requires { length (program_of program.now).methods ≤ 2 ^ 32 }
    ensures size { IfOk result (λ rows. length rows.items ≡ length (program_of program.now).methods) }
    ensures callers { IfOk result (λ rows. AreCallers (program_of program.now) (overs_at (R.rows over.now)) rows.items) }
{
    let mut rows = no_callers(alloc, program.methods().len())?;
    add_methods(alloc, program, over, &mut rows)?;
    Ok(rows)
}
