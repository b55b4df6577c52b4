//! The lines of expressions and statements, put down from the last action to the first.
ghost use Rattle.std.specs.Prelude.{◌≡◌, ◌+◌, ◌<◌, ◌≤◌, ℕ, List, [], ◌∷◌, ◌++◌, IfOk, vec_len, length};
ghost use Rattle.core_program.specs.Core.{WhileS, SyncS};
ghost use Rattle.core_program.specs.Views.{expr_of, exprs_from, stmt_of, stmts_from};
ghost use Rattle.compile.specs.declared.stack.Instr.{Instr};
ghost use Rattle.compile.specs.declared.stack.Code.{Code};
ghost use Rattle.compile.specs.Emission.{KeepsCode, code_line, weight, weights, stmt_weight, stmts_weight, expr_entry, exprs_entry, gets_entry, stmt_entry, stmts_entry, emitted, emitted_args, emitted_gets, emitted_stmt, emitted_stmts};

use crate::stack::{Code, Instr};
use core_program::{CoreExpr, CoreStmt, UnaryOp};
use paths::{FieldId, Path};
use state::Value;
use std::alloc::AllocError as NoMemory;

/// Puts down one line; answers its place. Want of memory also where the place is past 32 bits, and then the lines are as before.
pub fn put(code: &mut Vec<Code>, instr: Instr, next: u32) -> Result<u32, NoMemory>
    ensures code { IfOk result (λ at. code.new.items ≡ code.old.items ++ (code_line instr next ∷ [])) }
    ensures len { IfOk result (λ at. vec_len code.new ≡ vec_len code.old + 1) }
    ensures place { IfOk result (λ at. at ≡ vec_len code.old) }
    ensures kept { (front : List Code) → KeepsCode front code.old.items → KeepsCode front code.new.items }
{
    let at = u32::try_from(code.len()).map_err(|_| NoMemory)?;
    code.push(Code { instr, next })?;
    Ok(at)
}

/// Puts down an expression that goes on at `next`; answers where it begins.
#[cycle(exprs)]
pub(crate) fn emit_expr(code: &mut Vec<Code>, e: &CoreExpr, next: u32) -> Result<u32, NoMemory>
    ensures code { IfOk result (λ at. code.new.items ≡ code.old.items ++ emitted (expr_of e.now) (vec_len code.old) next) }
    ensures len { IfOk result (λ at. vec_len code.new ≡ vec_len code.old + weight (expr_of e.now)) }
    ensures place { IfOk result (λ at. at ≡ expr_entry (expr_of e.now) (vec_len code.old) next) }
    ensures kept { (front : List Code) → KeepsCode front code.old.items → KeepsCode front code.new.items }
{
    match e {
        CoreExpr::Int(n) => put(code, Instr::Push(Value::Int(*n)), next),
        CoreExpr::Truth(b) => put(code, Instr::Push(Value::Truth(*b)), next),
        CoreExpr::Null => put(code, Instr::Push(Value::Null), next),
        CoreExpr::This => put(code, Instr::Load(0), next),
        CoreExpr::Var { slot, .. } => put(code, Instr::Load(*slot), next),
        CoreExpr::Not(a) => emit_unary(code, Instr::Unary(UnaryOp::Not), a, next),
        CoreExpr::Neg(a) => emit_unary(code, Instr::Unary(UnaryOp::Neg), a, next),
        CoreExpr::Binary(op, a, b) => {
            let last = put(code, Instr::Binary(*op), next)?;
            let right = emit_expr(code, b, last)?;
            emit_expr(code, a, right)
        }
        CoreExpr::And(a, b) => {
            let right = emit_expr(code, b, next)?;
            let test = put(code, Instr::AndThen(right), next)?;
            emit_expr(code, a, test)
        }
        CoreExpr::Or(a, b) => {
            let right = emit_expr(code, b, next)?;
            let test = put(code, Instr::OrElse(right), next)?;
            emit_expr(code, a, test)
        }
        CoreExpr::Get(a, field) => emit_unary(code, Instr::Get(*field), a, next),
        CoreExpr::Call(a, method, args) => {
            let last = put(code, Instr::Call(*method), next)?;
            let arguments = emit_args(code, args.as_slice(), last)?;
            emit_expr(code, a, arguments)
        }
        CoreExpr::New(class, args) => {
            let last = put(code, Instr::New(*class), next)?;
            emit_args(code, args.as_slice(), last)
        }
    }
}

/// Puts down an action on one operand, which goes on at `next`, and the operand; answers where the operand begins.
#[cycle(exprs)]
fn emit_unary(
    code: &mut Vec<Code>,
    instr: Instr,
    operand: &CoreExpr,
    next: u32,
) -> Result<u32, NoMemory>
    ensures code { IfOk result (λ at. code.new.items ≡ code.old.items ++ (code_line instr next ∷ emitted (expr_of operand.now) (vec_len code.old + 1) (vec_len code.old))) }
    ensures len { IfOk result (λ at. vec_len code.new ≡ vec_len code.old + (1 + weight (expr_of operand.now))) }
    ensures place { IfOk result (λ at. at ≡ expr_entry (expr_of operand.now) (vec_len code.old + 1) (vec_len code.old)) }
    ensures kept { (front : List Code) → KeepsCode front code.old.items → KeepsCode front code.new.items }
{
    let last = put(code, instr, next)?;
    emit_expr(code, operand, last)
}

/// Puts down arguments that go on at `next`; answers where they begin.
#[cycle(exprs)]
fn emit_args(code: &mut Vec<Code>, args: &[CoreExpr], next: u32) -> Result<u32, NoMemory>
    ensures code { IfOk result (λ at. code.new.items ≡ code.old.items ++ emitted_args (exprs_from args.now) (vec_len code.old) next) }
    ensures len { IfOk result (λ at. vec_len code.new ≡ vec_len code.old + weights (exprs_from args.now)) }
    ensures place { IfOk result (λ at. at ≡ exprs_entry (exprs_from args.now) (vec_len code.old) next) }
    ensures kept { (front : List Code) → KeepsCode front code.old.items → KeepsCode front code.new.items }
{
    match args.split_first() {
        None => Ok(next),
        Some((first, rest)) => {
            let later = emit_args(code, rest, next)?;
            emit_expr(code, first, later)
        }
    }
}

/// Puts down the reads of the fields of a lock; answers where they begin.
fn emit_gets(code: &mut Vec<Code>, fields: &[FieldId], next: u32) -> Result<u32, NoMemory>
    ensures code { IfOk result (λ at. code.new.items ≡ code.old.items ++ emitted_gets fields.now (vec_len code.old) next) }
    ensures len { IfOk result (λ at. vec_len code.new ≡ vec_len code.old + length fields.now) }
    ensures place { IfOk result (λ at. at ≡ gets_entry fields.now (vec_len code.old) next) }
    ensures kept { (front : List Code) → KeepsCode front code.old.items → KeepsCode front code.new.items }
{
    match fields.split_first() {
        None => Ok(next),
        Some((first, rest)) => {
            let later = emit_gets(code, rest, next)?;
            put(code, Instr::Get(*first), later)
        }
    }
}

/// Puts down a statement that goes on at `next`, and where a `return` inside it goes on at `ret`; answers where it
/// begins. After want of memory the lines are what they were, and maybe some behind them.
#[cycle(stmts)]
pub fn emit_stmt(code: &mut Vec<Code>, s: &CoreStmt, next: u32, ret: u32) -> Result<u32, NoMemory>
    ensures code { IfOk result (λ at. code.new.items ≡ code.old.items ++ emitted_stmt (stmt_of s.now) (vec_len code.old) next ret) }
    ensures len { IfOk result (λ at. vec_len code.new ≡ vec_len code.old + stmt_weight (stmt_of s.now)) }
    ensures place { IfOk result (λ at. at ≡ stmt_entry (stmt_of s.now) (vec_len code.old) next ret) }
    ensures kept { (front : List Code) → KeepsCode front code.old.items → KeepsCode front code.new.items }
{
    match s {
        CoreStmt::Empty => Ok(next),
        CoreStmt::Block(body) => emit_stmts(code, body.as_slice(), next, ret),
        CoreStmt::Local { slot, value, .. } => {
            let last = put(code, Instr::Store(*slot), next)?;
            emit_expr(code, value, last)
        }
        CoreStmt::SetVar(slot, value) => {
            let last = put(code, Instr::Store(*slot), next)?;
            emit_expr(code, value, last)
        }
        CoreStmt::SetField(a, field, b) => {
            let last = put(code, Instr::Put(*field), next)?;
            let value = emit_expr(code, b, last)?;
            emit_expr(code, a, value)
        }
        CoreStmt::Do(a, true) => {
            let last = put(code, Instr::Drop, next)?;
            emit_expr(code, a, last)
        }
        CoreStmt::Do(a, false) => emit_expr(code, a, next),
        CoreStmt::If(c, a, b) => {
            let other = emit_stmt(code, b, next, ret)?;
            let first = emit_stmt(code, a, next, ret)?;
            let test = put(code, Instr::Branch(other), first)?;
            emit_expr(code, c, test)
        }
        CoreStmt::While(c, a) => emit_loop(code, c, a, next, ret),
        CoreStmt::Sync(path, a) => emit_sync(code, path, a, next, ret),
        CoreStmt::Return(None) => Ok(ret),
        CoreStmt::Return(Some(a)) => emit_expr(code, a, ret),
        CoreStmt::Print(a) => {
            let last = put(code, Instr::Print, next)?;
            emit_expr(code, a, last)
        }
        CoreStmt::Start(a) => {
            let last = put(code, Instr::Start, next)?;
            emit_expr(code, a, last)
        }
    }
}

/// Puts down a loop: its branch, whose place the body comes back to by way of the condition; the condition; the body,
/// to which the branch is then led on.
#[cycle(stmts)]
fn emit_loop(
    code: &mut Vec<Code>,
    c: &CoreExpr,
    body: &CoreStmt,
    next: u32,
    ret: u32,
) -> Result<u32, NoMemory>
    ensures code { IfOk result (λ at. code.new.items ≡ code.old.items ++ emitted_stmt (WhileS (expr_of c.now) (stmt_of body.now)) (vec_len code.old) next ret) }
    ensures len { IfOk result (λ at. vec_len code.new ≡ vec_len code.old + (1 + weight (expr_of c.now) + stmt_weight (stmt_of body.now))) }
    ensures place { IfOk result (λ at. at ≡ expr_entry (expr_of c.now) (vec_len code.old + 1) (vec_len code.old)) }
    ensures kept { (front : List Code) → KeepsCode front code.old.items → KeepsCode front code.new.items }
{
    let turn = put(code, Instr::Branch(next), 0)?;
    let condition = emit_expr(code, c, turn)?;
    let first = emit_stmt(code, body, condition, ret)?;
    lead_on(code, turn, first);
    Ok(condition)
}

/// Puts down a block that holds a lock: a release for its end, one for a `return` inside it, the block, the acquire, and
/// the reads of the lock's path.
#[cycle(stmts)]
fn emit_sync(
    code: &mut Vec<Code>,
    path: &Path,
    body: &CoreStmt,
    next: u32,
    ret: u32,
) -> Result<u32, NoMemory>
    ensures code { IfOk result (λ at. code.new.items ≡ code.old.items ++ emitted_stmt (SyncS path.now (stmt_of body.now)) (vec_len code.old) next ret) }
    ensures len { IfOk result (λ at. vec_len code.new ≡ vec_len code.old + stmt_weight (SyncS path.now (stmt_of body.now))) }
    ensures place { IfOk result (λ at. at ≡ stmt_entry (SyncS path.now (stmt_of body.now)) (vec_len code.old) next ret) }
    ensures kept { (front : List Code) → KeepsCode front code.old.items → KeepsCode front code.new.items }
{
    let ends = put(code, Instr::Release, next)?;
    let returns = put(code, Instr::Release, ret)?;
    let first = emit_stmt(code, body, ends, returns)?;
    let acquire = put(code, Instr::Acquire, first)?;
    let gets = emit_gets(code, path.fields.as_slice(), acquire)?;
    put(code, Instr::Load(path.root), gets)
}

/// Puts down the statements of a block; answers where they begin.
#[cycle(stmts)]
fn emit_stmts(code: &mut Vec<Code>, body: &[CoreStmt], next: u32, ret: u32) -> Result<u32, NoMemory>
    ensures code { IfOk result (λ at. code.new.items ≡ code.old.items ++ emitted_stmts (stmts_from body.now) (vec_len code.old) next ret) }
    ensures len { IfOk result (λ at. vec_len code.new ≡ vec_len code.old + stmts_weight (stmts_from body.now)) }
    ensures place { IfOk result (λ at. at ≡ stmts_entry (stmts_from body.now) (vec_len code.old) next ret) }
    ensures kept { (front : List Code) → KeepsCode front code.old.items → KeepsCode front code.new.items }
{
    let mut later = next;
    let mut place = body.len();
    while place > 0 {
        place -= 1;
        later = emit_stmt(code, &body[place], later, ret)?;
    }
    Ok(later)
}

/// Sets the place where the line at a place goes on.
fn lead_on(code: &mut Vec<Code>, at: u32, next: u32)
    ensures line { (before after : List Code) (instr : Instr) (old : ℕ) → code.old.items ≡ before ++ (code_line instr old ∷ after) →
        at ≡ length before → code.new.items ≡ before ++ (code_line instr next ∷ after) }
    ensures len { vec_len code.new ≡ vec_len code.old }
    ensures kept { (front : List Code) → length front ≤ at → KeepsCode front code.old.items → KeepsCode front code.new.items }
{
    if let Some(line) = code.get_mut(at as usize) {
        line.next = next;
    }
}
