//! Statements and blocks: the core node of each, where each part has one.
#![tactic(auto, using(crate::proofs::Noting::noted_append))]

ghost use Rattle.std.specs.Prelude.{◌≡◌, ◌+◌, ◌++◌, ◌||◌, List, None, true, not, map, option_map, IfOk, OnOk};
ghost use Rattle.classes.specs.Views.{table_data};
ghost use Rattle.core_program.specs.Core.{BlockS};
ghost use Rattle.core_program.specs.Views as core;
ghost use Rattle.syntax.specs.Trees as tree;
ghost use Rattle.syntax.specs.Views.{expr_tree, lock_of, stmt_of, stmts_from};
ghost use Rattle.typing.specs.Completion.{completes, completes_each, is_true_tree as literal_true, locals_in, locals_in_each};
ghost use Rattle.typing.specs.Inside.{block_faults_in, block_nodes, core_in, faults_in, scope_in};
ghost use Rattle.typing.specs.Noted.{type_noted};
ghost use Rattle.typing.specs.Stmts.{declared_type, unreachable};
ghost use Rattle.typing.specs.declared.scope.Bound.{Bound};

use crate::body::{Body, condition};
use crate::completion::is_true_literal;
use crate::fault::TypeFault;
use crate::first::FirstFault;
use crate::gather::Gathered;
use crate::lock::lock_path;
use crate::nodes::{
    StmtPart, block_of, boxed_part, if_alone, if_part, sync_part, total, while_part,
};
use crate::scope::Bound;
use crate::simple_stmts::{assign, call, print, return_part, simple, start};
use crate::stmt_rules::MOST_LOCALS;
use core_program::{CoreStmt, CoreType};
use std::alloc::AllocError as NoMemory;
use syntax::{Expr, Lock, Stmt};

/// Notes a statement that can't be reached.
fn note_unreachable(live: bool, s: &Stmt, first: &mut FirstFault)
    ensures { first.new ≡ type_noted first.old (unreachable live (stmt_of s.now)) }
{
    if !live {
        first.note(TypeFault::Unreachable(s.begins_at()));
    }
}

/// Puts what a statement declares into scope, where so many locals stand before it.
fn declare<'a>(
    body: &Body,
    before: usize,
    s: &Stmt<'a>,
    declared: Option<CoreType>,
    scope: &mut Vec<Bound<'a>>,
) -> Result<(), NoMemory>
    requires { declared ≡ declared_type (table_data body.now.table.now) (stmt_of s.now) }
    ensures scope { OnOk result (scope.new.items ≡ scope_in body.now scope.old.items before (stmt_of s.now)) }
    ensures kept { OnOk result ((more : List Bound) × (scope.new.items ≡ scope.old.items ++ more)) }
{
    let Stmt::Local { is_final, name, .. } = s else {
        return Ok(());
    };
    let Some(ty) = declared else {
        return Ok(());
    };
    if before >= MOST_LOCALS {
        return Ok(());
    }
    let bound = Bound {
        name: name.text,
        slot: body.first_local as u16 + before as u16,
        is_final: *is_final,
        ty,
    };
    scope.push(bound)?;
    Ok(())
}

/// A statement of a body, with these variables in scope and so many locals declared before it.
#[cycle(statements)]
fn stmt<'a>(
    body: &Body,
    scope: &mut Vec<Bound<'a>>,
    before: usize,
    s: &Stmt<'a>,
    first: &mut FirstFault,
) -> Result<StmtPart, NoMemory>
    ensures node { IfOk result (λ p. option_map core.stmt_of p.node ≡ core_in body.now scope.old.items before (stmt_of s.now)) }
    ensures scope { OnOk result (scope.new.items ≡ scope.old.items) }
    ensures locals { IfOk result (λ p. p.locals ≡ locals_in (stmt_of s.now)) }
    ensures completes { IfOk result (λ p. p.completes ≡ completes (stmt_of s.now)) }
    ensures declared { IfOk result (λ p. p.declared ≡ declared_type (table_data body.now.table.now) (stmt_of s.now)) }
    ensures fault { OnOk result (first.new ≡ type_noted first.old (faults_in body.now scope.old.items before (stmt_of s.now))) }
{
    let seen = scope.as_slice();
    match s {
        Stmt::Empty(_) => Ok(simple(Some(CoreStmt::Empty))),
        Stmt::Block(stmts, _) => block(body, scope, before, stmts, first),
        Stmt::Local { .. } => assign(body, seen, before, s, first),
        Stmt::SetVar(_, _, _) => assign(body, seen, before, s, first),
        Stmt::SetField(_, _, _, _) => assign(body, seen, before, s, first),
        Stmt::Do(part, at) => call(body, seen, part, *at, first),
        Stmt::If(part, then, None, at) => {
            let conditional = Conditional {
                condition: part,
                inner: then,
                at: *at,
            };
            if_then(body, scope, before, &conditional, first)
        }
        Stmt::If(part, then, Some(other), at) => {
            let choice = Choice {
                condition: part,
                then,
                other,
                at: *at,
            };
            if_else(body, scope, before, &choice, first)
        }
        Stmt::While(part, inner, at) => {
            let conditional = Conditional {
                condition: part,
                inner,
                at: *at,
            };
            while_loop(body, scope, before, &conditional, first)
        }
        Stmt::Sync(lock, stmts, _) => sync(body, scope, before, lock, stmts, first),
        Stmt::Return(value, at) => return_part(body, seen, value, *at, first),
        Stmt::Print(part, at) => print(body, seen, part, *at, first),
        Stmt::Start(part, at) => start(body, seen, part, *at, first),
    }
}

/// A condition with the statement that runs where it holds: an `if` without `else`, or a loop.
#[derive(Clone, Copy)]
struct Conditional<'s, 'a> {
    condition: &'s Expr<'a>,
    inner: &'s Stmt<'a>,
    at: u32,
}

/// A choice between two statements by a condition.
#[derive(Clone, Copy)]
struct Choice<'s, 'a> {
    condition: &'s Expr<'a>,
    then: &'s Stmt<'a>,
    other: &'s Stmt<'a>,
    at: u32,
}

#[cycle(statements)]
#[inline(never)]
fn if_then<'a>(
    body: &Body,
    scope: &mut Vec<Bound<'a>>,
    before: usize,
    conditional: &Conditional<'_, 'a>,
    first: &mut FirstFault,
) -> Result<StmtPart, NoMemory>
    ensures node { IfOk result (λ p. option_map core.stmt_of p.node ≡ core_in body.now scope.old.items before (tree.IfS (expr_tree conditional.now.condition.now) (stmt_of conditional.now.inner.now) conditional.now.at)) }
    ensures scope { OnOk result (scope.new.items ≡ scope.old.items) }
    ensures locals { IfOk result (λ p. p.locals ≡ locals_in (stmt_of conditional.now.inner.now)) }
    ensures completes { IfOk result (λ p. p.completes ≡ true) }
    ensures declared { IfOk result (λ p. p.declared ≡ None) }
    ensures fault { OnOk result (first.new ≡ type_noted first.old (faults_in body.now scope.old.items before (tree.IfS (expr_tree conditional.now.condition.now) (stmt_of conditional.now.inner.now) conditional.now.at))) }
{
    let part = condition(
        body,
        scope.as_slice(),
        conditional.condition,
        conditional.at,
        first,
    )?;
    let then = stmt(body, scope, before, conditional.inner, first)?;
    if_alone(body.alloc, part, then)
}

#[cycle(statements)]
#[inline(never)]
fn if_else<'a>(
    body: &Body,
    scope: &mut Vec<Bound<'a>>,
    before: usize,
    choice: &Choice<'_, 'a>,
    first: &mut FirstFault,
) -> Result<StmtPart, NoMemory>
    ensures node { IfOk result (λ p. option_map core.stmt_of p.node ≡ core_in body.now scope.old.items before (tree.IfElseS (expr_tree choice.now.condition.now) (stmt_of choice.now.then.now) (stmt_of choice.now.other.now) choice.now.at)) }
    ensures scope { OnOk result (scope.new.items ≡ scope.old.items) }
    ensures locals { IfOk result (λ p. p.locals ≡ locals_in (stmt_of choice.now.then.now) + locals_in (stmt_of choice.now.other.now)) }
    ensures completes { IfOk result (λ p. p.completes ≡ (completes (stmt_of choice.now.then.now) || completes (stmt_of choice.now.other.now))) }
    ensures declared { IfOk result (λ p. p.declared ≡ None) }
    ensures fault { OnOk result (first.new ≡ type_noted first.old (faults_in body.now scope.old.items before (tree.IfElseS (expr_tree choice.now.condition.now) (stmt_of choice.now.then.now) (stmt_of choice.now.other.now) choice.now.at))) }
{
    let part = condition(body, scope.as_slice(), choice.condition, choice.at, first)?;
    let then = stmt(body, scope, before, choice.then, first)?;
    let then = boxed_part(body.alloc, then)?;
    let before_other = total(before, then.locals)?;
    let other = stmt(body, scope, before_other, choice.other, first)?;
    if_part(body.alloc, part, then, other)
}

#[cycle(statements)]
#[inline(never)]
fn while_loop<'a>(
    body: &Body,
    scope: &mut Vec<Bound<'a>>,
    before: usize,
    conditional: &Conditional<'_, 'a>,
    first: &mut FirstFault,
) -> Result<StmtPart, NoMemory>
    ensures node { IfOk result (λ p. option_map core.stmt_of p.node ≡ core_in body.now scope.old.items before (tree.WhileS (expr_tree conditional.now.condition.now) (stmt_of conditional.now.inner.now) conditional.now.at)) }
    ensures scope { OnOk result (scope.new.items ≡ scope.old.items) }
    ensures locals { IfOk result (λ p. p.locals ≡ locals_in (stmt_of conditional.now.inner.now)) }
    ensures completes { IfOk result (λ p. p.completes ≡ not (literal_true (expr_tree conditional.now.condition.now))) }
    ensures declared { IfOk result (λ p. p.declared ≡ None) }
    ensures fault { OnOk result (first.new ≡ type_noted first.old (faults_in body.now scope.old.items before (tree.WhileS (expr_tree conditional.now.condition.now) (stmt_of conditional.now.inner.now) conditional.now.at))) }
{
    let ends = !is_true_literal(conditional.condition);
    let part = condition(
        body,
        scope.as_slice(),
        conditional.condition,
        conditional.at,
        first,
    )?;
    let inner = stmt(body, scope, before, conditional.inner, first)?;
    while_part(body.alloc, part, ends, inner)
}

#[cycle(statements)]
#[inline(never)]
fn sync<'a>(
    body: &Body,
    scope: &mut Vec<Bound<'a>>,
    before: usize,
    lock: &Lock,
    stmts: &[Stmt<'a>],
    first: &mut FirstFault,
) -> Result<StmtPart, NoMemory>
    ensures node { IfOk result (λ p. option_map core.stmt_of p.node ≡ core_in body.now scope.old.items before (tree.SyncS (lock_of lock.now) (stmts_from (map stmt_of stmts.now)) 0)) }
    ensures scope { OnOk result (scope.new.items ≡ scope.old.items) }
    ensures locals { IfOk result (λ p. p.locals ≡ locals_in_each (stmts_from (map stmt_of stmts.now))) }
    ensures completes { IfOk result (λ p. p.completes ≡ completes_each (stmts_from (map stmt_of stmts.now))) }
    ensures declared { IfOk result (λ p. p.declared ≡ None) }
    ensures fault { OnOk result (first.new ≡ type_noted first.old (faults_in body.now scope.old.items before (tree.SyncS (lock_of lock.now) (stmts_from (map stmt_of stmts.now)) 0))) }
{
    let path = lock_path(body.table, body.class, scope.as_slice(), lock, first);
    let inner = block(body, scope, before, stmts, first)?;
    sync_part(body.alloc, path, inner)
}

/// The statements of a block, the first of which can be reached.
#[cycle(statements)]
pub(crate) fn block<'a>(
    body: &Body,
    scope: &mut Vec<Bound<'a>>,
    before: usize,
    stmts: &[Stmt<'a>],
    first: &mut FirstFault,
) -> Result<StmtPart, NoMemory>
    ensures node { IfOk result (λ p. option_map core.stmt_of p.node ≡ option_map BlockS (block_nodes body.now scope.old.items before (stmts_from (map stmt_of stmts.now)))) }
    ensures scope { OnOk result (scope.new.items ≡ scope.old.items) }
    ensures locals { IfOk result (λ p. p.locals ≡ locals_in_each (stmts_from (map stmt_of stmts.now))) }
    ensures completes { IfOk result (λ p. p.completes ≡ completes_each (stmts_from (map stmt_of stmts.now))) }
    ensures declared { IfOk result (λ p. p.declared ≡ None) }
    ensures fault { OnOk result (first.new ≡ type_noted first.old (block_faults_in body.now scope.old.items before true (stmts_from (map stmt_of stmts.now)))) }
{
    let variables = scope.len();
    let mut nodes = Gathered::new(body.alloc);
    let mut locals = 0;
    let mut live = true;
    for s in stmts {
        note_unreachable(live, s, first);
        let before_s = total(before, locals)?;
        let part = stmt(body, scope, before_s, s, first)?;
        nodes.add(part.node)?;
        declare(body, before_s, s, part.declared, scope)?;
        locals = total(locals, part.locals)?;
        live &= part.completes;
    }
    scope.truncate(variables);
    Ok(StmtPart {
        node: block_of(nodes),
        locals,
        completes: live,
        declared: None,
    })
}
