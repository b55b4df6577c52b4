//! The walk through a body. Its functions give the effect of a part, and add to what was found: the basic of each of its parts, its
//! steps, and its parts that can't be moved by themselves.

ghost use Rattle.std.specs.Prelude.{◌≡◌, ◌+◌, ◌++◌, [], IfOk, OnOk, if◌then◌else◌};
ghost use Rattle.algebra.specs.declared.basic.Basic.TheVariants.{Mover};
ghost use Rattle.algebra.specs.Basics.{below_of};
ghost use Rattle.algebra.specs.HeldPaths.{has_path};
ghost use Rattle.core_program.specs.Core.{SyncS};
ghost use Rattle.core_program.specs.Locks.{path_of};
ghost use Rattle.core_program.specs.Views.{expr_of, exprs_from, program_of, stmt_of, stmts_from};
ghost use Rattle.effects.specs.Parts.{StmtP};
ghost use Rattle.rules.specs.Effect.{call_of};
ghost use Rattle.rules.specs.Mentions.{paths_of};
ghost use Rattle.rules.specs.Near.{rel_of};
ghost use Rattle.explain.specs.Visits.{visit};
ghost use Rattle.explain.specs.Views.{is_heavy, part_of_walk, visits_of};
ghost use Rattle.explain.specs.Walked.{InsideExpr, InsideStmt, WalkedBlock, WalkedBranches, WalkedExpr, WalkedExprs, WalkedStmt, WalkedTwo, next};

use crate::found::{CorePart, Found, Reached};
use algebra::{Basic, has};
use core_program::{CoreExpr, CoreProgram, CoreStmt};
use effects::accesses_at::access;
use effects::{Assigned, Called, after, call_effect, copied, variable, with_path};
use paths::{MethodId, Path};
use rules::RelevantSets;
use std::alloc::{AllocError as NoMemory, Global};

/// What a walk asks: the program, its relevant paths, and an assignment.
#[derive(Drop)]
pub struct Walk<'w, A> {
    pub alloc: Global,
    pub program: &'w CoreProgram,
    pub sets: &'w RelevantSets,
    pub assigned: &'w A,
}

/// Walks through an expression where these paths are held.
#[cycle(expressions)]
pub(crate) fn walk_expr<'p, A: Assigned>(
    walk: &Walk<'_, A>,
    e: &'p CoreExpr,
    held: &[Path],
    looped: Option<usize>,
    found: &mut Found<'p>,
) -> Result<Basic, NoMemory>
    ensures { IfOk result (λ b. WalkedExpr (program_of walk.now.program.now) (rel_of walk.now.sets.now) (A.Assigned.assigned walk.now.assigned.now) (expr_of e.now) (has_path held.now) looped found.old b found.new) }
{
    let place = found.enter()?;
    let effect = inside_expr(walk, e, place, held, looped, found)?;
    Ok(found.leave(place, effect))
}

/// Walks through the parts of an expression with this number, for which there is room already.
#[cycle(expressions)]
fn inside_expr<'p, A: Assigned>(
    walk: &Walk<'_, A>,
    e: &'p CoreExpr,
    place: usize,
    held: &[Path],
    looped: Option<usize>,
    found: &mut Found<'p>,
) -> Result<Basic, NoMemory>
    requires { next found.old ≡ place + 1 }
    ensures { IfOk result (λ b. InsideExpr (program_of walk.now.program.now) (rel_of walk.now.sets.now) (A.Assigned.assigned walk.now.assigned.now) (expr_of e.now) place (has_path held.now) looped found.old b found.new) }
{
    let reached = Reached {
        node: place,
        part: CorePart::Expr(e),
        held,
        looped,
    };
    match e {
        CoreExpr::Int(_) | CoreExpr::Truth(_) | CoreExpr::Null | CoreExpr::This => Ok(Basic::Const),
        CoreExpr::Var { is_final, .. } => Ok(variable(*is_final)),
        CoreExpr::Not(a) | CoreExpr::Neg(a) => walk_expr(walk, a, held, looped, found),
        CoreExpr::Binary(_, a, b) => walk_pair(walk, a, b, held, looped, found),
        CoreExpr::And(a, b) => walk_pair(walk, a, b, held, looped, found),
        CoreExpr::Or(a, b) => walk_pair(walk, a, b, held, looped, found),
        CoreExpr::Get(a, field) => {
            let receiver = walk_expr(walk, a, held, looped, found)?;
            let own = access(walk.program, a, *field, false, held);
            found.note(walk.alloc, own, reached)?;
            Ok(receiver.seq(own))
        }
        CoreExpr::Call(a, callee, args) => {
            let receiver = walk_expr(walk, a, held, looped, found)?;
            let passed = walk_exprs(walk, args.as_slice(), held, looped, found)?;
            let own = note_call(walk, a, *callee, args.as_slice(), reached, found)?;
            Ok(receiver.seq(passed.seq(own)))
        }
        CoreExpr::New(_, args) => {
            let passed = walk_exprs(walk, args.as_slice(), held, looped, found)?;
            Ok(passed.seq(Basic::Mover))
        }
    }
}

/// Walks through two expressions, one after the other.
#[cycle(expressions)]
fn walk_pair<'p, A: Assigned>(
    walk: &Walk<'_, A>,
    a: &'p CoreExpr,
    b: &'p CoreExpr,
    held: &[Path],
    looped: Option<usize>,
    found: &mut Found<'p>,
) -> Result<Basic, NoMemory>
    ensures { IfOk result (λ d. WalkedTwo (program_of walk.now.program.now) (rel_of walk.now.sets.now) (A.Assigned.assigned walk.now.assigned.now) (expr_of a.now) (expr_of b.now) (has_path held.now) looped found.old d found.new) }
{
    let first = walk_expr(walk, a, held, looped, found)?;
    let second = walk_expr(walk, b, held, looped, found)?;
    Ok(first.seq(second))
}

/// Notes a call by itself, behind its receiver and its arguments, and gives what it is.
fn note_call<'p, A: Assigned>(
    walk: &Walk<'_, A>,
    receiver: &CoreExpr,
    callee: MethodId,
    args: &[CoreExpr],
    reached: Reached<'p, '_>,
    found: &mut Found<'p>,
) -> Result<Basic, NoMemory>
    ensures basics { found.new.basics ≡ found.old.basics }
    ensures own { let P = program_of walk.now.program.now in IfOk result (λ own.
        own ≡ call_of P (rel_of walk.now.sets.now) (A.Assigned.assigned walk.now.assigned.now) callee (path_of P (expr_of receiver.now)) (paths_of P (exprs_from args.now)) (has_path reached.entry.held.now)) }
    ensures steps { IfOk result (λ own. visits_of found.new.steps.items ≡ visits_of found.old.steps.items
        ++ (if below_of own Mover then [] else visit reached.entry.node (part_of_walk reached.entry.part) (has_path reached.entry.held.now) reached.entry.looped)) }
    ensures heavy { IfOk result (λ own. visits_of found.new.heavy.items ≡ visits_of found.old.heavy.items
        ++ (if is_heavy own then visit reached.entry.node (part_of_walk reached.entry.part) (has_path reached.entry.held.now) reached.entry.looped else [])) }
{
    let call = Called {
        receiver,
        callee,
        args,
    };
    let own = call_effect(
        walk.alloc,
        walk.program,
        walk.sets,
        walk.assigned,
        &call,
        reached.held,
    )?;
    found.note(walk.alloc, own, reached)?;
    Ok(own)
}

/// Walks through arguments.
#[cycle(expressions)]
fn walk_exprs<'p, A: Assigned>(
    walk: &Walk<'_, A>,
    es: &'p [CoreExpr],
    held: &[Path],
    looped: Option<usize>,
    found: &mut Found<'p>,
) -> Result<Basic, NoMemory>
    ensures { IfOk result (λ b. WalkedExprs (program_of walk.now.program.now) (rel_of walk.now.sets.now) (A.Assigned.assigned walk.now.assigned.now) (exprs_from es.now) (has_path held.now) looped found.old b found.new) }
{
    let mut so_far = Basic::Const;
    for e in es {
        so_far = so_far.seq(walk_expr(walk, e, held, looped, found)?);
    }
    Ok(so_far)
}

/// Walks through a statement where these paths are held.
#[cycle(statements)]
pub(crate) fn walk_stmt<'p, A: Assigned>(
    walk: &Walk<'_, A>,
    s: &'p CoreStmt,
    held: &[Path],
    looped: Option<usize>,
    found: &mut Found<'p>,
) -> Result<Basic, NoMemory>
    ensures { IfOk result (λ b. WalkedStmt (program_of walk.now.program.now) (rel_of walk.now.sets.now) (A.Assigned.assigned walk.now.assigned.now) (stmt_of s.now) (has_path held.now) looped found.old b found.new) }
{
    let place = found.enter()?;
    let effect = inside_stmt(walk, s, place, held, looped, found)?;
    Ok(found.leave(place, effect))
}

/// Walks through the parts of a statement with this number, for which there is room already.
#[cycle(statements)]
fn inside_stmt<'p, A: Assigned>(
    walk: &Walk<'_, A>,
    s: &'p CoreStmt,
    place: usize,
    held: &[Path],
    looped: Option<usize>,
    found: &mut Found<'p>,
) -> Result<Basic, NoMemory>
    requires { next found.old ≡ place + 1 }
    ensures { IfOk result (λ b. InsideStmt (program_of walk.now.program.now) (rel_of walk.now.sets.now) (A.Assigned.assigned walk.now.assigned.now) (stmt_of s.now) place (has_path held.now) looped found.old b found.new) }
{
    let reached = Reached {
        node: place,
        part: CorePart::Stmt(s),
        held,
        looped,
    };
    match s {
        CoreStmt::Empty => Ok(Basic::Const),
        CoreStmt::Block(body) => walk_block(walk, body.as_slice(), held, looped, found),
        CoreStmt::Local { value: e, .. } | CoreStmt::SetVar(_, e) => {
            let value = walk_expr(walk, e, held, looped, found)?;
            Ok(value.seq(Basic::Mover))
        }
        CoreStmt::SetField(a, field, b) => {
            let receiver = walk_expr(walk, a, held, looped, found)?;
            let value = walk_expr(walk, b, held, looped, found)?;
            let own = access(walk.program, a, *field, true, held);
            found.note(walk.alloc, own, reached)?;
            Ok(receiver.seq(value.seq(own)))
        }
        CoreStmt::Do(e, _) => walk_expr(walk, e, held, looped, found),
        CoreStmt::Return(None) => Ok(Basic::Const),
        CoreStmt::Return(Some(e)) => walk_expr(walk, e, held, looped, found),
        CoreStmt::If(c, a, b) => {
            let test = walk_expr(walk, c, held, looped, found)?;
            let either = walk_branches(walk, a, b, held, looped, found)?;
            Ok(test.seq(either))
        }
        CoreStmt::While(c, a) => {
            let test = walk_expr(walk, c, held, Some(place), found)?;
            let turn = walk_stmt(walk, a, held, Some(place), found)?;
            Ok(test.seq(turn.seq(test).star()))
        }
        CoreStmt::Sync(path, a) => walk_sync(walk, path, a, reached, found),
        CoreStmt::Print(e) | CoreStmt::Start(e) => {
            let value = walk_expr(walk, e, held, looped, found)?;
            found.note(walk.alloc, Basic::Atomic, reached)?;
            Ok(value.seq(Basic::Atomic))
        }
    }
}

/// Walks through both branches of an `if`, and keeps the steps of the greater one.
#[cycle(statements)]
fn walk_branches<'p, A: Assigned>(
    walk: &Walk<'_, A>,
    a: &'p CoreStmt,
    b: &'p CoreStmt,
    held: &[Path],
    looped: Option<usize>,
    found: &mut Found<'p>,
) -> Result<Basic, NoMemory>
    ensures { IfOk result (λ d. WalkedBranches (program_of walk.now.program.now) (rel_of walk.now.sets.now) (A.Assigned.assigned walk.now.assigned.now) (stmt_of a.now) (stmt_of b.now) (has_path held.now) looped found.old d found.new) }
{
    let before = found.set_aside(walk.alloc);
    let first = walk_stmt(walk, a, held, looped, found)?;
    let steps = found.set_aside(walk.alloc);
    let second = walk_stmt(walk, b, held, looped, found)?;
    found.choose(steps, second.below(first));
    found.put_before(before)?;
    Ok(first.join(second))
}

/// Walks through a `synchronized` on this path, where the part that is reached is that: with what is held, or with its lock as well.
#[cycle(statements)]
fn walk_sync<'p, A: Assigned>(
    walk: &Walk<'_, A>,
    path: &Path,
    a: &'p CoreStmt,
    reached: Reached<'p, '_>,
    found: &mut Found<'p>,
) -> Result<Basic, NoMemory>
    requires { next found.old ≡ reached.node + 1 }
    ensures { IfOk result (λ b. part_of_walk reached.entry.part ≡ StmtP (SyncS path.now (stmt_of a.now))
        → InsideStmt (program_of walk.now.program.now) (rel_of walk.now.sets.now) (A.Assigned.assigned walk.now.assigned.now) (SyncS path.now (stmt_of a.now)) reached.entry.node (has_path reached.entry.held.now) reached.entry.looped found.old b found.new) }
{
    if has(reached.held, path) {
        return walk_stmt(walk, a, reached.held, reached.looped, found);
    }
    let more = with_path(walk.alloc, path, reached.held)?;
    let taken = walk_stmt(walk, a, more.as_slice(), reached.looped, found)?;
    note_lock(walk, taken, reached, found)?;
    Ok(taken.lift())
}

/// Notes a `synchronized` that takes its lock: a step where its body, which is this with the lock held, can be moved.
fn note_lock<'p, A: Assigned>(
    walk: &Walk<'_, A>,
    taken: Basic,
    reached: Reached<'p, '_>,
    found: &mut Found<'p>,
) -> Result<(), NoMemory>
    ensures basics { found.new.basics ≡ found.old.basics }
    ensures steps { OnOk result (visits_of found.new.steps.items ≡ visits_of found.old.steps.items
        ++ (if below_of taken Mover then visit reached.entry.node (part_of_walk reached.entry.part) (has_path reached.entry.held.now) reached.entry.looped else [])) }
    ensures heavy { OnOk result (visits_of found.new.heavy.items ≡ visits_of found.old.heavy.items
        ++ visit reached.entry.node (part_of_walk reached.entry.part) (has_path reached.entry.held.now) reached.entry.looped) }
{
    if !taken.below(Basic::Mover) {
        return found.note_heavy(walk.alloc, reached);
    }
    found.note(walk.alloc, Basic::Atomic, reached)
}

/// Walks through the statements of a block, each at the set that the ones before it leave.
#[cycle(statements)]
fn walk_block<'p, A: Assigned>(
    walk: &Walk<'_, A>,
    body: &'p [CoreStmt],
    held: &[Path],
    looped: Option<usize>,
    found: &mut Found<'p>,
) -> Result<Basic, NoMemory>
    ensures { IfOk result (λ b. WalkedBlock (program_of walk.now.program.now) (rel_of walk.now.sets.now) (A.Assigned.assigned walk.now.assigned.now) (stmts_from body.now) (has_path held.now) looped found.old b found.new) }
{
    let mut so_far = Basic::Const;
    let mut now = copied(walk.alloc, held)?;
    for s in body {
        so_far = so_far.seq(walk_stmt(walk, s, now.as_slice(), looped, found)?);
        now = after(walk.alloc, walk.program, s, now)?;
    }
    Ok(so_far)
}
