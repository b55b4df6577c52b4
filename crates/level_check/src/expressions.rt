//! The walk through expressions.
ghost use Rattle.std.specs.Prelude.{◌≡◌, ◌∷◌, [], ◌++◌, map, OnOk};
ghost use Rattle.algebra.specs.HeldPaths.{has_path};
ghost use Rattle.core_program.specs.Locks.{path_of};
ghost use Rattle.core_program.specs.Views.{program_of, expr_of, exprs_from};
ghost use Rattle.levels.specs.Walks.{Comes};
ghost use Rattle.rules.specs.Effect.{held_under};
ghost use Rattle.rules.specs.Mentions.{paths_of};
ghost use Rattle.rules.specs.Near.{rel_of};
ghost use Rattle.level_check.specs.Told.{call_in, visit_tells, told_level_of, expr_told, exprs_told};

use crate::callees::{add_callee, known_to_any};
use crate::told::Seen;
use crate::walk::{Carried, Walk};
use core_program::CoreExpr;
use effects::{Called, held_under};
use paths::MethodId;
use std::alloc::AllocError as NoMemory;

/// Adds what may run at a call of this callee.
fn add_call(
    walk: &Walk<'_>,
    receiver: &CoreExpr,
    callee: MethodId,
    args: &[CoreExpr],
    carried: &Carried<'_>,
    seen: &mut Vec<Seen>,
) -> Result<(), NoMemory>
    ensures { OnOk result (let P = program_of walk.now.program.now in
        map told_level_of seen.new.items ≡ map told_level_of seen.old.items
        ++ visit_tells (call_in walk.now) (Comes callee (λ k. held_under (rel_of walk.now.sets.now k) (path_of P (expr_of receiver.now)) (paths_of P (exprs_from args.now)) (has_path carried.now.held.now)) carried.now.under) ∷ []) }
{
    let call = Called {
        receiver,
        callee,
        args,
    };
    if walk.over.of(callee).is_empty() {
        let held = held_under(walk.alloc, walk.program, walk.sets, &call, carried.held)?;
        return add_callee(callee, true, held, carried.under, seen);
    }
    let held = known_to_any(walk, &call, carried.held)?;
    add_callee(callee, false, held, carried.under, seen)
}

/// Walks through an expression.
#[cycle(expressions)]
#[tactic(auto, using(crate::proofs::ToldLemmas::told_append))]
pub(crate) fn walk_expr(
    walk: &Walk<'_>,
    e: &CoreExpr,
    carried: &Carried<'_>,
    seen: &mut Vec<Seen>,
) -> Result<(), NoMemory>
    ensures { OnOk result (map told_level_of seen.new.items ≡ map told_level_of seen.old.items ++ expr_told walk.now (expr_of e.now) (has_path carried.now.held.now) carried.now.under) }
{
    match e {
        CoreExpr::Not(a) | CoreExpr::Neg(a) | CoreExpr::Get(a, _) => {
            walk_expr(walk, a, carried, seen)
        }
        CoreExpr::Binary(_, a, b) => {
            walk_expr(walk, a, carried, seen)?;
            walk_expr(walk, b, carried, seen)
        }
        CoreExpr::And(a, b) => {
            walk_expr(walk, a, carried, seen)?;
            walk_expr(walk, b, carried, seen)
        }
        CoreExpr::Or(a, b) => {
            walk_expr(walk, a, carried, seen)?;
            walk_expr(walk, b, carried, seen)
        }
        CoreExpr::Call(receiver, callee, args) => {
            walk_expr(walk, receiver, carried, seen)?;
            walk_exprs(walk, args.as_slice(), carried, seen)?;
            add_call(walk, receiver, *callee, args.as_slice(), carried, seen)
        }
        CoreExpr::New(_, args) => walk_exprs(walk, args.as_slice(), carried, seen),
        CoreExpr::Int(_)
        | CoreExpr::Truth(_)
        | CoreExpr::Null
        | CoreExpr::This
        | CoreExpr::Var { .. } => Ok(()),
    }
}

/// Walks through two expressions, one after the other.
pub(crate) fn walk_two(
    walk: &Walk<'_>,
    a: &CoreExpr,
    b: &CoreExpr,
    carried: &Carried<'_>,
    seen: &mut Vec<Seen>,
) -> Result<(), NoMemory>
    ensures { OnOk result (map told_level_of seen.new.items ≡ map told_level_of seen.old.items
        ++ (expr_told walk.now (expr_of a.now) (has_path carried.now.held.now) carried.now.under ++ expr_told walk.now (expr_of b.now) (has_path carried.now.held.now) carried.now.under)) }
{
    walk_expr(walk, a, carried, seen)?;
    walk_expr(walk, b, carried, seen)
}

/// Walks through arguments.
#[cycle(expressions)]
fn walk_exprs(
    walk: &Walk<'_>,
    es: &[CoreExpr],
    carried: &Carried<'_>,
    seen: &mut Vec<Seen>,
) -> Result<(), NoMemory>
    ensures { OnOk result (map told_level_of seen.new.items ≡ map told_level_of seen.old.items ++ exprs_told walk.now (exprs_from es.now) (has_path carried.now.held.now) carried.now.under) }
{
    for e in es {
        walk_expr(walk, e, carried, seen)?;
    }
    Ok(())
}
