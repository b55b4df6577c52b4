//! Which parts are an error by themselves, and which of these is told.

ghost use Rattle.std.specs.Prelude.{◌≡◌, ◌∷◌, ◌++◌, ℕ, List, [], drop, IfOk, OnOk, if◌then◌else◌};
ghost use Rattle.paths.specs.Paths.{PathData};
ghost use Rattle.rules.specs.Effect.{Assignment};
ghost use Rattle.algebra.specs.HeldPaths.{has_path};
ghost use Rattle.core_program.specs.Views.{expr_of, program_of, stmt_of};
ghost use Rattle.effects.specs.Parts.{ExprP, StmtP};
ghost use Rattle.rules.specs.Near.{rel_of};
ghost use Rattle.explain.specs.PartEffects.{own_of};
ghost use Rattle.explain.specs.StepReadings.{is_error, own_at};
ghost use Rattle.explain.specs.Explaining.{first_wrong, is_error_of_part, wrong_of};
ghost use Rattle.explain.specs.Views.{errors_in, part_of_walk, visit_of, visits_of, why_data};

use crate::explaining::{Why, taken};
use crate::found::{CorePart, Visited};
use crate::walk::Walk;
use algebra::Basic;
use core_program::{CoreExpr, CoreStmt};
use effects::accesses_at::access;
use effects::{Assigned, Called, call_effect, has_all, held_under};
use paths::Path;
use rules::required_of;
use std::alloc::AllocError as NoMemory;

/// Whether a basic is `error`.
fn is_error(basic: Basic) -> bool
    ensures { result ≡ is_error basic }
{
    basic == Basic::Error
}

/// Whether an expression is an error by itself: only an access or a call can be.
fn is_wrong_expr<A: Assigned>(
    walk: &Walk<'_, A>,
    e: &CoreExpr,
    held: &[Path],
) -> Result<bool, NoMemory>
    ensures { IfOk result (λ b. let P = program_of walk.now.program.now in let rel = rel_of walk.now.sets.now in let T = A.Assigned.assigned walk.now.assigned.now in
        b ≡ is_error (own_of P rel T (ExprP (expr_of e.now)) (has_path held.now))) }
{
    match e {
        CoreExpr::Get(receiver, field) => {
            let own = access(walk.program, receiver, *field, false, held);
            Ok(is_error(own))
        }
        CoreExpr::Call(receiver, callee, args) => {
            let call = Called {
                receiver,
                callee: *callee,
                args: args.as_slice(),
            };
            let own = call_effect(
                walk.alloc,
                walk.program,
                walk.sets,
                walk.assigned,
                &call,
                held,
            )?;
            Ok(is_error(own))
        }
        _ => Ok(false),
    }
}

/// Whether a statement is: only an assignment of a field can be.
fn is_wrong_stmt<A>(walk: &Walk<'_, A>, s: &CoreStmt, held: &[Path]) -> bool
    ensures { (rel : ℕ → List PathData) (T : Assignment) → result ≡ is_error (own_of (program_of walk.now.program.now) rel T (StmtP (stmt_of s.now)) (has_path held.now)) }
{
    match s {
        CoreStmt::SetField(receiver, field, _) => {
            is_error(access(walk.program, receiver, *field, true, held))
        }
        _ => false,
    }
}

/// Whether a part is an error by itself.
pub(crate) fn is_wrong<A: Assigned>(walk: &Walk<'_, A>, v: &Visited<'_>) -> Result<bool, NoMemory>
    ensures { IfOk result (λ b. let P = program_of walk.now.program.now in let rel = rel_of walk.now.sets.now in let T = A.Assigned.assigned walk.now.assigned.now in
        b ≡ is_error (own_at P rel T (visit_of v.now))) }
{
    let held = v.held.as_slice();
    match v.part {
        CorePart::Expr(e) => is_wrong_expr(walk, e, held),
        CorePart::Stmt(s) => Ok(is_wrong_stmt(walk, s, held)),
    }
}

/// Those of some parts that are an error by themselves.
pub(crate) fn errors_of<'p, A: Assigned>(
    walk: &Walk<'_, A>,
    parts: Vec<Visited<'p>>,
) -> Result<Vec<Visited<'p>>, NoMemory>
    ensures { IfOk result (λ errors. let P = program_of walk.now.program.now in let rel = rel_of walk.now.sets.now in let T = A.Assigned.assigned walk.now.assigned.now in
        visits_of errors.items ≡ errors_in P rel T (visits_of parts.entry.items)) }
{
    let mut errors = Vec::new(walk.alloc);
    for part in parts {
        let by_itself = is_wrong(walk, &part)?;
        keep(part, by_itself, &mut errors)?;
    }
    Ok(errors)
}

/// Puts a part behind those that are an error by themselves, if it is one.
fn keep<'p>(
    part: Visited<'p>,
    is_wrong: bool,
    errors: &mut Vec<Visited<'p>>,
) -> Result<(), NoMemory>
    ensures { OnOk result (errors.new.items ≡ errors.old.items ++ (if is_wrong then part.entry ∷ [] else [])) }
{
    if is_wrong {
        errors.push(part)?;
    }
    Ok(())
}

/// Whether an error comes from the part itself, and not from a method that is called and is an error where it has what it requires.
pub(crate) fn is_own<A: Assigned>(
    walk: &Walk<'_, A>,
    part: CorePart<'_>,
    held: &[Path],
) -> Result<bool, NoMemory>
    ensures { IfOk result (λ b. b ≡ is_error_of_part (program_of walk.now.program.now) (rel_of walk.now.sets.now) (part_of_walk part.entry) (has_path held.now)) }
{
    match part {
        CorePart::Expr(e) => is_own_expr(walk, e, held),
        CorePart::Stmt(_) => Ok(true),
    }
}

/// The same of an expression.
fn is_own_expr<A: Assigned>(
    walk: &Walk<'_, A>,
    e: &CoreExpr,
    held: &[Path],
) -> Result<bool, NoMemory>
    ensures { IfOk result (λ b. b ≡ is_error_of_part (program_of walk.now.program.now) (rel_of walk.now.sets.now) (ExprP (expr_of e.now)) (has_path held.now)) }
{
    match e {
        CoreExpr::Call(receiver, callee, args) => {
            let call = Called {
                receiver,
                callee: *callee,
                args: args.as_slice(),
            };
            let known = held_under(walk.alloc, walk.program, walk.sets, &call, held)?;
            Ok(!has_all(known.as_slice(), required_of(walk.program, *callee)))
        }
        _ => Ok(true),
    }
}

/// The place of the first error that comes from its part itself; 0 where there is none.
fn own_place<A: Assigned>(walk: &Walk<'_, A>, errors: &[Visited<'_>]) -> Result<usize, NoMemory>
    ensures { IfOk result (λ place. first_wrong (drop place (visits_of errors.now)) ≡ wrong_of (program_of walk.now.program.now) (rel_of walk.now.sets.now) (visits_of errors.now)) }
{
    for (place, error) in errors.iter().enumerate() {
        if is_own(walk, error.part, error.held.as_slice())? {
            return Ok(place);
        }
    }
    Ok(0)
}

/// The first error that comes from its part itself; else the first.
pub(crate) fn wrong<'p, A: Assigned>(
    walk: &Walk<'_, A>,
    errors: Vec<Visited<'p>>,
) -> Result<Why<'p>, NoMemory>
    ensures { IfOk result (λ why. why_data why ≡ wrong_of (program_of walk.now.program.now) (rel_of walk.now.sets.now) (visits_of errors.entry.items)) }
{
    let place = own_place(walk, errors.as_slice())?;
    match taken(errors, place) {
        Some(error) => Ok(Why::Wrong(error)),
        None => Ok(Why::Nothing),
    }
}
