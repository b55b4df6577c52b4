//! Which lock a call takes and gives back: all that others can see of it, whichever body runs.

ghost use Rattle.std.specs.Prelude.{◌≡◌, ◌&&◌, None, Some, slice_get, IfOk};
ghost use Rattle.std.specs.List.{list_all};
ghost use Rattle.algebra.specs.HeldPaths.{has_path};
ghost use Rattle.core_program.specs.Locks.{path_of};
ghost use Rattle.core_program.specs.Views.{expr_of, exprs_from, program_of, stmt_of};
ghost use Rattle.effects.specs.Parts.{StmtP};
ghost use Rattle.rules.specs.Mentions.{paths_of};
ghost use Rattle.rules.specs.Near.{rel_of};
ghost use Rattle.rules.specs.Rules.{held_in};
ghost use Rattle.rules.specs.Search.{row_at};
ghost use Rattle.explain.specs.Visits.{stmt_visits};
ghost use Rattle.explain.specs.Takings.{first_taken, if_atomic, is_freed, is_taking, locks, takes_in, takes_only};
ghost use Rattle.explain.specs.Views.{part_of_walk, visits_of};

use crate::deeds::moves_with;
use crate::explaining::walk_body;
use crate::found::{CorePart, Visited};
use crate::program::method_at;
use crate::walk::Walk;
use algebra::Basic;
use core_program::CoreStmt;
use effects::{Assigned, Called, among, held_under};
use paths::{MethodId, Path};
use rules::{OverridingMethods, renaming_at};
use std::alloc::AllocError as NoMemory;

/// Whether a statement is a `synchronized` of this lock.
fn is_sync(lock: &Path, s: &CoreStmt) -> bool
    ensures { result ≡ locks lock.now (StmtP (stmt_of s.now)) }
{
    match s {
        CoreStmt::Sync(path, _) => path == lock,
        _ => false,
    }
}

/// Whether a part is one.
fn locks(lock: &Path, part: CorePart<'_>) -> bool
    ensures { result ≡ locks lock.now (part_of_walk part.entry) }
{
    match part {
        CorePart::Stmt(s) => is_sync(lock, s),
        CorePart::Expr(_) => false,
    }
}

/// Whether each of some parts is one.
fn all_lock(lock: &Path, parts: &[Visited<'_>]) -> bool
    ensures { result ≡ list_all (λ v. locks lock.now v.part) (visits_of parts.now) }
{
    for part in parts {
        if !locks(lock, part.part) {
            return false;
        }
    }
    true
}

/// Whether each part of a body can be moved by itself or takes this lock, where the body begins with these paths.
fn body_takes<A: Assigned>(
    walk: &Walk<'_, A>,
    lock: &Path,
    body: &CoreStmt,
    held: &[Path],
) -> Result<bool, NoMemory>
    ensures { IfOk result (λ b. let P = program_of walk.now.program.now in let rel = rel_of walk.now.sets.now in let T = A.Assigned.assigned walk.now.assigned.now in
        b ≡ list_all (is_taking P rel T lock.now) (stmt_visits P (stmt_of body.now) 0 (has_path held.now) None)) }
{
    let walked = walk_body(walk, body, held)?;
    Ok(all_lock(lock, walked.1.heavy.as_slice()))
}

/// The same of a method's body; false of a method that isn't there.
fn takes_in<A: Assigned>(
    walk: &Walk<'_, A>,
    lock: &Path,
    method: MethodId,
    held: &[Path],
) -> Result<bool, NoMemory>
    ensures { IfOk result (λ b. let P = program_of walk.now.program.now in let rel = rel_of walk.now.sets.now in let T = A.Assigned.assigned walk.now.assigned.now in
        b ≡ takes_in P rel T lock.now (slice_get P.methods method) (has_path held.now)) }
{
    match method_at(walk.program, method) {
        Some(method) => body_takes(walk, lock, &method.body, held),
        None => Ok(false),
    }
}

/// The same of the methods that override one, each begun with those of the paths that are relevant to it.
fn overs_take<A: Assigned>(
    walk: &Walk<'_, A>,
    overs: &[MethodId],
    lock: &Path,
    held: &[Path],
) -> Result<bool, NoMemory>
    ensures { IfOk result (λ b. let P = program_of walk.now.program.now in let rel = rel_of walk.now.sets.now in let T = A.Assigned.assigned walk.now.assigned.now in
        b ≡ list_all (λ n. takes_in P rel T lock.now (slice_get P.methods n) (held_in (rel n) (has_path held.now))) overs.now) }
{
    for over in overs {
        let known = among(walk.alloc, walk.sets.rel(*over), held)?;
        if !takes_in(walk, lock, *over, known.as_slice())? {
            return Ok(false);
        }
    }
    Ok(true)
}

/// The same of a method and of those that override it.
fn takes_only<A: Assigned>(
    walk: &Walk<'_, A>,
    overs: &[MethodId],
    lock: &Path,
    method: MethodId,
    held: &[Path],
) -> Result<bool, NoMemory>
    ensures { IfOk result (λ b. let P = program_of walk.now.program.now in let rel = rel_of walk.now.sets.now in let T = A.Assigned.assigned walk.now.assigned.now in
        b ≡ takes_only P rel T overs.now lock.now method (has_path held.now)) }
{
    if !takes_in(walk, lock, method, held)? {
        return Ok(false);
    }
    overs_take(walk, overs, lock, held)
}

/// Whether a call takes this lock of its callee's, which has this name here, and gives it back, and does nothing else.
fn takes<A: Assigned>(
    walk: &Walk<'_, A>,
    overs: &[MethodId],
    call: &Called<'_>,
    held: &[Path],
    known: &[Path],
    lock: (&Path, &Path),
) -> Result<bool, NoMemory>
    ensures { IfOk result (λ b. let P = program_of walk.now.program.now in let rel = rel_of walk.now.sets.now in let T = A.Assigned.assigned walk.now.assigned.now in
        b ≡ (is_freed P rel T call.now.callee (path_of P (expr_of call.now.receiver.now)) (paths_of P (exprs_from call.now.args.now)) (has_path held.now) (Some lock.entry.1.now)
        && takes_only P rel T overs.now lock.entry.0.now call.now.callee (has_path known.now))) }
{
    let (path, name) = lock;
    if !moves_with(walk, call.receiver, call.callee, call.args, held, name)? {
        return Ok(false);
    }
    takes_only(walk, overs, path, call.callee, known)
}

/// The name of the first lock that a call takes and gives back, where it does nothing else.
fn first_taken<A: Assigned>(
    walk: &Walk<'_, A>,
    over: &OverridingMethods,
    call: &Called<'_>,
    held: &[Path],
) -> Result<Option<Path>, NoMemory>
    ensures { IfOk result (λ path. let P = program_of walk.now.program.now in let rel = rel_of walk.now.sets.now in let T = A.Assigned.assigned walk.now.assigned.now in
        path ≡ first_taken P rel T (row_at over.now call.now.callee) call.now.callee (path_of P (expr_of call.now.receiver.now)) (paths_of P (exprs_from call.now.args.now)) (has_path held.now) (rel call.now.callee)) }
{
    let Called {
        receiver,
        callee,
        args,
    } = *call;
    let known = held_under(walk.alloc, walk.program, walk.sets, call, held)?;
    let renaming = renaming_at(walk.alloc, walk.program, walk.sets, receiver, callee, args)?;
    'pairs: for (path, name) in renaming.pairs.as_slice() {
        if let Some(name) = name {
            if takes(
                walk,
                over.of(callee),
                call,
                held,
                known.as_slice(),
                (path, name),
            )? {
                return Ok(Some(name.copy()));
            }
        }
    }
    Ok(None)
}

/// The lock that a call which is this takes and gives back, where it is atomic and does nothing else.
pub(crate) fn taken_lock<A: Assigned>(
    walk: &Walk<'_, A>,
    over: &OverridingMethods,
    call: &Called<'_>,
    own: Basic,
    held: &[Path],
) -> Result<Option<Path>, NoMemory>
    ensures { IfOk result (λ path. let P = program_of walk.now.program.now in let rel = rel_of walk.now.sets.now in let T = A.Assigned.assigned walk.now.assigned.now in
        path ≡ if_atomic own (first_taken P rel T (row_at over.now call.now.callee) call.now.callee (path_of P (expr_of call.now.receiver.now)) (paths_of P (exprs_from call.now.args.now)) (has_path held.now) (rel call.now.callee))) }
{
    match own {
        Basic::Atomic => first_taken(walk, over, call, held),
        Basic::Const | Basic::Mover | Basic::Cmpd | Basic::Error => Ok(None),
    }
}
