//! A lock around the whole body of a method.

ghost use Rattle.std.specs.Prelude.{◌≡◌, IfOk};
ghost use Rattle.algebra.specs.Basics.{below_of};
ghost use Rattle.algebra.specs.HeldPaths.{has_path};
ghost use Rattle.core_program.specs.Views.{method_of, program_of, stmt_of};
ghost use Rattle.rules.specs.Effect.{effect};
ghost use Rattle.rules.specs.Near.{rel_of};
ghost use Rattle.explain.specs.Helping.{first_path};
ghost use Rattle.explain.specs.Around.{around, wrapped};

use crate::program::method_at;
use crate::walk::Walk;
use algebra::{Basic, has};
use core_program::{CoreMethod, CoreStmt};
use effects::{Assigned, stmt_effect, with_path};
use paths::{MethodId, Path};
use std::alloc::AllocError as NoMemory;

/// The effect of a body where these paths are held.
pub(crate) fn body_effect<A: Assigned>(
    walk: &Walk<'_, A>,
    body: &CoreStmt,
    held: &[Path],
) -> Result<Basic, NoMemory>
    ensures { IfOk result (λ b. b ≡ effect (program_of walk.now.program.now) (rel_of walk.now.sets.now) (A.Assigned.assigned walk.now.assigned.now) (stmt_of body.now) (has_path held.now)) }
{
    stmt_effect(
        walk.alloc,
        walk.program,
        walk.sets,
        walk.assigned,
        body,
        held,
    )
}

/// The effect of a method's body in a `synchronized` of this lock, at its required paths.
fn wrapped<A: Assigned>(
    walk: &Walk<'_, A>,
    method: &CoreMethod,
    lock: &Path,
) -> Result<Basic, NoMemory>
    ensures { IfOk result (λ b. b ≡ wrapped (program_of walk.now.program.now) (rel_of walk.now.sets.now) (A.Assigned.assigned walk.now.assigned.now) (method_of method.now) lock.now) }
{
    let held = method.requires_.as_slice();
    if has(held, lock) {
        return body_effect(walk, &method.body, held);
    }
    let more = with_path(walk.alloc, lock, held)?;
    let taken = body_effect(walk, &method.body, more.as_slice())?;
    Ok(taken.lift())
}

/// The first of some locks with which, held around a whole body, it is at most this.
fn first_around<A: Assigned>(
    walk: &Walk<'_, A>,
    locks: &[Path],
    method: &CoreMethod,
    limit: Basic,
) -> Result<Option<Path>, NoMemory>
    ensures { IfOk result (λ lock. let P = program_of walk.now.program.now in let rel = rel_of walk.now.sets.now in let T = A.Assigned.assigned walk.now.assigned.now in
        lock ≡ first_path (λ p. below_of (wrapped P rel T (method_of method.now) p) limit) locks.now) }
{
    for lock in locks {
        let inside = wrapped(walk, method, lock)?;
        if inside.below(limit) {
            return Ok(Some(lock.copy()));
        }
    }
    Ok(None)
}

/// The first lock that is relevant to a method with which, held around its whole body, it is at most this.
pub fn around<A: Assigned>(
    walk: &Walk<'_, A>,
    method: MethodId,
    limit: Basic,
) -> Result<Option<Path>, NoMemory>
    ensures { IfOk result (λ lock. lock ≡ around (program_of walk.now.program.now) (rel_of walk.now.sets.now) (A.Assigned.assigned walk.now.assigned.now) method limit) }
{
    let locks = walk.sets.rel(method);
    match method_at(walk.program, method) {
        Some(method) => first_around(walk, locks, method, limit),
        None => Ok(None),
    }
}
