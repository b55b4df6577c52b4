//! What may run at a call, and the held paths that are known there.
ghost use Rattle.std.specs.Prelude.{◌≡◌, ◌∷◌, [], ◌++◌, filter, map, IfOk, OnOk};
ghost use Rattle.algebra.specs.HeldPaths.{has_path};
ghost use Rattle.core_program.specs.Locks.{path_of};
ghost use Rattle.core_program.specs.Views.{program_of, expr_of, exprs_from};
ghost use Rattle.rules.specs.Effect.{held_under};
ghost use Rattle.rules.specs.Mentions.{paths_of};
ghost use Rattle.rules.specs.Near.{rel_of};
ghost use Rattle.level_check.specs.Told.{Calls, origin_in, known_to_origin, known_to, told_level_of};

use crate::passed::names_in_callee;
use crate::told::{Callee, Seen};
use crate::walk::Walk;
use algebra::has;
use effects::Called;
use paths::{MethodId, Path};
use std::alloc::AllocError as NoMemory;

/// Adds a callee that may run, with what is known to be held there.
pub(crate) fn add_callee(
    method: MethodId,
    alone: bool,
    held: Vec<Path>,
    under: u32,
    seen: &mut Vec<Seen>,
) -> Result<(), NoMemory>
    ensures { OnOk result (map told_level_of seen.new.items ≡ map told_level_of seen.old.items ++ Calls (record { method = method; alone = alone }) (has_path held.items) under ∷ []) }
{
    let callee = Callee { method, alone };
    seen.push(Seen::Comes {
        callee,
        held,
        under,
    })?;
    Ok(())
}

/// The held paths that the callee or their origins know at a call, in the order of paths.
pub(crate) fn known_to_any(
    walk: &Walk<'_>,
    call: &Called<'_>,
    held: &[Path],
) -> Result<Vec<Path>, NoMemory>
    ensures { IfOk result (λ known. let P = program_of walk.now.program.now in
        has_path known.items ≡ known_to call.now.callee (origin_in walk.now.origins.now.entries) (λ k. held_under (rel_of walk.now.sets.now k) (path_of P (expr_of call.now.receiver.now)) (paths_of P (exprs_from call.now.args.now)) (has_path held.now))) }
{
    if held.is_empty() {
        return Ok(Vec::new(walk.alloc));
    }
    let names = names_in_callee(walk.alloc, walk.program, call, held)?;
    let mut known = known_among(walk, call.callee, names.as_slice())?;
    known.sort_unstable();
    Ok(known)
}

/// Those of these paths that a method or their origins know.
fn known_among(walk: &Walk<'_>, method: MethodId, paths: &[Path]) -> Result<Vec<Path>, NoMemory>
    ensures { IfOk result (λ known. known.items ≡ filter (known_to method (origin_in walk.now.origins.now.entries) (λ k. has_path (rel_of walk.now.sets.now k))) paths.now) }
{
    let mut known = Vec::new(walk.alloc);
    for path in paths {
        if is_known(walk, method, path) {
            known.push(path.copy())?;
        }
    }
    Ok(known)
}

/// Whether a method or the path's origin knows the path.
fn is_known(walk: &Walk<'_>, method: MethodId, path: &Path) -> bool
    ensures { result ≡ known_to method (origin_in walk.now.origins.now.entries) (λ k. has_path (rel_of walk.now.sets.now k)) path.now }
{
    has(walk.sets.rel(method), path) || is_known_to_origin(walk, path)
}

/// Whether the path's origin knows it.
fn is_known_to_origin(walk: &Walk<'_>, path: &Path) -> bool
    ensures { result ≡ known_to_origin (origin_in walk.now.origins.now.entries path.now) (λ k. has_path (rel_of walk.now.sets.now k)) path.now }
{
    match walk.origins.get(path) {
        Some(origin) => has(walk.sets.rel(*origin), path),
        None => false,
    }
}
