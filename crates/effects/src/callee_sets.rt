//! Held paths at the place of a call.
ghost use Rattle.std.specs.Prelude.{◌≡◌, filter, IfOk};
ghost use Rattle.algebra.specs.HeldPaths.{has_path, holds_at};
ghost use Rattle.core_program.specs.Locks.{path_of};
ghost use Rattle.core_program.specs.Views.{program_of, expr_of, exprs_from};
ghost use Rattle.rules.specs.Effect.{held_under};
ghost use Rattle.rules.specs.Mentions.{paths_of};
ghost use Rattle.rules.specs.Near.{rel_of};
ghost use Rattle.rules.specs.Rules.{held_in};
ghost use Rattle.effects.specs.HeldLists.{held_pairs};

use crate::calls::Called;
use algebra::has;
use core_program::CoreProgram;
use paths::{Path, Renaming};
use rules::{RelevantSets, renaming_at};
use std::alloc::{AllocError as NoMemory, Global};

/// The set that a callee begins with at a call.
pub fn held_under(
    alloc: Global,
    program: &CoreProgram,
    sets: &RelevantSets,
    call: &Called<'_>,
    held: &[Path],
) -> Result<Vec<Path>, NoMemory>
    ensures { IfOk result (λ known.
        let P = program_of program.now in
        has_path known.items ≡ held_under (rel_of sets.now call.now.callee) (path_of P (expr_of call.now.receiver.now)) (paths_of P (exprs_from call.now.args.now)) (has_path held.now)) }
{
    if held.is_empty() {
        return Ok(Vec::new(alloc));
    }
    let renaming = renaming_at(alloc, program, sets, call.receiver, call.callee, call.args)?;
    held_pairs(alloc, &renaming, held)
}

/// The paths of a renaming whose partners are held.
fn held_pairs(alloc: Global, renaming: &Renaming, held: &[Path]) -> Result<Vec<Path>, NoMemory>
    ensures { IfOk result (λ known. known.items ≡ held_pairs renaming.now held.now) }
{
    let mut known = Vec::new(alloc);
    'pairs: for (path, name) in renaming.pairs.as_slice() {
        if holds_at(name, held) {
            known.push(path.copy())?;
        }
    }
    Ok(known)
}

/// Whether there is a path, and it is held.
fn holds_at(name: &Option<Path>, held: &[Path]) -> bool
    ensures { result ≡ holds_at name.now (has_path held.now) }
{
    match name {
        Some(path) => has(held, path),
        None => false,
    }
}

/// The paths of `rel` that are held.
pub fn among(alloc: Global, rel: &[Path], held: &[Path]) -> Result<Vec<Path>, NoMemory>
    ensures list { IfOk result (λ known. known.items ≡ filter (has_path held.now) rel.now) }
    ensures set { IfOk result (λ known. has_path known.items ≡ held_in rel.now (has_path held.now)) }
{
    let mut known = Vec::new(alloc);
    for path in rel {
        if has(held, path) {
            known.push(path.copy())?;
        }
    }
    Ok(known)
}
