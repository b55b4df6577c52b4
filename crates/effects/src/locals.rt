//! Held paths after a statement of a block.
ghost use Rattle.std.specs.Prelude.{◌≡◌, ◌++◌, IfOk, Some, None};
ghost use Rattle.algebra.specs.HeldPaths.{has_path};
ghost use Rattle.core_program.specs.Views.{program_of, stmt_of};
ghost use Rattle.rules.specs.Effect.{after_stmt, after_local};
ghost use Rattle.effects.specs.HeldLists.{name_from_local, local_names, other_roots};

use core_program::{CoreProgram, CoreStmt, path_of};
use paths::{Path, extend};
use std::alloc::{AllocError as NoMemory, Global};

/// The set after a statement of a block.
pub fn after(
    alloc: Global,
    program: &CoreProgram,
    s: &CoreStmt,
    held: Vec<Path>,
) -> Result<Vec<Path>, NoMemory>
    ensures { IfOk result (λ left. has_path left.items ≡ after_stmt (program_of program.now) (stmt_of s.now) (has_path held.items)) }
{
    match s {
        CoreStmt::Local {
            slot,
            is_final,
            value,
            ..
        } => {
            if *is_final {
                after_local(alloc, *slot, path_of(program, value), held.as_slice())
            } else {
                Ok(held)
            }
        }
        _ => Ok(held),
    }
}

/// The set after the declaration of a final local whose value has this path or none.
fn after_local(
    alloc: Global,
    slot: u16,
    start: Option<Path>,
    held: &[Path],
) -> Result<Vec<Path>, NoMemory>
    ensures { IfOk result (λ left. has_path left.items ≡ after_local (has_path held.now) slot start) }
{
    match start {
        Some(start) => with_names(alloc, slot, &start, held),
        None => other_roots(alloc, slot, held),
    }
}

/// The paths that aren't rooted at a slot.
fn other_roots(alloc: Global, slot: u16, held: &[Path]) -> Result<Vec<Path>, NoMemory>
    ensures list { IfOk result (λ left. left.items ≡ other_roots slot held.now) }
    ensures set { IfOk result (λ left. has_path left.items ≡ after_local (has_path held.now) slot None) }
{
    let mut left = Vec::new(alloc);
    for path in held {
        if path.root != slot {
            left.push(path.copy())?;
        }
    }
    Ok(left)
}

/// The paths that aren't rooted at a slot, and the names of others from it, where its value has the path `start`.
fn with_names(alloc: Global, slot: u16, start: &Path, held: &[Path]) -> Result<Vec<Path>, NoMemory>
    ensures list { IfOk result (λ left. left.items ≡ other_roots slot held.now ++ local_names slot start.now held.now) }
    ensures set { IfOk result (λ left. has_path left.items ≡ after_local (has_path held.now) slot (Some start.now)) }
{
    let mut left = other_roots(alloc, slot, held)?;
    for path in held {
        if let Some(name) = local_name(slot, start, path) {
            left.push(name)?;
        }
    }
    Ok(left)
}

/// What a path is called from a local whose value has the path `start`; `None` where it doesn't go on from there.
pub fn local_name(slot: u16, start: &Path, path: &Path) -> Option<Path>
    ensures { result ≡ name_from_local slot start.now path.now }
{
    let after = path.fields.as_slice().get(start.fields.len()..)?;
    let whole = extend(start, after)?;
    if whole.same(path) {
        extend(&Path::of_root(slot), after)
    } else {
        None
    }
}
