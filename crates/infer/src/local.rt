//! The declaration of a final local: what its paths were before.
ghost use Rattle.std.specs.Prelude.{◌≡◌, ◌++◌, IfOk, OnOk};
ghost use Rattle.std.specs.Option.{option_copied};
ghost use Rattle.paths.specs.Paths.{extended_some};
ghost use Rattle.algebra.specs.HeldPaths.{Held};
ghost use Rattle.algebra.specs.Values.{Keeps};
ghost use Rattle.core_program.specs.Views.{stmt_of};
ghost use Rattle.infer.specs.Bodies.{program_at, near_at};
ghost use Rattle.infer.specs.Names.{names_from_slot, left_by};

use crate::walk::Walk;
use algebra::Algebra;
use core_program::{CoreStmt, path_of};
use paths::{Path, Renaming, extend};
use std::alloc::{AllocError as NoMemory, Global};

/// The value of the rest of a block, as it is before the statement.
pub(crate) fn before<G: Algebra>(
    alloc: Global,
    walk: &Walk<'_>,
    algebra: &mut G,
    s: &CoreStmt,
    rest: G::A,
) -> Result<G::A, NoMemory>
    requires { G.IsKnown algebra.old rest }
    ensures known { IfOk result (λ r. G.IsKnown algebra.new r) }
    ensures value { IfOk result (λ r. (H : Held) →
        G.value algebra.new r H ≡ G.value algebra.old rest (left_by (program_at walk.now) (near_at walk.now) (stmt_of s.now) H)) }
    ensures keeps { Keeps G.IsKnown G.value algebra.old algebra.new }
{
    let CoreStmt::Local {
        slot,
        is_final: true,
        value,
        ..
    } = s
    else {
        return Ok(rest);
    };
    let path = path_of(walk.program, value);
    let mut pairs = Vec::new(alloc);
    add_names(&mut pairs, *slot, path.as_ref(), walk.sets.rel(walk.method))?;
    add_names(&mut pairs, *slot, path.as_ref(), walk.sets.loc(walk.method))?;
    algebra.rename(alloc, &Renaming { pairs }, &rest)
}

/// Adds each path rooted at the slot, with what it is from the path of the slot's value.
fn add_names(
    pairs: &mut Vec<(Path, Option<Path>)>,
    slot: u16,
    value: Option<&Path>,
    paths: &[Path],
) -> Result<(), NoMemory>
    ensures { OnOk result (pairs.new.items ≡ pairs.old.items ++ names_from_slot slot (option_copied value.entry) paths.now) }
{
    for path in paths {
        if path.root == slot {
            pairs.push((path.copy(), name_from(value, path)))?;
        }
    }
    Ok(())
}

/// What a path is from the path of its root's value.
fn name_from(value: Option<&Path>, path: &Path) -> Option<Path>
    ensures { result ≡ extended_some (option_copied value.entry) path.now.fields }
{
    extend(value?, path.fields.as_slice())
}
