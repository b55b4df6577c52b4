//! The last part of a call: what is assigned to the callee, under the names that its paths have here.
ghost use Rattle.std.specs.Prelude.{◌≡◌, IfOk, if◌then◌else◌};
ghost use Rattle.std.specs.List.{list_all};
ghost use Rattle.std.specs.Option.{option_copied};
ghost use Rattle.algebra.specs.declared.basic.Basic.TheVariants.{Error};
ghost use Rattle.algebra.specs.HeldPaths.{Held, holds_at};
ghost use Rattle.algebra.specs.Values.{Keeps};
ghost use Rattle.core_program.specs.Locks.{path_of};
ghost use Rattle.core_program.specs.Views.{expr_of, exprs_from};
ghost use Rattle.rules.specs.Mentions.{paths_of};
ghost use Rattle.rules.specs.Effect.{call_of};
ghost use Rattle.infer.specs.Bodies.{program_at, rel_at, assigned_at};
ghost use Rattle.infer.specs.Names.{name_in};

use crate::table::{pick, table_at};
use crate::walk::Walk;
use algebra::{Algebra, Basic};
use core_program::CoreExpr;
use paths::{MethodId, Path};
use rules::{renaming_at, required_of};
use std::alloc::{AllocError as NoMemory, Global};

/// What is assigned to the callee at the set that it begins with; an error where that set lacks a required path.
pub(crate) fn call_value<G: Algebra>(
    alloc: Global,
    walk: &Walk<'_>,
    algebra: &mut G,
    receiver: &CoreExpr,
    callee: MethodId,
    args: &[CoreExpr],
) -> Result<G::A, NoMemory>
    ensures known { IfOk result (λ r. G.IsKnown algebra.new r) }
    ensures value { IfOk result (λ r. (H : Held) →
        let P = program_at walk.now in
        G.value algebra.new r H ≡ call_of P (rel_at walk.now) (assigned_at walk.now) callee
        (path_of P (expr_of receiver.now)) (paths_of P (exprs_from args.now)) H) }
    ensures keeps { Keeps G.IsKnown G.value algebra.old algebra.new }
{
    let names = renaming_at(alloc, walk.program, walk.sets, receiver, callee, args)?;
    let value = pick(
        alloc,
        algebra,
        names.pairs.as_slice(),
        table_at(walk.tables, callee),
    )?;
    with_required(
        alloc,
        algebra,
        names.pairs.as_slice(),
        required_of(walk.program, callee),
        value,
    )
}

/// What a path is called here: the partner of the first pair that names it.
fn name_of<'a>(pairs: &'a [(Path, Option<Path>)], path: &Path) -> Option<&'a Path>
    ensures { option_copied result ≡ name_in pairs.now path.now }
{
    let (pair, rest) = pairs.split_first()?;
    if pair.0.same(path) {
        pair.1.as_ref()
    } else {
        name_of(rest, path)
    }
}

/// The value where each of these paths has a name here and is held, else error.
fn with_required<G: Algebra>(
    alloc: Global,
    algebra: &mut G,
    pairs: &[(Path, Option<Path>)],
    required: &[Path],
    value: G::A,
) -> Result<G::A, NoMemory>
    requires { G.IsKnown algebra.old value }
    ensures known { IfOk result (λ r. G.IsKnown algebra.new r) }
    ensures value { IfOk result (λ r. (H : Held) → G.value algebra.new r H ≡
        (if list_all (λ q. holds_at (name_in pairs.now q) H) required.now then G.value algebra.old value H else Error)) }
    ensures keeps { Keeps G.IsKnown G.value algebra.old algebra.new }
{
    let Some((path, rest)) = required.split_first() else {
        return Ok(value);
    };
    let Some(name) = name_of(pairs, path) else {
        return algebra.leaf(alloc, Basic::Error);
    };
    let later = with_required(alloc, algebra, pairs, rest, value)?;
    let error = algebra.leaf(alloc, Basic::Error)?;
    algebra.held_or(alloc, name, &later, &error)
}
