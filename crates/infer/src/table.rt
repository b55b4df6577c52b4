//! The tables of methods, and the value of one under the names that its paths have elsewhere.
ghost use Rattle.std.specs.Prelude.{◌≡◌, true, map, IfOk, slice_get};
ghost use Rattle.algebra.specs.Values.{Keeps};
ghost use Rattle.algebra.specs.HeldPaths.{Held};
ghost use Rattle.rules.specs.Near.{rel_of};
ghost use Rattle.infer.specs.Tables.{chosen, table_or_empty, table_assignment};
ghost use Rattle.infer.specs.Names.{held_partners};

use algebra::{Algebra, Basic, front, half};
use paths::{MethodId, Path};
use rules::RelevantSets;
use std::alloc::{AllocError as NoMemory, Global};
use std::marker::Model;

/// The basics of a method at the subsets of its relevant paths. Those with the first path are the second half, and so
/// on in each half.
#[derive(Drop)]
pub(crate) struct Table {
    pub(crate) basics: Vec<Basic>,
}

impl Model for Table {
    ghost use Rattle.std.specs.Prelude.{List};
    ghost use Rattle.algebra.specs.declared.basic.Basic.{Basic};

    ghost Value = { List Basic };

    ghost view = { λ t. t.basics.items };
}

/// The basics of a method; none where it isn't there.
pub(crate) fn table_at(tables: &[Table], m: MethodId) -> &[Basic]
    ensures { result.now ≡ table_or_empty (slice_get tables.now m) }
{
    match tables.get(m.0 as usize) {
        Some(table) => table.basics.as_slice(),
        None => &[],
    }
}

/// Whether both halves of a table have the same entries.
fn are_equal(one: &[Basic], two: &[Basic]) -> bool
    ensures { result ≡ true → one.now ≡ two.now }
{
    one == two
}

/// The table's entry at each set, where each pair tells what one of the table's paths is called here.
pub(crate) fn pick<G: Algebra>(
    alloc: Global,
    algebra: &mut G,
    pairs: &[(Path, Option<Path>)],
    table: &[Basic],
) -> Result<G::A, NoMemory>
    ensures known { IfOk result (λ r. G.IsKnown algebra.new r) }
    ensures value { IfOk result (λ r. (H : Held) → G.value algebra.new r H ≡ chosen (held_partners pairs.now H) table.now) }
    ensures keeps { Keeps G.IsKnown G.value algebra.old algebra.new }
{
    let Some((pair, rest)) = pairs.split_first() else {
        return algebra.leaf(alloc, front(table));
    };
    let without = pick(alloc, algebra, rest, half(table, false))?;
    let Some(path) = &pair.1 else {
        return Ok(without);
    };
    if are_equal(half(table, false), half(table, true)) {
        return Ok(without);
    }
    let with = pick(alloc, algebra, rest, half(table, true))?;
    algebra.held_or(alloc, path, &with, &without)
}

/// The table's entry at each set, by which of the table's paths it has.
fn pick_held<G: Algebra>(
    alloc: Global,
    algebra: &mut G,
    paths: &[Path],
    table: &[Basic],
) -> Result<G::A, NoMemory>
    ensures known { IfOk result (λ r. G.IsKnown algebra.new r) }
    ensures value { IfOk result (λ r. (H : Held) → G.value algebra.new r H ≡ chosen (map H paths.now) table.now) }
    ensures keeps { Keeps G.IsKnown G.value algebra.old algebra.new }
{
    let Some((path, rest)) = paths.split_first() else {
        return algebra.leaf(alloc, front(table));
    };
    let without = pick_held(alloc, algebra, rest, half(table, false))?;
    if are_equal(half(table, false), half(table, true)) {
        return Ok(without);
    }
    let with = pick_held(alloc, algebra, rest, half(table, true))?;
    algebra.held_or(alloc, path, &with, &without)
}

/// The value of the table of a method: its entry for the relevant paths that are held.
pub(crate) fn value_of<G: Algebra>(
    alloc: Global,
    sets: &RelevantSets,
    tables: &[Table],
    algebra: &mut G,
    method: MethodId,
) -> Result<G::A, NoMemory>
    ensures known { IfOk result (λ value. G.IsKnown algebra.new value) }
    ensures value { IfOk result (λ value. (H : Held) → G.value algebra.new value H ≡ table_assignment (rel_of sets.now) tables.now method H) }
    ensures keeps { Keeps G.IsKnown G.value algebra.old algebra.new }
{
    pick_held(alloc, algebra, sets.rel(method), table_at(tables, method))
}
