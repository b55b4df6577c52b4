//! Rows of basics: those of a value at the parts of a list of paths, and rows compared place by place.
ghost use Rattle.std.specs.Prelude.{◌≡◌, ◌≤◌, ◌++◌, length, drop, IfOk, OnOk, slice_get};
ghost use Rattle.algebra.specs.HeldPaths.{has_path};
ghost use Rattle.infer.specs.Cells.{at_parts, below_some, are_below, join_some, joined_tables};

use algebra::{Algebra, Basic, has};
use paths::Path;
use std::alloc::{AllocError as NoMemory, Global};

/// Adds once more what stands from a place on.
pub(crate) fn repeat_from(row: &mut Vec<Basic>, first: usize) -> Result<(), NoMemory>
    requires { first ≤ length row.old.items }
    ensures { OnOk result (row.new.items ≡ row.old.items ++ drop first row.old.items) }
{
    row.extend_from_within(first..)
}

/// Adds the basics of a value at the held paths with each part of these paths, in the order of tables. With a path
/// that is held already they are the same as without it.
pub(crate) fn put_parts<G: Algebra>(
    algebra: &G,
    value: &G::A,
    held: &mut Vec<Path>,
    paths: &[Path],
    row: &mut Vec<Basic>,
) -> Result<(), NoMemory>
    requires { G.IsKnown algebra.now value.now }
    ensures row { OnOk result (row.new.items ≡ row.old.items ++ at_parts (λ qs. G.value algebra.now value.now (has_path qs)) held.old.items paths.now) }
    ensures held { OnOk result (held.new.items ≡ held.old.items) }
{
    let Some((path, rest)) = paths.split_first() else {
        row.push(algebra.at(value, held.as_slice()))?;
        return Ok(());
    };
    let first = row.len();
    put_parts(algebra, value, held, rest, row)?;
    if has(held.as_slice(), path) {
        return repeat_from(row, first);
    }
    held.push(path.copy())?;
    put_parts(algebra, value, held, rest, row)?;
    held.pop();
    Ok(())
}

/// Whether each basic of a row is at most that of the table at its place.
pub(crate) fn are_below(row: &[Basic], table: &[Basic]) -> bool
    ensures { result ≡ are_below row.now table.now }
{
    for (place, basic) in row.iter().enumerate() {
        if !is_below(*basic, basic_at(table, place)) {
            return false;
        }
    }
    true
}

/// Whether a basic is at most another; not where the other is missing.
fn is_below(basic: Basic, own: Option<Basic>) -> bool
    ensures { result ≡ below_some basic own }
{
    match own {
        Some(own) => basic.below(own),
        None => false,
    }
}

/// The basic at a place of a table, if it is there.
fn basic_at(table: &[Basic], place: usize) -> Option<Basic>
    ensures { result ≡ slice_get table.now place }
{
    table.get(place).copied()
}

/// The greater basics of a row and a table, place by place.
pub(crate) fn joined(alloc: Global, row: &[Basic], table: &[Basic]) -> Result<Vec<Basic>, NoMemory>
    ensures { IfOk result (λ greater. greater.items ≡ joined_tables row.now table.now) }
{
    let mut greater = Vec::with_capacity(alloc, row.len())?;
    for (place, basic) in row.iter().enumerate() {
        greater.push(greater_of(*basic, basic_at(table, place)))?;
    }
    Ok(greater)
}

/// The greater of two basics; the first where the other is missing.
fn greater_of(basic: Basic, own: Option<Basic>) -> Basic
    ensures { result ≡ join_some basic own }
{
    match own {
        Some(own) => basic.join(own),
        None => basic,
    }
}
