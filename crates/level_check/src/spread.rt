//! Cells that rise in a good order, before they settle. Whatever order is taken, what is left to rise does so then: so nothing is promised
//! of it but that what was kept is kept on.
ghost use Rattle.std.specs.Prelude.{◌≡◌, length, IfOk};

use fixpoint::Rising;
use std::alloc::{AllocError as NoMemory, Global};

/// Raises each cell once.
pub(crate) fn raise_each<R: Rising>(alloc: Global, rising: &mut R) -> Result<(), NoMemory>
    ensures { (earlier : R) → R.keeps earlier rising.old → R.keeps earlier rising.new }
{
    let mut at = 0;
    'cells: while at < rising.cells() {
        rising.raise(alloc, at)?;
        at += 1;
    }
    Ok(())
}

/// The places of these levels, that of the greatest first.
pub(crate) fn from_greatest(alloc: Global, levels: &[u32]) -> Result<Vec<(u32, usize)>, NoMemory>
    ensures { IfOk result (λ order. length order.items ≡ length levels.now) }
{
    let mut order = Vec::new(alloc);
    for (at, level) in levels.iter().enumerate() {
        order.push((u32::MAX - *level, at))?;
    }
    order.sort_unstable();
    Ok(order)
}

/// Puts those of these cells behind the others that aren't done.
fn put(cells: &[usize], done: &[bool], left: &mut Vec<usize>) -> Result<(), NoMemory> {
    for cell in cells {
        if done.get(*cell) == Some(&false) {
            left.push(*cell)?;
        }
    }
    Ok(())
}

/// Raises a cell, and puts those that look at it to what is left, where it isn't done.
fn raise_one<R: Rising>(
    alloc: Global,
    rising: &mut R,
    cell: usize,
    done: &mut [bool],
    left: &mut Vec<usize>,
) -> Result<(), NoMemory>
    ensures { (earlier : R) → R.keeps earlier rising.old → R.keeps earlier rising.new }
{
    if cell >= rising.cells() || cell >= done.len() {
        return Ok(());
    }
    if done[cell] {
        return Ok(());
    }
    done[cell] = true;
    rising.raise(alloc, cell)?;
    match rising.readers(cell) {
        Some(readers) => put(readers, done, left),
        None => Ok(()),
    }
}

/// Raises a cell, and all that are reached from it and aren't done.
fn raise_from<R: Rising>(
    alloc: Global,
    rising: &mut R,
    cell: usize,
    done: &mut [bool],
) -> Result<(), NoMemory>
    ensures { (earlier : R) → R.keeps earlier rising.old → R.keeps earlier rising.new }
{
    let mut left = Vec::new(alloc);
    left.push(cell)?;
    let mut room = u64::MAX;
    'left: while room > 0 {
        let Some(next) = left.pop() else {
            return Ok(());
        };
        raise_one(alloc, rising, next, done, &mut left)?;
        room -= 1;
    }
    Ok(())
}

/// Raises each of these cells and all that are reached from it, but for those that come before it.
pub(crate) fn raise_in_order<R: Rising>(
    alloc: Global,
    rising: &mut R,
    order: &[(u32, usize)],
) -> Result<(), NoMemory>
    ensures { (earlier : R) → R.keeps earlier rising.old → R.keeps earlier rising.new }
{
    let mut done = vec![in alloc; false; order.len()]?;
    for (_, cell) in order {
        raise_from(alloc, rising, *cell, done.as_mut_slice())?;
    }
    Ok(())
}
