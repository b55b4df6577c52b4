//! The least closed assignment, by rounds over the cells that may rise still.
ghost use Rattle.std.specs.Prelude.{◌≡◌, ℕ, ◌<◌, ◌+◌, ◌≤◌, ◌++◌, true, false, List, ◌∷◌, length, replicate, Contains, IfOk, OnOk};
ghost use Rattle.fixpoint.specs.Assignments.{AreAllMet, IsBetween};
ghost use Rattle.fixpoint.specs.Waiting.{IsNoted, AreWaiting, more};

use crate::rising::Rising;
use std::alloc::{AllocError as NoMemory, Global};

/// Notes a cell that waits from now on.
fn note(cell: usize, waits: &mut [bool], next: &mut Vec<usize>) -> Result<(), NoMemory>
    ensures size { length waits.new ≡ length waits.old }
    ensures noted { OnOk result (IsNoted (λ c. c ≡ cell) waits.old waits.new next.old.items next.new.items) }
{
    if cell >= waits.len() {
        return Ok(());
    }
    if waits[cell] {
        return Ok(());
    }
    next.push(cell)?;
    waits[cell] = true;
    Ok(())
}

/// Notes all of these cells.
fn note_these(cells: &[usize], waits: &mut [bool], next: &mut Vec<usize>) -> Result<(), NoMemory>
    ensures size { length waits.new ≡ length waits.old }
    ensures noted { OnOk result (IsNoted (Contains cells.now) waits.old waits.new next.old.items next.new.items) }
{
    for cell in cells {
        note(*cell, waits, next)?;
    }
    Ok(())
}

/// Notes every cell.
fn note_all(waits: &mut [bool], next: &mut Vec<usize>) -> Result<(), NoMemory>
    ensures size { length waits.new ≡ length waits.old }
    ensures noted { OnOk result (IsNoted (λ c. Unit {0}) waits.old waits.new next.old.items next.new.items) }
{
    for cell in 0..waits.len() {
        note(cell, waits, next)?;
    }
    Ok(())
}

/// Notes the cells whose demands may look at a cell.
fn note_readers<R: Rising>(
    rising: &R,
    cell: usize,
    waits: &mut [bool],
    next: &mut Vec<usize>,
) -> Result<(), NoMemory>
    requires { length waits.old ≡ length (R.marks rising.now) }
    ensures size { length waits.new ≡ length waits.old }
    ensures noted { OnOk result (IsNoted (λ c. R.looks rising.now c cell ≡ true) waits.old waits.new next.old.items next.new.items) }
{
    match rising.readers(cell) {
        Some(readers) => note_these(readers, waits, next),
        None => note_all(waits, next),
    }
}

/// Asks a cell that waits, and notes those that wait after its rise.
fn ask<R: Rising>(
    alloc: Global,
    rising: &mut R,
    cell: usize,
    waits: &mut [bool],
    next: &mut Vec<usize>,
) -> Result<(), NoMemory>
    requires within { cell < length (R.marks rising.old) }
    requires size { length waits.old ≡ length (R.marks rising.old) }
    ensures between { IsBetween (R.met rising.old) (R.marks rising.old) (R.marks rising.new) }
    ensures same_met { R.met rising.new ≡ R.met rising.old }
    ensures keeps { (earlier : R) → R.keeps earlier rising.old → R.keeps earlier rising.new }
    ensures size { length waits.new ≡ length waits.old }
    ensures waiting { OnOk result ((rest : List ℕ) → AreWaiting (R.met rising.old) (R.marks rising.old) waits.old (cell ∷ (rest ++ next.old.items)) →
        AreWaiting (R.met rising.old) (R.marks rising.new) waits.new (rest ++ next.new.items)) }
    ensures room { OnOk result (R.left rising.new + more next.new.items ≤ R.left rising.old + more next.old.items) }
{
    waits[cell] = false;
    if !rising.raise(alloc, cell)? {
        return Ok(());
    }
    note_readers(rising, cell, waits, next)
}

/// Asks each of these cells, and gives those that wait then.
fn ask_each<R: Rising>(
    alloc: Global,
    rising: &mut R,
    cells: &[usize],
    waits: &mut [bool],
) -> Result<Vec<usize>, NoMemory>
    requires { AreWaiting (R.met rising.old) (R.marks rising.old) waits.old cells.now }
    ensures between { IsBetween (R.met rising.old) (R.marks rising.old) (R.marks rising.new) }
    ensures same_met { R.met rising.new ≡ R.met rising.old }
    ensures keeps { (earlier : R) → R.keeps earlier rising.old → R.keeps earlier rising.new }
    ensures size { length waits.new ≡ length waits.old }
    ensures waiting { IfOk result (λ next. AreWaiting (R.met rising.old) (R.marks rising.new) waits.new next.items) }
    ensures room { IfOk result (λ next. R.left rising.new + more next.items ≤ R.left rising.old) }
{
    let mut next = Vec::new(alloc);
    for cell in cells {
        ask(alloc, rising, *cell, waits, &mut next)?;
    }
    Ok(next)
}

/// No cell waits.
fn calm(alloc: Global, cells: usize) -> Result<Vec<bool>, NoMemory>
    ensures { IfOk result (λ waits. waits.items ≡ replicate cells false) }
{
    Ok(vec![in alloc; false; cells]?)
}

/// Raises cells until every demand is met. The assignment is then the least closed one above the one where it began;
/// after want of memory it lies between the two.
///
/// Every cell is asked once, and again only where one that its demand looks at has risen.
pub fn least<R: Rising>(alloc: Global, rising: &mut R) -> Result<(), NoMemory>
    ensures closed { OnOk result (AreAllMet (R.met rising.old) (R.marks rising.new)) }
    ensures between { IsBetween (R.met rising.old) (R.marks rising.old) (R.marks rising.new) }
    ensures same_met { R.met rising.new ≡ R.met rising.old }
    ensures keeps { (earlier : R) → R.keeps earlier rising.old → R.keeps earlier rising.new }
{
    let mut waits = calm(alloc, rising.cells())?;
    let mut cells = Vec::new(alloc);
    note_all(&mut waits, &mut cells)?;
    'rounds: while !cells.is_empty() {
        cells = ask_each(alloc, rising, cells.as_slice(), &mut waits)?;
    }
    Ok(())
}
