//! Cells that may be empty: each says of a name or of a method which method is the nearest, or that there is none.
ghost use Rattle.std.specs.Prelude.{◌≡◌, ℕ, Some, None, Option, IfOk, replicate};
ghost use Rattle.rules.specs.Above.{known_at};

use paths::MethodId;
use std::alloc::{AllocError as NoMemory, Global};

/// The nearest method or none, where that is known.
pub type Known = Option<Option<MethodId>>;

/// So many cells in which nothing is known.
pub fn unknown(alloc: Global, count: usize) -> Result<Vec<Known>, NoMemory>
    ensures { IfOk result (λ cells. cells.items ≡ replicate count None) }
{
    vec![in alloc; None; count]
}

/// So many cells that say that there is no method.
pub fn known_none(alloc: Global, count: usize) -> Result<Vec<Known>, NoMemory>
    ensures { IfOk result (λ cells. cells.items ≡ replicate count (Some None)) }
{
    vec![in alloc; Some(None); count]
}

/// What is known at a place.
pub fn known_at(cells: &[Known], place: usize) -> Known
    ensures { result ≡ known_at cells.now place }
{
    *cells.get(place)?
}

/// Puts what is known into a cell, where there is one.
pub fn put_known(cells: &mut [Known], place: usize, known: Known)
    ensures here { (found : Option ℕ) → known_at cells.new place ≡ Some found → known ≡ Some found }
    ensures others { (other : ℕ) → (other ≡ place → ⊥) → known_at cells.new other ≡ known_at cells.old other }
{
    if place < cells.len() {
        cells[place] = known;
    }
}
