//! The methods that override others, by those that they override.
ghost use Rattle.std.specs.Prelude.{◌≡◌, ◌++◌, ℕ, IfOk, OnOk};
ghost use Rattle.core_program.specs.Dispatch.{Overrides};
ghost use Rattle.core_program.specs.Views.{program_of};
ghost use Rattle.rules.specs.Overriding.{told_each, AreOverriders, IsAddedTo};
ghost use Rattle.rules.specs.Search.{row_at, rows_of};

use crate::laying::{Laid, rows_laid, walk_laid};
use crate::nearest::next_methods;
use crate::ranges::{in_range, lie_below_next, range_at};
use crate::search::push_at;
use core_program::CoreProgram;
use paths::MethodId;
use std::alloc::{AllocError as NoMemory, Global};
use std::marker::Model;

/// For each method those that override it.
#[derive(Drop)]
pub struct OverridingMethods {
    laid: Laid,
}

impl Model for OverridingMethods {
    ghost use Rattle.std.specs.Prelude.{ℕ, List, map};
    ghost use Rattle.rules.specs.Ranges.{in_range};

    ghost Value = { List (List ℕ) };

    ghost view = { λ o. map (in_range o.laid.order.items) o.laid.ranges.items };
}

impl OverridingMethods {
    /// The methods that override this one, depth first, each before those that override it; none where it isn't there.
    pub fn of(&self, m: MethodId) -> &[MethodId]
        ensures { result.now ≡ row_at self.now m }
    {
        let range = range_at(self.laid.ranges.as_slice(), m.0 as usize);
        in_range(self.laid.order.as_slice(), range)
    }
}

/// The method at a place. There is no memory for more methods than numbers.
pub fn method_at(place: usize) -> Result<MethodId, NoMemory>
    ensures { IfOk result (λ method. method ≡ place) }
{
    match u32::try_from(place) {
        Ok(number) => Ok(MethodId(number)),
        Err(_) => Err(NoMemory),
    }
}

/// For each method of a program those that override it. What a walk lays is all of it, but on circles of classes.
pub fn overriders(alloc: Global, program: &CoreProgram) -> Result<OverridingMethods, NoMemory>
    ensures { IfOk result (AreOverriders (program_of program.now)) }
{
    let noted = next_methods(alloc, program)?;
    let nexts = noted.as_slice();
    let laid = walk_laid(alloc, nexts)?;
    if lie_below_next(nexts, laid.order.as_slice(), laid.ranges.as_slice()) {
        return Ok(OverridingMethods { laid });
    }
    let rows = overriding_rows(alloc, program)?;
    let laid = rows_laid(alloc, rows.as_slice())?;
    Ok(OverridingMethods { laid })
}

/// For each method a row of its own.
fn overriding_rows(alloc: Global, program: &CoreProgram) -> Result<Vec<Vec<MethodId>>, NoMemory>
    ensures { IfOk result (λ rows. AreOverriders (program_of program.now) (rows_of rows.items)) }
{
    let mut rows = Vec::new(alloc);
    let count = program.methods().len();
    for place in 0..count {
        add_overridden(alloc, program, method_at(place)?, &mut rows)?;
    }
    Ok(rows)
}

/// Adds a method to the rows of those that it overrides.
fn add_overridden(
    alloc: Global,
    program: &CoreProgram,
    over: MethodId,
    rows: &mut Vec<Vec<MethodId>>,
) -> Result<(), NoMemory>
    ensures { OnOk result (IsAddedTo (λ m. Overrides (program_of program.now) over m) over (rows_of rows.old.items) (rows_of rows.new.items)) }
{
    let all = program.overridden(alloc, over)?;
    add_to_each(alloc, all.as_slice(), over, rows)?;
    Ok(())
}

/// Adds a method to the rows of these.
fn add_to_each(
    alloc: Global,
    all: &[MethodId],
    over: MethodId,
    rows: &mut Vec<Vec<MethodId>>,
) -> Result<(), NoMemory>
    ensures { OnOk result ((m : ℕ) → row_at (rows_of rows.new.items) m ≡ row_at (rows_of rows.old.items) m ++ told_each over all.now m) }
{
    for method in all {
        push_at(alloc, rows, *method, over)?;
    }
    Ok(())
}
