//! The nearest of the methods that override a method.
ghost use Rattle.std.specs.Prelude.{◌≡◌, ℕ, Some, IfOk, OnOk};
ghost use Rattle.core_program.specs.Overridden.{next_overridden, other_than};
ghost use Rattle.core_program.specs.Views.{program_of};
ghost use Rattle.forest.specs.Walks.{above_in};
ghost use Rattle.rules.specs.Above.{nearest_above, AreRight};
ghost use Rattle.rules.specs.Nearest.{AreNearest};
ghost use Rattle.rules.specs.Overriding.{IsAddedTo};
ghost use Rattle.rules.specs.Search.{row_at, rows_of};

use crate::above::nearest_above;
use crate::cells::{Known, known_at};
use crate::overriding::method_at;
use crate::search::{push_at, row};
use core_program::CoreProgram;
use paths::MethodId;
use std::alloc::{AllocError as NoMemory, Global};
use std::marker::Model;

/// For each method the nearest of those that override it.
#[derive(Drop)]
pub struct NearestMethods {
    rows: Vec<Vec<MethodId>>,
}

impl Model for NearestMethods {
    ghost use Rattle.std.specs.Prelude.{ℕ, List};
    ghost use Rattle.rules.specs.Search.{rows_of};

    ghost Value = { List (List ℕ) };

    ghost view = { λ o. rows_of o.rows.items };
}

impl NearestMethods {
    /// The nearest methods that override this one, in the order of their classes; none where it isn't there.
    pub fn of(&self, m: MethodId) -> &[MethodId]
        ensures { result.now ≡ row_at self.now m }
    {
        row(self.rows.as_slice(), m.0 as usize)
    }
}

/// For each method of a program the nearest ones that override it.
pub fn nearest_overriders(alloc: Global, program: &CoreProgram) -> Result<NearestMethods, NoMemory>
    ensures { IfOk result (AreNearest (program_of program.now)) }
{
    let noted = nearest_above(alloc, program)?;
    let known = noted.as_slice();
    let mut rows = Vec::new(alloc);
    let count = program.methods().len();
    for place in 0..count {
        add_next(alloc, program, known, method_at(place)?, &mut rows)?;
    }
    Ok(NearestMethods { rows })
}

/// For each method the number of the next one that it overrides.
pub fn next_methods(alloc: Global, program: &CoreProgram) -> Result<Vec<Option<usize>>, NoMemory>
    ensures { IfOk result (λ nexts. (m : ℕ) → above_in nexts.items m ≡ next_overridden program.now m) }
{
    let noted = nearest_above(alloc, program)?;
    let known = noted.as_slice();
    let mut nexts = Vec::new(alloc);
    for place in 0..program.methods().len() {
        nexts.push(number(next_of(program, known, method_at(place)?)))?;
    }
    Ok(nexts)
}

/// The number of a method.
fn number(method: Option<MethodId>) -> Option<usize>
    ensures { result ≡ method }
{
    Some(method?.0 as usize)
}

/// Adds a method to the row of the next one that it overrides.
fn add_next(
    alloc: Global,
    program: &CoreProgram,
    known: &[Known],
    over: MethodId,
    rows: &mut Vec<Vec<MethodId>>,
) -> Result<(), NoMemory>
    requires { AreRight (nearest_above program.now) known.now }
    ensures { OnOk result (IsAddedTo (λ m. next_overridden program.now over ≡ Some m) over (rows_of rows.old.items) (rows_of rows.new.items)) }
{
    let Some(next) = next_of(program, known, over) else {
        return Ok(());
    };
    push_at(alloc, rows, next, over)?;
    Ok(())
}

/// The next method that a method overrides.
fn next_of(program: &CoreProgram, known: &[Known], over: MethodId) -> Option<MethodId>
    requires { AreRight (nearest_above program.now) known.now }
    ensures { result ≡ next_overridden program.now over }
{
    match known_at(known, over.0 as usize) {
        Some(found) => other_than(over, found?),
        None => program.next_overridden(over),
    }
}

/// Another method than this one.
fn other_than(method: MethodId, found: MethodId) -> Option<MethodId>
    ensures { result ≡ other_than method found }
{
    if found == method { None } else { Some(found) }
}
