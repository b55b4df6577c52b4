//! The open order of a run's steps.
ghost use Rattle.std.specs.Prelude.{◌≡◌, ◌≤◌, ◌++◌, ℕ, length, IfOk, OnOk};
ghost use Rattle.semantics.specs.Units.{units, schedule_of};
ghost use Rattle.serialise.specs.Entries.{entries_of};
ghost use Rattle.serialise.specs.Tables.{value_or};
ghost use Rattle.serialise.specs.UnitMaps.{maps_of};
ghost use Rattle.reduction.specs.Committing.{open_units};
ghost use Rattle.serialise.specs.Spreading.{stays_open, committed_size, left_size, spread_committed, with_left, left_sizes, spread_threads};

use crate::repeats::append;
use crate::step::Step;
use crate::tables::put;
use crate::units::{UnitTables, unit_tables};
use state::StepKind;
use std::alloc::{AllocError as NoMemory, Global};

/// Whether a unit that has its commit place at this step doesn't commit.
fn stays_open(step: Step) -> bool
    ensures { result ≡ stays_open step }
{
    step.inside && !matches!(step.kind, StepKind::Left | StepKind::Other)
}

/// How many steps the unit at a place has, where it commits.
fn committed_size(tables: &UnitTables, place: u32, step: Step) -> u32
    ensures { result ≡ committed_size (maps_of tables.now).sizes place step }
{
    if stays_open(step) {
        0
    } else {
        tables.size_of(place)
    }
}

/// How many steps the unit at a place has, where it doesn't commit.
fn left_size(tables: &UnitTables, place: u32, step: Step) -> u32
    ensures { result ≡ left_size (maps_of tables.now).sizes place step }
{
    if stays_open(step) {
        tables.size_of(place)
    } else {
        0
    }
}

/// Appends the threads of the steps, each as often as the unit that commits there has steps.
fn spread_committed(
    order: &mut Vec<u32>,
    tables: &UnitTables,
    steps: &[Step],
) -> Result<(), NoMemory>
    requires { length steps.now ≤ 200000 }
    ensures { OnOk result (order.new.items ≡ order.old.items ++ spread_committed (maps_of tables.now).sizes 0 steps.now) }
{
    for (place, step) in steps.iter().enumerate() {
        append(
            order,
            step.thread,
            committed_size(tables, place as u32, *step),
        )?;
    }
    Ok(())
}

/// Notes the size of a thread's unit that doesn't commit.
fn note_left(lefts: &mut Vec<u32>, thread: u32, size: u32) -> Result<(), NoMemory>
    ensures { OnOk result ((other : ℕ) → value_or 0 lefts.new.items other ≡ with_left thread size (value_or 0 lefts.old.items) other) }
{
    if size == 0 {
        return Ok(());
    }
    put(lefts, 0, thread, size)
}

/// By thread, how many steps its unit has that doesn't commit.
fn left_sizes(alloc: Global, tables: &UnitTables, steps: &[Step]) -> Result<Vec<u32>, NoMemory>
    requires { length steps.now ≤ 200000 }
    ensures { IfOk result (λ lefts. (other : ℕ) → value_or 0 lefts.items other ≡ left_sizes (maps_of tables.now).sizes 0 steps.now other) }
{
    let mut lefts = Vec::new(alloc);
    let mut place = steps.len();
    while place > 0 {
        place -= 1;
        let step = steps[place];
        note_left(
            &mut lefts,
            step.thread,
            left_size(tables, place as u32, step),
        )?;
    }
    Ok(lefts)
}

/// Appends the threads, each as often as its size says.
fn spread_threads(order: &mut Vec<u32>, sizes: &[u32]) -> Result<(), NoMemory>
    requires { length sizes.now ≤ 4294967296 }
    ensures { OnOk result (order.new.items ≡ order.old.items ++ spread_threads 0 sizes.now) }
{
    for (thread, size) in sizes.iter().enumerate() {
        append(order, thread as u32, *size)?;
    }
    Ok(())
}

/// The threads of a run's steps: the units that commit in ascending order of their commit places, then the others in ascending
/// order of their threads.
pub(crate) fn in_open_order(alloc: Global, steps: &[Step]) -> Result<Vec<u32>, NoMemory>
    requires { length steps.now ≤ 200000 }
    ensures { IfOk result (λ order. order.items ≡ schedule_of (open_units (units (entries_of 0 steps.now)))) }
{
    let tables = unit_tables(alloc, steps)?;
    let lefts = left_sizes(alloc, &tables, steps)?;
    // No run has so many threads.
    if lefts.len() > 4_294_967_296 {
        return Err(NoMemory);
    }
    let mut order = Vec::with_capacity(alloc, steps.len())?;
    spread_committed(&mut order, &tables, steps)?;
    spread_threads(&mut order, &lefts)?;
    Ok(order)
}
