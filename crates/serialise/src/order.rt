//! The written order of a run's steps.
ghost use Rattle.std.specs.Prelude.{◌≡◌, ◌≤◌, length, IfOk};
ghost use Rattle.semantics.specs.Units.{units, in_order, schedule_of};
ghost use Rattle.serialise.specs.Entries.{entries_of};
ghost use Rattle.serialise.specs.UnitMaps.{maps_of, spread};

use crate::repeats::append;
use crate::step::Step;
use crate::units::{UnitTables, unit_tables};
use std::alloc::{AllocError as NoMemory, Global};

/// The threads of the steps, each as often as the unit that commits there has steps.
fn spread(alloc: Global, tables: &UnitTables, steps: &[Step]) -> Result<Vec<u32>, NoMemory>
    requires { length steps.now ≤ 200000 }
    ensures { IfOk result (λ order. order.items ≡ spread (maps_of tables.now).sizes 0 steps.now) }
{
    let mut order = Vec::with_capacity(alloc, steps.len())?;
    for (place, step) in steps.iter().enumerate() {
        append(&mut order, step.thread, tables.size_of(place as u32))?;
    }
    Ok(order)
}

/// The threads of a run's steps, with the units in ascending order of their commit places.
pub(crate) fn in_order(alloc: Global, steps: &[Step]) -> Result<Vec<u32>, NoMemory>
    requires { length steps.now ≤ 200000 }
    ensures { IfOk result (λ order. order.items ≡ schedule_of (in_order (units (entries_of 0 steps.now)))) }
{
    let tables = unit_tables(alloc, steps)?;
    spread(alloc, &tables, steps)
}
