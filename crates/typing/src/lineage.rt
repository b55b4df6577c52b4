//! What each class has from the classes above it.

ghost use Rattle.std.specs.Prelude.{◌≡◌, ◌<◌, ◌+◌, ℕ, Some, codes, length, option_map, slice_get, IfOk};
ghost use Rattle.classes.specs.Table.{above_in_table, own_method};
ghost use Rattle.classes.specs.Views.{table_data};
ghost use Rattle.typing.specs.Lineages.{lineage_of};
ghost use Rattle.typing.specs.Order.{IsFromAbove, IsLined};

use crate::columns::{put, value_of};
use classes::ClassTable;
use paths::{ClassId, MethodId};
use std::alloc::{AllocError as NoMemory, Global};

/// How many fields a class has from above, and the method that runs for `run` and it.
#[derive(Clone, Copy)]
pub(crate) struct Lineage {
    pub(crate) inherited: u16,
    pub(crate) run: Option<MethodId>,
}

fn own_run(table: &ClassTable, class: ClassId) -> Option<MethodId>
    ensures { result ≡ own_method (table_data table.now) (codes "run") class }
{
    table.classes().get(class.0 as usize)?.method_named("run")
}

/// How many fields a class has itself, if it is there.
fn own_field_count(table: &ClassTable, class: ClassId) -> Option<usize>
    ensures { result ≡ option_map (λ c. length c.field_names) (slice_get (table_data table.now).classes class) }
{
    Some(table.classes().get(class.0 as usize)?.field_count())
}

/// The sum of two counts of fields. There is no memory for 65,536.
fn total(some: u16, more: usize) -> Result<u16, NoMemory>
    ensures { IfOk result (λ sum. sum ≡ some + more) }
{
    let Ok(more) = u16::try_from(more) else {
        return Err(NoMemory);
    };
    match some.checked_add(more) {
        Some(sum) => Ok(sum),
        None => Err(NoMemory),
    }
}

/// What a class has from above, where that of the class above it is known.
fn class_lineage(table: &ClassTable, class: ClassId, known: &[Lineage]) -> Result<Lineage, NoMemory>
    requires lined { IsLined (table_data table.now) }
    requires within { class < length (table_data table.now).classes }
    requires above { (d : ℕ) → above_in_table (table_data table.now) class ≡ Some d → slice_get known.now d ≡ Some (lineage_of (table_data table.now) d) }
    ensures { IfOk result (λ l. l ≡ lineage_of (table_data table.now) class) }
{
    let run = own_run(table, class);
    let Some(above) = table.above(class) else {
        return Ok(Lineage { inherited: 0, run });
    };
    let from = value_of(known, above);
    let own = own_field_count(table, above).unwrap_or(0);
    let inherited = total(from.inherited, own)?;
    let run = run.or(from.run);
    Ok(Lineage { inherited, run })
}

/// What each class has from above. In the order each class comes after the one that it extends.
pub(crate) fn lineages(
    alloc: Global,
    table: &ClassTable,
    order: &[ClassId],
) -> Result<Vec<Lineage>, NoMemory>
    requires lined { IsLined (table_data table.now) }
    requires order { IsFromAbove (above_in_table (table_data table.now)) (length (table_data table.now).classes) order.now }
    ensures { IfOk result (λ all. (c : ℕ) → c < length (table_data table.now).classes → slice_get all.items c ≡ Some (lineage_of (table_data table.now) c)) }
{
    let none = Lineage {
        inherited: 0,
        run: None,
    };
    let mut all = Vec::new(alloc);
    all.resize(table.classes().len(), none)?;
    for class in order {
        let value = class_lineage(table, *class, all.as_slice())?;
        put(&mut all, *class, value);
    }
    Ok(all)
}
