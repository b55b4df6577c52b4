//! The core classes of a program.

ghost use Rattle.std.specs.Prelude.{◌≡◌, ◌++◌, ◌<◌, ℕ, Some, codes, filter, length, map, option_map, slice_get, IfOk, OnOk};
ghost use Rattle.std.specs.List.{range_with_len};
ghost use Rattle.classes.specs.Table.{above_in_table, method_number};
ghost use Rattle.classes.specs.Views.{class_data, table_data};
ghost use Rattle.core_program.specs.Kept.{kept_class};
ghost use Rattle.typing.specs.Classes.{is_final_in};
ghost use Rattle.typing.specs.Kept.{all_parts, part_of_number};
ghost use Rattle.typing.specs.Lineages.{lineage_of};
ghost use Rattle.typing.specs.Merged.{class_over};
ghost use Rattle.typing.specs.Order.{IsFromAbove, IsLined};

use crate::columns::{put, value_of};
use crate::lineage::Lineage;
use crate::members::next_number;
use classes::{ClassEntry, ClassTable};
use core_program::CoreClass;
use paths::{ClassId, FieldId, MethodId};
use std::alloc::{AllocError as NoMemory, Global};

/// Adds the own fields of a class.
fn add_own(class: &ClassEntry, fields: &mut Vec<FieldId>) -> Result<(), NoMemory>
    ensures { OnOk result (fields.new.items ≡ fields.old.items ++ range_with_len (class_data class.now).first_field (length (class_data class.now).field_names)) }
{
    let mut next = class.first_field().0;
    for _ in 0..class.field_count() {
        fields.push(FieldId(next))?;
        next = next_number(next)?;
    }
    Ok(())
}

fn is_final(table: &ClassTable, field: FieldId) -> bool
    ensures { result ≡ is_final_in (slice_get (table_data table.now).fields field) }
{
    match table.fields().get(field.0 as usize) {
        Some(field) => field.is_final,
        None => false,
    }
}

fn finals_of(
    alloc: Global,
    table: &ClassTable,
    fields: &[FieldId],
) -> Result<Vec<FieldId>, NoMemory>
    ensures { IfOk result (λ finals. finals.items ≡ filter (λ f. is_final_in (slice_get (table_data table.now).fields f)) fields.now) }
{
    let mut finals = Vec::new(alloc);
    for field in fields {
        if is_final(table, *field) {
            finals.push(*field)?;
        }
    }
    Ok(finals)
}

/// A core class, where these are the fields of the class that it extends; there are none where it extends none.
fn core_class(
    alloc: Global,
    table: &ClassTable,
    class: &ClassEntry,
    run: Option<MethodId>,
    fields: &[FieldId],
) -> Result<CoreClass, NoMemory>
    ensures { IfOk result (λ c. kept_class c ≡ class_over (table_data table.now) (class_data class.now) run fields.now) }
{
    let mut all = Vec::new(alloc);
    all.extend_from_slice(fields)?;
    add_own(class, &mut all)?;
    let finals = finals_of(alloc, table, all.as_slice())?;
    Ok(CoreClass {
        fields: all,
        finals,
        run: if class.runnable { run } else { None },
        above: class.above,
        first_method: class.first_method(),
        method_count: class.method_count(),
    })
}

/// The core class of a class, where that of the class above it is known.
fn class_at(
    alloc: Global,
    table: &ClassTable,
    id: ClassId,
    run: Option<MethodId>,
    known: &[CoreClass],
) -> Result<CoreClass, NoMemory>
    requires lined { IsLined (table_data table.now) }
    requires within { id < length (table_data table.now).classes }
    requires run { run ≡ method_number (table_data table.now) id (codes "run") }
    requires above { (d : ℕ) → above_in_table (table_data table.now) id ≡ Some d → option_map kept_class (slice_get known.now d) ≡ part_of_number (table_data table.now) d }
    ensures { IfOk result (λ c. Some (kept_class c) ≡ part_of_number (table_data table.now) id) }
{
    let class = value_of(table.classes(), id);
    let Some(above) = class.above else {
        return core_class(alloc, table, class, run, &[]);
    };
    let above = value_of(known, above);
    core_class(alloc, table, class, run, above.fields.as_slice())
}

/// So many classes with nothing in them.
fn blank(alloc: Global, classes: &[ClassEntry]) -> Result<Vec<CoreClass>, NoMemory>
    ensures { IfOk result (λ all. length all.items ≡ length classes.now) }
{
    let mut all = Vec::new(alloc);
    for _class in classes {
        all.push(CoreClass {
            fields: Vec::new(alloc),
            finals: Vec::new(alloc),
            run: None,
            above: None,
            first_method: MethodId(0),
            method_count: 0,
        })?;
    }
    Ok(all)
}

/// The core classes of a program. In the order each class comes after the one that it extends.
pub(crate) fn core_classes(
    alloc: Global,
    table: &ClassTable,
    order: &[ClassId],
    lineages: &[Lineage],
) -> Result<Vec<CoreClass>, NoMemory>
    requires lined { IsLined (table_data table.now) }
    requires order { IsFromAbove (above_in_table (table_data table.now)) (length (table_data table.now).classes) order.now }
    requires lineages { (c : ℕ) → c < length (table_data table.now).classes → slice_get lineages.now c ≡ Some (lineage_of (table_data table.now) c) }
    ensures { IfOk result (λ all. map kept_class all.items ≡ all_parts (table_data table.now) 0 (table_data table.now).classes) }
{
    let mut all = blank(alloc, table.classes())?;
    for id in order {
        let run = value_of(lineages, *id).run;
        let class = class_at(alloc, table, *id, run, all.as_slice())?;
        put(&mut all, *id, class);
    }
    Ok(all)
}
