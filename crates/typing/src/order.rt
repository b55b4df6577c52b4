//! Classes in an order in which each comes after the one that it extends.

ghost use Rattle.std.specs.Prelude.{◌≡◌, ◌<◌, ◌++◌, ◌∷◌, [], ℕ, Option, None, false, true, length, replicate, reverse, IfOk, OnOk};
ghost use Rattle.classes.specs.Table.{above_in_table};
ghost use Rattle.classes.specs.Views.{table_data};
ghost use Rattle.typing.specs.Order.{IsClimb, IsFromAbove, IsLined, IsAncestorOrder, is_marked, stands_in};

use crate::columns::put;
use crate::members::next_number;
use classes::ClassTable;
use paths::ClassId;
use std::alloc::{AllocError as NoMemory, Global};

fn is_marked(marks: &[bool], class: ClassId) -> bool
    ensures { result ≡ is_marked marks.now class }
{
    match marks.get(class.0 as usize) {
        Some(mark) => *mark,
        None => false,
    }
}

/// The class and those above it, up to the first that is marked, the nearest first.
fn climb(
    alloc: Global,
    table: &ClassTable,
    class: ClassId,
    marks: &[bool],
) -> Result<Vec<ClassId>, NoMemory>
    requires lined { IsLined (table_data table.now) }
    requires within { class < length (table_data table.now).classes }
    ensures climb { IfOk result (λ line. IsClimb (above_in_table (table_data table.now)) (is_marked marks.now) class line.items) }
{
    let mut line = Vec::new(alloc);
    let mut next = Some(class);
    while let Some(at) = next {
        if is_marked(marks, at) {
            return Ok(line);
        }
        line.push(at)?;
        next = table.above(at);
    }
    Ok(line)
}

/// Puts these classes into the order, the last one first, and marks them.
fn put_line(
    line: Vec<ClassId>,
    marks: &mut Vec<bool>,
    order: &mut Vec<ClassId>,
) -> Result<(), NoMemory>
    requires within { (c : ℕ) → stands_in line.items c ≡ true → c < length marks.old.items }
    ensures ordered { OnOk result ((above : ℕ → Option ℕ) (count class : ℕ) → IsAncestorOrder above count marks.old.items order.old.items
        → IsClimb above (stands_in order.old.items) class line.items → IsAncestorOrder above count marks.new.items order.new.items) }
    ensures order { OnOk result (order.new.items ≡ order.old.items ++ reverse line.items) }
{
    let mut line = line;
    while let Some(last) = line.pop() {
        order.push(last)?;
        put(marks, last, true);
    }
    Ok(())
}

/// Puts a class that extends none into the order.
fn put_top(class: ClassId, marks: &mut Vec<bool>, order: &mut Vec<ClassId>) -> Result<(), NoMemory>
    requires within { class < length marks.old.items }
    ensures ordered { OnOk result ((above : ℕ → Option ℕ) (count : ℕ) → above class ≡ None → IsAncestorOrder above count marks.old.items order.old.items
        → IsAncestorOrder above count marks.new.items order.new.items) }
    ensures order { OnOk result (order.new.items ≡ order.old.items ++ class ∷ []) }
{
    order.push(class)?;
    put(marks, class, true);
    Ok(())
}

/// Puts a class into the order, after those above it that it doesn't have yet.
fn put_heir(
    alloc: Global,
    table: &ClassTable,
    class: ClassId,
    marks: &mut Vec<bool>,
    order: &mut Vec<ClassId>,
) -> Result<(), NoMemory>
    requires lined { IsLined (table_data table.now) }
    requires within { class < length (table_data table.now).classes }
    requires ordered { IsAncestorOrder (above_in_table (table_data table.now)) (length (table_data table.now).classes) marks.old.items order.old.items }
    ensures ordered { OnOk result (IsAncestorOrder (above_in_table (table_data table.now)) (length (table_data table.now).classes) marks.new.items order.new.items) }
    ensures class { OnOk result (stands_in order.new.items class ≡ true) }
    ensures others { OnOk result ((c : ℕ) → stands_in order.old.items c ≡ true → stands_in order.new.items c ≡ true) }
{
    let line = climb(alloc, table, class, marks.as_slice())?;
    put_line(line, marks, order)
}

/// Puts a class into the order, after those above it, unless the order has it.
fn put_class(
    alloc: Global,
    table: &ClassTable,
    class: ClassId,
    marks: &mut Vec<bool>,
    order: &mut Vec<ClassId>,
) -> Result<(), NoMemory>
    requires lined { IsLined (table_data table.now) }
    requires within { class < length (table_data table.now).classes }
    requires ordered { IsAncestorOrder (above_in_table (table_data table.now)) (length (table_data table.now).classes) marks.old.items order.old.items }
    ensures ordered { OnOk result (IsAncestorOrder (above_in_table (table_data table.now)) (length (table_data table.now).classes) marks.new.items order.new.items) }
    ensures class { OnOk result (stands_in order.new.items class ≡ true) }
    ensures others { OnOk result ((c : ℕ) → stands_in order.old.items c ≡ true → stands_in order.new.items c ≡ true) }
{
    if is_marked(marks.as_slice(), class) {
        return Ok(());
    }
    match table.above(class) {
        Some(_) => put_heir(alloc, table, class, marks, order),
        None => put_top(class, marks, order),
    }
}

/// As many marks, none of them put.
fn no_marks(alloc: Global, count: usize) -> Result<Vec<bool>, NoMemory>
    ensures { IfOk result (λ marks. marks.items ≡ replicate count false) }
{
    let mut marks = Vec::new(alloc);
    marks.resize(count, false)?;
    Ok(marks)
}

/// All classes, each after the one that it extends.
pub(crate) fn from_above(alloc: Global, table: &ClassTable) -> Result<Vec<ClassId>, NoMemory>
    requires lined { IsLined (table_data table.now) }
    ensures { IfOk result (λ order. IsFromAbove (above_in_table (table_data table.now)) (length (table_data table.now).classes) order.items) }
{
    let classes = table.classes();
    let mut marks = no_marks(alloc, classes.len())?;
    let mut order = Vec::new(alloc);
    let mut number = 0;
    for _class in classes {
        put_class(alloc, table, ClassId(number), &mut marks, &mut order)?;
        number = next_number(number)?;
    }
    Ok(order)
}
