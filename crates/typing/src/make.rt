//! The core program of a program, or its first type fault.

ghost use Rattle.std.specs.Prelude.{◌≡◌, ◌≤◌, ◌<◌, ◌⊎◌, ℕ, List, [], Some, length, map, option_map, slice_get, IfOk, IfSome, MatchResult};
ghost use Rattle.classes.specs.Faults as classes;
ghost use Rattle.classes.specs.Table.{above_in_table, table_of};
ghost use Rattle.classes.specs.Views.{table_data};
ghost use Rattle.core_program.specs.Core.{Program as CoreData};
ghost use Rattle.core_program.specs.Typed.{IsTyped};
ghost use Rattle.core_program.specs.Views as core;
ghost use Rattle.lexer.specs.declared.tokens.Token.{Token};
ghost use Rattle.syntax.specs.Grammar.{Grammar};
ghost use Rattle.syntax.specs.Limits.{most_tokens};
ghost use Rattle.syntax.specs.Views.{program_tree};
ghost use Rattle.typing.specs.declared.fault.TypeFault.{TypeFault};
ghost use Rattle.typing.specs.declared.fault.TypeFault.TheVariants.{NoMemory as OutOfMemory};
ghost use Rattle.typing.specs.Lineages.{lineage_of};
ghost use Rattle.typing.specs.Order.{IsFromAbove, IsLined};
ghost use Rattle.typing.specs.Programs.{IsFirstTypeFault, IsCoreOf, main_class, main_method, program_node};
ghost use Rattle.typing.specs.Rulings.{both};
ghost use Rattle.typing.specs.BodyViews.{fields_data, methods_data};

use crate::class_bodies::core_classes;
use crate::fault::TypeFault;
use crate::first::FirstFault;
use crate::lineage::{Lineage, lineages};
use crate::members::{Members, parts_of};
use crate::numbers::name_numbers;
use crate::order::from_above;
use classes::ClassTable;
use core_program::{CoreField, CoreMethod, CoreProgram};
use paths::{ClassId, MethodId};
use std::alloc::{AllocError as NoMemory, Global};
use syntax::Program;

fn main_class(table: &ClassTable) -> ClassId
    ensures { result ≡ main_class (table_data table.now) }
{
    table.class_named("Main").unwrap_or(ClassId(0))
}

fn main_method(table: &ClassTable, class: ClassId) -> MethodId
    ensures { class ≡ main_class (table_data table.now) → result ≡ main_method (table_data table.now) }
{
    table.method_named(class, "main").unwrap_or(MethodId(0))
}

/// The core program with these fields and methods. In the order each class comes after the one that it extends.
fn core_program(
    alloc: Global,
    table: &ClassTable,
    order: &[ClassId],
    lineages: &[Lineage],
    fields: Vec<CoreField>,
    methods: Vec<CoreMethod>,
) -> Result<CoreProgram, NoMemory>
    requires lined { IsLined (table_data table.now) }
    requires order { IsFromAbove (above_in_table (table_data table.now)) (length (table_data table.now).classes) order.now }
    requires lineages { (c : ℕ) → c < length (table_data table.now).classes → slice_get lineages.now c ≡ Some (lineage_of (table_data table.now) c) }
    requires owned { map (λ m. m.class) methods.items ≡ map (λ m. m.class) (table_data table.now).methods }
    ensures { IfOk result (λ p. core.program_of p ≡ program_node (table_data table.now) (map core.field_of fields.items, map core.method_of methods.items)) }
{
    let names = name_numbers(alloc, table)?;
    let classes = core_classes(alloc, table, order, lineages)?;
    let main_class = main_class(table);
    let main = main_method(table, main_class);
    Ok(CoreProgram {
        classes,
        fields,
        methods,
        names,
        main_class,
        main,
    })
}

/// The core program of these parts, none of which is missing.
fn assembled(
    alloc: Global,
    table: &ClassTable,
    order: &[ClassId],
    lineages: &[Lineage],
    parts: Members,
) -> Result<CoreProgram, NoMemory>
    requires lined { IsLined (table_data table.now) }
    requires order { IsFromAbove (above_in_table (table_data table.now)) (length (table_data table.now).classes) order.now }
    requires lineages { (c : ℕ) → c < length (table_data table.now).classes → slice_get lineages.now c ≡ Some (lineage_of (table_data table.now) c) }
    requires owned { IfSome (methods_data parts) (λ ms. map (λ m. m.class) ms ≡ map (λ m. m.class) (table_data table.now).methods) }
    requires whole { (P : CoreData) × (option_map (program_node (table_data table.now)) (both (fields_data parts) (methods_data parts)) ≡ Some P) }
    ensures { IfOk result (λ p. Some (core.program_of p) ≡ option_map (program_node (table_data table.now)) (both (fields_data parts) (methods_data parts))) }
{
    let Members {
        alloc: _,
        fields,
        methods,
        next_field: _,
        next_method: _,
    } = parts;
    let fields = fields.all().unwrap();
    let methods = methods.all().unwrap();
    core_program(alloc, table, order, lineages, fields, methods)
}

fn core_or_fault(
    alloc: Global,
    table: &ClassTable,
    program: &Program,
) -> Result<CoreProgram, TypeFault>
    requires no_class_faults { classes.all_class_faults (program_tree program.now) ≡ [] }
    requires table { table_data table.now ≡ table_of (program_tree program.now) }
    ensures { MatchResult result (λ p. IsCoreOf (program_tree program.now) (core.program_of p)) (λ e. (e ≡ OutOfMemory) ⊎ IsFirstTypeFault (program_tree program.now) e) }
{
    let order = from_above(alloc, table)?;
    let lineages = lineages(alloc, table, order.as_slice())?;
    let classes = program.classes.as_slice();
    let mut first = FirstFault::new();
    let parts = parts_of(alloc, table, lineages.as_slice(), classes, &mut first)?;
    match first.found {
        Some(fault) => Err(fault),
        None => Ok(assembled(alloc, table, order.as_slice(), lineages.as_slice(), parts)?),
    }
}

/// The core program of a program without class faults, or its first type fault: the one with the least offset, at one
/// offset the one that `TypeFault` lists first. `table` is the program's class table.
pub fn elaborate(
    alloc: Global,
    table: &ClassTable,
    program: &Program,
) -> Result<CoreProgram, TypeFault>
    requires no_class_faults { classes.all_class_faults (program_tree program.now) ≡ [] }
    requires table { table_data table.now ≡ table_of (program_tree program.now) }
    ensures exact { MatchResult result (λ p. IsCoreOf (program_tree program.now) (core.program_of p)) (λ e. (e ≡ OutOfMemory) ⊎ IsFirstTypeFault (program_tree program.now) e) }
    ensures core_given { (P : CoreData) → IsCoreOf (program_tree program.now) P → MatchResult result (λ p. core.program_of p ≡ P) (λ e. e ≡ OutOfMemory) }
    ensures fault_given { (f : TypeFault) → IsFirstTypeFault (program_tree program.now) f → MatchResult result (λ _. ⊥) (λ e. (e ≡ f) ⊎ (e ≡ OutOfMemory)) }
    ensures typed { (ts : List Token) → length ts ≤ most_tokens → Grammar ts (program_tree program.now) → IfOk result (λ p. IsTyped (core.program_of p)) }
{
    core_or_fault(alloc, table, program)
}
