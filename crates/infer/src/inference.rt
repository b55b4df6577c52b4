//! The least closed assignment, as values of an algebra.
ghost use Rattle.std.specs.Prelude.{◌≡◌, ◌++◌, ◌≤◌, ◌^◌, List, [], length, IfOk, OnOk};
ghost use Rattle.paths.specs.Paths.{PathData};
ghost use Rattle.algebra.specs.declared.basic.Basic.TheVariants.{Const};
ghost use Rattle.algebra.specs.Values.{Keeps};
ghost use Rattle.core_program.specs.Typed.{IsTyped};
ghost use Rattle.core_program.specs.Views.{program_of};
ghost use Rattle.rules.specs.Near.{AreRelevant, rel_of};
ghost use Rattle.infer.specs.Tables.{table_assignment};
ghost use Rattle.infer.specs.Cells.{at_parts, tables_in, all_const};
ghost use Rattle.infer.specs.Least.{IsLeast};
ghost use Rattle.infer.specs.Verdicts.{AreKnown, assignment_of};

use crate::bounds::Inferred;
use crate::cells::{Cells, settle};
use crate::judged::Judged;
use crate::rows::repeat_from;
use crate::table::{Table, value_of};
use algebra::{Algebra, Basic};
use core_program::CoreProgram;
use paths::{MethodId, Path};
use rules::{RelevantSets, callers_of, nearest_overriders};
use std::alloc::{AllocError as NoMemory, Global};

/// How often the table of a method can rise: four times at each part of eight relevant paths.
const MOST_RISES: u64 = 1024;

/// The least closed assignment of a typed program: the value of each method at every set of held paths.
pub fn infer<G: Algebra>(
    alloc: Global,
    program: &CoreProgram,
    sets: &RelevantSets,
    algebra: &mut G,
) -> Result<Inferred<G::A>, NoMemory>
    requires count { length (program_of program.now).methods ≤ 2 ^ 32 }
    requires relevant { AreRelevant (program_of program.now) sets.now }
    ensures count { IfOk result (λ inferred. length inferred.methods.items ≡ length (program_of program.now).methods) }
    ensures known { IfOk result (λ inferred. AreKnown G.IsKnown algebra.new inferred.methods.items) }
    ensures least { IfOk result (λ inferred. IsTyped (program_of program.now) →
        IsLeast (program_of program.now) (rel_of sets.now) (assignment_of G.value algebra.new inferred.methods.items)) }

    // Values that the algebra knew it knows still, as they were, also where memory is wanting.
    ensures keeps { Keeps G.IsKnown G.value algebra.old algebra.new }
{
    let tables = least_tables(alloc, program, sets, algebra)?;
    let methods = values_of(alloc, sets, tables.as_slice(), algebra)?;
    Ok(Inferred { methods })
}

/// The tables of the least closed assignment. Each begins with const everywhere, and rises while calls of its method
/// demand more of it.
fn least_tables<'a, G: Algebra>(
    alloc: Global,
    program: &'a CoreProgram,
    sets: &'a RelevantSets,
    algebra: &mut G,
) -> Result<Vec<Table>, NoMemory>
    requires count { length (program_of program.now).methods ≤ 2 ^ 32 }
    requires relevant { AreRelevant (program_of program.now) sets.now }
    ensures count { IfOk result (λ tables. length tables.items ≡ length (program_of program.now).methods) }
    ensures least { IfOk result (λ tables. IsTyped (program_of program.now) →
        IsLeast (program_of program.now) (rel_of sets.now) (table_assignment (rel_of sets.now) tables.items)) }
    ensures keeps { Keeps G.IsKnown G.value algebra.old algebra.new }
{
    // Only the proof needs this: no method has too many paths.
    sets.few();
    let tables = const_tables(alloc, sets, program.methods().len())?;
    let count = tables.len();
    let room = MOST_RISES * count as u64;
    let over = nearest_overriders(alloc, program)?;
    let callers = callers_of(alloc, program, &over)?;
    let mut cells = Cells {
        judged: Judged { program, sets },
        algebra,
        tables,
        room,
        over,
        callers,
    };
    let done = settle(alloc, &mut cells);
    // Only the proof needs that the struct is taken apart whole and the algebra is read: so it is told what is left behind
    // the reference.
    let Cells {
        judged: _judged,
        algebra,
        tables,
        over: _over,
        callers: _callers,
        ..
    } = cells;
    let _ = &*algebra;
    done?;
    Ok(tables)
}

/// The tables of so many methods with const everywhere.
fn const_tables(alloc: Global, sets: &RelevantSets, count: usize) -> Result<Vec<Table>, NoMemory>
    requires { count ≤ 2 ^ 32 }
    ensures { IfOk result (λ tables. tables.items ≡ tables_in (rel_of sets.now) all_const 0 count) }
{
    let mut tables = Vec::new(alloc);
    for method in 0..count {
        tables.push(const_table(alloc, sets.rel(MethodId(method as u32)))?)?;
    }
    Ok(tables)
}

/// A table with const at each part of these paths.
fn const_table(alloc: Global, paths: &[Path]) -> Result<Table, NoMemory>
    ensures { IfOk result (λ table. table ≡ at_parts (λ qs. Const) [] paths.now) }
{
    let mut basics = Vec::new(alloc);
    put_consts(paths, &mut basics)?;
    Ok(Table { basics })
}

/// Adds const for each part of these paths.
fn put_consts(paths: &[Path], basics: &mut Vec<Basic>) -> Result<(), NoMemory>
    ensures { OnOk result ((held : List PathData) → basics.new.items ≡ basics.old.items ++ at_parts (λ qs. Const) held paths.now) }
{
    let Some((_, rest)) = paths.split_first() else {
        basics.push(Basic::Const)?;
        return Ok(());
    };
    let first = basics.len();
    put_consts(rest, basics)?;
    repeat_from(basics, first)
}

/// The values of tables, method by method.
fn values_of<G: Algebra>(
    alloc: Global,
    sets: &RelevantSets,
    tables: &[Table],
    algebra: &mut G,
) -> Result<Vec<G::A>, NoMemory>
    requires { length tables.now ≤ 2 ^ 32 }
    ensures count { IfOk result (λ values. length values.items ≡ length tables.now) }
    ensures known { IfOk result (λ values. AreKnown G.IsKnown algebra.new values.items) }
    ensures same { IfOk result (λ values. assignment_of G.value algebra.new values.items ≡ table_assignment (rel_of sets.now) tables.now) }
    ensures keeps { Keeps G.IsKnown G.value algebra.old algebra.new }
{
    let mut values = Vec::new(alloc);
    for method in 0..tables.len() {
        values.push(value_of(alloc, sets, tables, algebra, MethodId(method as u32))?)?;
    }
    Ok(values)
}
