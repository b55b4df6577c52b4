//! The lines of explanations.

ghost use Rattle.std.specs.Prelude.{◌≡◌, ◌++◌, ◌<◌, ◌≤◌, ◌^◌, ℕ, List, IfOk, OnOk, length, map, slice_get, string_bytes};
ghost use Rattle.classes.specs.Views.{table_data};
ghost use Rattle.core_program.specs.Views.{program_of};
ghost use Rattle.explain_commands.specs.Answers.{Explains, ExplainsAndWarns};
ghost use Rattle.explain_text.specs.ArrangementViews.{arranged_data};
ghost use Rattle.explain_commands.specs.Orders.{AreExplained, bounds_for, explanations_for};
ghost use Rattle.explain_commands.specs.Explained.{AreTexts, AreAmongMethods, IsMethodText, aliases_at, page_of, told_of};
ghost use Rattle.explain.specs.Views.{explained_data};
ghost use Rattle.rules.specs.Near.{rel_of};
ghost use Rattle.rules.specs.Search.{row_at};
ghost use Rattle.syntax.specs.Views.{member_of};

use crate::told::Told;
use crate::warning::add_warnings;
use crate::words::Order;
use core_program::CoreProgram;
use effects::Assigned;
use explain::{
    Alias, Bounds, Explained, FinalFields, Ground, Walk, aliases, explanations, find_grounds,
    fitting, strict_explanations,
};
use explain_text::{Arranged, Page, arrange, write_arranged};
use paths::MethodId;
use places::{method_places, slot_names};
use rules::{OverridingMethods, overriders};
use std::alloc::{AllocError as NoMemory, Global};

/// The final locals of a method's body that have paths; none of a method that isn't there.
fn aliases_of(
    alloc: Global,
    program: &CoreProgram,
    method: MethodId,
) -> Result<Vec<Alias>, NoMemory>
    ensures { IfOk result (λ known. known.items ≡ aliases_at (program_of program.now) (slice_get (program_of program.now).methods method)) }
{
    match program.methods().get(method.0 as usize) {
        Some(method) => aliases(alloc, program, &method.body),
        None => Ok(Vec::new(alloc)),
    }
}

/// Adds the lines of a method, and how many more are errors for the same one.
fn add_block<A: Assigned>(
    told: &Told<'_, '_, '_>,
    walk: &Walk<'_, A>,
    finals: &mut FinalFields<'_>,
    over: &OverridingMethods,
    x: &Arranged<'_>,
    text: &mut String,
) -> Result<(), NoMemory>
    requires there { x.now.told.method < length told.now.methods.now.items }
    requires finals { finals.old ≡ walk.now.program.now }
    ensures kept { finals.new ≡ finals.old }
    ensures lines { OnOk result ((lines : List ℕ) × (string_bytes text.new ≡ string_bytes text.old ++ lines)
        × IsMethodText (program_of walk.now.program.now) (rel_of walk.now.sets.now) (A.Assigned.assigned walk.now.assigned.now)
        (page_of told.now.file.now told.now.index.now (table_data told.now.source.now.table) (map (λ m. member_of m.now) told.now.methods.now.items))
        (row_at over.now) (arranged_data x.now) lines) }
{
    let found = &x.told;
    let member = told.methods[found.method.0 as usize];
    let known = aliases_of(walk.alloc, walk.program, found.method)?;
    let lack = fitting(
        walk.alloc,
        finals,
        walk.sets,
        walk.assigned,
        known.as_slice(),
        &x.told,
    )?;
    let offsets = method_places(walk.alloc, member)?;
    let slots = slot_names(walk.alloc, member)?;
    let page = Page {
        file: told.file,
        index: told.index,
        table: &told.source.table,
        slots: &slots,
        offsets: offsets.as_slice(),
        fitting: lack,
    };
    write_arranged(text, &page, walk, over, known.as_slice(), x)
}

/// The lines of these methods, one after the other.
fn lines_of<A: Assigned>(
    told: &Told<'_, '_, '_>,
    walk: &Walk<'_, A>,
    over: &OverridingMethods,
    all: &[Arranged<'_>],
) -> Result<String, NoMemory>
    requires { AreAmongMethods (length told.now.methods.now.items) (told_of (map arranged_data all.now)) }
    ensures { IfOk result (λ text. AreTexts (program_of walk.now.program.now) (rel_of walk.now.sets.now) (A.Assigned.assigned walk.now.assigned.now)
        (page_of told.now.file.now told.now.index.now (table_data told.now.source.now.table) (map (λ m. member_of m.now) told.now.methods.now.items))
        (row_at over.now) (map arranged_data all.now) (string_bytes text)) }
{
    let mut text = String::new(walk.alloc);
    if all.is_empty() {
        return Ok(text);
    }
    let mut finals = FinalFields::of(walk.alloc, walk.program)?;
    for x in all {
        add_block(told, walk, &mut finals, over, x, &mut text)?;
    }
    Ok(text)
}

/// Which bounds are asked for.
fn bounds_for(order: Order) -> Bounds
    ensures { result ≡ bounds_for order }
{
    match order {
        Order::Why => Bounds::Declared,
        Order::All => Bounds::Declared,
        Order::Strict => Bounds::Strict,
    }
}

/// The explanations that are asked for.
fn explanations_for<'p, A: Assigned>(
    order: Order,
    walk: &Walk<'p, A>,
    over: &OverridingMethods,
    grounds: &[Ground],
) -> Result<Vec<Explained<'p>>, NoMemory>
    requires { length (program_of walk.now.program.now).methods ≤ 2 ^ 32 }
    ensures { IfOk result (λ all. map explained_data all.items ≡ explanations_for order (program_of walk.now.program.now) (rel_of walk.now.sets.now) (A.Assigned.assigned walk.now.assigned.now) (row_at over.now) grounds.now) }
{
    match order {
        Order::Why => explanations(walk, over, grounds),
        Order::All => explanations(walk, over, grounds),
        Order::Strict => strict_explanations(walk, over, grounds),
    }
}

/// The explanations that are asked for, by ranks of all methods.
fn all_for<'p, A: Assigned>(
    order: Order,
    walk: &Walk<'p, A>,
    over: &OverridingMethods,
) -> Result<Vec<Explained<'p>>, NoMemory>
    requires { length (program_of walk.now.program.now).methods ≤ 2 ^ 32 }
    ensures { IfOk result (λ all. AreExplained order (program_of walk.now.program.now) (rel_of walk.now.sets.now) (A.Assigned.assigned walk.now.assigned.now) (row_at over.now) (map explained_data all.items)) }
{
    let grounds = find_grounds(walk, over, bounds_for(order))?;
    let all = explanations_for(order, walk, over, grounds.as_slice())?;
    Ok(all)
}

/// The explanations of the methods that break their bounds.
pub(crate) fn explained<A: Assigned>(
    order: Order,
    told: &Told<'_, '_, '_>,
    walk: &Walk<'_, A>,
) -> Result<String, NoMemory>
    requires there { length (program_of walk.now.program.now).methods ≤ length told.now.methods.now.items }
    requires few { length (program_of walk.now.program.now).methods ≤ 2 ^ 32 }
    ensures { IfOk result (λ text. Explains order (program_of walk.now.program.now) (rel_of walk.now.sets.now) (A.Assigned.assigned walk.now.assigned.now)
        (page_of told.now.file.now told.now.index.now (table_data told.now.source.now.table) (map (λ m. member_of m.now) told.now.methods.now.items)) (string_bytes text)) }
{
    let over = overriders(walk.alloc, walk.program)?;
    let all = all_for(order, walk, &over)?;
    let arranged = arrange(walk, all)?;
    lines_of(told, walk, &over, arranged.as_slice())
}

/// The explanations of the methods that break their bounds where each counts as `atomic`, and a warning for each field that nothing guards
/// and that is written.
pub(crate) fn explained_with_warnings<A: Assigned>(
    told: &Told<'_, '_, '_>,
    walk: &Walk<'_, A>,
) -> Result<String, NoMemory>
    requires there { length (program_of walk.now.program.now).methods ≤ length told.now.methods.now.items }
    requires few { length (program_of walk.now.program.now).methods ≤ 2 ^ 32 }
    ensures { IfOk result (λ text. ExplainsAndWarns (program_of walk.now.program.now) (rel_of walk.now.sets.now) (A.Assigned.assigned walk.now.assigned.now)
        (page_of told.now.file.now told.now.index.now (table_data told.now.source.now.table) (map (λ m. member_of m.now) told.now.methods.now.items)) (string_bytes text)) }
{
    let mut text = explained(Order::Strict, told, walk)?;
    add_warnings(told, walk, &mut text)?;
    Ok(text)
}
