//! What a method's body comes to at each part of its relevant paths, in one table.
ghost use Rattle.std.specs.Prelude.{◌≡◌, ◌++◌, [], true, false, filter, length, map, slice_get, IfOk, OnOk};
ghost use Rattle.std.specs.List.{list_all};
ghost use Rattle.algebra.specs.HeldPaths.{has_path};
ghost use Rattle.algebra.specs.Tables.{count_of_parts};
ghost use Rattle.core_program.specs.Views.{program_of, method_of};
ghost use Rattle.rules.specs.Called.{method_calls};
ghost use Rattle.rules.specs.Near.{rel_of};
ghost use Rattle.refutation.specs.Bodies.{BodyFalls, TellsBetween, IsBodyKnown, body_under};
ghost use Rattle.refutation.specs.Ends.{KeptAgrees};
ghost use Rattle.refutation.specs.Passes.{cells_in, subsets_of};
ghost use Rattle.refutation.specs.Tables.{said_by};
ghost use Rattle.refutation.specs.Waiting.{AreBodiesSaid};

use crate::floors::{Floors, Table, consts, table_at};
use crate::judged::Judged;
use crate::overs::are_below;
use crate::said::Said;
use crate::up::body_effect;
use algebra::{Basic, has};
use core_program::CoreMethod;
use effects::{copied, with_path};
use paths::{MethodId, Path};
use std::alloc::{AllocError as NoMemory, Global};

/// A method whose body is looked at, and what is said of those that it calls.
#[derive(Clone, Copy)]
struct Look<'a> {
    judged: &'a Judged<'a>,
    floors: &'a Floors<'a>,
    method: MethodId,
}

/// What a body comes to at two sets, of which the second has the paths of the first.
#[derive(Clone, Copy)]
struct Ends {
    fewest: Basic,
    most: Basic,
}

/// What is known of a method's body before the method is asked. Where it is told, the table has what the body comes to at each part of the
/// relevant paths that has the required ones. Where it is said, so much is said of the method at each of them.
#[derive(Drop)]
pub(crate) struct Bodies {
    pub(crate) table: Table,
    pub(crate) is_told: bool,
    pub(crate) is_said: bool,
}

/// Whether what a method's body comes to stays so while lines of the method are added, and whether it is said.
#[derive(Clone, Copy)]
pub(crate) struct BodyMark {
    pub(crate) stays: bool,
    pub(crate) is_said: bool,
}

/// What the body comes to where these paths are held.
fn body_at(alloc: Global, look: &Look<'_>, held: &[Path]) -> Result<Basic, NoMemory>
    ensures { IfOk result (λ b. b ≡ body_under (program_of look.now.judged.now.program.now) (rel_of look.now.judged.now.sets.now) (said_by (rel_of look.now.floors.now.sets.now) look.now.floors.now.tables.items) look.now.method (has_path held.now)) }
{
    body_effect(
        alloc,
        look.judged.program,
        look.judged.sets,
        look.floors,
        look.method,
        held,
    )
}

/// The paths of two lists.
fn both(alloc: Global, paths: &[Path], others: &[Path]) -> Result<Vec<Path>, NoMemory>
    ensures { IfOk result (λ all. all.items ≡ paths.now ++ others.now) }
{
    let mut all = copied(alloc, paths)?;
    for path in others {
        all.push(path.copy())?;
    }
    Ok(all)
}

/// What the body comes to where these paths and others are held. Where there are no others, that is known.
fn body_with(
    alloc: Global,
    look: &Look<'_>,
    others: &[Path],
    held: &[Path],
    known: Basic,
) -> Result<Basic, NoMemory>
    requires { known ≡ body_under (program_of look.now.judged.now.program.now) (rel_of look.now.judged.now.sets.now) (said_by (rel_of look.now.floors.now.sets.now) look.now.floors.now.tables.items) look.now.method (has_path held.now) }
    ensures { IfOk result (λ b. b ≡ body_under (program_of look.now.judged.now.program.now) (rel_of look.now.judged.now.sets.now) (said_by (rel_of look.now.floors.now.sets.now) look.now.floors.now.tables.items) look.now.method (has_path (others.now ++ held.now))) }
{
    if others.is_empty() {
        return Ok(known);
    }
    let all = both(alloc, others, held)?;
    body_at(alloc, look, all.as_slice())
}

/// What the body comes to where these paths are held. Where there are no others, that is what it comes to with them.
fn body_without(
    alloc: Global,
    look: &Look<'_>,
    others: &[Path],
    held: &[Path],
    known: Basic,
) -> Result<Basic, NoMemory>
    requires { known ≡ body_under (program_of look.now.judged.now.program.now) (rel_of look.now.judged.now.sets.now) (said_by (rel_of look.now.floors.now.sets.now) look.now.floors.now.tables.items) look.now.method (has_path (others.now ++ held.now)) }
    ensures { IfOk result (λ b. b ≡ body_under (program_of look.now.judged.now.program.now) (rel_of look.now.judged.now.sets.now) (said_by (rel_of look.now.floors.now.sets.now) look.now.floors.now.tables.items) look.now.method (has_path held.now)) }
{
    if others.is_empty() {
        return Ok(known);
    }
    body_at(alloc, look, held)
}

/// Writes a basic everywhere.
fn fill(table: &mut [Basic], basic: Basic)
    ensures { table.new ≡ map (λ _. basic) table.old }
{
    for place in table.iter_mut() {
        *place = basic;
    }
}

/// Writes what the body comes to at each set that has the held paths, and beside them only some of the others. Where it comes to as much
/// with them all as with none of them, it does so between.
fn tell_between(
    alloc: Global,
    look: &Look<'_>,
    others: &[Path],
    held: &[Path],
    ends: Ends,
    table: &mut [Basic],
) -> Result<(), NoMemory>
    requires falls { BodyFalls (program_of look.now.judged.now.program.now) (rel_of look.now.judged.now.sets.now) (said_by (rel_of look.now.floors.now.sets.now) look.now.floors.now.tables.items) look.now.method }
    requires size { length table.old ≡ count_of_parts others.now }
    requires fewest { ends.fewest ≡ body_under (program_of look.now.judged.now.program.now) (rel_of look.now.judged.now.sets.now) (said_by (rel_of look.now.floors.now.sets.now) look.now.floors.now.tables.items) look.now.method (has_path held.now) }
    requires most { ends.most ≡ body_under (program_of look.now.judged.now.program.now) (rel_of look.now.judged.now.sets.now) (said_by (rel_of look.now.floors.now.sets.now) look.now.floors.now.tables.items) look.now.method (has_path (others.now ++ held.now)) }
    ensures { OnOk result (TellsBetween (program_of look.now.judged.now.program.now) (rel_of look.now.judged.now.sets.now) (said_by (rel_of look.now.floors.now.sets.now) look.now.floors.now.tables.items) look.now.method others.now held.now table.new) }
{
    let Some((path, behind)) = others.split_first() else {
        fill(table, ends.fewest);
        return Ok(());
    };
    if ends.fewest.below(ends.most) {
        fill(table, ends.fewest);
        return Ok(());
    }
    let middle = table.len() / 2;
    let (without, with) = table.split_at_mut(middle);
    if has(held, path) {
        return tell_between(alloc, look, behind, held, ends, with);
    }
    let most = body_with(alloc, look, behind, held, ends.fewest)?;
    let low = Ends {
        fewest: ends.fewest,
        most,
    };
    tell_between(alloc, look, behind, held, low, without)?;
    let more = with_path(alloc, path, held)?;
    let fewest = body_without(alloc, look, behind, more.as_slice(), ends.most)?;
    let high = Ends {
        fewest,
        most: ends.most,
    };
    tell_between(alloc, look, behind, more.as_slice(), high, with)
}

/// What a method's body comes to at each part of its relevant paths that has its required ones.
fn body_table(alloc: Global, look: &Look<'_>, required: &[Path]) -> Result<Table, NoMemory>
    requires falls { BodyFalls (program_of look.now.judged.now.program.now) (rel_of look.now.judged.now.sets.now) (said_by (rel_of look.now.floors.now.sets.now) look.now.floors.now.tables.items) look.now.method }
    ensures { IfOk result (λ table. TellsBetween (program_of look.now.judged.now.program.now) (rel_of look.now.judged.now.sets.now) (said_by (rel_of look.now.floors.now.sets.now) look.now.floors.now.tables.items) look.now.method (rel_of look.now.floors.now.sets.now look.now.method) required.now table) }
{
    let rel = look.floors.sets.rel(look.method);
    let mut basics = consts(alloc, rel)?;
    let fewest = body_at(alloc, look, required)?;
    let most = body_with(alloc, look, rel, required, fewest)?;
    let ends = Ends { fewest, most };
    tell_between(alloc, look, rel, required, ends, basics.as_mut_slice())?;
    Ok(Table { basics })
}

/// What is known of a method's body before the method is asked: nothing where it doesn't stay so.
pub(crate) fn bodies_of(
    alloc: Global,
    judged: &Judged<'_>,
    said: &Said<'_>,
    id: MethodId,
    method: &CoreMethod,
    mark: BodyMark,
) -> Result<Bodies, NoMemory>
    requires agrees { KeptAgrees (program_of judged.now.program.now) judged.now.sets.now said.now.floors.sets.now said.now.floors.tables.items said.now.lines.items }
    requires stays { mark.stays ≡ true → method_calls (slice_get (program_of judged.now.program.now).methods id) [] id ≡ false }
    requires body { let rel = rel_of judged.now.sets.now in
        mark.is_said ≡ true → AreBodiesSaid (program_of judged.now.program.now) rel (cells_in id (method_of method.now).requires_ (subsets_of (rel id))) said.now.lines.items }
    ensures { let rel = rel_of judged.now.sets.now in IfOk result (λ b.
        IsBodyKnown (program_of judged.now.program.now) rel id (filter (λ held. list_all (has_path held) (method_of method.now).requires_) (subsets_of (rel id))) said.now.lines.items b.table b.is_told b.is_said) }
{
    if !mark.stays || mark.is_said {
        let basics = Vec::new(alloc);
        return Ok(Bodies {
            table: Table { basics },
            is_told: false,
            is_said: mark.stays && mark.is_said,
        });
    }
    let floors = &said.floors;
    let look = Look {
        judged,
        floors,
        method: id,
    };
    let table = body_table(alloc, &look, method.requires_.as_slice())?;
    let its = table_at(floors.tables.as_slice(), id);
    let is_said = are_below(table.basics.as_slice(), its);
    Ok(Bodies {
        table,
        is_told: true,
        is_said,
    })
}
