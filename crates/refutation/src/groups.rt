//! What is said of several methods, in one table for all whose relevant paths stand alike to those of a method that they override.
ghost use Rattle.std.specs.Prelude.{◌≡◌, ◌<◌, ◌≤◌, ◌∷◌, true, List, length, map, slice_get, IfOk, IfSome};
ghost use Rattle.paths.specs.Paths.{PathData};
ghost use Rattle.algebra.specs.Basics.{join_of};
ghost use Rattle.algebra.specs.HeldPaths.{Held, has_path};
ghost use Rattle.algebra.specs.Tables.{count_of_parts};
ghost use Rattle.rules.specs.Near.{rel_of};
ghost use Rattle.rules.specs.Rules.{IsSubset};
ghost use Rattle.rules.specs.Search.{row_at};
ghost use Rattle.refutation.specs.Lines.{joined_over};
ghost use Rattle.refutation.specs.Tables.{said_by, table_entry};
ghost use Rattle.refutation.specs.Overs.{AreOversTold, IsAlike, joined_each, said_in_groups};
ghost use Rattle.refutation.specs.Steps.{entry_along};

use crate::floors::{Table, table_at};
use crate::steps::{Alignment, Step, align, same_steps};
use crate::told::{Sight, behind_known};
use algebra::{Basic, front, half};
use arrayvec::ArrayVec;
use paths::{MethodId, Path};
use std::alloc::{AllocError as NoMemory, Global};

/// So many groups are looked at for the one that a method belongs to. What has other steps than these gets a group of its own.
const GROUPS_LOOKED_AT: usize = 128;

/// The greatest of what is said of some methods, whose relevant paths stand so to those of one that they override.
#[derive(Drop)]
pub(crate) struct Group {
    pub(crate) steps: Alignment,
    pub(crate) table: Table,
}

/// Joins each basic of a table with the one at its place in another.
fn join_each(table: &mut [Basic], other: &[Basic])
    requires { length table.old ≡ length other.now }
    ensures { table.new ≡ joined_each table.old other.now }
{
    for at in 0..table.len() {
        table[at] = table[at].join(other[at]);
    }
}

/// Joins a basic with each of a table.
fn join_all(table: &mut [Basic], found: Basic)
    ensures { table.new ≡ map (λ b. join_of b found) table.old }
{
    for basic in table.iter_mut() {
        *basic = basic.join(found);
    }
}

/// The place of a group with these steps and so many basics, if there is one among those that are looked at.
fn alike(groups: &[Group], steps: &[Step], count: usize) -> Option<usize>
    ensures within { IfSome result (λ at. at < length groups.now) }
    ensures its { IfSome result (λ at. IfSome (slice_get groups.now at) (IsAlike steps.now count)) }
{
    for at in 0..groups.len().min(GROUPS_LOOKED_AT) {
        let group = &groups[at];
        if group.table.basics.len() == count && same_steps(group.steps.as_slice(), steps) {
            return Some(at);
        }
    }
    None
}

/// Joins each basic of another table into a table.
fn join_table(table: &mut Table, other: &[Basic])
    requires { length table.old ≡ length other.now }
    ensures { table.new ≡ joined_each table.old other.now }
{
    join_each(table.basics.as_mut_slice(), other);
}

/// Joins what a table says into the group at a place, which has as many basics.
fn join_at(groups: &mut [Group], at: usize, its: &[Basic])
    requires within { at < length groups.old }
    requires size { IfSome (slice_get groups.old at) (λ g. length g.table ≡ length its.now) }
    ensures { (rel : List PathData) → (H : Held) →
        IfSome (slice_get groups.old at) (λ g. said_in_groups rel groups.new H ≡ join_of (said_in_groups rel groups.old H) (entry_along g.steps.items rel its.now H)) }
{
    let group = &mut groups[at];
    join_table(&mut group.table, its);
}

/// Joins what a table of some paths says into the groups, and says whether it could.
fn join_said(
    alloc: Global,
    rel: &[Path],
    its: &[Path],
    table: &[Basic],
    groups: &mut Vec<Group>,
) -> Result<bool, NoMemory>
    ensures { IfOk result (λ could. could ≡ true → (H : Held) → IsSubset H (has_path rel.now) → said_in_groups rel.now groups.new.items H ≡ join_of (said_in_groups rel.now groups.old.items H) (table_entry its.now table.now H)) }
{
    let mut steps = ArrayVec::new();
    if !align(rel, rel, its, &mut steps) {
        return Ok(false);
    }
    if let Some(at) = alike(groups.as_slice(), steps.as_slice(), table.len()) {
        join_at(groups.as_mut_slice(), at, table);
        return Ok(true);
    }
    let mut basics = Vec::new(alloc);
    basics.extend_from_slice(table)?;
    groups.push(Group {
        steps,
        table: Table { basics },
    })?;
    Ok(true)
}

/// Joins what is said of one method more into the groups, and says whether it could.
fn join_method(
    alloc: Global,
    sight: &Sight<'_>,
    rel: &[Path],
    groups: &mut Vec<Group>,
    method: MethodId,
) -> Result<bool, NoMemory>
    ensures { let all = rel_of sight.now.floors.now.sets.now in
        IfOk result (λ could. could ≡ true → (H : Held) → IsSubset H (has_path rel.now) → said_in_groups rel.now groups.new.items H ≡ join_of (said_in_groups rel.now groups.old.items H) (said_by all sight.now.floors.now.tables.items method H)) }
{
    let table = table_at(sight.floors.tables.as_slice(), method);
    join_said(alloc, rel, sight.floors.sets.rel(method), table, groups)
}

/// Joins what is known of the methods that override one into the groups, and says whether it could.
fn join_known(
    alloc: Global,
    sight: &Sight<'_>,
    rel: &[Path],
    groups: &mut Vec<Group>,
    method: MethodId,
) -> Result<bool, NoMemory>
    ensures { let its = rel_of sight.now.floors.now.sets.now method in
        IfOk result (λ could. could ≡ true → (H : Held) → IsSubset H (has_path rel.now) → said_in_groups rel.now groups.new.items H ≡ join_of (said_in_groups rel.now groups.old.items H) (table_entry its (row_at sight.now.known.now.tables.items method) H)) }
{
    let table = table_at(sight.known.tables.as_slice(), method);
    join_said(alloc, rel, sight.floors.sets.rel(method), table, groups)
}

/// Joins what is said of a method into the groups, and of those behind it that override it, where a table tells it of them all. Gives the
/// others; none where it couldn't.
fn join_front<'a>(
    alloc: Global,
    sight: &Sight<'_>,
    rel: &[Path],
    groups: &mut Vec<Group>,
    method: MethodId,
    behind: &'a [MethodId],
) -> Result<Option<&'a [MethodId]>, NoMemory>
    requires { let all = rel_of sight.now.floors.now.sets.now in
        AreOversTold sight.now.over.now all (said_by all sight.now.floors.now.tables.items) sight.now.known.now.tables.items sight.now.known.now.unknown }
    ensures fewer { IfOk result (λ told. IfSome told (λ left. length left.now ≤ length behind.now)) }
    ensures joined { let all = rel_of sight.now.floors.now.sets.now in let said = said_by all sight.now.floors.now.tables.items in
        IfOk result (λ told. IfSome told (λ left. (H : Held) → IsSubset H (has_path rel.now) →
        join_of (said_in_groups rel.now groups.new.items H) (joined_over all said left.now H) ≡ join_of (said_in_groups rel.now groups.old.items H) (joined_over all said (method ∷ behind.now) H))) }
{
    if !join_method(alloc, sight, rel, groups, method)? {
        return Ok(None);
    }
    let Some(left) = behind_known(sight, rel, method, behind) else {
        return Ok(Some(behind));
    };
    if join_known(alloc, sight, rel, groups, method)? {
        Ok(Some(left))
    } else {
        Ok(None)
    }
}

/// The groups of these methods, for one with these relevant paths; none where they have paths in another order.
pub(crate) fn groups_of(
    alloc: Global,
    sight: &Sight<'_>,
    rel: &[Path],
    methods: &[MethodId],
) -> Result<Option<Vec<Group>>, NoMemory>
    requires { let all = rel_of sight.now.floors.now.sets.now in
        AreOversTold sight.now.over.now all (said_by all sight.now.floors.now.tables.items) sight.now.known.now.tables.items sight.now.known.now.unknown }
    ensures { let all = rel_of sight.now.floors.now.sets.now in
        IfOk result (λ told. IfSome told (λ groups. (H : Held) → IsSubset H (has_path rel.now) → said_in_groups rel.now groups.items H ≡ joined_over all (said_by all sight.now.floors.now.tables.items) methods.now H)) }
{
    let mut groups = Vec::new(alloc);
    let mut rest = methods;
    'methods: while let Some((method, behind)) = rest.split_first() {
        let Some(left) = join_front(alloc, sight, rel, &mut groups, *method, behind)? else {
            return Ok(None);
        };
        rest = left;
    }
    Ok(Some(groups))
}

/// Joins what a table says along some steps into a table of these relevant paths, and says whether it could.
fn join_along(steps: &[Step], rel: &[Path], into: &mut [Basic], from: &[Basic]) -> bool
    requires { length into.old ≡ count_of_parts rel.now }
    ensures { result ≡ true → (H : Held) → table_entry rel.now into.new H ≡ join_of (table_entry rel.now into.old H) (entry_along steps.now rel.now from.now H) }
{
    let Some((step, behind)) = steps.split_first() else {
        join_all(into, front(from));
        return true;
    };
    match step {
        Step::Second => join_along(behind, rel, into, half(from, false)),
        Step::First => {
            let Some((_, rest)) = rel.split_first() else {
                return false;
            };
            let middle = into.len() / 2;
            let (without, with) = into.split_at_mut(middle);
            join_along(behind, rest, without, from) && join_along(behind, rest, with, from)
        }
        Step::Both => {
            let Some((_, rest)) = rel.split_first() else {
                return false;
            };
            let middle = into.len() / 2;
            let (without, with) = into.split_at_mut(middle);
            join_along(behind, rest, without, half(from, false))
                && join_along(behind, rest, with, half(from, true))
        }
    }
}

/// Joins what the groups say into a table of these relevant paths, and says whether it could.
pub(crate) fn join_groups(groups: &[Group], rel: &[Path], table: &mut [Basic]) -> bool
    requires { length table.old ≡ count_of_parts rel.now }
    ensures { result ≡ true → (H : Held) → table_entry rel.now table.new H ≡ join_of (table_entry rel.now table.old H) (said_in_groups rel.now groups.now H) }
{
    let Some((group, others)) = groups.split_first() else {
        return true;
    };
    let its = group.table.basics.as_slice();
    join_along(group.steps.as_slice(), rel, table, its) && join_groups(others, rel, table)
}
