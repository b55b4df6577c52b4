//! What is said of all methods that override one, in one table.
ghost use Rattle.std.specs.Prelude.{◌≡◌, ◌&&◌, true, List, length, IfOk, OnOk};
ghost use Rattle.algebra.specs.Basics.{below_of};
ghost use Rattle.algebra.specs.HeldPaths.{has_path};
ghost use Rattle.core_program.specs.Views.{program_of};
ghost use Rattle.rules.specs.Near.{rel_of};
ghost use Rattle.rules.specs.Overriding.{AreOverriders};
ghost use Rattle.rules.specs.Search.{row_at};
ghost use Rattle.refutation.specs.Lines.{LineData, floor};
ghost use Rattle.refutation.specs.Tables.{TablesSay, said_by, table_entry};
ghost use Rattle.refutation.specs.Overs.{AreOversTold, IsSaidOver, TellsOver, SaysNoMore, below_each};

use crate::ask::said_at_most;
use crate::floors::{Floors, Table, consts, entry, table_at};
use crate::groups::{groups_of, join_groups};
use crate::judged::Judged;
use crate::steps::{align, is_within};
use crate::told::{OverTables, Sight, after};
use algebra::Basic;
use arrayvec::ArrayVec;
use effects::{Assigned, has_all};
use paths::{MethodId, Path};
use std::alloc::{AllocError as NoMemory, Global};

/// What is said of the methods that override one. Where the table is whole, it has the greatest at each part of the method's relevant
/// paths. Nothing that is said of them passes `most`.
#[derive(Drop)]
pub(crate) struct OverSaid {
    pub(crate) method: MethodId,
    pub(crate) table: Table,
    pub(crate) whole: bool,
    pub(crate) most: Basic,
}

/// The greatest of what is said of all methods that override one, at each part of its relevant paths, where the table is whole.
#[derive(Drop)]
pub(crate) struct OverTable {
    pub(crate) method: MethodId,
    pub(crate) table: Table,
    pub(crate) whole: bool,
}

/// The table of what is said of the methods that override one.
pub(crate) fn over_table(
    alloc: Global,
    judged: &Judged<'_>,
    floors: &Floors<'_>,
    known: &OverTables,
    method: MethodId,
) -> Result<OverTable, NoMemory>
    requires over { AreOverriders (program_of judged.now.program.now) judged.now.over.now }
    requires known { let rel = rel_of floors.now.sets.now in
        AreOversTold judged.now.over.now rel (said_by rel floors.now.tables.items) known.now.tables.items known.now.unknown }
    ensures its { IfOk result (λ o. o.method ≡ method) }
    ensures tells { let rel = rel_of floors.now.sets.now in
        IfOk result (λ o. TellsOver (program_of judged.now.program.now) rel (said_by rel floors.now.tables.items) method o.table o.whole) }
{
    let rel = floors.sets.rel(method);
    let mut basics = consts(alloc, rel)?;
    let sight = Sight {
        floors,
        over: judged.over,
        known,
    };
    let Some(groups) = groups_of(alloc, &sight, rel, judged.over.of(method))? else {
        return Ok(OverTable {
            method,
            table: Table { basics },
            whole: false,
        });
    };
    let whole = join_groups(groups.as_slice(), rel, basics.as_mut_slice());
    Ok(OverTable {
        method,
        table: Table { basics },
        whole,
    })
}

/// Makes the table of a method, and keeps it where it is whole.
fn learn(
    alloc: Global,
    judged: &Judged<'_>,
    floors: &Floors<'_>,
    known: &mut OverTables,
    method: MethodId,
) -> Result<(), NoMemory>
    requires over { AreOverriders (program_of judged.now.program.now) judged.now.over.now }
    requires known { let rel = rel_of floors.now.sets.now in
        AreOversTold judged.now.over.now rel (said_by rel floors.now.tables.items) known.old.tables.items known.old.unknown }
    ensures size { length known.new.unknown ≡ length known.old.unknown }
    ensures known { let rel = rel_of floors.now.sets.now in
        OnOk result (AreOversTold judged.now.over.now rel (said_by rel floors.now.tables.items) known.new.tables.items known.new.unknown) }
{
    let made = over_table(alloc, judged, floors, known, method)?;
    if made.whole {
        known.keep(method, made.table);
    }
    Ok(())
}

/// The method at a place of those that override one, where others override it and its table is unknown.
fn unknown_at(
    judged: &Judged<'_>,
    known: &OverTables,
    method: MethodId,
    place: usize,
) -> Option<MethodId> {
    let under = *judged.over.of(method).get(place)?;
    if known.is_known(under) || judged.over.of(under).is_empty() {
        return None;
    }
    Some(under)
}

/// Whether the table of the method at a place of those that override one tells of all relevant paths of that one, and the methods that
/// override it stand right behind it.
fn is_wanted(
    judged: &Judged<'_>,
    floors: &Floors<'_>,
    method: MethodId,
    place: usize,
    under: MethodId,
) -> bool {
    let methods = judged.over.of(method);
    if place >= methods.len() {
        return false;
    }
    let (_, behind) = methods.split_at(place + 1);
    has_all(floors.sets.rel(under), floors.sets.rel(method))
        && after(behind, judged.over.of(under)).is_some()
}

/// Makes the table of the method at a place of those that override one, where it is to be made.
fn learn_at(
    alloc: Global,
    judged: &Judged<'_>,
    floors: &Floors<'_>,
    known: &mut OverTables,
    method: MethodId,
    place: usize,
) -> Result<(), NoMemory>
    requires over { AreOverriders (program_of judged.now.program.now) judged.now.over.now }
    requires known { let rel = rel_of floors.now.sets.now in
        AreOversTold judged.now.over.now rel (said_by rel floors.now.tables.items) known.old.tables.items known.old.unknown }
    ensures size { length known.new.unknown ≡ length known.old.unknown }
    ensures known { let rel = rel_of floors.now.sets.now in
        OnOk result (AreOversTold judged.now.over.now rel (said_by rel floors.now.tables.items) known.new.tables.items known.new.unknown) }
{
    let Some(under) = unknown_at(judged, known, method, place) else {
        return Ok(());
    };
    known.left = known.left.saturating_sub(judged.over.of(under).len());
    if is_wanted(judged, floors, method, place, under) {
        learn(alloc, judged, floors, known, under)
    } else {
        Ok(())
    }
}

/// Makes the tables of the methods that override one, as far as they are wanted. The last one is the first: those that override a method
/// stand behind it.
fn learn_below(
    alloc: Global,
    judged: &Judged<'_>,
    floors: &Floors<'_>,
    known: &mut OverTables,
    method: MethodId,
) -> Result<(), NoMemory>
    requires over { AreOverriders (program_of judged.now.program.now) judged.now.over.now }
    requires known { let rel = rel_of floors.now.sets.now in
        AreOversTold judged.now.over.now rel (said_by rel floors.now.tables.items) known.old.tables.items known.old.unknown }
    ensures size { length known.new.unknown ≡ length known.old.unknown }
    ensures known { let rel = rel_of floors.now.sets.now in
        OnOk result (AreOversTold judged.now.over.now rel (said_by rel floors.now.tables.items) known.new.tables.items known.new.unknown) }
{
    if known.is_known(method) || known.left == 0 {
        return Ok(());
    }
    let mut place = judged.over.of(method).len();
    'places: while place > 0 {
        place -= 1;
        learn_at(alloc, judged, floors, known, method, place)?;
    }
    Ok(())
}

/// What is said of the methods that override one. The tables of these are made and kept on the way.
pub(crate) fn said_of_overriding(
    alloc: Global,
    judged: &Judged<'_>,
    floors: &Floors<'_>,
    known: &mut OverTables,
    method: MethodId,
) -> Result<OverSaid, NoMemory>
    requires over { AreOverriders (program_of judged.now.program.now) judged.now.over.now }
    requires known { let rel = rel_of floors.now.sets.now in
        AreOversTold judged.now.over.now rel (said_by rel floors.now.tables.items) known.old.tables.items known.old.unknown }
    ensures size { length known.new.unknown ≡ length known.old.unknown }
    ensures known { let rel = rel_of floors.now.sets.now in
        OnOk result (AreOversTold judged.now.over.now rel (said_by rel floors.now.tables.items) known.new.tables.items known.new.unknown) }
    ensures its { IfOk result (λ o. o.method ≡ method) }
    ensures said { let rel = rel_of floors.now.sets.now in
        (lines : List LineData) → TablesSay rel floors.now.tables.items lines →
        IfOk result (λ o. IsSaidOver (program_of judged.now.program.now) rel (floor rel lines) method o.table o.whole o.most) }
{
    learn_below(alloc, judged, floors, known, method)?;
    let its = over_table(alloc, judged, floors, known, method)?;
    if its.whole {
        return Ok(OverSaid {
            method,
            table: its.table,
            whole: true,
            most: Basic::Error,
        });
    }
    let most = said_at_most(judged, floors, method);
    Ok(OverSaid {
        method,
        table: its.table,
        whole: false,
        most,
    })
}

/// Whether a table has as many basics as another, each at most the one at its place there.
pub(crate) fn are_below(table: &[Basic], others: &[Basic]) -> bool
    ensures { result ≡ below_each table.now others.now }
{
    let Some((basic, rest)) = table.split_first() else {
        return others.is_empty();
    };
    match others.split_first() {
        Some((other, behind)) => basic.below(*other) && are_below(rest, behind),
        None => false,
    }
}

/// Whether the table of what is said of a method says as much as that of the methods that override it, where this is whole.
pub(crate) fn tells_as_much(floors: &Floors<'_>, over: &OverSaid, method: MethodId) -> bool
    ensures { result ≡ (over.now.whole && below_each over.now.table (row_at floors.now.tables.items method)) }
{
    let its = table_at(floors.tables.as_slice(), method);
    over.whole && are_below(over.table.basics.as_slice(), its)
}

/// Whether as much is said of a method where these paths are held as of the methods that override it, where their table is whole.
pub(crate) fn tells_as_much_at(floors: &Floors<'_>, over: &OverSaid, held: &[Path]) -> bool
    ensures { let rel = rel_of floors.now.sets.now in
        result ≡ (over.now.whole && below_of (table_entry (rel over.now.method) over.now.table (has_path held.now)) (said_by rel floors.now.tables.items over.now.method (has_path held.now))) }
{
    if !over.whole {
        return false;
    }
    let rel = floors.sets.rel(over.method);
    let others = entry(rel, over.table.basics.as_slice(), held);
    others.below(floors.at(over.method, held))
}

/// Whether what is said of a method is said of another too, where only relevant paths of that one are held. False tells nothing.
pub(crate) fn says_no_more(floors: &Floors<'_>, method: MethodId, other: MethodId) -> bool
    ensures { let rel = rel_of floors.now.sets.now in
        result ≡ true → SaysNoMore rel (said_by rel floors.now.tables.items) method other }
{
    let rel = floors.sets.rel(other);
    let mut steps = ArrayVec::new();
    if !align(rel, rel, floors.sets.rel(method), &mut steps) {
        return false;
    }
    let tables = floors.tables.as_slice();
    is_within(
        steps.as_slice(),
        rel,
        table_at(tables, method),
        table_at(tables, other),
    )
}
