//! The walk through statements.
ghost use Rattle.std.specs.Prelude.{◌≡◌, ◌≤◌, ◌+◌, ◌^◌, ◌++◌, map, max, IfOk, OnOk};
ghost use Rattle.algebra.specs.HeldPaths.{has_path, with_path};
ghost use Rattle.core_program.specs.Core.{SyncS};
ghost use Rattle.core_program.specs.Views.{program_of, stmt_of, stmts_from};
ghost use Rattle.levels.specs.Walks.{level_in, syncs_in, syncs_in_each, lock_class};
ghost use Rattle.level_check.specs.Told.{told_bad, told_level_of, stmt_told, block_told};

use crate::expressions::{walk_expr, walk_two};
use crate::told::Seen;
use crate::walk::{Carried, Walk, level_of, lock_class};
use algebra::has;
use core_program::CoreStmt;
use effects::{after, copied, with_path};
use paths::{ClassId, Path};
use std::alloc::AllocError as NoMemory;

/// Walks through a body: what it comes to.
pub fn walk_body(
    walk: &Walk<'_>,
    body: &CoreStmt,
    held: &[Path],
    under: u32,
) -> Result<Vec<Seen>, NoMemory>
    requires { syncs_in (stmt_of body.now) ≤ 2 ^ 63 }
    ensures { IfOk result (λ seen. map told_level_of seen.items ≡ stmt_told walk.now (stmt_of body.now) 0 (has_path held.now) under) }
{
    let carried = Carried { held, under };
    let mut seen = Vec::new(walk.alloc);
    let mut place = 0;
    walk_stmt(walk, body, &carried, &mut place, &mut seen)?;
    Ok(seen)
}

/// Walks through a statement, whose first `synchronized` has this place.
#[cycle(statements)]
#[tactic(auto, using(crate::proofs::ToldLemmas::told_append))]
fn walk_stmt(
    walk: &Walk<'_>,
    s: &CoreStmt,
    carried: &Carried<'_>,
    place: &mut u64,
    seen: &mut Vec<Seen>,
) -> Result<(), NoMemory>
    requires { place.old + syncs_in (stmt_of s.now) ≤ 2 ^ 63 }
    ensures seen { OnOk result (map told_level_of seen.new.items ≡ map told_level_of seen.old.items ++ stmt_told walk.now (stmt_of s.now) place.old (has_path carried.now.held.now) carried.now.under) }
    ensures place { OnOk result (place.new ≡ place.old + syncs_in (stmt_of s.now)) }
{
    match s {
        CoreStmt::Empty | CoreStmt::Return(None) => Ok(()),
        CoreStmt::Block(body) => walk_block(walk, body.as_slice(), carried, place, seen),
        CoreStmt::SetField(a, _, b) => walk_two(walk, a, b, carried, seen),
        CoreStmt::If(c, a, b) => {
            walk_expr(walk, c, carried, seen)?;
            walk_stmt(walk, a, carried, place, seen)?;
            walk_stmt(walk, b, carried, place, seen)
        }
        CoreStmt::While(c, a) => {
            walk_expr(walk, c, carried, seen)?;
            walk_stmt(walk, a, carried, place, seen)
        }
        CoreStmt::Sync(path, a) => walk_sync(walk, path, a, carried, place, seen),
        CoreStmt::Local { value: e, .. }
        | CoreStmt::SetVar(_, e)
        | CoreStmt::Do(e, _)
        | CoreStmt::Return(Some(e))
        | CoreStmt::Print(e)
        | CoreStmt::Start(e) => walk_expr(walk, e, carried, seen),
    }
}

/// Walks through a `synchronized` on this path: at the same set where the path is held already, and else with it.
#[cycle(statements)]
fn walk_sync(
    walk: &Walk<'_>,
    path: &Path,
    s: &CoreStmt,
    carried: &Carried<'_>,
    place: &mut u64,
    seen: &mut Vec<Seen>,
) -> Result<(), NoMemory>
    requires { place.old + (1 + syncs_in (stmt_of s.now)) ≤ 2 ^ 63 }
    ensures seen { OnOk result (map told_level_of seen.new.items ≡ map told_level_of seen.old.items ++ stmt_told walk.now (SyncS path.now (stmt_of s.now)) place.old (has_path carried.now.held.now) carried.now.under) }
    ensures place { OnOk result (place.new ≡ place.old + (1 + syncs_in (stmt_of s.now))) }
{
    if has(carried.held, path) {
        *place += 1;
        walk_stmt(walk, s, carried, place, seen)
    } else {
        walk_taken(walk, path, s, carried, place, seen)
    }
}

/// Walks through a `synchronized` on a path that isn't held.
#[cycle(statements)]
fn walk_taken(
    walk: &Walk<'_>,
    path: &Path,
    s: &CoreStmt,
    carried: &Carried<'_>,
    place: &mut u64,
    seen: &mut Vec<Seen>,
) -> Result<(), NoMemory>
    requires { place.old + (1 + syncs_in (stmt_of s.now)) ≤ 2 ^ 63 }
    ensures seen { OnOk result (let class = lock_class (program_of walk.now.program.now) walk.now.slots.now path.now in
        map told_level_of seen.new.items ≡ (map told_level_of seen.old.items ++ told_bad place.old class carried.now.under (level_in walk.now.levels.now class))
        ++ stmt_told walk.now (stmt_of s.now) (place.old + 1) (with_path path.now (has_path carried.now.held.now)) (max carried.now.under (level_in walk.now.levels.now class))) }
    ensures place { OnOk result (place.new ≡ place.old + (1 + syncs_in (stmt_of s.now))) }
{
    let class = lock_class(walk, path);
    let level = level_of(walk.levels, class);
    note_bad(*place, class, carried.under, level, seen)?;
    *place += 1;
    let more = with_path(walk.alloc, path, carried.held)?;
    let taken = Carried {
        held: more.as_slice(),
        under: carried.under.max(level),
    };
    walk_stmt(walk, s, &taken, place, seen)
}

/// Notes a bad `synchronized`, where the lock's level isn't above the walk's.
fn note_bad(
    place: u64,
    class: ClassId,
    under: u32,
    level: u32,
    seen: &mut Vec<Seen>,
) -> Result<(), NoMemory>
    ensures { OnOk result (map told_level_of seen.new.items ≡ map told_level_of seen.old.items ++ told_bad place class under level) }
{
    if level <= under {
        seen.push(Seen::Bad {
            place,
            class,
            under,
        })?;
    }
    Ok(())
}

/// Walks through the statements of a block, each at the set that those before it leave.
#[cycle(statements)]
fn walk_block(
    walk: &Walk<'_>,
    body: &[CoreStmt],
    carried: &Carried<'_>,
    place: &mut u64,
    seen: &mut Vec<Seen>,
) -> Result<(), NoMemory>
    requires { place.old + syncs_in_each (stmts_from body.now) ≤ 2 ^ 63 }
    ensures seen { OnOk result (map told_level_of seen.new.items ≡ map told_level_of seen.old.items ++ block_told walk.now (stmts_from body.now) place.old (has_path carried.now.held.now) carried.now.under) }
    ensures place { OnOk result (place.new ≡ place.old + syncs_in_each (stmts_from body.now)) }
{
    let mut now = copied(walk.alloc, carried.held)?;
    for s in body {
        let here = Carried {
            held: now.as_slice(),
            under: carried.under,
        };
        walk_stmt(walk, s, &here, place, seen)?;
        now = after(walk.alloc, walk.program, s, now)?;
    }
    Ok(())
}
