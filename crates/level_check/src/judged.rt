//! The program whose order is asked for, and the walks of its bodies.
ghost use Rattle.std.specs.Prelude.{◌≡◌, ◌≤◌, ◌^◌, Some, map, slice_get, IfOk};
ghost use Rattle.algebra.specs.HeldPaths.{has_path};
ghost use Rattle.core_program.specs.Typed.{IsTyped};
ghost use Rattle.core_program.specs.Views.{program_of, method_of};
ghost use Rattle.levels.specs.Walks.{syncs_in};
ghost use Rattle.rules.specs.Near.{rel_of};
ghost use Rattle.rules.specs.Search.{row_at};
ghost use Rattle.level_check.specs.Told.{told_level_of};
ghost use Rattle.level_check.specs.Bodies.{told_by, told_from, spread_told};

use crate::callees::add_callee;
use crate::laws::light_laws;
use crate::slots::slot_types;
use crate::statements::walk_body;
use crate::told::{Callee, Seen};
use crate::walk::Walk;
use core_program::{CoreMethod, CoreProgram};
use effects::{among, copied};
use indexmap::IndexMap;
use paths::{MethodId, Path};
use rules::{NearestMethods, RelevantSets};
use std::alloc::{AllocError as NoMemory, Global};

/// A program with its relevant paths, the methods that override others next, the origins of paths, and a level for each class.
#[derive(Clone, Copy)]
pub(crate) struct Judged<'a> {
    pub(crate) program: &'a CoreProgram,
    pub(crate) sets: &'a RelevantSets,
    pub(crate) over: &'a NearestMethods,
    pub(crate) origins: &'a IndexMap<Path, MethodId>,
    pub(crate) levels: &'a [u32],
}

/// What is seen of a callee, at these held paths and under this level.
pub(crate) fn seen_in(
    alloc: Global,
    judged: &Judged<'_>,
    callee: Callee,
    held: &[Path],
    under: u32,
) -> Result<Vec<Seen>, NoMemory>
    requires { IsTyped (program_of judged.now.program.now) }
    ensures { IfOk result (λ seen. map told_level_of seen.items ≡ told_from judged.now callee (has_path held.now) under) }
{
    if callee.alone {
        return seen_alone(alloc, judged, callee.method, held, under);
    }
    spread(alloc, judged, callee.method, held)
}

/// What any that may run for a method comes to: itself with what it knows, and any that may run for those that override it next.
fn spread(
    alloc: Global,
    judged: &Judged<'_>,
    method: MethodId,
    held: &[Path],
) -> Result<Vec<Seen>, NoMemory>
    ensures { IfOk result (λ seen. map told_level_of seen.items ≡ spread_told (rel_of judged.now.sets.now) (row_at judged.now.over.now) method (has_path held.now)) }
{
    let mut seen = Vec::new(alloc);
    let known = among(alloc, judged.sets.rel(method), held)?;
    add_callee(method, true, known, 0, &mut seen)?;
    for over in judged.over.of(method) {
        let known = copied(alloc, held)?;
        add_callee(*over, false, known, 0, &mut seen)?;
    }
    Ok(seen)
}

/// What the walk of a method comes to, at these held paths and under this level; nothing for a method that isn't there.
fn seen_alone(
    alloc: Global,
    judged: &Judged<'_>,
    method: MethodId,
    held: &[Path],
    under: u32,
) -> Result<Vec<Seen>, NoMemory>
    requires { IsTyped (program_of judged.now.program.now) }
    ensures { IfOk result (λ seen. map told_level_of seen.items ≡ told_by judged.now (slice_get (program_of judged.now.program.now).methods method) (has_path held.now) under) }
{
    light_laws();
    match judged.program.methods().get(method.0 as usize) {
        Some(found) => seen_by(alloc, judged, found, held, under),
        None => Ok(Vec::new(alloc)),
    }
}

/// What the walk of this method comes to.
fn seen_by(
    alloc: Global,
    judged: &Judged<'_>,
    method: &CoreMethod,
    held: &[Path],
    under: u32,
) -> Result<Vec<Seen>, NoMemory>
    requires { syncs_in (method_of method.now).body ≤ 2 ^ 63 }
    ensures { IfOk result (λ seen. map told_level_of seen.items ≡ told_by judged.now (Some (method_of method.now)) (has_path held.now) under) }
{
    let slots = slot_types(alloc, method)?;
    let walk = Walk {
        alloc,
        program: judged.program,
        sets: judged.sets,
        over: judged.over,
        origins: judged.origins,
        levels: judged.levels,
        slots: slots.as_slice(),
    };
    walk_body(&walk, &method.body, held, under)
}
