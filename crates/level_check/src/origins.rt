//! The origins of paths. Where a method knows a path which a method that it overrides next doesn't know, the path has an origin: a method that
//! knows it.
ghost use Rattle.std.specs.Prelude.{◌≡◌, ◌∷◌, [], true, IfOk, OnOk};
ghost use Rattle.algebra.specs.HeldPaths.{has_path};
ghost use Rattle.core_program.specs.Views.{program_of};
ghost use Rattle.rules.specs.Near.{rel_of};
ghost use Rattle.rules.specs.Nearest.{AreNearest};
ghost use Rattle.rules.specs.Search.{row_at};
ghost use Rattle.level_check.specs.Told.{origin_in};
ghost use Rattle.level_check.specs.Origins.{AreOrigins, AddsPaths, AddsOrigins};

use algebra::has;
use core_program::CoreProgram;
use indexmap::IndexMap;
use paths::{MethodId, Path};
use rules::{NearestMethods, RelevantSets, method_at};
use std::alloc::{AllocError as NoMemory, Global};

/// The origins of paths.
pub(crate) fn origins(
    alloc: Global,
    program: &CoreProgram,
    sets: &RelevantSets,
    over: &NearestMethods,
) -> Result<IndexMap<Path, MethodId>, NoMemory>
    requires { AreNearest (program_of program.now) over.now }
    ensures { IfOk result (λ origins. AreOrigins (rel_of sets.now) (row_at over.now) (origin_in origins.entries)) }
{
    let mut origins = IndexMap::new(alloc);
    let count = program.names.len();
    for place in 0..count {
        add_origins(sets, over, method_at(place)?, &mut origins)?;
    }
    Ok(origins)
}

/// Adds an origin for each path that those which override a method next know, and the method doesn't.
fn add_origins(
    sets: &RelevantSets,
    over: &NearestMethods,
    method: MethodId,
    origins: &mut IndexMap<Path, MethodId>,
) -> Result<(), NoMemory>
    ensures { OnOk result (AddsOrigins (rel_of sets.now) method (row_at over.now method) (origin_in origins.old.entries) (origin_in origins.new.entries)) }
{
    for next in over.of(method) {
        add_origin(sets, method, *next, origins)?;
    }
    Ok(())
}

/// Adds an origin for each path that a method knows which overrides another next, and the other doesn't.
fn add_origin(
    sets: &RelevantSets,
    method: MethodId,
    next: MethodId,
    origins: &mut IndexMap<Path, MethodId>,
) -> Result<(), NoMemory>
    ensures { OnOk result (AddsPaths (rel_of sets.now) method (rel_of sets.now next) (origin_in origins.old.entries) (origin_in origins.new.entries)) }
{
    for path in sets.rel(next) {
        add_path(sets, method, next, path, origins)?;
    }
    Ok(())
}

/// Makes a method the origin of a path that it knows, where the method that it overrides doesn't know it.
fn add_path(
    sets: &RelevantSets,
    method: MethodId,
    next: MethodId,
    path: &Path,
    origins: &mut IndexMap<Path, MethodId>,
) -> Result<(), NoMemory>
    ensures { OnOk result (has_path (rel_of sets.now next) path.now ≡ true → AddsPaths (rel_of sets.now) method (path.now ∷ []) (origin_in origins.old.entries) (origin_in origins.new.entries)) }
{
    if has(sets.rel(method), path) {
        return Ok(());
    }
    origins.insert(path.copy(), next)?;
    Ok(())
}
