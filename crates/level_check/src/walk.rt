//! Where a walk goes: the program, its relevant paths, the methods that override others next, the origins of paths, the levels of classes,
//! and the types of a method's slots.
ghost use Rattle.std.specs.Prelude.{◌≡◌, slice_get, Some};
ghost use Rattle.core_program.specs.Types.{field_type};
ghost use Rattle.core_program.specs.Views.{program_of};
ghost use Rattle.levels.specs.Walks.{level_in, class_of_slot, lock_class};

use core_program::{CoreProgram, CoreType};
use indexmap::IndexMap;
use paths::{ClassId, FieldId, MethodId, Path};
use rules::{NearestMethods, RelevantSets};
use std::alloc::Global;

/// What a walk through a body asks, and where it takes memory. `levels` has a level for each class, from 1 on.
#[derive(Clone, Copy)]
pub struct Walk<'a> {
    pub alloc: Global,
    pub program: &'a CoreProgram,
    pub sets: &'a RelevantSets,
    pub over: &'a NearestMethods,
    pub origins: &'a IndexMap<Path, MethodId>,
    pub levels: &'a [u32],
    pub slots: &'a [CoreType],
}

/// What a walk carries: the paths that are held, and the greatest level of a lock that may be held.
#[derive(Clone, Copy)]
pub(crate) struct Carried<'a> {
    pub(crate) held: &'a [Path],
    pub(crate) under: u32,
}

/// The level of a class; 0 for one that has none.
pub(crate) fn level_of(levels: &[u32], class: ClassId) -> u32
    ensures { result ≡ level_in levels.now class }
{
    match levels.get(class.0 as usize) {
        Some(level) => *level,
        None => 0,
    }
}

/// The class of the lock of a path.
pub(crate) fn lock_class(walk: &Walk<'_>, path: &Path) -> ClassId
    ensures { result ≡ lock_class (program_of walk.now.program.now) walk.now.slots.now path.now }
{
    let mut ty = walk.slots.get(path.root as usize).copied();
    for field in path.fields.as_slice() {
        ty = field_type(walk.program, *field);
    }
    class_in(ty)
}

/// The type of a field, where it is there.
fn field_type(program: &CoreProgram, field: FieldId) -> Option<CoreType>
    ensures { result ≡ field_type (slice_get (program_of program.now).fields field) }
{
    Some(program.fields().get(field.0 as usize)?.ty)
}

/// The class of a type, where there is one.
fn class_in(ty: Option<CoreType>) -> ClassId
    ensures { result ≡ class_of_slot ty }
{
    match ty {
        Some(ty) => class_of(ty),
        None => ClassId(0),
    }
}

/// The class of a type.
fn class_of(ty: CoreType) -> ClassId
    ensures { result ≡ class_of_slot (Some ty) }
{
    match ty {
        CoreType::Class(class) => class,
        CoreType::Int | CoreType::Boolean => ClassId(0),
    }
}
