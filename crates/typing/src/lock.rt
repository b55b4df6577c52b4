//! The paths of lock expressions.

ghost use Rattle.std.specs.Prelude.{◌≡◌, ◌∷◌, [], option_map};
ghost use Rattle.paths.specs.Paths.{extended_some};
ghost use Rattle.syntax.specs.Views.{lock_of};
ghost use Rattle.classes.specs.Views.{table_data};
ghost use Rattle.typing.specs.Noted.{type_noted};
ghost use Rattle.typing.specs.Rulings.{gain, loss};
ghost use Rattle.typing.specs.Locks.{reach_of, one_field_further, lock_field, path_along, lock_end, root_rule, lock_rule};
ghost use Rattle.typing.specs.Names.{variable_of};
ghost use Rattle.typing.specs.Views.{field_found};
ghost use Rattle.typing.specs.StmtViews.{reach_data};

use crate::fault::TypeFault;
use crate::first::FirstFault;
use crate::lookup::field_named;
use crate::scope::{Bound, Slot, find};
use crate::types::class_in;
use classes::{ClassTable, FieldEntry};
use core_program::CoreType;
use paths::{ClassId, FieldId, Path, extend};
use syntax::{Lock, Name};

/// How far a lock expression leads: its path, none past two fields; whether its root and its fields are final; its type.
#[derive(Drop)]
pub struct ReachTo {
    pub path: Option<Path>,
    pub is_final: bool,
    pub ty: CoreType,
}

fn reach_of(root: Slot) -> ReachTo
    ensures { reach_data result ≡ reach_of (variable_of root) }
{
    ReachTo {
        path: Some(Path::of_root(root.slot)),
        is_final: root.is_final,
        ty: root.ty,
    }
}

fn extended(path: &Option<Path>, field: FieldId) -> Option<Path>
    ensures { result ≡ extended_some path.now (field ∷ []) }
{
    match path {
        Some(path) => extend(path, &[field]),
        None => None,
    }
}

fn through(reach: ReachTo, id: FieldId, field: &FieldEntry) -> ReachTo
    ensures { reach_data result ≡ one_field_further (reach_data reach) (id, field.now) }
{
    ReachTo {
        path: extended(&reach.path, id),
        is_final: reach.is_final && field.is_final,
        ty: field.ty,
    }
}

/// The field that a name means in a lock whose first token stands at `at`.
fn lock_field<'t, 'a>(
    table: &'t ClassTable<'a>,
    at: u32,
    reach: &ReachTo,
    name: &Name,
    first: &mut FirstFault,
) -> Option<(FieldId, &'t FieldEntry<'a>)>
    ensures field { option_map field_found result ≡ gain (lock_field (table_data table.now) at (reach_data reach.now) name.now) }
    ensures fault { first.new ≡ type_noted first.old (loss (lock_field (table_data table.now) at (reach_data reach.now) name.now)) }
{
    let Some(class) = class_in(reach.ty) else {
        first.note(TypeFault::NotALock(at));
        return None;
    };
    let found = field_named(table, class, name.text);
    if found.is_none() {
        first.note(TypeFault::UnknownName(name.at));
    }
    found
}

/// One field further.
fn further(
    table: &ClassTable,
    at: u32,
    reach: ReachTo,
    name: &Name,
    first: &mut FirstFault,
) -> Option<ReachTo>
    ensures reach { option_map reach_data result ≡ option_map (one_field_further (reach_data reach)) (gain (lock_field (table_data table.now) at (reach_data reach) name.now)) }
    ensures fault { first.new ≡ type_noted first.old (loss (lock_field (table_data table.now) at (reach_data reach) name.now)) }
{
    let Some((id, field)) = lock_field(table, at, &reach, name, first) else {
        return None;
    };
    Some(through(reach, id, field))
}

fn along(
    table: &ClassTable,
    at: u32,
    root: ReachTo,
    names: &[Name],
    first: &mut FirstFault,
) -> Option<ReachTo>
    ensures reach { option_map reach_data result ≡ gain (path_along (table_data table.now) at (reach_data root) names.now) }
    ensures fault { first.new ≡ type_noted first.old (loss (path_along (table_data table.now) at (reach_data root) names.now)) }
{
    let mut reach = root;
    for name in names {
        reach = further(table, at, reach, name, first)?;
    }
    Some(reach)
}

fn lock_end(at: u32, reach: ReachTo, first: &mut FirstFault) -> Option<Path>
    ensures path { result ≡ gain (lock_end at (reach_data reach)) }
    ensures fault { first.new ≡ type_noted first.old (loss (lock_end at (reach_data reach))) }
{
    let ReachTo { path, is_final, ty } = reach;
    match path {
        Some(path) if is_final && class_in(ty).is_some() => Some(path),
        _ => {
            first.note(TypeFault::NotALock(at));
            None
        }
    }
}

fn root(
    class: ClassId,
    scope: &[Bound],
    root: &Option<Name>,
    first: &mut FirstFault,
) -> Option<Slot>
    ensures variable { option_map variable_of result ≡ gain (root_rule class scope.now root.now) }
    ensures fault { first.new ≡ type_noted first.old (loss (root_rule class scope.now root.now)) }
{
    match root {
        None => Some(Slot {
            slot: 0,
            is_final: true,
            ty: CoreType::Class(class),
        }),
        Some(name) => {
            let found = find(scope, name.text);
            if found.is_none() {
                first.note(TypeFault::UnknownName(name.at));
            }
            found
        }
    }
}

/// The path of a lock in a class, with these variables in scope. None where it is no lock: the fault is noted.
pub fn lock_path(
    table: &ClassTable,
    class: ClassId,
    scope: &[Bound],
    lock: &Lock,
    first: &mut FirstFault,
) -> Option<Path>
    ensures path { result ≡ gain (lock_rule (table_data table.now) class scope.now (lock_of lock.now)) }
    ensures fault { first.new ≡ type_noted first.old (loss (lock_rule (table_data table.now) class scope.now (lock_of lock.now))) }
{
    let variable = root(class, scope, &lock.root, first)?;
    let reach = along(
        table,
        lock.at,
        reach_of(variable),
        lock.fields.as_slice(),
        first,
    )?;
    lock_end(lock.at, reach, first)
}
