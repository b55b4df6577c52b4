//! Methods by their names and signatures, and whether two signatures are the same.

ghost use Rattle.std.specs.Prelude.{◌≡◌, None, map, option_map, IfOk, if◌then◌else◌};
ghost use Rattle.std.specs.List.{list_any};
ghost use Rattle.syntax.specs.Views.{member_of, lock_of};
ghost use Rattle.classes.specs.Overriding.{class_of_type, reach_from, reach_along, param_root, lock_root, meaning_of, meanings_of, is_same_lock, are_same_places, are_among, same_where_known, are_alike, is_same_result, is_same_signature, headings, headings_at};
ghost use Rattle.classes.specs.Families.{tree_of, IsFamily, place_data, lock_meaning, locks_data, heading_data, rows_data, class_headings, AreHeadings};

use crate::constructors::is_same;
use crate::family::{Family, Field, FieldPlace};
use std::alloc::{AllocError as NoMemory, Global};
use syntax::{Lock, Member, Name, Param, TypeName};

/// The most fields that a lock leads through.
pub(crate) const MOST_LOCK_FIELDS: usize = 2;

/// What a lock means: the slot that it begins at, the fields that it leads through, and the class of the object there.
#[derive(Drop)]
pub(crate) struct LockReach {
    pub(crate) slot: usize,
    pub(crate) fields: Vec<FieldPlace>,
    pub(crate) class: usize,
}

/// A method by its name and by what it and one that it overrides must have in common. Its locks are none where one of
/// them is unknown or is no lock.
#[derive(Drop)]
pub(crate) struct Heading<'p, 'a> {
    pub(crate) name: &'p Name<'a>,
    pub(crate) atomic: bool,
    pub(crate) returns: &'p Option<TypeName<'a>>,
    pub(crate) params: &'p [Param<'a>],
    pub(crate) locks: Option<Vec<LockReach>>,
}

/// The class of the object that a field leads to, where the field is final and has a class type.
fn class_through(family: &Family, field: &Field) -> Option<usize>
    requires { IsFamily family.now }
    ensures { result ≡ (if field.now.is_final then class_of_type (tree_of family.now) field.now.ty.now else None) }
{
    if field.is_final {
        family.class_of_type(field.ty)
    } else {
        None
    }
}

/// The slot and the class of the parameter with a name, where it is final and has a class type.
fn param_root(family: &Family, params: &[Param], name: &str) -> Option<(usize, usize)>
    requires { IsFamily family.now }
    ensures { option_map (λ r. reach_from r.0 r.1) result ≡ param_root (tree_of family.now) 1 params.now name.now }
{
    for (place, param) in params.iter().enumerate() {
        if param.name.text == name {
            return param_class(family, param, place + 1);
        }
    }
    None
}

fn param_class(family: &Family, param: &Param, slot: usize) -> Option<(usize, usize)>
    requires { IsFamily family.now }
    ensures { option_map (λ r. reach_from r.0 r.1) result
        ≡ (if param.now.is_final then option_map (reach_from slot) (class_of_type (tree_of family.now) param.now.ty) else None) }
{
    if !param.is_final {
        return None;
    }
    match family.class_of_type(&param.ty) {
        Some(class) => Some((slot, class)),
        None => None,
    }
}

/// Where a lock of a method of a class begins: its slot and the class of the object there.
fn lock_root(
    family: &Family,
    class: usize,
    params: &[Param],
    root: &Option<Name>,
) -> Option<(usize, usize)>
    requires { IsFamily family.now }
    ensures { option_map (λ r. reach_from r.0 r.1) result ≡ lock_root (tree_of family.now) class params.now root.now }
{
    match root {
        Some(name) => param_root(family, params, name.text),
        None => Some((0, class)),
    }
}

/// Where the fields with these names lead from a slot that holds an object of a class.
fn along(
    alloc: Global,
    family: &Family,
    slot: usize,
    class: usize,
    names: &[Name],
) -> Result<Option<LockReach>, NoMemory>
    requires { IsFamily family.now }
    ensures { IfOk result (λ reach. option_map lock_meaning reach ≡ reach_along (tree_of family.now) (reach_from slot class) names.now) }
{
    let mut fields = Vec::new(alloc);
    let mut place = class;
    for name in names {
        let Some(field) = family.field_named(place, name.text) else {
            return Ok(None);
        };
        let Some(next) = class_through(family, &field) else {
            return Ok(None);
        };
        fields.push(field.at)?;
        place = next;
    }
    Ok(Some(LockReach {
        slot,
        fields,
        class: place,
    }))
}

/// What a lock means in a method of a class.
fn meaning_of(
    alloc: Global,
    family: &Family,
    class: usize,
    params: &[Param],
    lock: &Lock,
) -> Result<Option<LockReach>, NoMemory>
    requires { IsFamily family.now }
    ensures { IfOk result (λ reach. option_map lock_meaning reach ≡ meaning_of (tree_of family.now) class params.now (lock_of lock.now)) }
{
    if lock.fields.len() > MOST_LOCK_FIELDS {
        return Ok(None);
    }
    match lock_root(family, class, params, &lock.root) {
        Some((slot, start)) => along(alloc, family, slot, start, lock.fields.as_slice()),
        None => Ok(None),
    }
}

/// What the locks of a method of a class mean, where all mean something.
fn meanings_of(
    alloc: Global,
    family: &Family,
    class: usize,
    params: &[Param],
    locks: &[Lock],
) -> Result<Option<Vec<LockReach>>, NoMemory>
    requires { IsFamily family.now }
    ensures { IfOk result (λ found. locks_data found ≡ meanings_of (tree_of family.now) class params.now (map lock_of locks.now)) }
{
    let mut found = Vec::new(alloc);
    for lock in locks {
        let Some(reach) = meaning_of(alloc, family, class, params, lock)? else {
            return Ok(None);
        };
        found.push(reach)?;
    }
    Ok(Some(found))
}

fn are_same_places(one: &[FieldPlace], other: &[FieldPlace]) -> bool
    ensures { result ≡ are_same_places (map place_data one.now) (map place_data other.now) }
{
    let mut rest = other;
    for field in one {
        let Some((next, more)) = rest.split_first() else {
            return false;
        };
        if field.class != next.class || field.place != next.place {
            return false;
        }
        rest = more;
    }
    rest.is_empty()
}

fn is_same_lock(one: &LockReach, other: &LockReach) -> bool
    ensures { result ≡ is_same_lock (lock_meaning one.now) (lock_meaning other.now) }
{
    one.slot == other.slot && are_same_places(one.fields.as_slice(), other.fields.as_slice())
}

fn is_among(lock: &LockReach, locks: &[LockReach]) -> bool
    ensures { result ≡ list_any (is_same_lock (lock_meaning lock.now)) (map lock_meaning locks.now) }
{
    for other in locks {
        if is_same_lock(lock, other) {
            return true;
        }
    }
    false
}

fn are_among(locks: &[LockReach], others: &[LockReach]) -> bool
    ensures { result ≡ are_among (map lock_meaning locks.now) (map lock_meaning others.now) }
{
    for lock in locks {
        if !is_among(lock, others) {
            return false;
        }
    }
    true
}

/// Whether two sets of locks are the same, where both are known.
fn are_same_locks(one: &Option<Vec<LockReach>>, other: &Option<Vec<LockReach>>) -> bool
    ensures { result ≡ same_where_known (locks_data one.now) (locks_data other.now) }
{
    let Some(one) = one else {
        return true;
    };
    let Some(other) = other else {
        return true;
    };
    are_among(one.as_slice(), other.as_slice()) && are_among(other.as_slice(), one.as_slice())
}

fn are_alike(one: &[Param], other: &[Param]) -> bool
    ensures { result ≡ are_alike one.now other.now }
{
    let mut rest = other;
    for param in one {
        let [next, more @ ..] = rest else {
            return false;
        };
        if param.is_final != next.is_final || !is_same(&param.ty, &next.ty) {
            return false;
        }
        rest = more;
    }
    rest.is_empty()
}

fn is_same_result(one: &Option<TypeName>, other: &Option<TypeName>) -> bool
    ensures { result ≡ is_same_result one.now other.now }
{
    match (one, other) {
        (Some(ty), Some(next)) => is_same(ty, next),
        (None, None) => true,
        _ => false,
    }
}

/// Whether methods have the same parameters, result, `atomic` and locks.
pub(crate) fn is_same_signature(one: &Heading, other: &Heading) -> bool
    ensures { result ≡ is_same_signature (heading_data one.now).signature (heading_data other.now).signature }
{
    are_alike(one.params, other.params)
        && is_same_result(one.returns, other.returns)
        && one.atomic == other.atomic
        && are_same_locks(&one.locks, &other.locks)
}

/// The methods among the members of a class.
fn headings_of<'p, 'a>(
    alloc: Global,
    family: &Family,
    class: usize,
    members: &'p [Member<'a>],
) -> Result<Vec<Heading<'p, 'a>>, NoMemory>
    requires { IsFamily family.now }
    ensures { IfOk result (λ row. map heading_data row.items ≡ headings (tree_of family.now) class (map member_of members.entry.now)) }
{
    let mut row = Vec::new(alloc);
    for member in members {
        if let Member::Method {
            atomic,
            result: returns,
            name,
            params,
            requires_: locks,
            ..
        } = member
        {
            let params = params.as_slice();
            let locks = meanings_of(alloc, family, class, params, locks.as_slice())?;
            row.push(Heading {
                name,
                atomic: *atomic,
                returns,
                params,
                locks,
            })?;
        }
    }
    Ok(row)
}

/// The methods of each class of a family.
fn all_headings<'p, 'a>(
    alloc: Global,
    family: &Family<'p, 'a>,
) -> Result<Vec<Vec<Heading<'p, 'a>>>, NoMemory>
    requires { IsFamily family.now }
    ensures { IfOk result (λ rows. class_headings (rows_data rows.items) ≡ headings_at (tree_of family.now)) }
{
    let mut rows = Vec::new(alloc);
    for (number, class) in family.classes.iter().enumerate() {
        let row = headings_of(alloc, family, number, class.members.as_slice())?;
        rows.push(row)?;
    }
    Ok(rows)
}

/// The methods of each class of a family where a class extends another; none where each class has its own ones alone.
pub(crate) fn headings_where_inherited<'p, 'a>(
    alloc: Global,
    family: &Family<'p, 'a>,
) -> Result<Vec<Vec<Heading<'p, 'a>>>, NoMemory>
    requires { IsFamily family.now }
    ensures { IfOk result (λ rows. AreHeadings (tree_of family.now) (class_headings (rows_data rows.items))) }
{
    if family.has_heirs() {
        all_headings(alloc, family)
    } else {
        Ok(Vec::new(alloc))
    }
}
