//! Notes the faults of constructors: each assigns the final fields of its class in order.

ghost use Rattle.std.specs.Prelude.{◌≡◌, ◌++◌, true, false, not, Option, map, IfOk, OnOk};
ghost use Rattle.std.specs.List.{list_any};
ghost use Rattle.syntax.specs.Views.{member_of, class_of};
ghost use Rattle.classes.specs.Lines.{members_at};
ghost use Rattle.classes.specs.Members.{finals_of, is_constructor, is_same_type, are_params_of, are_sets_of, has_none};
ghost use Rattle.classes.specs.Faults.{is_right, constructor_faults, missing_constructor};
ghost use Rattle.classes.specs.Noted.{noted};
ghost use Rattle.classes.specs.Finals.{final_of};
ghost use Rattle.classes.specs.Families.{members_along};

use crate::fault::ClassFault;
use crate::first::first_of;
use std::alloc::{AllocError as NoMemory, Global};
use syntax::{Class, Member, Name, Param, TypeName};

/// A final field, which the constructor of its class assigns.
#[derive(Clone, Copy)]
struct FinalField<'m, 'a> {
    ty: &'m TypeName<'a>,
    name: &'m Name<'a>,
}

/// Adds the final fields among members.
fn add_finals<'m, 'a>(
    finals: &mut Vec<FinalField<'m, 'a>>,
    members: &'m [Member<'a>],
) -> Result<(), NoMemory>
    ensures { OnOk result (map final_of finals.new.items ≡ map final_of finals.old.items ++ finals_of (map member_of members.entry.now)) }
{
    for member in members {
        if let Member::Field {
            is_final: true,
            ty,
            name,
            ..
        } = member
        {
            finals.push(FinalField { ty, name })?;
        }
    }
    Ok(())
}

/// Adds the final fields of a class.
fn add_finals_of<'m, 'a>(
    finals: &mut Vec<FinalField<'m, 'a>>,
    classes: &'m [Class<'a>],
    number: usize,
) -> Result<(), NoMemory>
    ensures { OnOk result (map final_of finals.new.items ≡ map final_of finals.old.items ++ finals_of (members_at (map class_of classes.entry.now) number)) }
{
    match classes.get(number) {
        Some(class) => add_finals(finals, class.members.as_slice()),
        None => Ok(()),
    }
}

/// The final fields of classes, in this order.
fn final_fields<'m, 'a>(
    alloc: Global,
    classes: &'m [Class<'a>],
    order: &[usize],
) -> Result<Vec<FinalField<'m, 'a>>, NoMemory>
    ensures { IfOk result (λ fs. map final_of fs.items ≡ finals_of (members_along (map class_of classes.entry.now) order.now)) }
{
    let mut finals = Vec::new(alloc);
    for number in order {
        add_finals_of(&mut finals, classes, *number)?;
    }
    Ok(finals)
}

/// Whether two types are the same: a class by its name.
pub(crate) fn is_same(one: &TypeName, other: &TypeName) -> bool
    ensures { result ≡ is_same_type one.now other.now }
{
    match (one, other) {
        (TypeName::Int, TypeName::Int) | (TypeName::Boolean, TypeName::Boolean) => true,
        (TypeName::Class(m), TypeName::Class(n)) => m.text == n.text,
        _ => false,
    }
}

fn match_params(finals: &[FinalField], params: &[Param]) -> bool
    ensures { result ≡ are_params_of (map final_of finals.now) params.now }
{
    let mut rest = params;
    for field in finals {
        let [param, more @ ..] = rest else {
            return false;
        };
        let name = field.name;
        if !is_same(field.ty, &param.ty) || name.text != param.name.text {
            return false;
        }
        rest = more;
    }
    rest.is_empty()
}

fn match_sets(finals: &[FinalField], sets: &[(Name, Name)]) -> bool
    ensures { result ≡ are_sets_of (map final_of finals.now) sets.now }
{
    let mut rest = sets;
    for field in finals {
        let [(target, value), more @ ..] = rest else {
            return false;
        };
        let name = field.name;
        if name.text != target.text || name.text != value.text {
            return false;
        }
        rest = more;
    }
    rest.is_empty()
}

/// Whether a constructor assigns the final fields of its class, which has this name, in order.
fn is_right_constructor(
    class: &Name,
    finals: &[FinalField],
    name: &Name,
    params: &[Param],
    sets: &[(Name, Name)],
) -> bool
    ensures { result ≡ is_right class.now (map final_of finals.now) name.now params.now sets.now }
{
    !finals.is_empty()
        && name.text == class.text
        && match_params(finals, params)
        && match_sets(finals, sets)
}

/// The faults of constructors that aren't right, and of those after a first one. The class has the
/// fields of these classes, in this order.
pub(crate) fn note_constructors(
    alloc: Global,
    class: &Name,
    classes: &[Class],
    order: &[usize],
    members: &[Member],
    first: Option<ClassFault>,
) -> Result<Option<ClassFault>, NoMemory>
    ensures { IfOk result (λ f. f ≡ noted first (constructor_faults class.now (finals_of (members_along (map class_of classes.now) order.now)) false (map member_of members.now))) }
{
    let finals = final_fields(alloc, classes, order)?;
    Ok(note_wrong(class, finals.as_slice(), members, first))
}

fn note_wrong(
    class: &Name,
    finals: &[FinalField],
    members: &[Member],
    first: Option<ClassFault>,
) -> Option<ClassFault>
    ensures { result ≡ noted first (constructor_faults class.now (map final_of finals.now) false (map member_of members.now)) }
{
    let mut found = first;
    let mut is_later = false;
    for member in members {
        if let Member::Ctor { name, params, sets } = member {
            if is_later
                || !is_right_constructor(class, finals, name, params.as_slice(), sets.as_slice())
            {
                found = first_of(found, ClassFault::BadConstructor(name.at));
            }
            is_later = true;
        }
    }
    found
}

fn has_constructor(members: &[Member]) -> bool
    ensures { result ≡ list_any is_constructor (map member_of members.now) }
{
    for member in members {
        if let Member::Ctor { .. } = member {
            return true;
        }
    }
    false
}

/// The fault of a class that has final fields, inherited ones among them, and no constructor of its own.
pub(crate) fn note_missing_constructor(
    class: &Name,
    classes: &[Class],
    order: &[usize],
    members: &[Member],
    first: Option<ClassFault>,
) -> Option<ClassFault>
    ensures { result ≡ noted first (missing_constructor class.now (finals_of (members_along (map class_of classes.now) order.now)) (map member_of members.now)) }
{
    if !has_finals(classes, order) || has_constructor(members) {
        first
    } else {
        first_of(first, ClassFault::BadConstructor(class.at))
    }
}

fn has_final(members: &[Member]) -> bool
    ensures { result ≡ not (has_none (finals_of (map member_of members.now))) }
{
    for member in members {
        if let Member::Field { is_final: true, .. } = member {
            return true;
        }
    }
    false
}

fn class_has_final(classes: &[Class], number: usize) -> bool
    ensures { result ≡ not (has_none (finals_of (members_at (map class_of classes.now) number))) }
{
    match classes.get(number) {
        Some(class) => has_final(class.members.as_slice()),
        None => false,
    }
}

/// Whether one of these classes has final fields.
pub(crate) fn has_finals(classes: &[Class], order: &[usize]) -> bool
    ensures { result ≡ not (has_none (finals_of (members_along (map class_of classes.now) order.now))) }
{
    for number in order {
        if class_has_final(classes, *number) {
            return true;
        }
    }
    false
}
