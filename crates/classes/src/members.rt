//! Notes the faults of the members of a class, each by itself.

ghost use Rattle.std.specs.Prelude.{◌≡◌, ◌∷◌, [], true, Option, Some, None, map, flat_map, slice_get, length, option_map, IfOk, OnOk, if◌then◌else◌};
ghost use Rattle.std.specs.List.{list_any};
ghost use Rattle.syntax.specs.Views.{member_of, class_of};
ghost use Rattle.classes.specs.Lines.{members_at};
ghost use Rattle.classes.specs.declared.fault.ClassFault.TheVariants as kind;
ghost use Rattle.classes.specs.Names.{has_text, texts_of, with_text, distinct_after, distinct, repeats, repeats_after};
ghost use Rattle.classes.specs.Members.{field_names, method_names, param_names};
ghost use Rattle.classes.specs.Faults.{twice_faults, field_faults, above_faults, too_many_faults, type_faults, result_faults, params_faults, member_all_class_faults};
ghost use Rattle.classes.specs.Families.{members_along, tree_of, IsFamily};
ghost use Rattle.classes.specs.Noted.{noted};

use crate::family::Family;
use crate::fault::ClassFault;
use crate::first::first_of;
use crate::limits::MOST_PARAMS;
use crate::names::NameSet;
use crate::numbered_fields::count_fields;
use std::alloc::{AllocError as NoMemory, Global};
use syntax::{Class, Member, Name, Param, TypeName};

/// Adds a name to those that were seen. A name that was seen before is a fault.
pub(crate) fn see<'a>(
    seen: &mut NameSet<'a>,
    name: &Name<'a>,
    first: Option<ClassFault>,
) -> Result<Option<ClassFault>, NoMemory>
    ensures fault { IfOk result (λ f. f ≡ (if has_text seen.old name.now.text then noted first (kind.Twice name.now.at ∷ []) else first)) }
    ensures seen { OnOk result (seen.new ≡ with_text seen.old name.now.text) }
{
    let is_new = seen.add(name.text)?;
    if is_new {
        Ok(first)
    } else {
        Ok(first_of(first, ClassFault::Twice(name.at)))
    }
}

/// Adds the names of the fields among members.
fn see_fields<'a>(seen: &mut NameSet<'a>, members: &[Member<'a>]) -> Result<(), NoMemory>
    ensures { OnOk result (seen.new ≡ distinct_after seen.old (field_names (map member_of members.now))) }
{
    for member in members {
        if let Member::Field { name, .. } = member {
            seen.add(name.text)?;
        }
    }
    Ok(())
}

fn see_fields_of<'a>(
    seen: &mut NameSet<'a>,
    classes: &[Class<'a>],
    number: usize,
) -> Result<(), NoMemory>
    ensures { OnOk result (seen.new ≡ distinct_after seen.old (field_names (members_at (map class_of classes.now) number))) }
{
    match classes.get(number) {
        Some(class) => see_fields(seen, class.members.as_slice()),
        None => Ok(()),
    }
}

/// The names of the fields of these classes.
fn names_of_fields<'a>(
    alloc: Global,
    classes: &[Class<'a>],
    order: &[usize],
) -> Result<NameSet<'a>, NoMemory>
    ensures { IfOk result (λ seen. seen ≡ distinct (field_names (members_along (map class_of classes.now) order.now))) }
{
    let mut seen = NameSet::new(alloc);
    for number in order {
        see_fields_of(&mut seen, classes, *number)?;
    }
    Ok(seen)
}

/// Whether the own names of a class tell that its fields have different names.
fn have_fields_apart(family: &Family, number: usize, members: &[Member]) -> bool
    requires family { IsFamily family.now }
    requires members { members_at (tree_of family.now) number ≡ map member_of members.now }
    ensures { result ≡ true → repeats (field_names (map member_of members.now)) ≡ [] }
{
    match family.own.get(number) {
        Some(own) => own.fields.len() == count_fields(members),
        None => false,
    }
}

/// Whether a field has the name of a field of one of these classes.
fn repeat_fields(family: &Family, order: &[usize], members: &[Member]) -> bool
    requires { IsFamily family.now }
    ensures { result ≡ list_any (λ n. has_text (texts_of (field_names (members_along (tree_of family.now) order.now))) n.text) (field_names (map member_of members.now)) }
{
    for member in members {
        if let Member::Field { name, .. } = member {
            if family.any_declares_field(order, name.text) {
                return true;
            }
        }
    }
    false
}

/// Fields of a class that have the name of a field of one of these classes, or of one that stood before. Only where there are
/// some are the names gone through again, for their offsets.
pub(crate) fn note_fields<'a>(
    alloc: Global,
    family: &Family<'_, 'a>,
    number: usize,
    order: &[usize],
    members: &[Member<'a>],
    first: Option<ClassFault>,
) -> Result<Option<ClassFault>, NoMemory>
    requires family { IsFamily family.now }
    requires members { members_at (tree_of family.now) number ≡ map member_of members.now }
    ensures { IfOk result (λ f. f ≡ noted first (field_faults (members_along (tree_of family.now) order.now) (map member_of members.now))) }
{
    if have_fields_apart(family, number, members) && !repeat_fields(family, order, members) {
        return Ok(first);
    }
    note_repeated_fields(alloc, family.classes, order, members, first)
}

fn note_repeated_fields<'a>(
    alloc: Global,
    classes: &[Class<'a>],
    order: &[usize],
    members: &[Member<'a>],
    first: Option<ClassFault>,
) -> Result<Option<ClassFault>, NoMemory>
    ensures { IfOk result (λ f. f ≡ noted first (field_faults (members_along (map class_of classes.now) order.now) (map member_of members.now))) }
{
    let seen = names_of_fields(alloc, classes, order)?;
    note_fields_after(seen, members, first)
}

fn note_fields_after<'a>(
    names: NameSet<'a>,
    members: &[Member<'a>],
    first: Option<ClassFault>,
) -> Result<Option<ClassFault>, NoMemory>
    ensures { IfOk result (λ f. f ≡ noted first (map kind.Twice (repeats_after names.entry (field_names (map member_of members.now))))) }
{
    let mut seen = names;
    let mut found = first;
    for member in members {
        if let Member::Field { name, .. } = member {
            found = see(&mut seen, name, found)?;
        }
    }
    Ok(found)
}

fn count_methods(members: &[Member]) -> usize
    ensures { result ≡ length (method_names (map member_of members.now)) }
{
    let mut count = 0;
    for member in members {
        if let Member::Method { .. } = member {
            count += 1;
        }
    }
    count
}

/// Whether the own names of a class tell that its methods have different names.
fn have_methods_apart(family: &Family, number: usize, members: &[Member]) -> bool
    requires family { IsFamily family.now }
    requires members { members_at (tree_of family.now) number ≡ map member_of members.now }
    ensures { result ≡ true → repeats (method_names (map member_of members.now)) ≡ [] }
{
    match family.own.get(number) {
        Some(own) => own.methods.len() == count_methods(members),
        None => false,
    }
}

/// The first fault so far, or a method's name that stands a second time in its class, whichever comes first. Only where there is
/// such a name are the names gone through again, for its offset.
pub(crate) fn note_methods(
    alloc: Global,
    family: &Family,
    number: usize,
    members: &[Member],
    first: Option<ClassFault>,
) -> Result<Option<ClassFault>, NoMemory>
    requires family { IsFamily family.now }
    requires members { members_at (tree_of family.now) number ≡ map member_of members.now }
    ensures { IfOk result (λ f. f ≡ noted first (twice_faults (method_names (map member_of members.now)))) }
{
    if have_methods_apart(family, number, members) {
        return Ok(first);
    }
    note_repeated_methods(alloc, members, first)
}

fn note_repeated_methods(
    alloc: Global,
    members: &[Member],
    first: Option<ClassFault>,
) -> Result<Option<ClassFault>, NoMemory>
    ensures { IfOk result (λ f. f ≡ noted first (twice_faults (method_names (map member_of members.now)))) }
{
    let mut seen = NameSet::new(alloc);
    let mut found = first;
    for member in members {
        if let Member::Method { name, .. } = member {
            found = see(&mut seen, name, found)?;
        }
    }
    Ok(found)
}

fn note_names(
    alloc: Global,
    params: &[Param],
    first: Option<ClassFault>,
) -> Result<Option<ClassFault>, NoMemory>
    ensures { IfOk result (λ f. f ≡ noted first (twice_faults (param_names params.now))) }
{
    let mut seen = NameSet::new(alloc);
    let mut found = first;
    for param in params {
        found = see(&mut seen, &param.name, found)?;
    }
    Ok(found)
}

/// A type that is no class of the program.
fn note_type(classes: &NameSet, ty: &TypeName, first: Option<ClassFault>) -> Option<ClassFault>
    ensures { result ≡ noted first (type_faults (has_text classes.now) ty.now) }
{
    match ty {
        TypeName::Class(name) if !classes.contains(name.text) => {
            first_of(first, ClassFault::UnknownClass(name.at))
        }
        _ => first,
    }
}

fn note_result(
    classes: &NameSet,
    returns: &Option<TypeName>,
    first: Option<ClassFault>,
) -> Option<ClassFault>
    ensures { result ≡ noted first (result_faults (has_text classes.now) returns.now) }
{
    match returns {
        Some(ty) => note_type(classes, ty, first),
        None => first,
    }
}

fn note_types(classes: &NameSet, params: &[Param], first: Option<ClassFault>) -> Option<ClassFault>
    ensures { result ≡ noted first (flat_map (λ p. type_faults (has_text classes.now) p.ty) params.now) }
{
    let mut found = first;
    for param in params {
        found = note_type(classes, &param.ty, found);
    }
    found
}

/// The first fault so far, or that there are too many where this name stands; without a name there are not.
pub(crate) fn note_excess(name: Option<&Name>, first: Option<ClassFault>) -> Option<ClassFault>
    ensures { result ≡ noted first (too_many_faults (option_map (λ n. n.now) name.entry)) }
{
    match name {
        Some(name) => first_of(first, ClassFault::TooMany(name.at)),
        None => first,
    }
}

/// The name of the parameter with this number, counted from 0.
fn param_at<'p, 'a>(params: &'p [Param<'a>], number: usize) -> Option<&'p Name<'a>>
    ensures { option_map (λ n. n.now) result ≡ slice_get (param_names params.now) number }
{
    match params.get(number) {
        Some(param) => Some(&param.name),
        None => None,
    }
}

/// Parameters: a name again, a type that is no class, one too many.
#[tactic(auto, using(crate::proofs::Noting::noted_append))]
fn note_params(
    alloc: Global,
    classes: &NameSet,
    params: &[Param],
    first: Option<ClassFault>,
) -> Result<Option<ClassFault>, NoMemory>
    ensures { IfOk result (λ f. f ≡ noted first (params_faults (has_text classes.now) params.now)) }
{
    let found = note_names(alloc, params, first)?;
    let found = note_types(classes, params, found);
    Ok(note_excess(param_at(params, MOST_PARAMS), found))
}

#[tactic(auto, using(crate::proofs::Noting::noted_append))]
fn note_member(
    alloc: Global,
    classes: &NameSet,
    member: &Member,
    first: Option<ClassFault>,
) -> Result<Option<ClassFault>, NoMemory>
    ensures { IfOk result (λ f. f ≡ noted first (member_all_class_faults (has_text classes.now) (member_of member.now))) }
{
    match member {
        Member::Field { ty, .. } => Ok(note_type(classes, ty, first)),
        Member::Ctor { params, .. } => note_params(alloc, classes, params.as_slice(), first),
        Member::Method {
            result: returns,
            params,
            ..
        } => {
            let found = note_result(classes, returns, first);
            note_params(alloc, classes, params.as_slice(), found)
        }
    }
}

/// The first fault so far, or the first one of these members, whichever comes first.
pub(crate) fn note_members(
    alloc: Global,
    classes: &NameSet,
    members: &[Member],
    first: Option<ClassFault>,
) -> Result<Option<ClassFault>, NoMemory>
    ensures { IfOk result (λ f. f ≡ noted first (flat_map (member_all_class_faults (has_text classes.now)) (map member_of members.now))) }
{
    let mut found = first;
    for member in members {
        found = note_member(alloc, classes, member, found)?;
    }
    Ok(found)
}

/// The name after `extends`, where it is no class of the program.
pub(crate) fn note_above(
    classes: &NameSet,
    above: &Option<Name>,
    first: Option<ClassFault>,
) -> Option<ClassFault>
    ensures { result ≡ noted first (above_faults (has_text classes.now) above.now) }
{
    match above {
        Some(name) if !classes.contains(name.text) => {
            first_of(first, ClassFault::UnknownClass(name.at))
        }
        _ => first,
    }
}
