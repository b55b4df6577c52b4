//! Notes the methods that override one with another signature.

ghost use Rattle.std.specs.Prelude.{◌≡◌, ◌≤◌, ◌∷◌, [], map, length, drop, if◌then◌else◌};
ghost use Rattle.std.specs.List.{list_any};
ghost use Rattle.classes.specs.declared.fault.ClassFault.TheVariants as kind;
ghost use Rattle.classes.specs.Overriding.{clashes, overrides_badly};
ghost use Rattle.classes.specs.Faults.{override_faults};
ghost use Rattle.classes.specs.Families.{tree_of, IsFamily, heading_data, rows_data, class_headings};
ghost use Rattle.classes.specs.Lines.{ancestors_of, ancestor_classes};
ghost use Rattle.classes.specs.Alike.{well_at, AreWell};
ghost use Rattle.classes.specs.Noted.{noted};

use crate::family::Family;
use crate::fault::ClassFault;
use crate::first::{first_of, is_told};
use crate::overriding::{Heading, is_same_signature};
use std::alloc::Global;

/// What the faults of a class are found by: memory, which class extends which, the headings of the methods of each class
/// where one extends another, and for each class how many of its methods, from the first on, are known to override well.
#[derive(Clone, Copy)]
pub(crate) struct Inheritance<'f, 'p, 'a> {
    pub(crate) alloc: Global,
    pub(crate) family: &'f Family<'p, 'a>,
    pub(crate) headings: &'f [Vec<Heading<'p, 'a>>],
    pub(crate) well: &'f [usize],
}

/// Whether two methods have one name and may not override each other.
fn clash(one: &Heading, other: &Heading) -> bool
    ensures { result ≡ clashes (heading_data one.now) (heading_data other.now) }
{
    let name = one.name;
    let other_name = other.name;
    name.text == other_name.text && !is_same_signature(one, other)
}

fn clashes_with_any(one: &Heading, others: &[Heading]) -> bool
    ensures { result ≡ list_any (clashes (heading_data one.now)) (map heading_data others.now) }
{
    for other in others {
        if clash(one, other) {
            return true;
        }
    }
    false
}

fn clashes_with_class(rows: &[Vec<Heading>], class: usize, one: &Heading) -> bool
    ensures { result ≡ list_any (clashes (heading_data one.now)) (class_headings (rows_data rows.now) class) }
{
    match rows.get(class) {
        Some(row) => clashes_with_any(one, row.as_slice()),
        None => false,
    }
}

/// Whether a method of a class clashes with one of a class above.
fn overrides_badly(family: &Family, rows: &[Vec<Heading>], number: usize, one: &Heading) -> bool
    requires { IsFamily family.now }
    ensures { result ≡ overrides_badly (class_headings (rows_data rows.now)) (ancestors_of (tree_of family.now) number) (heading_data one.now) }
{
    let mut next = family.above(number);
    let mut left = family.above.len();
    while left > 0 {
        let Some(class) = next else {
            return false;
        };
        if clashes_with_class(rows, class, one) {
            return true;
        }
        next = family.above(class);
        left -= 1;
    }
    false
}

/// The first fault so far, or that a method of a class overrides one that it may not override. It is looked for only where it
/// would be told.
fn note_clash(
    inheritance: &Inheritance,
    number: usize,
    one: &Heading,
    first: Option<ClassFault>,
) -> Option<ClassFault>
    requires { IsFamily inheritance.now.family.now }
    ensures { result ≡ noted first (if overrides_badly (class_headings (rows_data inheritance.now.headings.now)) (ancestors_of (tree_of inheritance.now.family.now) number) (heading_data one.now)
        then kind.BadOverride one.now.name.now.at ∷ [] else []) }
{
    let name = one.name;
    let fault = ClassFault::BadOverride(name.at);
    if !is_told(first, fault) {
        return first;
    }
    if overrides_badly(inheritance.family, inheritance.headings, number, one) {
        first_of(first, fault)
    } else {
        first
    }
}

fn note_clashes(
    inheritance: &Inheritance,
    number: usize,
    own: &[Heading],
    first: Option<ClassFault>,
) -> Option<ClassFault>
    requires { IsFamily inheritance.now.family.now }
    ensures { result ≡ noted first (override_faults (class_headings (rows_data inheritance.now.headings.now)) (ancestors_of (tree_of inheritance.now.family.now) number) (map heading_data own.now)) }
{
    let mut found = first;
    for one in own {
        found = note_clash(inheritance, number, one, found);
    }
    found
}

/// How many methods of a class, from the first on, override well, where so many of each class do.
fn well_at(well: &[usize], number: usize) -> usize
    ensures { result ≡ well_at well.now number }
{
    match well.get(number) {
        Some(count) => *count,
        None => 0,
    }
}

/// The methods behind so many.
fn behind<'o, 'p, 'a>(own: &'o [Heading<'p, 'a>], well: usize) -> &'o [Heading<'p, 'a>]
    requires { well ≤ length own.now }
    ensures { result.now ≡ drop well own.now }
{
    &own[well..]
}

/// The same of all of these methods but so many, from the first on.
fn note_clashes_from(
    inheritance: &Inheritance,
    number: usize,
    own: &[Heading],
    well: usize,
    first: Option<ClassFault>,
) -> Option<ClassFault>
    requires { IsFamily inheritance.now.family.now }
    ensures { result ≡ noted first (override_faults (class_headings (rows_data inheritance.now.headings.now)) (ancestors_of (tree_of inheritance.now.family.now) number) (drop well (map heading_data own.now))) }
{
    if well < own.len() {
        note_clashes(inheritance, number, behind(own, well), first)
    } else {
        first
    }
}

/// The same of the methods of a class behind those that are known to override well.
fn note_clashes_after(
    inheritance: &Inheritance,
    number: usize,
    first: Option<ClassFault>,
) -> Option<ClassFault>
    requires { IsFamily inheritance.now.family.now }
    ensures { let methods = class_headings (rows_data inheritance.now.headings.now) in
        result ≡ noted first (override_faults methods (ancestors_of (tree_of inheritance.now.family.now) number) (drop (well_at inheritance.now.well.now number) (methods number))) }
{
    let well = well_at(inheritance.well, number);
    match inheritance.headings.get(number) {
        Some(own) => note_clashes_from(inheritance, number, own.as_slice(), well, first),
        None => first,
    }
}

/// The faults of methods that override one that they may not override. Where the class is on or below a circle, there are none.
pub(crate) fn note_bad_overrides(
    inheritance: &Inheritance,
    number: usize,
    first: Option<ClassFault>,
) -> Option<ClassFault>
    requires family { IsFamily inheritance.now.family.now }
    requires well { AreWell (tree_of inheritance.now.family.now) (class_headings (rows_data inheritance.now.headings.now)) inheritance.now.well.now }
    ensures { let methods = class_headings (rows_data inheritance.now.headings.now) in
        result ≡ noted first (override_faults methods (ancestor_classes (tree_of inheritance.now.family.now) number) (methods number)) }
{
    if inheritance.family.is_on_circle(number) {
        return first;
    }
    note_clashes_after(inheritance, number, first)
}
