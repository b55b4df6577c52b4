//! Finds the first fault of a program's classes.

ghost use Rattle.std.specs.Prelude.{◌≡◌, ◌⊎◌, ◌||◌, ℕ, not, List, ◌++◌, ◌∷◌, [], None, map, IfOk, OnOk, OnErr, if◌then◌else◌};
ghost use Rattle.syntax.specs.Views.{member_of, class_of, program_tree};
ghost use Rattle.classes.specs.Names.{has_text, with_text, distinct};
ghost use Rattle.classes.specs.declared.fault.ClassFault.TheVariants as kind;
ghost use Rattle.classes.specs.Members.{class_names};
ghost use Rattle.classes.specs.Lines.{all_members, members_at};
ghost use Rattle.classes.specs.Climbs.{HaveSameFields};
ghost use Rattle.classes.specs.Lines as lines;
ghost use Rattle.classes.specs.Alike.{AreWell};
ghost use Rattle.classes.specs.Faults.{twice_faults, circle_faults, other_faults, class_faults, class_faults_from, is_main, missing_main, all_class_faults};
ghost use Rattle.classes.specs.Families.{members_along, first_places, tree_of, IsFamily, rows_data, class_headings, AreHeadings};
ghost use Rattle.classes.specs.Own.{all_own_names};
ghost use Rattle.classes.specs.Noted.{noted};

use crate::alike::well_overriding;
use crate::clashes::{Inheritance, note_bad_overrides};
use crate::constructors::{has_finals, note_constructors, note_missing_constructor};
use crate::family::{Family, reversed};
use crate::fault::ClassFault;
use crate::first::first_of;
use crate::limits::MOST_FIELDS;
use crate::members::{note_above, note_excess, note_fields, note_members, note_methods};
use crate::names::NameSet;
use crate::numbered_fields::field_at;
use crate::overriding::headings_where_inherited;
use crate::own::OwnNames;
use crate::starts::have_entry;
use std::alloc::{AllocError as NoMemory, Global};
use syntax::{Class, Name, Program};

/// The fault of a class that counts as `implements Runnable` and has no `run`.
fn note_missing_run(
    class: &Name,
    counts: bool,
    has_run: bool,
    first: Option<ClassFault>,
) -> Option<ClassFault>
    ensures { result ≡ noted first (if not counts || has_run then [] else kind.NoRun class.now.at ∷ []) }
{
    if !counts || has_run {
        first
    } else {
        first_of(first, ClassFault::NoRun(class.at))
    }
}

fn note_circle(class: &Name, is_on_circle: bool, first: Option<ClassFault>) -> Option<ClassFault>
    ensures { result ≡ noted first (circle_faults class.now is_on_circle) }
{
    if is_on_circle {
        first_of(first, ClassFault::Circle(class.at))
    } else {
        first
    }
}

/// The faults of a class but for the names of its fields. It has the fields of these classes in order.
#[tactic(auto, using(crate::proofs::Noting::noted_append))]
fn note_others(
    inheritance: &Inheritance,
    number: usize,
    class: &Class,
    order: &[usize],
    first: Option<ClassFault>,
) -> Result<Option<ClassFault>, NoMemory>
    requires family { IsFamily inheritance.now.family.now }
    requires rows { AreHeadings (tree_of inheritance.now.family.now) (class_headings (rows_data inheritance.now.headings.now)) }
    requires well { AreWell (tree_of inheritance.now.family.now) (class_headings (rows_data inheritance.now.headings.now)) inheritance.now.well.now }
    requires own { members_at (tree_of inheritance.now.family.now) number ≡ map member_of class.now.members.items }
    requires order { HaveSameFields (members_along (tree_of inheritance.now.family.now) order.now) (all_members (tree_of inheritance.now.family.now) number) }
    ensures { IfOk result (λ f. f ≡ noted first (other_faults (tree_of inheritance.now.family.now) number (class_of class.now))) }
{
    let alloc = inheritance.alloc;
    let family = inheritance.family;
    let members = class.members.as_slice();
    let classes = family.classes;
    let found = note_methods(alloc, family, number, members, first)?;
    let found = note_above(family.names, &class.above, found);
    let found = note_members(alloc, family.names, members, found)?;
    let found = note_missing_constructor(&class.name, classes, order, members, found);
    let found = note_constructors(alloc, &class.name, classes, order, members, found)?;
    let has_run = family.has_run(number, members);
    let found = note_missing_run(&class.name, family.counts(number), has_run, found);
    let found = note_excess(field_at(classes, order, MOST_FIELDS), found);
    let found = note_circle(&class.name, family.is_on_circle(number), found);
    Ok(note_bad_overrides(inheritance, number, found))
}

/// The faults of a class that extends none.
fn note_alone<'p, 'a>(
    inheritance: &Inheritance<'_, 'p, 'a>,
    number: usize,
    class: &Class<'a>,
    first: Option<ClassFault>,
) -> Result<Option<ClassFault>, NoMemory>
    requires family { IsFamily inheritance.now.family.now }
    requires rows { AreHeadings (tree_of inheritance.now.family.now) (class_headings (rows_data inheritance.now.headings.now)) }
    requires well { AreWell (tree_of inheritance.now.family.now) (class_headings (rows_data inheritance.now.headings.now)) inheritance.now.well.now }
    requires own { members_at (tree_of inheritance.now.family.now) number ≡ map member_of class.now.members.items }
    requires alone { lines.above (tree_of inheritance.now.family.now) number ≡ None }
    ensures { IfOk result (λ f. f ≡ noted first (class_faults (tree_of inheritance.now.family.now) number (class_of class.now))) }
{
    let members = class.members.as_slice();
    let found = note_fields(
        inheritance.alloc,
        inheritance.family,
        number,
        &[],
        members,
        first,
    )?;
    note_others(inheritance, number, class, &[number], found)
}

/// The faults of a class.
fn note_class<'p, 'a>(
    inheritance: &Inheritance<'_, 'p, 'a>,
    number: usize,
    class: &Class<'a>,
    first: Option<ClassFault>,
) -> Result<Option<ClassFault>, NoMemory>
    requires family { IsFamily inheritance.now.family.now }
    requires rows { AreHeadings (tree_of inheritance.now.family.now) (class_headings (rows_data inheritance.now.headings.now)) }
    requires well { AreWell (tree_of inheritance.now.family.now) (class_headings (rows_data inheritance.now.headings.now)) inheritance.now.well.now }
    requires own { members_at (tree_of inheritance.now.family.now) number ≡ map member_of class.now.members.items }
    ensures { IfOk result (λ f. f ≡ noted first (class_faults (tree_of inheritance.now.family.now) number (class_of class.now))) }
{
    match inheritance.family.above(number) {
        Some(_) => note_heir(inheritance, number, class, first),
        None => note_alone(inheritance, number, class, first),
    }
}

/// The faults of a class that may extend another.
fn note_heir<'p, 'a>(
    inheritance: &Inheritance<'_, 'p, 'a>,
    number: usize,
    class: &Class<'a>,
    first: Option<ClassFault>,
) -> Result<Option<ClassFault>, NoMemory>
    requires family { IsFamily inheritance.now.family.now }
    requires rows { AreHeadings (tree_of inheritance.now.family.now) (class_headings (rows_data inheritance.now.headings.now)) }
    requires well { AreWell (tree_of inheritance.now.family.now) (class_headings (rows_data inheritance.now.headings.now)) inheritance.now.well.now }
    requires own { members_at (tree_of inheritance.now.family.now) number ≡ map member_of class.now.members.items }
    ensures { IfOk result (λ f. f ≡ noted first (class_faults (tree_of inheritance.now.family.now) number (class_of class.now))) }
{
    let members = class.members.as_slice();
    let line = inheritance
        .family
        .line_with_fields(inheritance.alloc, number)?;
    let mut order = reversed(inheritance.alloc, line.as_slice())?;
    let found = note_fields(
        inheritance.alloc,
        inheritance.family,
        number,
        order.as_slice(),
        members,
        first,
    )?;
    order.push(number)?;
    note_others(inheritance, number, class, order.as_slice(), found)
}

fn note_classes(
    inheritance: &Inheritance,
    first: Option<ClassFault>,
) -> Result<Option<ClassFault>, NoMemory>
    requires family { IsFamily inheritance.now.family.now }
    requires rows { AreHeadings (tree_of inheritance.now.family.now) (class_headings (rows_data inheritance.now.headings.now)) }
    requires well { AreWell (tree_of inheritance.now.family.now) (class_headings (rows_data inheritance.now.headings.now)) inheritance.now.well.now }
    ensures { IfOk result (λ f. f ≡ noted first (class_faults_from (tree_of inheritance.now.family.now) 0 (tree_of inheritance.now.family.now))) }
{
    let mut found = first;
    for (number, class) in inheritance.family.classes.iter().enumerate() {
        found = note_class(inheritance, number, class, found)?;
    }
    Ok(found)
}

/// Whether a class is one to begin with.
fn begins_program(
    alloc: Global,
    family: &Family,
    number: usize,
    class: &Class,
) -> Result<bool, NoMemory>
    requires { IsFamily family.now }
    ensures { IfOk result (λ begins. begins ≡ is_main class.now.name (all_members (tree_of family.now) number)) }
{
    if class.name.text != "Main" {
        return Ok(false);
    }
    let line = family.line(alloc, number)?;
    let mut order = reversed(alloc, line.as_slice())?;
    order.push(number)?;
    let order = order.as_slice();
    Ok(!has_finals(family.classes, order) && have_entry(family.classes, order, "main"))
}

fn note_missing_main(
    alloc: Global,
    family: &Family,
    first: Option<ClassFault>,
) -> Result<Option<ClassFault>, NoMemory>
    requires { IsFamily family.now }
    ensures { IfOk result (λ f. f ≡ noted first (missing_main (tree_of family.now))) }
{
    for (number, class) in family.classes.iter().enumerate() {
        if begins_program(alloc, family, number, class)? {
            return Ok(first);
        }
    }
    Ok(first_of(first, ClassFault::NoMain))
}

/// Adds the name of a class to those that were seen, and its number to those of first classes. A name that was seen before is a
/// fault, and its class is no first one.
fn see_class<'a>(
    number: usize,
    class: &Class<'a>,
    names: &mut NameSet<'a>,
    firsts: &mut Vec<usize>,
    first: Option<ClassFault>,
) -> Result<Option<ClassFault>, NoMemory>
    ensures fault { IfOk result (λ f. f ≡ (if has_text names.old class.now.name.text then noted first (kind.Twice class.now.name.at ∷ []) else first)) }
    ensures names { OnOk result (names.new ≡ with_text names.old class.now.name.text) }
    ensures firsts { OnOk result (firsts.new.items ≡ (if has_text names.old class.now.name.text then firsts.old.items else firsts.old.items ++ number ∷ [])) }
    ensures kept { OnErr result ((names.new ≡ names.old) ⊎ (names.new ≡ with_text names.old class.now.name.text)) }
{
    let is_new = names.add(class.name.text)?;
    if is_new {
        firsts.push(number)?;
        Ok(first)
    } else {
        Ok(first_of(first, ClassFault::Twice(class.name.at)))
    }
}

/// The names of classes that stand again. The set has then the names of all classes, after want of memory a front of them, and the
/// list for each of these the number of the first class that has it.
fn note_class_names<'a>(
    classes: &[Class<'a>],
    names: &mut NameSet<'a>,
    firsts: &mut Vec<usize>,
) -> Result<Option<ClassFault>, NoMemory>
    requires names { names.old ≡ [] }
    requires firsts { firsts.old.items ≡ [] }
    ensures fault { IfOk result (λ f. f ≡ noted None (twice_faults (class_names (map class_of classes.now)))) }
    ensures names { OnOk result (names.new ≡ distinct (class_names (map class_of classes.now))) }
    ensures firsts { OnOk result (firsts.new.items ≡ first_places (class_names (map class_of classes.now))) }
    ensures kept { OnErr result ((more : List (List ℕ)) × (distinct (class_names (map class_of classes.now)) ≡ names.new ++ more)) }
{
    let mut found = None;
    for (number, class) in classes.iter().enumerate() {
        found = see_class(number, class, names, firsts, found)?;
    }
    Ok(found)
}

/// The first of this fault and those of classes, which have these names.
fn note_all<'p, 'a>(
    alloc: Global,
    classes: &'p [Class<'a>],
    names: &'p NameSet<'a>,
    own: &'p [OwnNames<'a>],
    firsts: Vec<usize>,
    first: Option<ClassFault>,
) -> Result<Option<ClassFault>, NoMemory>
    requires names { names.now ≡ distinct (class_names (map class_of classes.now)) }
    requires own { own.now ≡ all_own_names (map class_of classes.now) }
    requires firsts { firsts.items ≡ first_places (class_names (map class_of classes.now)) }
    ensures { IfOk result (λ f. f ≡ noted (noted first (class_faults_from (map class_of classes.entry.now) 0 (map class_of classes.entry.now)))
        (missing_main (map class_of classes.entry.now))) }
{
    if classes.is_empty() {
        return Ok(first_of(first, ClassFault::NoMain));
    }
    let family = Family::new(alloc, classes, names, own, firsts)?;
    let headings = headings_where_inherited(alloc, &family)?;
    let headings = headings.as_slice();
    let well = well_overriding(alloc, &family, headings)?;
    let inheritance = Inheritance {
        alloc,
        family: &family,
        headings,
        well: well.as_slice(),
    };
    let found = note_classes(&inheritance, first)?;
    note_missing_main(alloc, &family, found)
}

/// The first fault of a program whose classes have these own names, if it has one. The set has then the names of its classes, each
/// once, in order of first appearance; after want of memory a front of them.
#[tactic(auto, using(crate::proofs::Noting::noted_append))]
pub fn first_fault<'a>(
    alloc: Global,
    program: &Program<'a>,
    own: &[OwnNames<'a>],
    names: &mut NameSet<'a>,
) -> Result<Option<ClassFault>, NoMemory>
    requires own { own.now ≡ all_own_names (program_tree program.now) }
    requires names { names.old ≡ [] }
    ensures fault { IfOk result (λ f. f ≡ noted None (all_class_faults (program_tree program.now))) }
    ensures names { OnOk result (names.new ≡ distinct (class_names (program_tree program.now))) }
    ensures kept { OnErr result ((more : List (List ℕ)) × (distinct (class_names (program_tree program.now)) ≡ names.new ++ more)) }
{
    let classes = program.classes.as_slice();
    let mut firsts = Vec::new(alloc);
    let found = note_class_names(classes, names, &mut firsts)?;
    note_all(alloc, classes, names, own, firsts, found)
}
