//! Which class stands above which, and what each class inherits.

ghost use Rattle.std.specs.Prelude.{◌≡◌, ◌<◌, length, Some, reverse, map, position, bytes_eq, option_map, option_and_then, slice_get, is_some, IfOk};
ghost use Rattle.std.specs.List.{list_any};
ghost use Rattle.syntax.specs.Trees.{ProgramTree};
ghost use Rattle.syntax.specs.Views.{member_of, class_of};
ghost use Rattle.classes.specs.Members.{class_names, field_names};
ghost use Rattle.classes.specs.Names.{distinct, has_text, texts_of};
ghost use Rattle.classes.specs.Own.{all_own_names};
ghost use Rattle.classes.specs.Lines.{above, above_in, is_on_circle, ancestor_classes, inherited, all_members, members_at, says_so, class_named};
ghost use Rattle.classes.specs.Lines as lines;
ghost use Rattle.classes.specs.Climbs.{climb_of, have_run, fields_above, with_fields};
ghost use Rattle.classes.specs.Overriding.{class_of_type, field_from, field_named};
ghost use Rattle.classes.specs.Families.{first_places, all_above, members_along, tree_of, IsFamily, field_data};

use crate::above::counts_runnable;
use crate::climbs::{Climb, all_climbs, climb_at};
use crate::names::NameSet;
use crate::own::OwnNames;
use crate::starts::has_entry;
use std::alloc::{AllocError as NoMemory, Global};
use syntax::{Class, Member, TypeName};

/// A field by the number of the class that declares it and by its place among the fields of that class.
#[derive(Clone, Copy)]
pub(crate) struct FieldPlace {
    pub(crate) class: usize,
    pub(crate) place: usize,
}

/// A field that a name means.
#[derive(Clone, Copy)]
pub(crate) struct Field<'p, 'a> {
    pub(crate) at: FieldPlace,
    pub(crate) is_final: bool,
    pub(crate) ty: &'p TypeName<'a>,
}

/// The classes of a program by their numbers, and for each the number of the one that it extends.
#[derive(Drop)]
pub(crate) struct Family<'p, 'a> {
    pub(crate) classes: &'p [Class<'a>],
    /// The names of the classes, each once.
    pub(crate) names: &'p NameSet<'a>,
    /// For each class the names of its own fields and methods.
    pub(crate) own: &'p [OwnNames<'a>],
    /// For each of these names the first class that has it.
    pub(crate) firsts: Vec<usize>,
    pub(crate) above: Vec<Option<usize>>,
    /// What as many steps up as there are classes meet from each.
    pub(crate) climbs: Vec<Climb>,
}

/// The number of the first class with a name.
fn number_of(names: &NameSet, firsts: &[usize], text: &str) -> Option<usize>
    ensures { result ≡ option_and_then (slice_get firsts.now) (position (bytes_eq text.now) names.now) }
{
    match names.number_of(text) {
        Some(place) => firsts.get(place).copied(),
        None => None,
    }
}

/// For each class the number of the one that it extends.
fn all_above(
    alloc: Global,
    classes: &[Class],
    names: &NameSet,
    firsts: &[usize],
) -> Result<Vec<Option<usize>>, NoMemory>
    requires names { names.now ≡ distinct (class_names (map class_of classes.now)) }
    requires firsts { firsts.now ≡ first_places (class_names (map class_of classes.now)) }
    ensures { IfOk result (λ above. above.items ≡ all_above (map class_of classes.now)) }
{
    let mut above = Vec::new(alloc);
    for class in classes {
        above.push(number_above(class, names, firsts))?;
    }
    Ok(above)
}

fn number_above(class: &Class, names: &NameSet, firsts: &[usize]) -> Option<usize>
    ensures { (tree : ProgramTree) → names.now ≡ distinct (class_names tree) → firsts.now ≡ first_places (class_names tree)
        → result ≡ above_in tree (Some (class_of class.now)) }
{
    match &class.above {
        Some(name) => number_of(names, firsts, name.text),
        None => None,
    }
}

impl<'p, 'a> Family<'p, 'a> {
    /// The family of classes with these names, of which the first classes with them are known.
    pub(crate) fn new(
        alloc: Global,
        classes: &'p [Class<'a>],
        names: &'p NameSet<'a>,
        own: &'p [OwnNames<'a>],
        firsts: Vec<usize>,
    ) -> Result<Family<'p, 'a>, NoMemory>
        requires some { 0 < length classes.now }
        requires names { names.now ≡ distinct (class_names (map class_of classes.now)) }
        requires own { own.now ≡ all_own_names (map class_of classes.now) }
        requires firsts { firsts.items ≡ first_places (class_names (map class_of classes.now)) }
        ensures family { IfOk result (λ family. IsFamily family) }
        ensures classes { IfOk result (λ family. family.classes.now ≡ classes.entry.now) }
        ensures names { IfOk result (λ family. family.names.now ≡ names.entry.now) }
    {
        let above = all_above(alloc, classes, names, firsts.as_slice())?;
        let climbs = all_climbs(alloc, classes, above.as_slice())?;
        Ok(Family {
            classes,
            names,
            own,
            firsts,
            above,
            climbs,
        })
    }

    /// Whether a class itself declares a field of this name.
    fn declares_field(&self, number: usize, text: &str) -> bool
        requires { IsFamily self.now }
        ensures { result ≡ has_text (texts_of (field_names (members_at (tree_of self.now) number))) text.now }
    {
        match self.own.get(number) {
            Some(own) => own.fields.contains(text),
            None => false,
        }
    }

    /// Whether one of these classes declares a field of this name.
    pub(crate) fn any_declares_field(&self, order: &[usize], text: &str) -> bool
        requires { IsFamily self.now }
        ensures { result ≡ has_text (texts_of (field_names (members_along (tree_of self.now) order.now))) text.now }
    {
        for number in order {
            if self.declares_field(*number, text) {
                return true;
            }
        }
        false
    }

    /// The number of the first class with a name.
    fn class_named(&self, text: &str) -> Option<usize>
        requires { IsFamily self.now }
        ensures { result ≡ class_named (tree_of self.now) text.now }
    {
        number_of(self.names, self.firsts.as_slice(), text)
    }

    /// The number of the class that a type is.
    pub(crate) fn class_of_type(&self, ty: &TypeName) -> Option<usize>
        requires { IsFamily self.now }
        ensures { result ≡ class_of_type (tree_of self.now) ty.now }
    {
        match ty {
            TypeName::Class(name) => self.class_named(name.text),
            _ => None,
        }
    }

    /// Whether a class extends another.
    pub(crate) fn has_heirs(&self) -> bool
        ensures { result ≡ list_any is_some self.now.above.items }
    {
        self.above.iter().any(|above| above.is_some())
    }

    /// The number of the class that a class extends.
    pub(crate) fn above(&self, number: usize) -> Option<usize>
        requires { IsFamily self.now }
        ensures { result ≡ above (tree_of self.now) number }
    {
        match self.above.get(number) {
            Some(above) => *above,
            None => None,
        }
    }

    /// What as many steps up from a class as there are classes meet.
    fn climb(&self, number: usize) -> Climb
        requires { IsFamily self.now }
        ensures { result ≡ climb_of (tree_of self.now) (lines.above (tree_of self.now)) (length (tree_of self.now)) number }
    {
        climb_at(self.climbs.as_slice(), number)
    }

    /// Whether a class is on or below a circle: going up from it leads on for as many steps as there are classes.
    pub(crate) fn is_on_circle(&self, number: usize) -> bool
        requires { IsFamily self.now }
        ensures { result ≡ is_on_circle (tree_of self.now) number }
    {
        self.climb(number).end.is_some()
    }

    /// Whether a class or an ancestor of it says `implements Runnable`.
    pub(crate) fn counts(&self, number: usize) -> bool
        requires { IsFamily self.now }
        ensures { result ≡ says_so (tree_of self.now) number }
    {
        counts_runnable(
            self.classes,
            self.above.as_slice(),
            self.climbs.as_slice(),
            number,
        )
    }

    /// Whether a class inherits a `run` to begin with.
    fn inherits_run(&self, number: usize) -> bool
        requires { IsFamily self.now }
        ensures { result ≡ have_run (inherited (tree_of self.now) number) }
    {
        if self.is_on_circle(number) {
            return false;
        }
        match self.above(number) {
            Some(above) => self.climb(above).has_run,
            None => false,
        }
    }

    /// Whether a class has a `run` to begin with, own or inherited, where these are its own members.
    pub(crate) fn has_run(&self, number: usize, members: &[Member]) -> bool
        requires family { IsFamily self.now }
        requires members { members_at (tree_of self.now) number ≡ map member_of members.now }
        ensures { result ≡ have_run (all_members (tree_of self.now) number) }
    {
        if self.inherits_run(number) {
            return true;
        }
        has_entry(members, "run")
    }

    /// The nearest class above a class that declares fields.
    fn fields_above(&self, number: usize) -> Option<usize>
        requires { IsFamily self.now }
        ensures { result ≡ fields_above (tree_of self.now) number }
    {
        match self.above(number) {
            Some(above) => self.climb(above).with_fields,
            None => None,
        }
    }

    /// The classes that a class inherits fields from, the nearest first. On or below a circle there are none.
    pub(crate) fn line_with_fields(
        &self,
        alloc: Global,
        number: usize,
    ) -> Result<Vec<usize>, NoMemory>
        requires { IsFamily self.now }
        ensures { IfOk result (λ found. found.items ≡ with_fields (tree_of self.now) (ancestor_classes (tree_of self.now) number)) }
    {
        let mut line = Vec::new(alloc);
        if self.is_on_circle(number) {
            return Ok(line);
        }
        let mut next = self.fields_above(number);
        let mut left = self.above.len();
        while left > 0 {
            let Some(class) = next else {
                return Ok(line);
            };
            line.push(class)?;
            next = self.fields_above(class);
            left -= 1;
        }
        Ok(line)
    }

    /// The classes that a class inherits from, the nearest first. On or below a circle there are none.
    pub(crate) fn line(&self, alloc: Global, number: usize) -> Result<Vec<usize>, NoMemory>
        requires { IsFamily self.now }
        ensures { IfOk result (λ found. found.items ≡ ancestor_classes (tree_of self.now) number) }
    {
        let mut line = Vec::new(alloc);
        if self.is_on_circle(number) {
            return Ok(line);
        }
        let mut next = self.above(number);
        let mut left = self.above.len();
        while left > 0 {
            let Some(class) = next else {
                return Ok(line);
            };
            line.push(class)?;
            next = self.above(class);
            left -= 1;
        }
        Ok(line)
    }

    /// The field with a name that a class itself declares.
    fn own_field(&self, number: usize, name: &str) -> Option<Field<'p, 'a>>
        ensures { option_map field_data result ≡ field_from number 0 (members_at (tree_of self.now) number) name.now }
    {
        match self.classes.get(number) {
            Some(class) => field_among(class.members.as_slice(), number, name),
            None => None,
        }
    }

    /// The field that a name means in a class: its own, or else the nearest ancestor's.
    pub(crate) fn field_named(&self, number: usize, name: &str) -> Option<Field<'p, 'a>>
        requires { IsFamily self.now }
        ensures { option_map field_data result ≡ field_named (tree_of self.now) number name.now }
    {
        if let Some(field) = self.own_field(number, name) {
            return Some(field);
        }
        if self.is_on_circle(number) {
            return None;
        }
        let mut next = self.fields_above(number);
        let mut left = self.classes.len();
        while left > 0 {
            let Some(class) = next else {
                return None;
            };
            if let Some(field) = self.own_field(class, name) {
                return Some(field);
            }
            next = self.fields_above(class);
            left -= 1;
        }
        None
    }
}

/// Numbers from the last to the first.
pub(crate) fn reversed(alloc: Global, numbers: &[usize]) -> Result<Vec<usize>, NoMemory>
    ensures { IfOk result (λ found. found.items ≡ reverse numbers.now) }
{
    let mut found = Vec::new(alloc);
    let mut left = numbers.len();
    while left > 0 {
        left -= 1;
        found.push(numbers[left])?;
    }
    Ok(found)
}

/// The first field with a name among the members of the class with this number.
fn field_among<'p, 'a>(members: &'p [Member<'a>], class: usize, name: &str) -> Option<Field<'p, 'a>>
    ensures { option_map field_data result ≡ field_from class 0 (map member_of members.entry.now) name.now }
{
    let mut place = 0;
    for member in members {
        if let Member::Field {
            is_final,
            ty,
            name: other,
            ..
        } = member
        {
            if other.text == name {
                return Some(Field {
                    at: FieldPlace { class, place },
                    is_final: *is_final,
                    ty,
                });
            }
            place += 1;
        }
    }
    None
}
