//! Which class each class extends, and which classes count as `implements Runnable`.

ghost use Rattle.std.specs.Prelude.{◌≡◌, map, length, IfOk};
ghost use Rattle.syntax.specs.Views.{class_of};
ghost use Rattle.classes.specs.Lines.{says_runnable};
ghost use Rattle.classes.specs.Building.{above_named, above_at, counts_among};
ghost use Rattle.classes.specs.Climbs.{AreClimbs};

use crate::climbs::{Climb, above_at, climb_at};
use crate::names::NameSet;
use std::alloc::{AllocError as NoMemory, Global};
use syntax::Class;

/// The class that a class extends, where the classes have these names.
fn class_above(names: &NameSet, class: &Class) -> Option<usize>
    ensures { result ≡ above_named names.now (class_of class.now) }
{
    match &class.above {
        Some(name) => names.number_of(name.text),
        None => None,
    }
}

/// The class that each of these classes extends.
pub(crate) fn classes_above(
    alloc: Global,
    names: &NameSet,
    classes: &[Class],
) -> Result<Vec<Option<usize>>, NoMemory>
    ensures { IfOk result (λ aboves. aboves.items ≡ map (above_named names.now) (map class_of classes.now)) }
{
    let mut aboves = Vec::new(alloc);
    for class in classes {
        aboves.push(class_above(names, class))?;
    }
    Ok(aboves)
}

fn says_runnable(classes: &[Class], class: usize) -> bool
    ensures { result ≡ says_runnable (map class_of classes.now) class }
{
    match classes.get(class) {
        Some(class) => class.runnable,
        None => false,
    }
}

/// Whether a class or an ancestor of it says `implements Runnable`. What stands above each, and what is met there, is known.
pub(crate) fn counts_runnable(
    classes: &[Class],
    aboves: &[Option<usize>],
    climbs: &[Climb],
    class: usize,
) -> bool
    requires { AreClimbs (map class_of classes.now) (above_at aboves.now) (length (map class_of classes.now)) climbs.now }
    ensures { result ≡ counts_among (map class_of classes.now) aboves.now class }
{
    if says_runnable(classes, class) {
        return true;
    }
    match above_at(aboves, class) {
        Some(above) => climb_at(climbs, above).says_runnable,
        None => false,
    }
}
