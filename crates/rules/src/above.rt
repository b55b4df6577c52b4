//! For each method the nearest one with its name above its class, found in one walk through the classes. A table has
//! for each name the nearest method from where the walk is. So what there is above a class is at hand when the walk
//! comes to it, and no line of classes is gone up again for each method.
ghost use Rattle.std.specs.Prelude.{◌≡◌, ◌<◌, ℕ, Option, Some, None, IfOk, IfSome, length, option_map, slice_get};
ghost use Rattle.core_program.specs.Kept.{kept_class};
ghost use Rattle.core_program.specs.Views.{kept_classes};
ghost use Rattle.forest.specs.Walks.{Leads};
ghost use Rattle.rules.specs.Above.{above_class, step_start, step_end, own_end, own_first, lines, nearest_above, nearest_from, AreRight, StandsAt, PassesOn};

use crate::cells::{Known, known_at, known_none, put_known, unknown};
use core_program::{CoreClass, CoreProgram};
use forest::{Step, walk};
use paths::{ClassId, MethodId};
use std::alloc::{AllocError as NoMemory, Global};

/// For each method what the walk finds. Nothing is known of a method that isn't met: on a circle of classes, or in none.
pub fn nearest_above(alloc: Global, program: &CoreProgram) -> Result<Vec<Known>, NoMemory>
    ensures { IfOk result (λ noted. AreRight (nearest_above program.now) noted.items) }
{
    let lines = lines(alloc, program)?;
    let steps = walk(alloc, lines.as_slice())?;
    let count = program.names.len();
    let mut current = known_none(alloc, count)?;
    let mut noted = unknown(alloc, count)?;
    note_all(
        program,
        steps.as_slice(),
        current.as_mut_slice(),
        noted.as_mut_slice(),
    );
    Ok(noted)
}

/// What each class extends.
fn lines(alloc: Global, program: &CoreProgram) -> Result<Vec<Option<usize>>, NoMemory>
    ensures { IfOk result (λ above. above.items ≡ lines program.now) }
{
    let mut above = Vec::new(alloc);
    for class in program.classes.as_slice() {
        above.push(number(class.above))?;
    }
    Ok(above)
}

/// The number of a class.
fn number(class: Option<ClassId>) -> Option<usize>
    ensures { result ≡ class }
{
    Some(class?.0 as usize)
}

/// Goes all of these steps.
fn note_all(program: &CoreProgram, steps: &[Step], current: &mut [Known], noted: &mut [Known])
    requires leads { Leads (lines program.now) None steps.now }
    requires at { StandsAt program.now None 0 current.old noted.old }
    ensures { AreRight (nearest_above program.now) noted.new }
{
    let mut depth = 0;
    for step in steps {
        let Some(next) = go(program, *step, depth, current, noted) else {
            return;
        };
        depth = next;
    }
}

/// Goes a step, and tells how many classes stand where it leads to and above. None where these are more than there are.
fn go(
    program: &CoreProgram,
    step: Step,
    depth: usize,
    current: &mut [Known],
    noted: &mut [Known],
) -> Option<usize>
    requires { StandsAt program.now (step_start program.now step) depth current.old noted.old }
    ensures noted { AreRight (nearest_above program.now) noted.new }
    ensures at { IfSome result (λ depth. StandsAt program.now (step_end program.now step) depth current.new noted.new) }
{
    match step {
        Step::Down(class) => go_down(program, class, depth, current, noted),
        Step::Up(class) => Some(go_up(program, class, depth, current, noted)),
    }
}

/// Goes down to a class: notes what is known above its own methods, and then puts these into the table.
fn go_down(
    program: &CoreProgram,
    class: usize,
    depth: usize,
    current: &mut [Known],
    noted: &mut [Known],
) -> Option<usize>
    requires { StandsAt program.now (above_class program.now class) depth current.old noted.old }
    ensures noted { AreRight (nearest_above program.now) noted.new }
    ensures at { IfSome result (λ depth. StandsAt program.now (Some class) depth current.new noted.new) }
{
    if depth >= program.classes.len() {
        return None;
    }
    note_own(program, class, current, noted);
    put_own(program, class, current);
    Some(depth + 1)
}

/// Goes up from a class: puts back what was known above its own methods.
fn go_up(
    program: &CoreProgram,
    class: usize,
    depth: usize,
    current: &mut [Known],
    noted: &[Known],
) -> usize
    requires { StandsAt program.now (Some class) depth current.old noted.now }
    ensures { StandsAt program.now (above_class program.now class) result current.new noted.now }
{
    put_back(program, class, noted, current);
    depth.saturating_sub(1)
}

/// The class with a number.
fn class_at(program: &CoreProgram, class: usize) -> Option<&CoreClass>
    ensures { option_map (λ c. kept_class c.now) result ≡ slice_get (kept_classes program.now) class }
{
    program.classes.get(class)
}

/// The place of the first of a class's own methods.
fn own_first(program: &CoreProgram, class: usize) -> usize
    ensures { result ≡ own_first (slice_get (kept_classes program.now) class) }
{
    match class_at(program, class) {
        Some(class) => class.first_method.0 as usize,
        None => 0,
    }
}

/// The place behind a class's own methods.
fn own_end(program: &CoreProgram, class: usize) -> usize
    ensures { result ≡ own_end (length program.now.names.items) (slice_get (kept_classes program.now) class) }
{
    match class_at(program, class) {
        Some(class) => (class.first_method.0 as usize)
            .saturating_add(class.method_count)
            .min(program.names.len()),
        None => 0,
    }
}

/// The number of the name of the method at a place.
fn name_at(program: &CoreProgram, place: usize) -> usize
    requires { place < length program.now.names.items }
    ensures { slice_get program.now.names.items place ≡ Some result }
{
    program.names[place] as usize
}

/// Knowing that it is the method at this place.
fn method_here(place: usize) -> Known
    ensures { (found : Option ℕ) → result ≡ Some found → found ≡ Some place }
{
    match u32::try_from(place) {
        Ok(number) => Some(Some(MethodId(number))),
        Err(_) => None,
    }
}

/// Notes for each own method of a class what is known above it.
fn note_own(program: &CoreProgram, class: usize, current: &[Known], noted: &mut [Known])
    requires current { AreRight (nearest_from program.now (above_class program.now class)) current.now }
    requires noted { AreRight (nearest_above program.now) noted.old }
    ensures { AreRight (nearest_above program.now) noted.new }
{
    for place in own_first(program, class)..own_end(program, class) {
        let name = name_at(program, place);
        put_known(noted, place, known_at(current, name));
    }
}

/// Puts the own methods of a class into the table.
fn put_own(program: &CoreProgram, class: usize, current: &mut [Known])
    requires passes { PassesOn program.now class }
    requires current { AreRight (nearest_from program.now (above_class program.now class)) current.old }
    ensures { AreRight (nearest_from program.now (Some class)) current.new }
{
    for place in own_first(program, class)..own_end(program, class) {
        let name = name_at(program, place);
        put_known(current, name, method_here(place));
    }
}

/// Puts back what was noted for the own methods of a class.
fn put_back(program: &CoreProgram, class: usize, noted: &[Known], current: &mut [Known])
    requires passes { PassesOn program.now class }
    requires noted { AreRight (nearest_above program.now) noted.now }
    requires current { AreRight (nearest_from program.now (Some class)) current.old }
    ensures { AreRight (nearest_from program.now (above_class program.now class)) current.new }
{
    for place in own_first(program, class)..own_end(program, class) {
        let name = name_at(program, place);
        put_known(current, name, known_at(noted, place));
    }
}
