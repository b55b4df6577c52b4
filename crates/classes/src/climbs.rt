//! What going up from each class meets: so many steps at once, each time twice as many as before.

ghost use Rattle.std.specs.Prelude.{◌≡◌, ◌<◌, ℕ, Option, None, map, length, IfOk};
ghost use Rattle.std.specs.List.{list_all};
ghost use Rattle.std.specs.Option.{is_none};
ghost use Rattle.syntax.specs.Trees.{ProgramTree};
ghost use Rattle.syntax.specs.Views.{member_of, class_of};
ghost use Rattle.classes.specs.Building.{above_at};
ghost use Rattle.classes.specs.Climbs.{AreClimbs, climb_at, have_field, joined_climb, first_climb, first_climbs};

use crate::starts::has_entry;
use std::alloc::{AllocError as NoMemory, Global};
use syntax::{Class, Member};

/// What so many steps up from a class meet: where they lead, if they lead so far, and of the classes before that, this
/// one among them, whether one says `implements Runnable`, whether one has a `run` to begin with, and the first one that
/// declares fields.
#[derive(Clone, Copy)]
pub(crate) struct Climb {
    pub(crate) end: Option<usize>,
    pub(crate) says_runnable: bool,
    pub(crate) has_run: bool,
    pub(crate) with_fields: Option<usize>,
}

/// The climb from the class with this number.
pub(crate) fn climb_at(climbs: &[Climb], class: usize) -> Climb
    ensures { result ≡ climb_at climbs.now class }
{
    match climbs.get(class) {
        Some(climb) => *climb,
        None => Climb {
            end: None,
            says_runnable: false,
            has_run: false,
            with_fields: None,
        },
    }
}

/// The class above one, where this is what stands above each.
pub(crate) fn above_at(aboves: &[Option<usize>], class: usize) -> Option<usize>
    ensures { result ≡ above_at aboves.now class }
{
    match aboves.get(class) {
        Some(above) => *above,
        None => None,
    }
}

fn have_field(members: &[Member]) -> bool
    ensures { result ≡ have_field (map member_of members.now) }
{
    for member in members {
        if let Member::Field { .. } = member {
            return true;
        }
    }
    false
}

/// One step up from a class.
fn first_climb(class: &Class, above: Option<usize>, number: usize) -> Climb
    ensures { result ≡ first_climb above number (Some (class_of class.now)) }
{
    let members = class.members.as_slice();
    let with_fields = if have_field(members) {
        Some(number)
    } else {
        None
    };
    Climb {
        end: above,
        says_runnable: class.runnable,
        has_run: has_entry(members, "run"),
        with_fields,
    }
}

/// One step up from each class.
fn first_climbs(
    alloc: Global,
    classes: &[Class],
    aboves: &[Option<usize>],
) -> Result<Vec<Climb>, NoMemory>
    ensures { IfOk result (λ climbs. climbs.items ≡ first_climbs (above_at aboves.now) 0 (map class_of classes.now)) }
{
    let mut climbs = Vec::new(alloc);
    for (number, class) in classes.iter().enumerate() {
        climbs.push(first_climb(class, above_at(aboves, number), number))?;
    }
    Ok(climbs)
}

/// A climb, and the one of these that begins where it ends.
fn joined_climb(nexts: &[Climb], first: Climb) -> Climb
    ensures { result ≡ joined_climb nexts.now first }
{
    let Some(end) = first.end else {
        return first;
    };
    let next = climb_at(nexts, end);
    Climb {
        end: next.end,
        says_runnable: first.says_runnable || next.says_runnable,
        has_run: first.has_run || next.has_run,
        with_fields: first.with_fields.or(next.with_fields),
    }
}

/// Each of these climbs, and then one of those from where it ends.
fn joined_climbs(alloc: Global, firsts: &[Climb], nexts: &[Climb]) -> Result<Vec<Climb>, NoMemory>
    ensures { IfOk result (λ climbs. climbs.items ≡ map (joined_climb nexts.now) firsts.now) }
{
    let mut climbs = Vec::new(alloc);
    for first in firsts {
        climbs.push(joined_climb(nexts, *first))?;
    }
    Ok(climbs)
}

/// Whether no climb leads anywhere.
fn have_ended(climbs: &[Climb]) -> bool
    ensures { result ≡ list_all (λ c. is_none c.end) climbs.now }
{
    climbs.iter().all(|climb| climb.end.is_none())
}

/// The climbs of so many steps, from those of one step. Where all have ended after half as many, they go no further.
fn climbs(alloc: Global, ones: &[Climb], steps: usize) -> Result<Vec<Climb>, NoMemory>
    requires some { 0 < steps }
    ensures { IfOk result (λ all. (tree : ProgramTree) (up : ℕ → Option ℕ) → AreClimbs tree up 1 ones.now → AreClimbs tree up steps all.items) }
{
    if steps == 1 {
        return Ok(ones.to_vec(alloc)?);
    }
    let half = climbs(alloc, ones, steps / 2)?;
    if have_ended(half.as_slice()) {
        return Ok(half);
    }
    let twice = joined_climbs(alloc, half.as_slice(), half.as_slice())?;
    if steps % 2 == 0 {
        return Ok(twice);
    }
    joined_climbs(alloc, ones, twice.as_slice())
}

/// What as many steps as there are classes meet from each of them, where this is what stands above each.
pub(crate) fn all_climbs(
    alloc: Global,
    classes: &[Class],
    aboves: &[Option<usize>],
) -> Result<Vec<Climb>, NoMemory>
    requires many { length aboves.now ≡ length classes.now }
    ensures { IfOk result (λ all. 0 < length classes.now
        → AreClimbs (map class_of classes.now) (above_at aboves.now) (length (map class_of classes.now)) all.items) }
{
    let ones = first_climbs(alloc, classes, aboves)?;
    if classes.is_empty() {
        return Ok(ones);
    }
    climbs(alloc, ones.as_slice(), classes.len())
}
