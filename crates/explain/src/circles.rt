//! Ranks of methods of circles, and of all methods.

ghost use Rattle.std.specs.Prelude.{◌≡◌, ◌≤◌, ◌<◌, ◌+◌, ◌^◌, ℕ, List, false, length, slice_get, IfOk, OnOk};
ghost use Rattle.algebra.specs.declared.basic.Basic.TheVariants.{Atomic};
ghost use Rattle.core_program.specs.Core.{Program};
ghost use Rattle.core_program.specs.Views.{program_of};
ghost use Rattle.paths.specs.Paths.{PathData};
ghost use Rattle.rules.specs.Effect.{Assignment};
ghost use Rattle.rules.specs.Near.{rel_of};
ghost use Rattle.rules.specs.Rules.{AtMost};
ghost use Rattle.rules.specs.Search.{row_at};
ghost use Rattle.explain.specs.declared.ranking.Bounds.{Bounds};
ghost use Rattle.explain.specs.Ranking.{AreAllRanked, AreCircling, AreRanked, AreStuck, may_rank, open_rank};

use crate::asked::{OPEN, Queues};
use crate::grounds::Ground;
use crate::program::method_at;
use crate::ranking::{
    Bounds, Round, first_grounds, rank_all_known, rank_all_led, rank_known, rank_led,
};
use crate::waiting::{add_open, led_queues};
use crate::walk::Walk;
use algebra::Basic;
use effects::Assigned;
use paths::MethodId;
use rules::OverridingMethods;
use std::alloc::{AllocError as NoMemory, Global};

/// Gives this rank to those methods that are to be asked as they are, have none, and lead nowhere or to a smaller rank.
fn rank_all_due_led(
    alloc: Global,
    grounds: &mut Vec<Ground>,
    queues: &mut Queues,
    number: u64,
) -> Result<bool, NoMemory>
    requires { number < open_rank }
    ensures length { length grounds.new.items ≡ length grounds.old.items }
    ensures ranked { OnOk result ((bounds : Bounds) (P : Program) (rel : ℕ → List PathData) (A : Assignment) (overs : ℕ → List ℕ) → AreRanked bounds P rel A overs grounds.old.items (number + 1) → AreRanked bounds P rel A overs grounds.new.items (number + 1)) }
    ensures circling { OnOk result ((bounds : Bounds) (P : Program) (rel : ℕ → List PathData) (A : Assignment) (overs : ℕ → List ℕ) → AreCircling bounds P rel A overs grounds.old.items (number + 1) → AreCircling bounds P rel A overs grounds.new.items (number + 1)) }
{
    let places = queues.take_led(alloc);
    let mut any = false;
    for place in places.as_slice() {
        any |= rank_led(grounds, queues, *place, number)?;
    }
    queues.give_back_led(places);
    Ok(any)
}

/// Gives this rank to a method that has none, where it has a reason by what is known before it; then those that wait for it
/// are to be asked.
fn rank_due_known<A: Assigned>(
    walk: &Walk<'_, A>,
    over: &OverridingMethods,
    grounds: &mut Vec<Ground>,
    queues: &mut Queues,
    round: &Round,
    place: usize,
) -> Result<bool, NoMemory>
    requires few { length (program_of walk.now.program.now).methods ≤ 2 ^ 32 }
    requires each { length grounds.old.items ≡ length (program_of walk.now.program.now).methods }
    requires round { round.now.number < open_rank }
    requires level { AtMost Atomic round.now.level }
    ensures length { length grounds.new.items ≡ length grounds.old.items }
    ensures circling { OnOk result ((bounds : Bounds) → AreCircling bounds (program_of walk.now.program.now) (rel_of walk.now.sets.now) (A.Assigned.assigned walk.now.assigned.now) (row_at over.now) grounds.old.items (round.now.number + 1) → AreCircling bounds (program_of walk.now.program.now) (rel_of walk.now.sets.now) (A.Assigned.assigned walk.now.assigned.now) (row_at over.now) grounds.new.items (round.now.number + 1)) }
{
    if place >= grounds.len() {
        return Ok(false);
    }
    let id = MethodId(place as u32);
    let Some(method) = method_at(walk.program, id) else {
        return Ok(false);
    };
    if !rank_known(walk, over, grounds, round, id, method)? {
        return Ok(false);
    }
    queues.wake(place)?;
    Ok(true)
}

/// Gives this rank to all such methods that are to be asked.
fn rank_all_due_known<A: Assigned>(
    walk: &Walk<'_, A>,
    over: &OverridingMethods,
    grounds: &mut Vec<Ground>,
    queues: &mut Queues,
    round: &Round,
) -> Result<bool, NoMemory>
    requires few { length (program_of walk.now.program.now).methods ≤ 2 ^ 32 }
    requires each { length grounds.old.items ≡ length (program_of walk.now.program.now).methods }
    requires round { round.now.number < open_rank }
    requires level { AtMost Atomic round.now.level }
    ensures length { length grounds.new.items ≡ length grounds.old.items }
    ensures circling { OnOk result ((bounds : Bounds) → AreCircling bounds (program_of walk.now.program.now) (rel_of walk.now.sets.now) (A.Assigned.assigned walk.now.assigned.now) (row_at over.now) grounds.old.items (round.now.number + 1) → AreCircling bounds (program_of walk.now.program.now) (rel_of walk.now.sets.now) (A.Assigned.assigned walk.now.assigned.now) (row_at over.now) grounds.new.items (round.now.number + 1)) }
{
    let places = queues.take_known(walk.alloc, round.level);
    let mut any = false;
    for place in places.as_slice() {
        any |= rank_due_known(walk, over, grounds, queues, round, *place)?;
    }
    Ok(any)
}

/// Gives this rank to methods that are to be asked and have none: to those whose explanation leads nowhere or to a smaller rank; where there is
/// none, to those that are errors by what is known before it; and where there is none of these either, to those that are compound by it.
fn rank_all_due<A: Assigned>(
    walk: &Walk<'_, A>,
    over: &OverridingMethods,
    grounds: &mut Vec<Ground>,
    queues: &mut Queues,
    number: u64,
) -> Result<(), NoMemory>
    requires few { length (program_of walk.now.program.now).methods ≤ 2 ^ 32 }
    requires each { length grounds.old.items ≡ length (program_of walk.now.program.now).methods }
    requires round { number < open_rank }
    ensures length { length grounds.new.items ≡ length grounds.old.items }
    ensures circling { OnOk result ((bounds : Bounds) → AreCircling bounds (program_of walk.now.program.now) (rel_of walk.now.sets.now) (A.Assigned.assigned walk.now.assigned.now) (row_at over.now) grounds.old.items (number + 1) → AreCircling bounds (program_of walk.now.program.now) (rel_of walk.now.sets.now) (A.Assigned.assigned walk.now.assigned.now) (row_at over.now) grounds.new.items (number + 1)) }
{
    if rank_all_due_led(walk.alloc, grounds, queues, number)? {
        return Ok(());
    }
    let errors = Round {
        number,
        level: Basic::Cmpd,
    };
    if rank_all_due_known(walk, over, grounds, queues, &errors)? {
        return Ok(());
    }
    let compounds = Round {
        number,
        level: Basic::Atomic,
    };
    rank_all_due_known(walk, over, grounds, queues, &compounds)?;
    Ok(())
}

/// Gives this rank to methods of circles that have none: to some of those that are to be asked; where there are none to be asked, to all that
/// are compound by what is known before it. Answers whether ranks may be left.
fn rank_next<A: Assigned>(
    walk: &Walk<'_, A>,
    over: &OverridingMethods,
    grounds: &mut Vec<Ground>,
    queues: &mut Queues,
    number: u64,
) -> Result<bool, NoMemory>
    requires few { length (program_of walk.now.program.now).methods ≤ 2 ^ 32 }
    requires each { length grounds.old.items ≡ length (program_of walk.now.program.now).methods }
    requires round { number < open_rank }
    ensures length { length grounds.new.items ≡ length grounds.old.items }
    ensures circling { OnOk result ((bounds : Bounds) → AreCircling bounds (program_of walk.now.program.now) (rel_of walk.now.sets.now) (A.Assigned.assigned walk.now.assigned.now) (row_at over.now) grounds.old.items number → AreCircling bounds (program_of walk.now.program.now) (rel_of walk.now.sets.now) (A.Assigned.assigned walk.now.assigned.now) (row_at over.now) grounds.new.items (number + 1)) }
    ensures same { IfOk result (λ any. any ≡ false → grounds.new.items ≡ grounds.old.items) }
    ensures stuck { IfOk result (λ any. any ≡ false → AreStuck (program_of walk.now.program.now) (rel_of walk.now.sets.now) (A.Assigned.assigned walk.now.assigned.now) (row_at over.now)
        grounds.new.items Atomic number) }
{
    let compounds = Round {
        number,
        level: Basic::Atomic,
    };
    if queues.is_done() {
        return rank_all_known(walk, over, grounds, &compounds);
    }
    rank_all_due(walk, over, grounds, queues, number)?;
    Ok(true)
}

/// Gives ranks from this one on to methods of circles. Nearly each round ranks a method, so there are never as many rounds as are allowed.
fn rank_circles<A: Assigned>(
    walk: &Walk<'_, A>,
    over: &OverridingMethods,
    given: Vec<Ground>,
    waiting: Queues,
    first: u64,
) -> Result<Vec<Ground>, NoMemory>
    requires few { length (program_of walk.now.program.now).methods ≤ 2 ^ 32 }
    requires each { length given.items ≡ length (program_of walk.now.program.now).methods }
    ensures { IfOk result (λ ranked. (bounds : Bounds) → AreCircling bounds (program_of walk.now.program.now) (rel_of walk.now.sets.now) (A.Assigned.assigned walk.now.assigned.now) (row_at over.now) given.items first →
        AreAllRanked bounds (program_of walk.now.program.now) (rel_of walk.now.sets.now) (A.Assigned.assigned walk.now.assigned.now) (row_at over.now) ranked.items) }
{
    let mut queues = waiting;
    add_open(walk, over, given.as_slice(), &mut queues)?;
    let mut grounds = given;
    for round in first..OPEN {
        if !rank_next(walk, over, &mut grounds, &mut queues, round)? {
            return Ok(grounds);
        }
    }
    Err(NoMemory)
}

/// Gives this rank to methods that have none and lead nowhere or to a smaller rank: to those that are to be asked; where there are none to be
/// asked, to all. Answers whether ranks may be left.
fn rank_next_led(
    alloc: Global,
    grounds: &mut Vec<Ground>,
    queues: &mut Queues,
    round: u64,
) -> Result<bool, NoMemory>
    requires { round < open_rank }
    ensures length { length grounds.new.items ≡ length grounds.old.items }
    ensures ranked { OnOk result ((bounds : Bounds) (P : Program) (rel : ℕ → List PathData) (A : Assignment) (overs : ℕ → List ℕ) → AreRanked bounds P rel A overs grounds.old.items (round + 1) → AreRanked bounds P rel A overs grounds.new.items (round + 1)) }
    ensures same { IfOk result (λ any. any ≡ false → grounds.new.items ≡ grounds.old.items) }
    ensures stuck { IfOk result (λ any. any ≡ false → (place : ℕ) → place < length grounds.old.items → may_rank grounds.old.items round (slice_get grounds.old.items place) ≡ false) }
{
    if queues.is_led_done() {
        return rank_all_led(grounds, queues, round);
    }
    rank_all_due_led(alloc, grounds, queues, round)?;
    Ok(true)
}

/// On what the explanation of each method rests. As long as methods can be ranked as they are, each round ranks one; all that are left then
/// run in circles.
pub fn find_grounds<A: Assigned>(
    walk: &Walk<'_, A>,
    over: &OverridingMethods,
    bounds: Bounds,
) -> Result<Vec<Ground>, NoMemory>
    requires { length (program_of walk.now.program.now).methods ≤ 2 ^ 32 }
    ensures { IfOk result (λ grounds. AreAllRanked bounds (program_of walk.now.program.now) (rel_of walk.now.sets.now) (A.Assigned.assigned walk.now.assigned.now) (row_at over.now) grounds.items) }
{
    let mut grounds = first_grounds(walk, over, bounds)?;
    let mut queues = led_queues(walk.alloc, grounds.as_slice())?;
    for round in 1..OPEN {
        if !rank_next_led(walk.alloc, &mut grounds, &mut queues, round)? {
            return rank_circles(walk, over, grounds, queues, round);
        }
    }
    Err(NoMemory)
}
