//! The end of a schedule, to which the ends of others are compared.
ghost use Rattle.std.specs.Prelude.{◌≡◌, true};
ghost use Rattle.state.specs.States.{State};
ghost use Rattle.machine.specs.Standing.{StandsFor};
ghost use Rattle.witness.specs.Witness.{IsLike, SameObjects};
ghost use Rattle.witness.specs.Judging.{AreLike, IsGoal};

use machine::{Machine, same_heap};
use state::Heap;

/// How ends are compared: by their objects and the printed numbers, or by the printed numbers alone.
#[derive(Clone, Copy)]
pub enum Compared {
    Objects,
    Output,
}

/// An end of a schedule: its objects and the printed numbers, and how other ends are compared to it.
#[derive(Clone, Copy)]
pub struct Goal<'g> {
    pub heap: &'g Heap,
    pub output: &'g [i32],
    pub by: Compared,
}

/// Whether these are the same numbers.
fn same_numbers(some: &[i32], others: &[i32]) -> bool
    ensures same { result ≡ true → some.now ≡ others.now }
    ensures told { some.now ≡ others.now → result ≡ true }
{
    some == others
}

/// Whether these are the same numbers and the same objects.
fn same_objects(goal: &Goal<'_>, machine: &Machine<'_>) -> bool
    ensures like { (q e : State) → IsGoal goal.now q → StandsFor machine.now e → result ≡ true → IsLike SameObjects q e }
    ensures told { (q e : State) → IsGoal goal.now q → StandsFor machine.now e → IsLike SameObjects q e → result ≡ true }
{
    if !same_numbers(goal.output, machine.output()) {
        return false;
    }
    same_heap(goal.heap, machine.heap())
}

/// Whether the machine has come to an end that is like this one.
pub(crate) fn is_like(goal: &Goal<'_>, machine: &Machine<'_>) -> bool
    ensures like { (q e : State) → IsGoal goal.now q → StandsFor machine.now e → result ≡ true → AreLike goal.now.by q e }
    ensures told { (q e : State) → IsGoal goal.now q → StandsFor machine.now e → AreLike goal.now.by q e → result ≡ true }
{
    match goal.by {
        Compared::Objects => same_objects(goal, machine),
        Compared::Output => same_numbers(goal.output, machine.output()),
    }
}
