//! One way without turning back: the schedule is followed, but what others don't see of a thread waits for its next step that
//! they see, and then an atomic call is taken whole. In `1 2 1 2`, where others first see the second step of each thread, this
//! is `1 1 2 2`.
ghost use Rattle.std.specs.Prelude.{◌≡◌, true, IfOk, IfSome};
ghost use Rattle.state.specs.States.{State};
ghost use Rattle.compile.specs.IsCode.{IsCodeOf};
ghost use Rattle.witness.specs.declared.judge.Judged.TheVariants as answers;
ghost use Rattle.witness.specs.Judging.{IsGoal};
ghost use Rattle.witness.specs.Searching.{IsFound, IsWalked, searched};

use crate::courses::is_seen;
use crate::node::{Node, advance, can_step, copied, may_step, start};
use crate::passing::is_alone;
use crate::search::{Search, is_end};
use crate::table::{allows, count_at, use_entry};
use machine::{Machine, StepEnd};
use std::alloc::{AllocError as NoMemory, Global};

/// A step of a thread, where it interrupts nobody, and entries are left for it; answers whether there was one.
fn step_on(
    alloc: Global,
    search: &Search<'_>,
    node: &mut Node<'_>,
    thread: u32,
) -> Result<bool, NoMemory>
    requires { IsWalked search.now node.old }
    ensures { IfOk result (λ made. made ≡ true → IsWalked search.now node.new) }
{
    if !may_step(node.busy, thread) {
        return Ok(false);
    }
    if !allows(search.counted, node.left.as_slice(), thread) {
        return Ok(false);
    }
    if !can_step(&node.machine) {
        return Ok(false);
    }
    advance(alloc, node, thread)
}

/// Whether so few entries are left for a thread at a node, nobody has to go on there, and others see the thread's next step.
fn has_come(search: &Search<'_>, node: &Node<'_>, thread: u32, left: u32) -> bool
    requires { IsWalked search.now node.now }
{
    node.busy.is_none()
        && count_at(node.left.as_slice(), thread) <= left
        && !is_alone(search, node, thread)
}

/// Steps of a thread, up to where so few entries are left for it, it stands inside no atomic call, and others see its next step;
/// answers whether it came there.
fn catch_up(
    alloc: Global,
    search: &Search<'_>,
    node: &mut Node<'_>,
    thread: u32,
    left: u32,
) -> Result<bool, NoMemory>
    requires { IsWalked search.now node.old }
    ensures { IfOk result (λ made. made ≡ true → IsWalked search.now node.new) }
{
    'steps: for _ in 0..count_at(node.left.as_slice(), thread) {
        if has_come(search, node, thread, left) {
            return Ok(true);
        }
        if !step_on(alloc, search, node, thread)? {
            return Ok(false);
        }
    }
    Ok(has_come(search, node, thread, left))
}

/// A step of the schedule itself, behind which so many entries are left for its thread; answers whether the thread's steps up to
/// here are made now: others see this one, or it is the last one.
fn is_due(
    alloc: Global,
    given: &mut Machine<'_>,
    thread: u32,
    left: u32,
) -> Result<bool, NoMemory> {
    if !can_step(given) {
        return Ok(true);
    }
    match given.step_kind(alloc, thread) {
        Ok(kind) => Ok(left == 0 || is_seen(kind)),
        Err(StepEnd::NoMemory) => Err(NoMemory),
        Err(_) => Ok(true),
    }
}

/// Takes the next entry of the schedule, which is this thread's; answers whether what is due could be done. `coming` has how many
/// entries of each thread come from here on.
fn take_entry(
    alloc: Global,
    search: &Search<'_>,
    node: &mut Node<'_>,
    given: &mut Machine<'_>,
    coming: &mut Vec<u32>,
    thread: u32,
) -> Result<bool, NoMemory>
    requires { IsWalked search.now node.old }
    ensures { IfOk result (λ made. made ≡ true → IsWalked search.now node.new) }
{
    use_entry(coming, thread);
    let left = count_at(coming.as_slice(), thread);
    if !is_due(alloc, given, thread, left)? {
        return Ok(true);
    }
    catch_up(alloc, search, node, thread, left)
}

/// The steps that led to a node, where that is an end that is looked for.
fn steps_to(search: &Search<'_>, node: Node<'_>) -> Option<Vec<u32>>
    requires { IsWalked search.now node }
    ensures { (q : State) → IsGoal search.now.goal q → IfSome result (λ r. IsFound search.now q (answers.Kept r)) }
{
    if !is_end(search, &node) {
        return None;
    }
    let Node { steps, .. } = node;
    Some(steps)
}

/// The order in which each atomic call comes whole at its first step that others see, where that is an order. Nothing is said
/// where it isn't.
pub(crate) fn direct_order(
    alloc: Global,
    search: &Search<'_>,
    schedule: &[u32],
) -> Result<Option<Vec<u32>>, NoMemory>
    requires { IsCodeOf (searched search.now) search.now.code.now.code.items search.now.code.now.entry.items search.now.code.now.room.items }
    ensures { (q : State) → IsGoal search.now.goal q → IfOk result (λ found. IfSome found (λ r. IsFound search.now q (answers.Kept r))) }
{
    let mut node = start(alloc, search.program, search.code, search.left)?;
    let mut given = Machine::start(alloc, search.program, search.code)?;
    let mut coming = copied(alloc, search.left)?;
    'entries: for thread in schedule {
        if !take_entry(alloc, search, &mut node, &mut given, &mut coming, *thread)? {
            return Ok(None);
        }
    }
    Ok(steps_to(search, node))
}
