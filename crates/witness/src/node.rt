//! Nodes of the search: a machine, who has to go on there, and the entries that are left.
ghost use Rattle.std.specs.Prelude.{◌≡◌, ◌≢◌, ◌+◌, ◌<◌, ◌∷◌, [], ℕ, Option, Some, None, true, IfOk, OnOk, IfSome};
ghost use Rattle.core_program.specs.Views.{program_of};
ghost use Rattle.state.specs.States.{State};
ghost use Rattle.compile.specs.IsCode.{IsCodeOf};
ghost use Rattle.semantics.specs.Run.{inside};
ghost use Rattle.semantics.specs.Step.{step};
ghost use Rattle.machine.specs.declared.deed.StepEnd.TheVariants as ends;
ghost use Rattle.machine.specs.Standing.{program_run, StandsFor};
ghost use Rattle.witness.specs.Tables.{count_at};
ghost use Rattle.witness.specs.Walks.{may_step, must_step_next, less, allows};
ghost use Rattle.witness.specs.Nodes.{HasStepped, IsStart, IsTwin, IsBehind, IsChild, IsAdvanced};

use crate::table::{allows, use_entry, use_one};
use compile::CodeTable;
use core_program::CoreProgram;
use machine::{Machine, StepEnd};
use std::alloc::{AllocError as NoMemory, Global};

/// A node of the search: a machine, who has to go on there, and the entries that are left. These steps led there from the node
/// at this place.
#[derive(Drop)]
pub(crate) struct Node<'p> {
    pub(crate) machine: Machine<'p>,
    pub(crate) busy: Option<u32>,
    pub(crate) left: Vec<u32>,
    pub(crate) from: usize,
    pub(crate) steps: Vec<u32>,
}

/// A copy of some numbers.
pub(crate) fn copied(alloc: Global, numbers: &[u32]) -> Result<Vec<u32>, NoMemory>
    ensures { IfOk result (λ v. v.items ≡ numbers.now) }
{
    let mut copy = Vec::with_capacity(alloc, numbers.len())?;
    copy.extend_from_slice(numbers)?;
    Ok(copy)
}

/// The node at the start, with these entries left.
pub(crate) fn start<'p>(
    alloc: Global,
    program: &'p CoreProgram,
    code: &'p CodeTable,
    left: &[u32],
) -> Result<Node<'p>, NoMemory>
    requires { IsCodeOf (program_of program.now) code.now.code.items code.now.entry.items code.now.room.items }
    ensures { IfOk result (IsStart program.now code.now left.now) }
{
    Ok(Node {
        machine: Machine::start(alloc, program, code)?,
        busy: None,
        left: copied(alloc, left)?,
        from: 0,
        steps: Vec::new(alloc),
    })
}

/// Whether a thread may step where this one has to go on, or none has to.
pub(crate) fn may_step(busy: Option<u32>, thread: u32) -> bool
    ensures { result ≡ may_step busy thread }
{
    match busy {
        None => true,
        Some(other) => thread == other,
    }
}

/// Whether the thread of this number stands inside an atomic call.
pub(crate) fn is_inside(machine: &Machine<'_>, thread: u32) -> bool
    ensures { (q : State) → StandsFor machine.now q → result ≡ inside (program_run machine.now) q thread }
{
    match machine.inside(thread) {
        Some(inside) => inside,
        None => false,
    }
}

/// Who has to go on behind a step of a thread.
fn goes_on(machine: &Machine<'_>, thread: u32) -> Option<u32>
    ensures { (q : State) → StandsFor machine.now q → result ≡ must_step_next (program_run machine.now) q thread }
{
    if is_inside(machine, thread) {
        return Some(thread);
    }
    None
}

/// Nothing, where a refused step was refused for another reason than want of memory.
fn is_told(why: StepEnd) -> Result<(), NoMemory>
    ensures { OnOk result (why ≢ ends.NoMemory) }
{
    match why {
        StepEnd::NoMemory => Err(NoMemory),
        StepEnd::Absent => Ok(()),
        StepEnd::Done => Ok(()),
        StepEnd::Faulted(_) => Ok(()),
        StepEnd::Waits { .. } => Ok(()),
    }
}

/// The machine after a step of a thread, where it has one.
fn stepped<'p>(
    alloc: Global,
    machine: &Machine<'p>,
    thread: u32,
) -> Result<Option<Machine<'p>>, NoMemory>
    requires { machine.now.made < 4294967295 }
    ensures step { (q : State) → StandsFor machine.now q → IfOk result (HasStepped (program_run machine.now) q thread) }
    ensures made { IfOk result (λ o. IfSome o (λ m. m.made ≡ machine.now.made + 1)) }
    ensures program { IfOk result (λ o. IfSome o (λ m. m.program ≡ machine.now.program)) }
    ensures code { IfOk result (λ o. IfSome o (λ m. m.code ≡ machine.now.code)) }
{
    let mut next = machine.copy(alloc)?;
    match next.step(alloc, thread) {
        Ok(()) => Ok(Some(next)),
        Err(why) => {
            is_told(why)?;
            Ok(None)
        }
    }
}

/// What is left of these entries behind one of a thread.
fn left_behind(alloc: Global, left: &[u32], thread: u32) -> Result<Vec<u32>, NoMemory>
    ensures { IfOk result (λ v. (t : ℕ) → count_at v.items t ≡ less (count_at left.now) thread t) }
{
    let mut left = copied(alloc, left)?;
    use_one(&mut left, thread);
    Ok(left)
}

/// The node behind this one, which stands at this place, with the machine after a step of this thread.
fn behind<'p>(
    alloc: Global,
    node: &Node<'p>,
    place: usize,
    machine: Machine<'p>,
    thread: u32,
) -> Result<Node<'p>, NoMemory>
    ensures behind { IfOk result (IsBehind node.now machine.entry thread) }
    ensures from { IfOk result (λ next. next.from ≡ place) }
    ensures steps { IfOk result (λ next. next.steps.items ≡ thread ∷ []) }
{
    let busy = goes_on(&machine, thread);
    let left = left_behind(alloc, node.left.as_slice(), thread)?;
    let mut steps = Vec::new(alloc);
    steps.push(thread)?;
    Ok(Node {
        machine,
        busy,
        left,
        from: place,
        steps,
    })
}

/// The node behind a step of a thread that interrupts nobody, from the node at this place; none where there is no such step.
pub(crate) fn child<'p>(
    alloc: Global,
    node: &Node<'p>,
    place: usize,
    counted: bool,
    thread: u32,
) -> Result<Option<Node<'p>>, NoMemory>
    requires { node.now.machine.made < 4294967295 }
    ensures { IfOk result (IsChild counted node.now place thread) }
{
    if !may_step(node.busy, thread) {
        return Ok(None);
    }
    if !allows(counted, node.left.as_slice(), thread) {
        return Ok(None);
    }
    match stepped(alloc, &node.machine, thread)? {
        Some(machine) => Ok(Some(behind(alloc, node, place, machine, thread)?)),
        None => Ok(None),
    }
}

/// Whether a machine can count one step more. One that can't has a schedule that no memory holds.
pub(crate) fn can_step(machine: &Machine<'_>) -> bool
    ensures { result ≡ true → machine.now.made < 4294967295 }
{
    machine.made() < 4294967295
}

/// A step of a thread from a node; answers whether there was one.
pub(crate) fn advance(alloc: Global, node: &mut Node<'_>, thread: u32) -> Result<bool, NoMemory>
    requires { node.old.machine.made < 4294967295 }
    ensures { IfOk result (IsAdvanced node.old thread node.new) }
{
    match node.machine.step(alloc, thread) {
        Ok(()) => {
            node.busy = goes_on(&node.machine, thread);
            use_entry(&mut node.left, thread);
            node.steps.push(thread)?;
            Ok(true)
        }
        Err(why) => {
            is_told(why)?;
            Ok(false)
        }
    }
}

/// Whether the same thread has to go on, or none both times.
fn same_busy(one: Option<u32>, other: Option<u32>) -> bool
    ensures { result ≡ true → one ≡ other }
{
    match one {
        Some(thread) => match other {
            Some(next) => thread == next,
            None => false,
        },
        None => other.is_none(),
    }
}

/// Whether as many entries are left of each thread.
fn same_left(one: &[u32], other: &[u32]) -> bool
    ensures { result ≡ true → one.now ≡ other.now }
{
    one == other
}

/// Whether two nodes are the same, but for the steps that led there.
pub(crate) fn is_twin(one: &Node<'_>, other: &Node<'_>) -> bool
    ensures { result ≡ true → IsTwin one.now other.now }
{
    if !same_busy(one.busy, other.busy) {
        return false;
    }
    if !same_left(one.left.as_slice(), other.left.as_slice()) {
        return false;
    }
    one.machine.same(&other.machine)
}
