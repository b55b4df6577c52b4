//! What an instruction does that calls a method or starts a thread, decided before anything is changed.
ghost use Rattle.std.specs.Prelude.{◌≡◌, reverse, nat_lt, Some, slice_get};
ghost use Rattle.core_program.specs.Views.{program_of};
ghost use Rattle.semantics.specs.Step.{run_of_class, run_of, target_at, object_class, most_frames};
ghost use Rattle.machine.specs.CodeMachine.{enters, enters_some, dispatches, calls_on, call_deed, starts_thread};
ghost use Rattle.machine.specs.Seen.{program_in, entry_in, room_in, shared_in};

use crate::deed::Deed;
use crate::operators::{address_of, operand};
use crate::seen::Seen;
use core_program::CoreProgram;
use paths::{ClassId, MethodId};
use state::{Address, Fault, Value};

/// The most frames that a thread has.
const MOST_FRAMES: usize = 1000;

/// Whether a thread with this many frames may have one more.
fn may_deepen(depth: usize) -> bool
    ensures { result ≡ nat_lt depth most_frames }
{
    depth < MOST_FRAMES
}

/// Enters a method with this many arguments on the object at an address, where one more frame may stand.
fn enters(
    seen: &Seen<'_>,
    arguments: usize,
    next: u32,
    method: MethodId,
    address: Address,
    may: bool,
) -> Deed
    ensures { result ≡ enters (entry_in seen.now) (room_in seen.now) arguments next method address may }
{
    if !may {
        return Deed::Fails(Fault::Depth);
    }
    let Some(entry) = seen.code.entry.get(method.0 as usize) else {
        return Deed::Fails(Fault::Null);
    };
    match seen.code.room.get(method.0 as usize) {
        Some(room) => Deed::Enters {
            method,
            arguments,
            address,
            place: next,
            entry: *entry,
            room: *room,
        },
        None => Deed::Fails(Fault::Null),
    }
}

/// Enters a method, where it is there.
fn enters_some(
    seen: &Seen<'_>,
    depth: usize,
    arguments: usize,
    next: u32,
    method: MethodId,
    address: Address,
) -> Deed
    ensures { result ≡ enters_some (entry_in seen.now) (room_in seen.now) depth arguments next method (slice_get (program_in seen.now).methods method) address }
{
    match seen.program().methods.get(method.0 as usize) {
        Some(_) => enters(seen, arguments, next, method, address, may_deepen(depth)),
        None => Deed::Fails(Fault::Null),
    }
}

/// Enters the method that runs, where there is one.
fn dispatches(
    seen: &Seen<'_>,
    depth: usize,
    arguments: usize,
    next: u32,
    target: Option<MethodId>,
    address: Address,
) -> Deed
    ensures { result ≡ dispatches (program_in seen.now) (entry_in seen.now) (room_in seen.now) depth arguments next target address }
{
    match target {
        Some(method) => enters_some(seen, depth, arguments, next, method, address),
        None => Deed::Fails(Fault::Null),
    }
}

/// Calls a method with this many parameters on what the receiver refers to: the object's class chooses the one that runs.
fn calls_on(
    seen: &Seen<'_>,
    depth: usize,
    arguments: usize,
    next: u32,
    method: MethodId,
    receiver: Option<Address>,
) -> Deed
    ensures { result ≡ calls_on (program_in seen.now) (shared_in seen.now) (entry_in seen.now) (room_in seen.now) depth arguments next method receiver }
{
    match receiver {
        Some(address) => {
            let target = target_at(seen, method, class_at(seen, address));
            dispatches(seen, depth, arguments, next, target, address)
        }
        None => Deed::Fails(Fault::Null),
    }
}

/// The class of the object at an address, where it is there.
pub(crate) fn class_at(seen: &Seen<'_>, address: Address) -> Option<ClassId>
    ensures { result ≡ object_class ((shared_in seen.now).object_at address) }
{
    match seen.heap.find(address) {
        Some((class, _)) => Some(class),
        None => None,
    }
}

/// The method that runs for a method and an object's class, where both are there.
fn target_at(seen: &Seen<'_>, method: MethodId, class: Option<ClassId>) -> Option<MethodId>
    ensures { result ≡ target_at (program_in seen.now) method class }
{
    match class {
        Some(class) => seen.targets.target(class, method),
        None => None,
    }
}

/// Calls a method.
pub(crate) fn calls(
    seen: &Seen<'_>,
    depth: usize,
    next: u32,
    operands: &[Value],
    method: MethodId,
) -> Deed
    ensures { result ≡ call_deed (program_in seen.now) (shared_in seen.now) (entry_in seen.now) (room_in seen.now) depth next (reverse operands.now) method (slice_get (program_in seen.now).methods method) }
{
    match seen.program().methods.get(method.0 as usize) {
        Some(found) => {
            let arguments = found.params.len();
            let receiver = address_of(operand(operands, arguments));
            calls_on(seen, depth, arguments, next, method, receiver)
        }
        None => Deed::Fails(Fault::Null),
    }
}

/// The method that runs for `run` and an object's class, where both are there.
fn run_of(seen: &Seen<'_>, class: Option<ClassId>) -> Option<MethodId>
    ensures { result ≡ run_of (program_in seen.now) class }
{
    match class {
        Some(class) => run_of_class(seen.program(), class),
        None => None,
    }
}

/// The method `run` of a class.
pub fn run_of_class(program: &CoreProgram, class: ClassId) -> Option<MethodId>
    ensures { result ≡ run_of_class (slice_get (program_of program.now).classes class) }
{
    match program.classes().get(class.0 as usize) {
        Some(found) => found.run,
        None => None,
    }
}

/// Starts a thread on what an operand refers to.
pub(crate) fn starts(seen: &Seen<'_>, next: u32, operand: Option<Address>) -> Deed
    ensures { result ≡ starts_thread (program_in seen.now) (shared_in seen.now) next operand }
{
    let Some(address) = operand else {
        return Deed::Fails(Fault::Null);
    };
    match run_of(seen, class_at(seen, address)) {
        Some(method) => Deed::Starts {
            address,
            method,
            place: next,
        },
        None => Deed::Fails(Fault::Null),
    }
}
