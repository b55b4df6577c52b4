//! A deed is done.
ghost use Rattle.std.specs.Prelude.{◌≡◌, ◌<◌, ℕ, List, IsOk, ◌+◌, Option, Some, None, true, IsSome, OnOk, OnErr, slice_get};
ghost use Rattle.core_program.specs.Views.{program_of, method_of};
ghost use Rattle.state.specs.declared.value.Value.TheVariants as value;
ghost use Rattle.state.specs.States.{Faulted};
ghost use Rattle.state.specs.Frames.{CellFrame, rest_of, frames_in, code_thread, top_frame, is_running, slots_of, on_top, popped, HasSpare};
ghost use Rattle.machine.specs.Counts.{IsCounted};
ghost use Rattle.machine.specs.Rooms.{StaysRoomy, HasRoomOf, FitsIn};
ghost use Rattle.machine.specs.Deeds.{Can, called_thread, given_on, deed_thread, deed_heap, deed_locks, deed_output, seen_of, operands_in};

use crate::act::{Actor, drops, gives, goes, makes_next, prints, stores, takes, writes};
use crate::deed::Deed;
use crate::make::slots_of;
use crate::shared::SharedState;
use core_program::{CoreMethod, CoreProgram};
use paths::MethodId;
use state::{Address, Entered, Fault, ThreadCell, Value};
use std::alloc::{AllocError as NoMemory, Global};

/// A method that is entered on an object with this many arguments, and where the caller goes on.
#[derive(Clone, Copy)]
struct Entering {
    entered: Entered,
    arguments: usize,
    address: Address,
    place: u32,
}

/// A method, with the place where its code begins and the room that it wants, entered so.
fn call_to_enter(
    method: MethodId,
    arguments: usize,
    address: Address,
    place: u32,
    entry: u32,
    room: u32,
) -> Entering
    ensures { result ≡ record { entered = record { method = method; entry = entry; room = room }; arguments = arguments; address = address; place = place } }
{
    let entered = Entered {
        method,
        entry,
        room,
    };
    Entering {
        entered,
        arguments,
        address,
        place,
    }
}

/// A method that is there is entered on an object.
fn enters_found(
    alloc: Global,
    found: &CoreMethod,
    cell: &mut ThreadCell,
    at: &Entering,
) -> Result<(), NoMemory>
    requires { is_running cell.old ≡ true }
    ensures ok { OnOk result (code_thread cell.new ≡ called_thread at.now.entered.method (Some (method_of found.now)) (value.Ref at.now.address) at.now.arguments at.now.place at.now.entered.entry (code_thread cell.old)) }
    ensures err { OnErr result (cell.new ≡ cell.old) }
    ensures roomy { (rooms : List ℕ) → slice_get rooms at.now.entered.method ≡ Some at.now.entered.room → StaysRoomy rooms cell.old cell.new }
{
    // No list of parameters is so long.
    if at.arguments == usize::MAX {
        return Err(NoMemory);
    }
    let slots = slots_of(
        alloc,
        found.slots,
        Value::Ref(at.address),
        cell.operands(),
        at.arguments,
    )?;
    cell.call(alloc, at.arguments + 1, at.place, at.entered, slots)
}

/// A method is entered on an object, where the method is there.
fn enters(
    alloc: Global,
    program: &CoreProgram,
    cell: &mut ThreadCell,
    at: &Entering,
) -> Result<(), NoMemory>
    requires { is_running cell.old ≡ true }
    ensures ok { OnOk result (code_thread cell.new ≡ called_thread at.now.entered.method (slice_get (program_of program.now).methods at.now.entered.method) (value.Ref at.now.address) at.now.arguments at.now.place at.now.entered.entry (code_thread cell.old)) }
    ensures err { OnErr result (cell.new ≡ cell.old) }
    ensures roomy { (rooms : List ℕ) → slice_get rooms at.now.entered.method ≡ Some at.now.entered.room → StaysRoomy rooms cell.old cell.new }
{
    let method = at.entered.method;
    match program.methods.get(method.0 as usize) {
        Some(found) => enters_found(alloc, found, cell, at),
        None => Ok(()),
    }
}

/// A running thread faults.
fn faults(cell: &mut ThreadCell, kind: Fault)
    requires { is_running cell.old ≡ true }
    ensures thread { code_thread cell.new ≡ Faulted kind (frames_in (code_thread cell.old)) }
    ensures roomy { (rooms : List ℕ) → StaysRoomy rooms cell.old cell.new }
{
    cell.fault(kind);
}

/// A running thread returns from its top frame with a result or without.
fn returns(cell: &mut ThreadCell, gives: Option<Value>) -> Result<(), NoMemory>
    requires { is_running cell.old ≡ true }
    ensures ok { OnOk result (code_thread cell.new ≡ on_top (given_on gives) (popped (code_thread cell.old))) }
    ensures err { OnErr result (cell.new ≡ cell.old) }
    ensures roomy { (rooms : List ℕ) → StaysRoomy rooms cell.old cell.new }
    ensures lean { HasSpare gives (rest_of (frames_in cell.old)) → IsOk result }
{
    cell.give_result(gives)
}

/// A deed of a running thread is done, but for the start of another thread. Nothing is done where the thread waits.
pub(crate) fn perform(
    actor: &Actor<'_>,
    shared: &mut SharedState,
    cell: &mut ThreadCell,
    deed: Deed,
) -> Result<(), NoMemory>
    requires top { IsSome (top_frame cell.old) }
    requires running { is_running cell.old ≡ true }
    requires can { Can (program_of actor.now.program.now) (seen_of actor.now.thread shared.old.heap shared.old.locks) actor.now.thread (slots_of (top_frame cell.old)) deed }
    requires counted { (n : ℕ) × (n < 4294967295) × IsCounted n shared.old.heap shared.old.locks }
    ensures cell { OnOk result (code_thread cell.new ≡ deed_thread (program_of actor.now.program.now) (seen_of actor.now.thread shared.old.heap shared.old.locks) actor.now.thread deed (code_thread cell.old)) }
    ensures heap { OnOk result (shared.new.heap ≡ deed_heap (program_of actor.now.program.now) (seen_of actor.now.thread shared.old.heap shared.old.locks) actor.now.thread (operands_in (code_thread cell.old)) deed shared.old.heap) }
    ensures locks { OnOk result (shared.new.locks ≡ deed_locks (seen_of actor.now.thread shared.old.heap shared.old.locks) actor.now.thread deed shared.old.locks) }
    ensures output { OnOk result (shared.new.output.items ≡ deed_output deed shared.old.output.items) }
    ensures cell_kept { OnErr result (code_thread cell.new ≡ code_thread cell.old) }
    ensures heap_kept { OnErr result (shared.new.heap ≡ shared.old.heap) }
    ensures locks_kept { OnErr result (shared.new.locks ≡ shared.old.locks) }
    ensures output_kept { OnErr result (shared.new.output.items ≡ shared.old.output.items) }
    ensures roomy { (rooms : List ℕ) → HasRoomOf rooms deed → StaysRoomy rooms cell.old cell.new }
    ensures lean { (f : CellFrame) → top_frame cell.old ≡ Some f → FitsIn f (rest_of (frames_in cell.old)) deed → IsOk result }
{
    match deed {
        Deed::Fails(kind) => Ok(faults(cell, kind)),
        Deed::Goes {
            drops,
            gives,
            place,
        } => goes(cell, drops, gives, place),
        Deed::Stores { slot, value, place } => Ok(stores(cell, slot, value, place)),
        Deed::Reads { value, place, .. } => goes(cell, 1, Some(value), place),
        Deed::Writes {
            address,
            index,
            value,
            place,
            ..
        } => Ok(writes(&mut shared.heap, cell, address, index, value, place)),
        Deed::Makes {
            class,
            arguments,
            place,
        } => makes_next(actor, &mut shared.heap, cell, class, arguments, place),
        Deed::Enters {
            method,
            arguments,
            address,
            place,
            entry,
            room,
        } => {
            let at = call_to_enter(method, arguments, address, place, entry, room);
            enters(actor.alloc, actor.program, cell, &at)
        }
        Deed::Takes { address, place, .. } => takes(actor, &mut shared.locks, cell, address, place),
        Deed::Waits { .. } => Ok(()),
        Deed::Gives { address, place, .. } => Ok(gives(&mut shared.locks, cell, address, place)),
        Deed::Returns { gives } => returns(cell, gives),
        Deed::Prints { number, place } => prints(&mut shared.output, cell, number, place),
        Deed::Starts { place, .. } => Ok(drops(cell, 1, place)),
    }
}
