//! What is done, on one thread and what all threads share.
ghost use Rattle.std.specs.Prelude.{◌≡◌, ◌<◌, ◌≤◌, ◌+◌, ℕ, List, IsOk, ◌++◌, ◌∷◌, [], ◌-◌, length, reverse, map, Option, Some, None, IsSome, OnOk, OnErr, IfOk, slice_get};
ghost use Rattle.std.specs.FinMap as map;
ghost use Rattle.core_program.specs.Views.{program_of};
ghost use Rattle.state.specs.Memory.{IsNumbered, with_field, with_lock, made_by, new_values};
ghost use Rattle.state.specs.States.{fields_of};
ghost use Rattle.machine.specs.Listed.{listed};
ghost use Rattle.state.specs.Stored.{HasField, MayTake, taken_by, stored_given_back};
ghost use Rattle.state.specs.declared.value.Value.TheVariants as value;
ghost use Rattle.state.specs.Frames.{CellFrame, code_thread, top_frame, on_top, operands_of, slots_of, settled_operands};
ghost use Rattle.machine.specs.Rooms.{StaysRoomy};
ghost use Rattle.machine.specs.Deeds.{advanced, stores_on, takes_on, gives_on};

use crate::make::values_of;
use core_program::CoreProgram;
use paths::ClassId;
use state::{Address, Heap, Locks, ThreadCell, Value};
use std::alloc::{AllocError as NoMemory, Global};

/// The top frame drops operands, is given one or none, and goes on.
pub(crate) fn goes(
    cell: &mut ThreadCell,
    drops: usize,
    gives: Option<Value>,
    place: u32,
) -> Result<(), NoMemory>
    requires { IsSome (top_frame cell.old) }
    ensures ok { OnOk result (code_thread cell.new ≡ on_top (advanced drops gives place) (code_thread cell.old)) }
    ensures err { OnErr result (cell.new ≡ cell.old) }
    ensures roomy { (rooms : List ℕ) → StaysRoomy rooms cell.old cell.new }
    ensures lean { (f : CellFrame) → top_frame cell.old ≡ Some f → length (settled_operands drops gives f) ≤ length f.operands + f.room → IsOk result }
{
    cell.settle(drops, gives, place)
}

/// The top frame drops operands and goes on, which takes no memory.
pub(crate) fn drops(cell: &mut ThreadCell, count: usize, place: u32)
    requires { IsSome (top_frame cell.old) }
    ensures thread { code_thread cell.new ≡ on_top (advanced count None place) (code_thread cell.old) }
    ensures roomy { (rooms : List ℕ) → StaysRoomy rooms cell.old cell.new }
{
    cell.drop_to(count, place);
}

/// A slot that is there gets a value.
pub(crate) fn stores(cell: &mut ThreadCell, slot: u16, value: Value, place: u32)
    requires top { IsSome (top_frame cell.old) }
    requires slot { slot < length (slots_of (top_frame cell.old)) }
    ensures thread { code_thread cell.new ≡ on_top (stores_on slot value place) (code_thread cell.old) }
    ensures roomy { (rooms : List ℕ) → StaysRoomy rooms cell.old cell.new }
{
    cell.set_slot(slot, value);
    cell.drop_to(1, place);
}

/// The thread that does something, the program that it runs, and where memory comes from.
#[derive(Clone, Copy)]
pub(crate) struct Actor<'a> {
    pub(crate) alloc: Global,
    pub(crate) program: &'a CoreProgram,
    pub(crate) thread: u32,
}

/// A lock that no other thread holds is taken once more.
pub(crate) fn takes(
    actor: &Actor<'_>,
    locks: &mut Locks,
    cell: &mut ThreadCell,
    address: Address,
    place: u32,
) -> Result<(), NoMemory>
    requires top { IsSome (top_frame cell.old) }
    requires may { MayTake actor.now.thread (map.get locks.old address) }
    ensures ok { OnOk result (code_thread cell.new ≡ on_top (takes_on address place) (code_thread cell.old)) }
    ensures lock { OnOk result (locks.new ≡ map.insert locks.old address (taken_by actor.now.thread (map.get locks.old address))) }
    ensures err { OnErr result (cell.new ≡ cell.old) }
    ensures kept { OnErr result (locks.new ≡ locks.old) }
    ensures roomy { (rooms : List ℕ) → StaysRoomy rooms cell.old cell.new }
{
    cell.lock_taken(address)?;
    if locks.take(actor.alloc, address, actor.thread).is_err() {
        cell.lock_given();
        return Err(NoMemory);
    }
    cell.drop_to(1, place);
    Ok(())
}

/// The last taken lock is given back.
pub(crate) fn gives(locks: &mut Locks, cell: &mut ThreadCell, address: Address, place: u32)
    requires top { IsSome (top_frame cell.old) }
    requires held { IsSome (map.get locks.old address) }
    ensures frame { code_thread cell.new ≡ on_top (gives_on place) (code_thread cell.old) }
    ensures lock { locks.new ≡ with_lock address (stored_given_back (map.get locks.old address)) locks.old }
    ensures roomy { (rooms : List ℕ) → StaysRoomy rooms cell.old cell.new }
{
    let _ = cell.lock_given();
    cell.go(place);
    locks.give(address);
}

/// An object that is made: its class, of how many arguments, and where the frame goes on.
#[derive(Clone, Copy)]
pub(crate) struct NewObject {
    pub(crate) class: ClassId,
    pub(crate) arguments: usize,
    pub(crate) place: u32,
}

/// An object with these values is made at a free address, and takes the place of the arguments.
pub(crate) fn makes(
    alloc: Global,
    heap: &mut Heap,
    cell: &mut ThreadCell,
    address: Address,
    object: NewObject,
    values: Vec<Value>,
) -> Result<(), NoMemory>
    requires top { IsSome (top_frame cell.old) }
    requires free { map.get heap.old address ≡ None }
    ensures ok { OnOk result (code_thread cell.new ≡ on_top (advanced object.arguments (Some (value.Ref address)) object.place) (code_thread cell.old)) }
    ensures object { OnOk result (heap.new ≡ map.insert heap.old address (record { class = object.class; values = values.items })) }
    ensures err { OnErr result (code_thread cell.new ≡ code_thread cell.old) }
    ensures kept { OnErr result (heap.new ≡ heap.old) }
    ensures roomy { (rooms : List ℕ) → StaysRoomy rooms cell.old cell.new }
{
    cell.make_room(1)?;
    heap.add(alloc, address, object.class, values)?;
    cell.give_to(object.arguments, Value::Ref(address), object.place);
    Ok(())
}

/// A number is printed.
pub(crate) fn prints(
    output: &mut Vec<i32>,
    cell: &mut ThreadCell,
    number: i32,
    place: u32,
) -> Result<(), NoMemory>
    requires { IsSome (top_frame cell.old) }
    ensures ok { OnOk result (code_thread cell.new ≡ on_top (advanced 1 None place) (code_thread cell.old)) }
    ensures printed { OnOk result (output.new.items ≡ output.old.items ++ number ∷ []) }
    ensures err { OnErr result (cell.new ≡ cell.old) }
    ensures kept { OnErr result (output.new.items ≡ output.old.items) }
    ensures roomy { (rooms : List ℕ) → StaysRoomy rooms cell.old cell.new }
{
    output.push(number)?;
    cell.drop_to(1, place);
    Ok(())
}

/// A field that the object has is written.
pub(crate) fn writes(
    heap: &mut Heap,
    cell: &mut ThreadCell,
    address: Address,
    index: u16,
    value: Value,
    place: u32,
)
    requires top { IsSome (top_frame cell.old) }
    requires field { HasField heap.old address index }
    ensures cell { code_thread cell.new ≡ on_top (advanced 2 None place) (code_thread cell.old) }
    ensures heap { heap.new ≡ with_field address index value heap.old }
    ensures roomy { (rooms : List ℕ) → StaysRoomy rooms cell.old cell.new }
{
    heap.set(address, index, value);
    cell.drop_to(2, place);
}

/// The address of a thread's next object.
fn next_address(heap: &Heap, thread: u32) -> Address
    requires { made_by thread heap.now < 4294967296 }
    ensures { result ≡ record { thread = thread; count = made_by thread heap.now } }
{
    Address {
        thread,
        count: heap.made(thread) as u32,
    }
}

/// An object of a class is made, from the topmost operands as the arguments for its final fields.
pub(crate) fn makes_next(
    actor: &Actor<'_>,
    heap: &mut Heap,
    cell: &mut ThreadCell,
    class: ClassId,
    arguments: usize,
    place: u32,
) -> Result<(), NoMemory>
    requires top { IsSome (top_frame cell.old) }
    requires numbered { IsNumbered heap.old }
    requires few { made_by actor.now.thread heap.old < 4294967296 }
    ensures ok { OnOk result (code_thread cell.new ≡ on_top (advanced arguments (Some (value.Ref (record { thread = actor.now.thread; count = made_by actor.now.thread heap.old }))) place) (code_thread cell.old)) }
    ensures object { OnOk result (heap.new ≡ map.insert heap.old (record { thread = actor.now.thread; count = made_by actor.now.thread heap.old })
        (record { class = class; values = new_values (program_of actor.now.program.now) (fields_of (slice_get (program_of actor.now.program.now).classes class)) (listed arguments (operands_of (top_frame cell.old))) })) }
    ensures err { OnErr result (code_thread cell.new ≡ code_thread cell.old) }
    ensures kept { OnErr result (heap.new ≡ heap.old) }
    ensures roomy { (rooms : List ℕ) → StaysRoomy rooms cell.old cell.new }
{
    let address = next_address(heap, actor.thread);
    let values = object_values(
        actor.alloc,
        actor.program,
        class,
        cell.operands(),
        arguments,
    )?;
    let object = NewObject {
        class,
        arguments,
        place,
    };
    makes(actor.alloc, heap, cell, address, object, values)
}

/// The values of a new object of a class.
pub fn object_values(
    alloc: Global,
    program: &CoreProgram,
    class: ClassId,
    operands: &[Value],
    count: usize,
) -> Result<Vec<Value>, NoMemory>
    ensures { IfOk result (λ v. v.items ≡ new_values (program_of program.now) (fields_of (slice_get (program_of program.now).classes class)) (listed count (reverse operands.now))) }
{
    match program.classes().get(class.0 as usize) {
        Some(found) => values_of(alloc, program, found.fields.as_slice(), operands, count),
        None => Ok(Vec::new(alloc)),
    }
}
