//! What a thread does next, decided before anything is changed.
ghost use Rattle.std.specs.Prelude.{◌≡◌, reverse, Some, slice_get};
ghost use Rattle.std.specs.Option.{option_map};
ghost use Rattle.core_program.specs.Views.{program_of};
ghost use Rattle.state.specs.Memory.{lists, field_value};
ghost use Rattle.semantics.specs.Step.{value_at, unless_final, index_of};
ghost use Rattle.machine.specs.declared.deed.Deed.TheVariants as deed;
ghost use Rattle.machine.specs.CodeMachine.{pushes, stores, combines, branches_and, branches_or, branches, reads, writes, makes, acquires, releases, returns, deed_of};
ghost use Rattle.machine.specs.Seen.{program_in, code_lines_in, entry_in, room_in, shared_in};
ghost use Rattle.machine.specs.Turns.{cell_deed, line_deed};

use crate::calling::{calls, starts};
use crate::deed::Deed;
use crate::operators::{address_of, as_int, as_truth, binary_value, operand, unary_value};
use crate::seen::{Seen, TopFrame};
use compile::{Code, Instr};
use core_program::CoreProgram;
use paths::{ClassId, FieldId};
use state::{Address, Fault, ThreadCell, Value};

/// One operand more.
fn pushes(next: u32, found: Option<Value>) -> Deed
    ensures { result ≡ pushes next found }
{
    match found {
        Some(value) => Deed::Goes {
            drops: 0,
            gives: Some(value),
            place: next,
        },
        None => Deed::Fails(Fault::Null),
    }
}

/// One operand less, or another one in its place.
fn replaces(next: u32, gives: Option<Value>) -> Deed
    ensures { result ≡ deed.Goes 1 gives next }
{
    Deed::Goes {
        drops: 1,
        gives,
        place: next,
    }
}

/// A slot gets a value, where it is there.
fn stores(next: u32, value: Value, slot: u16, old: Option<Value>) -> Deed
    ensures { result ≡ stores next value slot old }
{
    match old {
        Some(_) => Deed::Stores {
            slot,
            value,
            place: next,
        },
        None => Deed::Fails(Fault::Null),
    }
}

/// The result of an operator; none is a zero divisor.
fn combines(next: u32, found: Option<Value>) -> Deed
    ensures { result ≡ combines next found }
{
    match found {
        Some(value) => Deed::Goes {
            drops: 2,
            gives: Some(value),
            place: next,
        },
        None => Deed::Fails(Fault::Zero),
    }
}

/// The left part of `&&` decides, or the right part is evaluated.
fn and_then(next: u32, other: u32, left: bool) -> Deed
    ensures { result ≡ branches_and next other left }
{
    if left {
        Deed::Goes {
            drops: 1,
            gives: None,
            place: other,
        }
    } else {
        Deed::Goes {
            drops: 1,
            gives: Some(Value::Truth(false)),
            place: next,
        }
    }
}

/// The same for `||`.
fn or_else(next: u32, other: u32, left: bool) -> Deed
    ensures { result ≡ branches_or next other left }
{
    if left {
        Deed::Goes {
            drops: 1,
            gives: Some(Value::Truth(true)),
            place: next,
        }
    } else {
        Deed::Goes {
            drops: 1,
            gives: None,
            place: other,
        }
    }
}

/// A condition decides where to go on.
fn branches(next: u32, other: u32, condition: bool) -> Deed
    ensures { result ≡ branches next other condition }
{
    Deed::Goes {
        drops: 1,
        gives: None,
        place: if condition { next } else { other },
    }
}

/// Whether a class lists a field at an index.
fn lists(program: &CoreProgram, class: ClassId, index: u16, field: FieldId) -> bool
    ensures { result ≡ lists (slice_get (program_of program.now).classes class) index field }
{
    match program.classes().get(class.0 as usize) {
        Some(class) => match class.fields.get(index as usize) {
            Some(listed) => *listed == field,
            None => false,
        },
        None => false,
    }
}

/// The value of a field of an object of this class with these values.
pub fn listed_value(
    program: &CoreProgram,
    class: ClassId,
    values: &[Value],
    field: FieldId,
) -> Option<Value>
    ensures { result ≡ field_value (program_of program.now) field (Some (record { class = class; values = values.now })) (slice_get (program_of program.now).fields field) }
{
    match program.fields.get(field.0 as usize) {
        Some(found) if lists(program, class, found.index, field) => {
            values.get(found.index as usize).copied()
        }
        _ => None,
    }
}

/// The value of a field of the object at an address.
pub(crate) fn value_at(seen: &Seen<'_>, address: Address, field: FieldId) -> Option<Value>
    ensures { result ≡ value_at (program_in seen.now) (shared_in seen.now) seen.now.thread address field }
{
    match seen.heap.find(address) {
        Some((class, values)) => listed_value(seen.program(), class, values, field),
        None => None,
    }
}

/// Reads a field of what an operand refers to.
fn reads(seen: &Seen<'_>, next: u32, field: FieldId, receiver: Option<Address>) -> Deed
    ensures { result ≡ reads (program_in seen.now) (shared_in seen.now) seen.now.thread next field receiver }
{
    let Some(address) = receiver else {
        return Deed::Fails(Fault::Null);
    };
    match value_at(seen, address, field) {
        Some(value) => Deed::Reads {
            address,
            field,
            value,
            place: next,
        },
        None => Deed::Fails(Fault::Null),
    }
}

/// The index of a field that may be written and is there in the object at an address.
fn written_index(seen: &Seen<'_>, address: Address, field: FieldId) -> Option<u16>
    ensures { result ≡ option_map (λ _. index_of (slice_get (program_in seen.now).fields field))
        (unless_final (slice_get (program_in seen.now).fields field) (value_at (program_in seen.now) (shared_in seen.now) seen.now.thread address field)) }
{
    let place = seen.program().fields.get(field.0 as usize)?;
    if place.is_final {
        return None;
    }
    match value_at(seen, address, field) {
        Some(_) => Some(place.index),
        None => None,
    }
}

/// Writes a field of what an operand refers to, unless it is final.
fn writes(
    seen: &Seen<'_>,
    next: u32,
    value: Value,
    field: FieldId,
    receiver: Option<Address>,
) -> Deed
    ensures { result ≡ writes (program_in seen.now) (shared_in seen.now) seen.now.thread next value field receiver }
{
    let Some(address) = receiver else {
        return Deed::Fails(Fault::Null);
    };
    match written_index(seen, address, field) {
        Some(index) => Deed::Writes {
            address,
            field,
            index,
            value,
            place: next,
        },
        None => Deed::Fails(Fault::Null),
    }
}

/// Makes an object of a class.
fn makes(program: &CoreProgram, next: u32, class: ClassId) -> Deed
    ensures { result ≡ makes next class (slice_get (program_of program.now).classes class) }
{
    match program.classes().get(class.0 as usize) {
        Some(found) => Deed::Makes {
            class,
            arguments: found.finals.len(),
            place: next,
        },
        None => Deed::Fails(Fault::Null),
    }
}

/// Takes the lock of what an operand refers to.
fn acquires(seen: &Seen<'_>, next: u32, operand: Option<Address>) -> Deed
    ensures { result ≡ acquires (shared_in seen.now) seen.now.thread next operand }
{
    let Some(address) = operand else {
        return Deed::Fails(Fault::Null);
    };
    match seen.locks.find(address) {
        None => Deed::Takes {
            address,
            again: false,
            place: next,
        },
        Some((holder, _)) => {
            if holder == seen.thread {
                Deed::Takes {
                    address,
                    again: true,
                    place: next,
                }
            } else {
                Deed::Waits { address, holder }
            }
        }
    }
}

/// Gives back the last taken lock.
fn releases(seen: &Seen<'_>, next: u32, last: Option<Address>) -> Deed
    ensures { result ≡ releases (shared_in seen.now) seen.now.thread next last }
{
    let Some(address) = last else {
        return Deed::Fails(Fault::Null);
    };
    match seen.locks.find(address) {
        Some((holder, count)) => {
            if holder == seen.thread {
                Deed::Gives {
                    address,
                    frees: count <= 1,
                    place: next,
                }
            } else {
                Deed::Fails(Fault::Null)
            }
        }
        None => Deed::Fails(Fault::Null),
    }
}

/// Returns with a result or without.
fn returns(value: Value, with: bool) -> Deed
    ensures { result ≡ returns value with }
{
    Deed::Returns {
        gives: if with { Some(value) } else { None },
    }
}

/// The value of a slot, where it is there.
fn slot_value(slots: &[Value], slot: u16) -> Option<Value>
    ensures { result ≡ slice_get slots.now slot }
{
    slots.get(slot as usize).copied()
}

/// What an instruction does, for the top frame of a thread.
pub(crate) fn deed_of(seen: &Seen<'_>, top: &TopFrame<'_>, next: u32, instr: Instr) -> Deed
    ensures { result ≡ deed_of (program_in seen.now) (entry_in seen.now) (room_in seen.now) (shared_in seen.now) seen.now.thread
        top.now.slots.now (reverse top.now.operands.now) (reverse top.now.taken.now) top.now.frames next instr }
{
    let slots = top.slots;
    let operands = top.operands;
    match instr {
        Instr::Push(value) => pushes(next, Some(value)),
        Instr::Load(slot) => pushes(next, slot_value(slots, slot)),
        Instr::Store(slot) => stores(next, operand(operands, 0), slot, slot_value(slots, slot)),
        Instr::Drop => replaces(next, None),
        Instr::Unary(op) => replaces(next, Some(unary_value(op, operand(operands, 0)))),
        Instr::Binary(op) => combines(
            next,
            binary_value(op, operand(operands, 1), operand(operands, 0)),
        ),
        Instr::AndThen(other) => and_then(next, other, as_truth(operand(operands, 0))),
        Instr::OrElse(other) => or_else(next, other, as_truth(operand(operands, 0))),
        Instr::Branch(other) => branches(next, other, as_truth(operand(operands, 0))),
        Instr::Get(field) => reads(seen, next, field, address_of(operand(operands, 0))),
        Instr::Put(field) => writes(
            seen,
            next,
            operand(operands, 0),
            field,
            address_of(operand(operands, 1)),
        ),
        Instr::New(class) => makes(seen.program(), next, class),
        Instr::Call(method) => calls(seen, top.frames, next, operands, method),
        Instr::Acquire => acquires(seen, next, address_of(operand(operands, 0))),
        Instr::Release => releases(seen, next, top.taken.last().copied()),
        Instr::Ret(with) => returns(operand(operands, 0), with),
        Instr::Print => Deed::Prints {
            number: as_int(operand(operands, 0)),
            place: next,
        },
        Instr::Start => starts(seen, next, address_of(operand(operands, 0))),
    }
}

/// What a running thread does next.
pub fn next_deed(seen: &Seen<'_>, cell: &ThreadCell) -> Deed
    ensures { result ≡ cell_deed (program_in seen.now) (code_lines_in seen.now) (entry_in seen.now) (room_in seen.now) (shared_in seen.now) seen.now.thread cell.now }
{
    let Some(place) = cell.place() else {
        return Deed::Fails(Fault::Null);
    };
    line_deed(seen, cell, place)
}

/// What the line at a place does.
fn line_deed(seen: &Seen<'_>, cell: &ThreadCell, place: u32) -> Deed
    ensures { result ≡ line_deed (program_in seen.now) (entry_in seen.now) (room_in seen.now) (shared_in seen.now) seen.now.thread cell.now (slice_get (code_lines_in seen.now) place) }
{
    match seen.code.code.get(place as usize) {
        Some(line) => deed_in(seen, cell, line),
        None => Deed::Fails(Fault::Null),
    }
}

/// What a line does.
fn deed_in(seen: &Seen<'_>, cell: &ThreadCell, line: &Code) -> Deed
    ensures { result ≡ line_deed (program_in seen.now) (entry_in seen.now) (room_in seen.now) (shared_in seen.now) seen.now.thread cell.now (Some line.now) }
{
    let top = TopFrame {
        slots: cell.slots(),
        operands: cell.operands(),
        taken: cell.taken(),
        frames: cell.frames(),
    };
    deed_of(seen, &top, line.next, line.instr)
}
