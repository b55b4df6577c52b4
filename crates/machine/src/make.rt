//! The slots of a new frame, and the values of a new object.
ghost use Rattle.std.specs.Prelude.{◌≡◌, ◌++◌, ◌-◌, reverse, replicate, pos, vec_len, IfOk, OnOk, slice_get};
ghost use Rattle.state.specs.declared.value.Value.TheVariants as value;
ghost use Rattle.core_program.specs.Views.{program_of};
ghost use Rattle.core_program.specs.Core.{Method};
ghost use Rattle.state.specs.Values.{top, default_value};
ghost use Rattle.state.specs.Memory.{new_value, new_values, left_after};
ghost use Rattle.state.specs.States.{new_slots};
ghost use Rattle.machine.specs.Listed.{listed};

use crate::operators::operand;
use core_program::{CoreProgram, CoreType};
use paths::FieldId;
use state::Value;
use std::alloc::{AllocError as NoMemory, Global};

/// Puts the topmost operands into a list, the deepest first.
fn put_operands(into: &mut Vec<Value>, operands: &[Value], count: usize) -> Result<(), NoMemory>
    ensures { OnOk result (into.new.items ≡ into.old.items ++ listed count (reverse operands.now)) }
{
    let mut left = count;
    while left > 0 {
        left -= 1;
        into.push(operand(operands, left))?;
    }
    Ok(())
}

/// Fills a list up to a length with 0.
fn fill(into: &mut Vec<Value>, length: usize) -> Result<(), NoMemory>
    ensures { OnOk result (into.new.items ≡ into.old.items ++ replicate (length - vec_len into.old) (value.Int (pos 0))) }
{
    while into.len() < length {
        into.push(Value::Int(0))?;
    }
    Ok(())
}

/// The slots of a new frame of a method that has so many: `this`, the arguments, and 0 in each other slot.
pub fn slots_of(
    alloc: Global,
    slots: u16,
    this: Value,
    operands: &[Value],
    count: usize,
) -> Result<Vec<Value>, NoMemory>
    ensures { IfOk result (λ v. (m : Method) → m.slots ≡ slots → v.items ≡ new_slots m this (listed count (reverse operands.now))) }
{
    let mut made = Vec::with_capacity(alloc, slots as usize)?;
    made.push(this)?;
    put_operands(&mut made, operands, count)?;
    fill(&mut made, slots as usize)?;
    Ok(made)
}

/// What a field of a type holds that nothing was stored in.
fn default_value(ty: CoreType) -> Value
    ensures { result ≡ default_value ty }
{
    match ty {
        CoreType::Int => Value::Int(0),
        CoreType::Boolean => Value::Truth(false),
        CoreType::Class(_) => Value::Null,
    }
}

/// The values of the fields of a new object, from the topmost operands as the arguments for its final fields.
pub(crate) fn values_of(
    alloc: Global,
    program: &CoreProgram,
    fields: &[FieldId],
    operands: &[Value],
    count: usize,
) -> Result<Vec<Value>, NoMemory>
    ensures { IfOk result (λ v. v.items ≡ new_values (program_of program.now) fields.now (listed count (reverse operands.now))) }
{
    let mut values = Vec::with_capacity(alloc, fields.len())?;
    let mut left = count;
    for field in fields {
        let (value, rest) = next_value(program, *field, operands, left);
        values.push(value)?;
        left = rest;
    }
    Ok(values)
}

/// The value of one field, and how many arguments are left after it.
fn next_value(
    program: &CoreProgram,
    field: FieldId,
    operands: &[Value],
    left: usize,
) -> (Value, usize)
    ensures value { result.0 ≡ new_value (slice_get (program_of program.now).fields field) (top (listed left (reverse operands.now))) }
    ensures rest { listed result.1 (reverse operands.now) ≡ left_after (slice_get (program_of program.now).fields field) (listed left (reverse operands.now)) }
{
    match program.fields.get(field.0 as usize) {
        None => (Value::Null, left),
        Some(found) if found.is_final => {
            if left > 0 {
                (operand(operands, left - 1), left - 1)
            } else {
                (Value::Null, 0)
            }
        }
        Some(found) => (default_value(found.ty), left),
    }
}
