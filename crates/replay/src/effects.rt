//! Single effects on a plain state.
ghost use Rattle.std.specs.Prelude.{◌≡◌, ◌<◌, ℕ, List, Some, None, Option, MatchOption, MatchResult, IfOk, IfErr, IfSome, IsSome, OnOk, nat_lt, true, false, not, is_some, slice_get};
ghost use Rattle.std.specs.FinMap as map;
ghost use Rattle.core_program.specs.Views.{program_of, method_of};
ghost use Rattle.state.specs.Memory.{value_in, made_by};
ghost use Rattle.state.specs.States.{new_slots, new_object};
ghost use Rattle.state.specs.declared.value.Value.TheVariants as value;
ghost use Rattle.state.specs.declared.value.Fault.TheVariants as fault;
ghost use Rattle.replay.specs.declared.ends.EvalEnd.TheVariants as ends;
ghost use Rattle.state.specs.Stored.{HasField};
ghost use Rattle.semantics.specs.Step.{Prints, changed, index_of, unless_final, object_class, target_at, run_of};
ghost use Rattle.replay.specs.Plain as plain;
ghost use Rattle.replay.specs.Answers.{Gives, Fails};
ghost use Rattle.replay.specs.Evaluation.{Lower, stored, call_method, body_of, most_number, value_found, computed, read_field, followed_by, write_field, make, start_on, take_lock, give_lock};
ghost use Rattle.replay.specs.Ends.{IsEvaluationEnd, ended};

use crate::ends::{EvalEnd, Flow};
use crate::plain::{Plain, PlainEntry};
use core_program::{CoreMethod, CoreProgram};
use machine::{address_of, listed_value, object_values, run_of_class, slots_of};
use paths::{ClassId, FieldId, MethodId};
use state::{Address, Fault, Heap, Value};
use std::alloc::{AllocError as NoMemory, Global};

/// The value of a slot, where it is there.
pub(crate) fn slot(slots: &[Value], x: u16) -> Result<Value, EvalEnd>
    ensures { MatchResult result (λ v. (q : plain.Plain) → value_found (slice_get slots.now x) q ≡ Gives v q) (λ e. (q : plain.Plain) → IsEvaluationEnd e (value_found (slice_get slots.now x) q)) }
{
    match slots.get(x as usize) {
        Some(v) => Ok(*v),
        None => Err(EvalEnd::Faults(Fault::Null)),
    }
}

/// Stores a value in a slot, where the slot is there.
pub(crate) fn store(slots: &mut [Value], x: u16, v: Value) -> Result<Flow, EvalEnd>
    ensures { MatchResult result
        (λ f. (q : plain.Plain) → stored x v (slice_get slots.old x) slots.old q ≡ Gives (ended f slots.new) q)
        (λ e. (q : plain.Plain) → IsEvaluationEnd e (stored x v (slice_get slots.old x) slots.old q)) }
{
    if (x as usize) < slots.len() {
        slots[x as usize] = v;
        Ok(Flow::GoesOn)
    } else {
        Err(EvalEnd::Faults(Fault::Null))
    }
}

/// The result of an operator, where it is there: none is a zero divisor.
pub(crate) fn computed(found: Option<Value>) -> Result<Value, EvalEnd>
    ensures { MatchResult result (λ v. (q : plain.Plain) → computed found q ≡ Gives v q) (λ e. (q : plain.Plain) → IsEvaluationEnd e (computed found q)) }
{
    match found {
        Some(v) => Ok(v),
        None => Err(EvalEnd::Faults(Fault::Zero)),
    }
}

/// The value of a field of the object at an address.
fn value_in(program: &CoreProgram, heap: &Heap, address: Address, field: FieldId) -> Option<Value>
    ensures { result ≡ value_in (program_of program.now) heap.now address field }
{
    match heap.find(address) {
        Some((class, values)) => listed_value(program, class, values, field),
        None => None,
    }
}

/// Reads a field of what an operand refers to.
pub(crate) fn read(
    program: &CoreProgram,
    plain: &Plain,
    field: FieldId,
    receiver: Option<Address>,
) -> Result<Value, EvalEnd>
    ensures { MatchResult result
        (λ v. read_field (program_of program.now) field receiver plain.now ≡ Gives v plain.now)
        (λ e. IsEvaluationEnd e (read_field (program_of program.now) field receiver plain.now)) }
{
    let Some(address) = receiver else {
        return Err(EvalEnd::Faults(Fault::Null));
    };
    match value_in(program, &plain.heap, address, field) {
        Some(v) => Ok(v),
        None => Err(EvalEnd::Faults(Fault::Null)),
    }
}

/// Reads fields one after the other, from a value on.
pub(crate) fn follow(
    program: &CoreProgram,
    plain: &Plain,
    fields: &[FieldId],
    start: Value,
) -> Result<Value, EvalEnd>
    ensures { MatchResult result
        (λ v. followed_by (program_of program.now) fields.now start plain.now ≡ Gives v plain.now)
        (λ e. IsEvaluationEnd e (followed_by (program_of program.now) fields.now start plain.now)) }
{
    match fields.split_first() {
        None => Ok(start),
        Some((field, rest)) => {
            let next = read(program, plain, *field, address_of(start))?;
            follow(program, plain, rest, next)
        }
    }
}

/// Where a field is in the object at an address, where it may be written.
fn written_index(
    program: &CoreProgram,
    heap: &Heap,
    address: Address,
    field: FieldId,
) -> Option<u16>
    ensures none { result ≡ None → unless_final (slice_get (program_of program.now).fields field) (value_in (program_of program.now) heap.now address field) ≡ None }
    ensures index { IfSome result (λ index. index ≡ index_of (slice_get (program_of program.now).fields field)) }
    ensures there { IfSome result (λ _. IsSome (unless_final (slice_get (program_of program.now).fields field) (value_in (program_of program.now) heap.now address field))) }
    ensures has { IfSome result (λ index. HasField heap.now address index) }
{
    let found = program.fields.get(field.0 as usize)?;
    if found.is_final {
        return None;
    }
    let _ = value_in(program, heap, address, field)?;
    Some(found.index)
}

/// Writes a field of what an operand refers to, unless it is final.
pub(crate) fn write(
    program: &CoreProgram,
    plain: &mut Plain,
    field: FieldId,
    receiver: Option<Address>,
    value: Value,
) -> Result<(), EvalEnd>
    ensures { MatchResult result
        (λ _. write_field (program_of program.now) field receiver value plain.old ≡ Gives tt plain.new)
        (λ e. IsEvaluationEnd e (write_field (program_of program.now) field receiver value plain.old)) }
{
    let Some(address) = receiver else {
        return Err(EvalEnd::Faults(Fault::Null));
    };
    match written_index(program, &plain.heap, address, field) {
        Some(index) => {
            plain.heap.set(address, index, value);
            Ok(())
        }
        None => Err(EvalEnd::Faults(Fault::Null)),
    }
}

/// Whether a class isn't there.
fn lacks_class(program: &CoreProgram, class: ClassId) -> bool
    ensures { result ≡ not (is_some (slice_get (program_of program.now).classes class)) }
{
    program.classes().get(class.0 as usize).is_none()
}

/// The count of a thread's next object, where it isn't too large.
fn next_count(heap: &Heap, thread: u32) -> Option<u32>
    ensures none { result ≡ None → nat_lt most_number (made_by thread heap.now) ≡ true }
    ensures some { IfSome result (λ n. nat_lt most_number (made_by thread heap.now) ≡ false) }
    ensures count { IfSome result (λ n. n ≡ made_by thread heap.now) }
{
    let made = heap.made(thread);
    if made <= 4294967295 {
        Some(made as u32)
    } else {
        None
    }
}

/// Makes an object of a class from the arguments for its final fields.
pub(crate) fn make(
    alloc: Global,
    program: &CoreProgram,
    plain: &mut Plain,
    thread: u32,
    class: ClassId,
    arguments: &[Value],
) -> Result<Value, EvalEnd>
    ensures { let P = program_of program.now in MatchResult result
        (λ v. make P thread class (slice_get P.classes class) arguments.now plain.old ≡ Gives v plain.new)
        (λ e. IsEvaluationEnd e (make P thread class (slice_get P.classes class) arguments.now plain.old)) }
{
    if lacks_class(program, class) {
        return Err(EvalEnd::Faults(Fault::Null));
    }
    let Some(count) = next_count(&plain.heap, thread) else {
        return Err(EvalEnd::Short);
    };
    let values = values_of(alloc, program, class, arguments)?;
    let address = Address { thread, count };
    plain.heap.add(alloc, address, class, values)?;
    Ok(Value::Ref(address))
}

/// The values of a new object of a class.
fn values_of(
    alloc: Global,
    program: &CoreProgram,
    class: ClassId,
    arguments: &[Value],
) -> Result<Vec<Value>, NoMemory>
    ensures { IfOk result (λ v. record { class = class; values = v.items } ≡ new_object (program_of program.now) class arguments.now) }
{
    object_values(alloc, program, class, arguments, arguments.len())
}

/// The class of the object at an address.
fn class_at(heap: &Heap, address: Address) -> Option<ClassId>
    ensures { result ≡ object_class (map.get heap.now address) }
{
    match heap.find(address) {
        Some((class, _)) => Some(class),
        None => None,
    }
}

/// The method that runs for a method and the object at an address.
fn target_at(
    program: &CoreProgram,
    heap: &Heap,
    method: MethodId,
    address: Address,
) -> Option<MethodId>
    ensures { result ≡ target_at (program_of program.now) method (object_class (map.get heap.now address)) }
{
    match class_at(heap, address) {
        Some(class) => program.target(class, method),
        None => None,
    }
}

/// The method that runs for a method and what a receiver refers to, with the receiver's address; none where the call faults.
pub(crate) fn chosen<'p>(
    program: &'p CoreProgram,
    plain: &Plain,
    method: MethodId,
    on: Option<Address>,
) -> Option<(Address, &'p CoreMethod)>
    ensures answer { (t d : ℕ) (lower : Option Lower) (vs : List Value) → MatchOption result
        (call_method (program_of program.now) t lower d method (slice_get (program_of program.now).methods method) on vs plain.now ≡ Fails fault.Null)
        (λ c. call_method (program_of program.now) t lower d method (slice_get (program_of program.now).methods method) on vs plain.now
        ≡ body_of (program_of program.now) t lower d lower (method_of c.1.now).body (new_slots (method_of c.1.now) (value.Ref c.0) vs) plain.now) }
    ensures listed { IfSome result (λ c. (m : ℕ) × (slice_get program.now.methods.items m ≡ Some c.1.now)) }
{
    if program.methods.get(method.0 as usize).is_none() {
        return None;
    }
    let address = on?;
    let runs = target_at(program, &plain.heap, method, address)?;
    match program.methods.get(runs.0 as usize) {
        Some(found) => Some((address, found)),
        None => None,
    }
}

/// The method `run` of the object at an address.
fn run_at(program: &CoreProgram, heap: &Heap, address: Address) -> Option<MethodId>
    ensures { result ≡ run_of (program_of program.now) (object_class (map.get heap.now address)) }
{
    match class_at(heap, address) {
        Some(class) => run_of_class(program, class),
        None => None,
    }
}

/// Starts a thread on what an operand refers to.
pub(crate) fn start(
    program: &CoreProgram,
    plain: &mut Plain,
    receiver: Option<Address>,
) -> Result<(), EvalEnd>
    ensures { MatchResult result
        (λ _. start_on (program_of program.now) receiver plain.old ≡ Gives tt plain.new)
        (λ e. IsEvaluationEnd e (start_on (program_of program.now) receiver plain.old)) }
{
    let Some(address) = receiver else {
        return Err(EvalEnd::Faults(Fault::Null));
    };
    let Some(method) = run_at(program, &plain.heap, address) else {
        return Err(EvalEnd::Faults(Fault::Null));
    };
    if u32::try_from(plain.threads.len()).is_err() {
        return Err(EvalEnd::Short);
    }
    plain.threads.push(PlainEntry::Ready(address, method))?;
    Ok(())
}

/// Takes the lock of an address, once more where the thread holds it.
pub(crate) fn take(
    alloc: Global,
    plain: &mut Plain,
    thread: u32,
    address: Address,
) -> Result<(), EvalEnd>
    ensures { MatchResult result
        (λ _. take_lock thread address (map.get plain.old.locks address) plain.old ≡ Gives tt plain.new)
        (λ e. IsEvaluationEnd e (take_lock thread address (map.get plain.old.locks address) plain.old)) }
{
    match plain.locks.find(address) {
        Some((holder, _)) if holder != thread => Err(EvalEnd::Waits { address, holder }),
        Some((_, u32::MAX)) => Err(EvalEnd::Short),
        _ => {
            plain.locks.take(alloc, address, thread)?;
            Ok(())
        }
    }
}

/// Gives the lock of an address back once, where the thread holds it.
pub(crate) fn give(plain: &mut Plain, thread: u32, address: Address) -> Result<(), EvalEnd>
    ensures { MatchResult result
        (λ _. give_lock thread address (map.get plain.old.locks address) plain.old ≡ Gives tt plain.new)
        (λ e. IsEvaluationEnd e (give_lock thread address (map.get plain.old.locks address) plain.old)) }
{
    match plain.locks.find(address) {
        Some((holder, _)) if holder == thread => {
            plain.locks.give(address);
            Ok(())
        }
        _ => Err(EvalEnd::Faults(Fault::Null)),
    }
}

/// Prints a number.
pub(crate) fn print(plain: &mut Plain, number: i32) -> Result<(), EvalEnd>
    ensures printed { OnOk result (plain.new ≡ changed (Prints number) plain.old) }
    ensures err { IfErr result (λ e. e ≡ ends.NoMemory) }
{
    plain.output.push(number)?;
    Ok(())
}

/// The slots of a new frame of a method: `this`, the arguments, and 0 in each other slot.
pub(crate) fn fresh_slots(
    alloc: Global,
    method: &CoreMethod,
    this: Address,
    arguments: &[Value],
) -> Result<Vec<Value>, NoMemory>
    ensures { IfOk result (λ v. v.items ≡ new_slots (method_of method.now) (value.Ref this) arguments.now) }
{
    slots_of(
        alloc,
        method.slots,
        Value::Ref(this),
        arguments,
        arguments.len(),
    )
}
