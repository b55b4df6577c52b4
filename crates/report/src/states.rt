//! The text of a state.

ghost use Rattle.std.specs.Prelude.{◌≡◌, ◌++◌, ◌+◌, [], length, map, option_map, slice_get, string_bytes, unwrap_or, IfOk, OnOk};
ghost use Rattle.std.specs.List.{flat_map};
ghost use Rattle.std.specs.FinMap as finite;
ghost use Rattle.classes.specs.Views.{table_data};
ghost use Rattle.core_program.specs.Views.{program_of};
ghost use Rattle.machine.specs.Standing.{program_run, StandsFor};
ghost use Rattle.state.specs.States.{State, fields_of};
ghost use Rattle.report.specs.Entries.{of_thread, entry_if_there};
ghost use Rattle.report.specs.States.{class_text, print_line, field_value_text, field_values_text, object_line, lock_line, top_text, status_text, thread_line, threads_text, sight_by_methods, text_of_state, state_text};

use crate::values::{fault_word, write_address, write_value};
use crate::verdict::write_title;
use base::write_number;
use classes::ClassTable;
use core_program::CoreProgram;
use machine::Machine;
use paths::{ClassId, FieldId, MethodId};
use state::{Address, Heap, Locks, ThreadCell, ThreadState, Value};
use std::alloc::{AllocError as NoMemory, Global};

/// The text of the state that a machine stands for, with the names of its program's classes, fields and methods: a line for each
/// printed number, then for each object and each held lock in ascending order of address, then for each thread.
pub fn state_text(alloc: Global, table: &ClassTable, machine: &Machine) -> Result<String, NoMemory>
    ensures { (q : State) → StandsFor machine.now q →
        IfOk result (λ text. string_bytes text ≡ state_text (program_run machine.now) (table_data table.now) q) }
{
    machine_text(alloc, table, machine)
}

/// The text of the machine's own state.
fn machine_text(alloc: Global, table: &ClassTable, machine: &Machine) -> Result<String, NoMemory>
    ensures { IfOk result (λ text. string_bytes text ≡ text_of_state (λ f. f.method) (program_run machine.now) (table_data table.now) machine.now.state) }
{
    let mut text = String::new(alloc);
    write_output(&mut text, machine.output())?;
    write_objects(&mut text, machine.program(), table, machine.heap())?;
    write_locks(&mut text, machine.locks())?;
    write_threads(&mut text, table, machine.threads())?;
    Ok(text)
}

/// Writes a line for each printed number.
fn write_output(text: &mut String, output: &[i32]) -> Result<(), NoMemory>
    ensures { OnOk result (string_bytes text.new ≡ string_bytes text.old ++ flat_map print_line output.now) }
{
    for number in output {
        write_print(text, *number)?;
    }
    Ok(())
}

fn write_print(text: &mut String, number: i32) -> Result<(), NoMemory>
    ensures { OnOk result (string_bytes text.new ≡ string_bytes text.old ++ print_line number) }
{
    text.push_str("print ")?;
    write_number(text, number)?;
    text.push_str("\n")
}

/// Writes a line for each object, thread by thread.
fn write_objects(
    text: &mut String,
    program: &CoreProgram,
    table: &ClassTable,
    heap: &Heap,
) -> Result<(), NoMemory>
    ensures { OnOk result (string_bytes text.new ≡ string_bytes text.old ++ flat_map (object_line (program_of program.now) (table_data table.now)) (finite.entries heap.now)) }
{
    let mut left = heap.len();
    let mut thread = 0;
    'threads: while left > 0 {
        left -= write_made(text, program, table, heap, thread)?;
        thread = after(thread)?;
    }
    Ok(())
}

/// Writes a line for each object that a thread made, and tells how many there are.
fn write_made(
    text: &mut String,
    program: &CoreProgram,
    table: &ClassTable,
    heap: &Heap,
    thread: u32,
) -> Result<usize, NoMemory>
    ensures text { OnOk result (string_bytes text.new ≡ string_bytes text.old ++ flat_map (object_line (program_of program.now) (table_data table.now)) (of_thread thread (finite.entries heap.now))) }
    ensures made { IfOk result (λ made. made ≡ length (of_thread thread (finite.entries heap.now))) }
{
    let made = heap.made(thread);
    let mut left = made;
    let mut count = 0;
    'counts: while left > 0 {
        left -= write_object_at(text, program, table, heap, Address { thread, count })?;
        count = after(count)?;
    }
    Ok(made)
}

/// The number after that of a thread or of an object.
fn after(number: u32) -> Result<u32, NoMemory>
    ensures { IfOk result (λ next. next ≡ number + 1) }
{
    // No address has a larger number.
    if number == u32::MAX {
        return Err(NoMemory);
    }
    Ok(number + 1)
}

/// Writes the line of the object at an address, where there is one, and tells how many that is.
fn write_object_at(
    text: &mut String,
    program: &CoreProgram,
    table: &ClassTable,
    heap: &Heap,
    address: Address,
) -> Result<usize, NoMemory>
    ensures text { OnOk result (string_bytes text.new ≡ string_bytes text.old ++ flat_map (object_line (program_of program.now) (table_data table.now)) (entry_if_there address (finite.get heap.now address))) }
    ensures count { IfOk result (λ count. count ≡ length (entry_if_there address (finite.get heap.now address))) }
{
    match heap.find(address) {
        Some((class, values)) => {
            write_object(text, program, table, address, class, values)?;
            Ok(1)
        }
        None => Ok(0),
    }
}

fn write_object(
    text: &mut String,
    program: &CoreProgram,
    table: &ClassTable,
    address: Address,
    class: ClassId,
    values: &[Value],
) -> Result<(), NoMemory>
    ensures { OnOk result (string_bytes text.new ≡ string_bytes text.old ++ object_line (program_of program.now) (table_data table.now) (address, record { class = class; values = values.now })) }
{
    text.push_str("object ")?;
    write_address(text, address)?;
    text.push_str(" ")?;
    text.push_str(class_name(table, class))?;
    write_field_values(text, table, fields_of(program, class), values)?;
    text.push_str("\n")
}

/// The name of a class, or nothing where the table hasn't one.
fn class_name<'t>(table: &'t ClassTable, class: ClassId) -> &'t str
    ensures { result.now ≡ class_text (table_data table.now) class }
{
    name_or_nothing(table.class_name(class))
}

/// The fields of a class in order.
fn fields_of(program: &CoreProgram, class: ClassId) -> &[FieldId]
    ensures { result.now ≡ fields_of (slice_get (program_of program.now).classes class) }
{
    match program.classes().get(class.0 as usize) {
        Some(class) => class.fields.as_slice(),
        None => &[],
    }
}

/// Writes each field with its value.
fn write_field_values(
    text: &mut String,
    table: &ClassTable,
    fields: &[FieldId],
    values: &[Value],
) -> Result<(), NoMemory>
    ensures { OnOk result (string_bytes text.new ≡ string_bytes text.old ++ field_values_text (table_data table.now) fields.now values.now) }
{
    let mut rest = values;
    for field in fields {
        let Some((value, more)) = rest.split_first() else {
            return Ok(());
        };
        write_field_value(text, table, *field, *value)?;
        rest = more;
    }
    Ok(())
}

fn write_field_value(
    text: &mut String,
    table: &ClassTable,
    field: FieldId,
    value: Value,
) -> Result<(), NoMemory>
    ensures { OnOk result (string_bytes text.new ≡ string_bytes text.old ++ field_value_text (table_data table.now) field value) }
{
    text.push_str(" ")?;
    text.push_str(name_or_nothing(table.field_name(field)))?;
    text.push_str("=")?;
    write_value(text, value)
}

/// Writes a line for each held lock, thread by thread.
fn write_locks(text: &mut String, locks: &Locks) -> Result<(), NoMemory>
    ensures { OnOk result (string_bytes text.new ≡ string_bytes text.old ++ flat_map lock_line (finite.entries locks.now)) }
{
    let mut left = locks.len();
    let mut thread = 0;
    'threads: while left > 0 {
        left -= write_held(text, locks, thread)?;
        thread = after(thread)?;
    }
    Ok(())
}

/// Writes a line for each held lock of an object that a thread made, and tells how many there are.
fn write_held(text: &mut String, locks: &Locks, thread: u32) -> Result<usize, NoMemory>
    ensures text { OnOk result (string_bytes text.new ≡ string_bytes text.old ++ flat_map lock_line (of_thread thread (finite.entries locks.now))) }
    ensures held { IfOk result (λ held. held ≡ length (of_thread thread (finite.entries locks.now))) }
{
    let held = locks.held_of(thread);
    let mut left = held;
    let mut count = 0;
    'counts: while left > 0 {
        left -= write_lock_at(text, locks, Address { thread, count })?;
        count = after(count)?;
    }
    Ok(held)
}

/// Writes the line of the held lock of an address, where there is one, and tells how many that is.
fn write_lock_at(text: &mut String, locks: &Locks, address: Address) -> Result<usize, NoMemory>
    ensures text { OnOk result (string_bytes text.new ≡ string_bytes text.old ++ flat_map lock_line (entry_if_there address (finite.get locks.now address))) }
    ensures count { IfOk result (λ count. count ≡ length (entry_if_there address (finite.get locks.now address))) }
{
    match locks.find(address) {
        Some((holder, count)) => {
            write_lock(text, address, holder, count)?;
            Ok(1)
        }
        None => Ok(0),
    }
}

fn write_lock(text: &mut String, address: Address, holder: u32, count: u32) -> Result<(), NoMemory>
    ensures { OnOk result (string_bytes text.new ≡ string_bytes text.old ++ lock_line (address, record { holder = holder; count = count })) }
{
    text.push_str("lock ")?;
    write_address(text, address)?;
    text.push_str(" thread ")?;
    write_number(text, holder)?;
    text.push_str(" count ")?;
    write_number(text, count)?;
    text.push_str("\n")
}

/// Writes a line for each thread.
fn write_threads(
    text: &mut String,
    table: &ClassTable,
    threads: &[ThreadCell],
) -> Result<(), NoMemory>
    ensures { OnOk result (string_bytes text.new ≡ string_bytes text.old ++ threads_text (table_data table.now) 0 (map (sight_by_methods (λ f. f.method)) threads.now)) }
{
    for (number, thread) in threads.iter().enumerate() {
        write_thread(text, table, number, thread)?;
    }
    Ok(())
}

fn write_thread(
    text: &mut String,
    table: &ClassTable,
    number: usize,
    thread: &ThreadCell,
) -> Result<(), NoMemory>
    ensures { OnOk result (string_bytes text.new ≡ string_bytes text.old ++ thread_line (table_data table.now) number (sight_by_methods (λ f. f.method) thread.now)) }
{
    text.push_str("thread ")?;
    write_number(text, number)?;
    text.push_str(" ")?;
    write_status(text, table, thread.top(), thread.frames(), thread.state())?;
    text.push_str("\n")
}

/// Writes how a thread stands, by the method of its top frame, the number of its frames and its status.
fn write_status(
    text: &mut String,
    table: &ClassTable,
    method: Option<MethodId>,
    frames: usize,
    state: ThreadState,
) -> Result<(), NoMemory>
    ensures { OnOk result (string_bytes text.new ≡ string_bytes text.old ++ status_text (table_data table.now) method frames state) }
{
    match state {
        ThreadState::Ready => text.push_str("ready"),
        ThreadState::Running => {
            text.push_str("running ")?;
            write_top(text, table, method)?;
            text.push_str(" ")?;
            write_number(text, frames)
        }
        ThreadState::Done => text.push_str("done"),
        ThreadState::Faulted(fault) => {
            text.push_str("faulted ")?;
            text.push_str(fault_word(fault))
        }
    }
}

/// Writes the method of a top frame, or nothing where there is no frame.
fn write_top(
    text: &mut String,
    table: &ClassTable,
    method: Option<MethodId>,
) -> Result<(), NoMemory>
    ensures { OnOk result (string_bytes text.new ≡ string_bytes text.old ++ top_text (table_data table.now) method) }
{
    match method {
        Some(method) => write_title(text, table, method),
        None => Ok(()),
    }
}

/// The name, or nothing where the table hasn't one.
fn name_or_nothing(name: Option<&str>) -> &str
    ensures { result.now ≡ unwrap_or (option_map (λ n. n.now) name.entry) [] }
{
    name.unwrap_or("")
}
