//! The lines of `replay`.

ghost use Rattle.std.specs.Prelude.{◌≡◌, ◌++◌, map, string_bytes, IfOk, OnOk};
ghost use Rattle.std.specs.List.{flat_map};
ghost use Rattle.classes.specs.Views.{table_data};
ghost use Rattle.replay.specs.Views.{record_told};
ghost use Rattle.schedule_commands.specs.Lines.{result_text, prints_text, entry_text, asked_text, given_text, call_line, calls_text, too_deep_call_line};

use base::write_number;
use classes::ClassTable;
use replay::CallRecord;
use report::{write_address, write_title, write_value};
use state::Value;
use std::alloc::{AllocError as NoMemory, Global};

/// Writes the result of a call, or `void`.
fn write_result(text: &mut String, given: Option<Value>) -> Result<(), NoMemory>
    ensures { OnOk result (string_bytes text.new ≡ string_bytes text.old ++ result_text given) }
{
    match given {
        Some(value) => write_value(text, value),
        None => text.push_str("void"),
    }
}

/// Writes ` prints` and a number.
fn write_print(text: &mut String, number: i32) -> Result<(), NoMemory>
    ensures { OnOk result (string_bytes text.new ≡ string_bytes text.old ++ prints_text number) }
{
    text.push_str(" prints ")?;
    write_number(text, number)
}

/// Writes ` prints` and the number for each number that a call printed.
fn write_prints(text: &mut String, prints: &[i32]) -> Result<(), NoMemory>
    ensures { OnOk result (string_bytes text.new ≡ string_bytes text.old ++ flat_map prints_text prints.now) }
{
    for number in prints {
        write_print(text, *number)?;
    }
    Ok(())
}

/// Writes where a call begins: its first entry and its thread.
fn write_entry(text: &mut String, call: &CallRecord) -> Result<(), NoMemory>
    ensures { OnOk result (string_bytes text.new ≡ string_bytes text.old ++ entry_text (record_told call.now)) }
{
    text.push_str("call ")?;
    write_number(text, call.entry)?;
    text.push_str(" thread ")?;
    write_number(text, call.thread)
}

/// Writes the method of a call, and the receiver.
fn write_asked(text: &mut String, table: &ClassTable, call: &CallRecord) -> Result<(), NoMemory>
    ensures { OnOk result (string_bytes text.new ≡ string_bytes text.old ++ asked_text (table_data table.now) (record_told call.now)) }
{
    text.push_str(" ")?;
    write_title(text, table, call.method)?;
    text.push_str(" on ")?;
    write_address(text, call.on)
}

/// Writes what a call gave, and what it printed.
fn write_given(text: &mut String, call: &CallRecord) -> Result<(), NoMemory>
    ensures { OnOk result (string_bytes text.new ≡ string_bytes text.old ++ given_text (record_told call.now)) }
{
    text.push_str(" gives ")?;
    write_result(text, call.result)?;
    write_prints(text, call.prints.as_slice())
}

/// Writes the line of a call.
fn write_call(text: &mut String, table: &ClassTable, call: &CallRecord) -> Result<(), NoMemory>
    ensures { OnOk result (string_bytes text.new ≡ string_bytes text.old ++ call_line (table_data table.now) (record_told call.now)) }
{
    write_entry(text, call)?;
    write_asked(text, table, call)?;
    write_given(text, call)?;
    text.push_str("\n")
}

/// Writes a line for each call.
fn write_calls(text: &mut String, table: &ClassTable, calls: &[CallRecord]) -> Result<(), NoMemory>
    ensures { OnOk result (string_bytes text.new ≡ string_bytes text.old ++ flat_map (λ c. call_line (table_data table.now) (record_told c)) calls.now) }
{
    for call in calls {
        write_call(text, table, call)?;
    }
    Ok(())
}

/// A line for each call.
pub(crate) fn calls_text(
    alloc: Global,
    table: &ClassTable,
    calls: &[CallRecord],
) -> Result<String, NoMemory>
    ensures { IfOk result (λ text. string_bytes text ≡ calls_text (table_data table.now) (map record_told calls.now)) }
{
    let mut text = String::new(alloc);
    write_calls(&mut text, table, calls)?;
    Ok(text)
}

/// The line for a schedule of which the call with this first entry, counted from 1, is too deep.
pub(crate) fn too_deep_text(alloc: Global, entry: u32) -> Result<String, NoMemory>
    ensures { IfOk result (λ line. string_bytes line ≡ too_deep_call_line entry) }
{
    let mut line = String::from_str(alloc, "entry ")?;
    write_number(&mut line, entry)?;
    line.push_str(": call is too deep")?;
    line.push_str("\n")?;
    Ok(line)
}
