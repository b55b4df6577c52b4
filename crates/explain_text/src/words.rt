//! Names in the lines of a method.

ghost use Rattle.std.specs.Prelude.{◌≡◌, ◌++◌, [], option_and_then, option_map, slice_get, string_bytes, unwrap_or, OnOk};
ghost use Rattle.classes.specs.Views.{table_data};
ghost use Rattle.report.specs.Verdicts.{field_text};
ghost use Rattle.explain_text.specs.Views.{page_data};
ghost use Rattle.explain_text.specs.Words.{access_text, field_title, field_helps, final_words, held_list_text, is_lacking_field, is_lacking_variable, lack_text, more_held, path_in, variable_helps};

use crate::page::Page;
use classes::ClassTable;
use explain::Lack;
use paths::{FieldId, Path};
use report::write_fields;
use std::alloc::AllocError as NoMemory;

/// The name, or nothing where there is none.
fn name_or_nothing(name: Option<&str>) -> &str
    ensures { result.now ≡ unwrap_or (option_map (λ n. n.now) name.entry) [] }
{
    name.unwrap_or("")
}

/// Writes the name of a field.
fn write_name(out: &mut String, table: &ClassTable<'_>, field: FieldId) -> Result<(), NoMemory>
    ensures { OnOk result (string_bytes out.new ≡ string_bytes out.old ++ field_text (table_data table.now) field) }
{
    out.push_str(name_or_nothing(table.field_name(field)))
}

/// Writes a path.
pub(crate) fn write_path(out: &mut String, page: &Page<'_, '_>, path: &Path) -> Result<(), NoMemory>
    ensures { OnOk result (string_bytes out.new ≡ string_bytes out.old ++ path_in (page_data page.now) path.now) }
{
    out.push_str(page.slots.name(path.root))?;
    write_fields(out, page.table, path.fields.as_slice())
}

/// The name of the class of a field.
fn class_of<'a>(table: &ClassTable<'a>, field: FieldId) -> Option<&'a str>
    ensures { option_map (λ n. n.now) result ≡ option_and_then (λ f. slice_get (table_data table.now).names f.class) (slice_get (table_data table.now).fields field) }
{
    let entry = table.fields().get(field.0 as usize)?;
    table.class_name(entry.class)
}

/// Writes a field as its class and its name.
pub(crate) fn write_field(
    out: &mut String,
    table: &ClassTable<'_>,
    field: FieldId,
) -> Result<(), NoMemory>
    ensures { OnOk result (string_bytes out.new ≡ string_bytes out.old ++ field_title (table_data table.now) field) }
{
    if let Some(class) = class_of(table, field) {
        out.push_str(class)?;
        out.push_str(".")?;
    }
    write_name(out, table, field)
}

/// Writes a field of a receiver: behind the receiver's path, or as its class and name where that has none.
pub(crate) fn write_access(
    out: &mut String,
    page: &Page<'_, '_>,
    receiver: &Option<Path>,
    field: FieldId,
) -> Result<(), NoMemory>
    ensures { OnOk result (string_bytes out.new ≡ string_bytes out.old ++ access_text (page_data page.now) receiver.now field) }
{
    match receiver {
        Some(path) => {
            write_path(out, page, path)?;
            out.push_str(".")?;
            write_name(out, page.table, field)
        }
        None => write_field(out, page.table, field),
    }
}

/// Writes paths, each behind a comma.
fn write_more(out: &mut String, page: &Page<'_, '_>, held: &[Path]) -> Result<(), NoMemory>
    ensures { OnOk result (string_bytes out.new ≡ string_bytes out.old ++ more_held (page_data page.now) held.now) }
{
    for path in held {
        out.push_str(", ")?;
        write_path(out, page, path)?;
    }
    Ok(())
}

/// Writes held paths with commas between, or that there are none.
pub(crate) fn write_held(
    out: &mut String,
    page: &Page<'_, '_>,
    held: &[Path],
) -> Result<(), NoMemory>
    ensures { OnOk result (string_bytes out.new ≡ string_bytes out.old ++ held_list_text (page_data page.now) held.now) }
{
    let Some((first, rest)) = held.split_first() else {
        return out.push_str("nothing");
    };
    write_path(out, page, first)?;
    write_more(out, page, rest)
}

/// Whether this is that variable.
fn is_lacking_variable(lack: Lack, slot: u16) -> bool
    ensures { result ≡ is_lacking_variable lack slot }
{
    match lack {
        Lack::Variable(other) => other == slot,
        Lack::Field(_) | Lack::Long | Lack::Value => false,
    }
}

/// Whether this is that field.
fn is_lacking_field(lack: Lack, field: FieldId) -> bool
    ensures { result ≡ is_lacking_field lack field }
{
    match lack {
        Lack::Field(other) => other == field,
        Lack::Variable(_) | Lack::Long | Lack::Value => false,
    }
}

/// Whether this variable is what helps where it is made final.
fn variable_helps(fitting: Option<Lack>, slot: u16) -> bool
    ensures { result ≡ variable_helps fitting slot }
{
    match fitting {
        Some(lack) => is_lacking_variable(lack, slot),
        None => false,
    }
}

/// Whether this field is.
fn field_helps(fitting: Option<Lack>, field: FieldId) -> bool
    ensures { result ≡ field_helps fitting field }
{
    match fitting {
        Some(lack) => is_lacking_field(lack, field),
        None => false,
    }
}

/// What is said of a variable or a field that isn't final, by whether it helps to make it final.
fn final_words(helps: bool) -> &'static str
    ensures { result.now ≡ final_words helps }
{
    if helps {
        " isn't final"
    } else {
        " names no lock"
    }
}

/// Writes why an expression has no path.
pub(crate) fn write_lack(out: &mut String, page: &Page<'_, '_>, lack: Lack) -> Result<(), NoMemory>
    ensures { OnOk result (string_bytes out.new ≡ string_bytes out.old ++ lack_text (page_data page.now) lack) }
{
    match lack {
        Lack::Variable(slot) => {
            out.push_str(page.slots.name(slot))?;
            out.push_str(final_words(variable_helps(page.fitting, slot)))
        }
        Lack::Field(field) => {
            write_field(out, page.table, field)?;
            out.push_str(final_words(field_helps(page.fitting, field)))
        }
        Lack::Long => out.push_str("its path would have more than two fields"),
        Lack::Value => out.push_str("it isn't reached by a variable and final fields"),
    }
}
