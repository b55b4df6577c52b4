//! The warnings of fields that are written though nothing guards them.

ghost use Rattle.std.specs.Prelude.{◌≡◌, ◌++◌, ◌<◌, ◌≤◌, ◌^◌, OnOk, length, map, string_bytes};
ghost use Rattle.classes.specs.Views.{table_data};
ghost use Rattle.core_program.specs.Views.{program_of};
ghost use Rattle.explain.specs.Unguarded.{bare_writes};
ghost use Rattle.explain_commands.specs.Explained.{page_of};
ghost use Rattle.explain_commands.specs.Warned.{AreByMethods, warning_lines};
ghost use Rattle.explain_text.specs.Warnings.{warning_line};
ghost use Rattle.syntax.specs.Views.{member_of};

use crate::told::Told;
use effects::Assigned;
use explain::{BareWrite, Walk, bare_writes};
use explain_text::{Page, write_warning};
use places::{method_places, slot_names};
use std::alloc::{AllocError as NoMemory, Global};

/// Adds the line of a write.
fn add_warning(
    alloc: Global,
    told: &Told<'_, '_, '_>,
    write: &BareWrite,
    text: &mut String,
) -> Result<(), NoMemory>
    requires { write.now.method < length told.now.methods.now.items }
    ensures { OnOk result (string_bytes text.new ≡ string_bytes text.old ++ warning_line
        (page_of told.now.file.now told.now.index.now (table_data told.now.source.now.table) (map (λ m. member_of m.now) told.now.methods.now.items) write.now.method) write.now) }
{
    let member = told.methods[write.method.0 as usize];
    let offsets = method_places(alloc, member)?;
    let slots = slot_names(alloc, member)?;
    let page = Page {
        file: told.file,
        index: told.index,
        table: &told.source.table,
        slots: &slots,
        offsets: offsets.as_slice(),
        fitting: None,
    };
    write_warning(text, &page, write)
}

/// Adds the lines of these writes, one after the other.
fn add_lines(
    alloc: Global,
    told: &Told<'_, '_, '_>,
    writes: &[BareWrite],
    text: &mut String,
) -> Result<(), NoMemory>
    requires { AreByMethods (length told.now.methods.now.items) writes.now }
    ensures { OnOk result (string_bytes text.new ≡ string_bytes text.old ++ warning_lines
        (page_of told.now.file.now told.now.index.now (table_data told.now.source.now.table) (map (λ m. member_of m.now) told.now.methods.now.items)) writes.now) }
{
    for write in writes {
        add_warning(alloc, told, write, text)?;
    }
    Ok(())
}

/// Adds a warning for each field that a method writes and that nothing guards.
pub(crate) fn add_warnings<A: Assigned>(
    told: &Told<'_, '_, '_>,
    walk: &Walk<'_, A>,
    text: &mut String,
) -> Result<(), NoMemory>
    requires there { length (program_of walk.now.program.now).methods ≤ length told.now.methods.now.items }
    requires few { length (program_of walk.now.program.now).methods ≤ 2 ^ 32 }
    ensures { OnOk result (string_bytes text.new ≡ string_bytes text.old ++ warning_lines
        (page_of told.now.file.now told.now.index.now (table_data told.now.source.now.table) (map (λ m. member_of m.now) told.now.methods.now.items)) (bare_writes (program_of walk.now.program.now))) }
{
    let writes = bare_writes(walk)?;
    add_lines(walk.alloc, told, writes.as_slice(), text)
}
