//! The lines for levels that are refused.

ghost use Rattle.std.specs.Prelude.{◌≡◌, ◌≢◌, [], option_map, string_bytes, unwrap_or, IfOk};
ghost use Rattle.classes.specs.Views.{table_data};
ghost use Rattle.report.specs.States.{class_text};
ghost use Rattle.evidence_commands.specs.LevelLines.{refused_class_line, levels_fault_line, takes_line};

use base::write_number;
use classes::ClassTable;
use level_check::LevelsFault;
use paths::{ClassId, MethodId};
use report::{refused_at_text, write_title};
use std::alloc::{AllocError as NoMemory, Global};

/// The name, or nothing where there is none.
fn name_or_nothing(name: Option<&str>) -> &str
    ensures { result.now ≡ unwrap_or (option_map (λ n. n.now) name.entry) [] }
{
    name.unwrap_or("")
}

/// The name of a class, or nothing where the table hasn't one.
fn class_name<'t>(table: &'t ClassTable<'_>, class: ClassId) -> &'t str
    ensures { result.now ≡ class_text (table_data table.now) class }
{
    name_or_nothing(table.class_name(class))
}

/// The line for a class whose level is wrong.
fn refused_class(
    alloc: Global,
    table: &ClassTable<'_>,
    class: ClassId,
    kind: &str,
) -> Result<String, NoMemory>
    ensures { IfOk result (λ line. string_bytes line ≡ refused_class_line (table_data table.now) class kind.now) }
{
    let mut line = String::from_str(alloc, "levels refused: ")?;
    line.push_str(class_name(table, class))?;
    line.push_str(" ")?;
    line.push_str(kind)?;
    line.push_str("\n")?;
    Ok(line)
}

/// The line for the first fault of a text of levels.
pub(crate) fn fault_text(
    alloc: Global,
    table: &ClassTable<'_>,
    fault: LevelsFault,
) -> Result<String, NoMemory>
    ensures { IfOk result (λ line. (fault ≢ LevelsFault.NoMemory) × (string_bytes line ≡ levels_fault_line (table_data table.now) fault)) }
{
    match fault {
        LevelsFault::Form(place) => refused_at_text(alloc, "levels", place, "form"),
        LevelsFault::Unknown(place) => refused_at_text(alloc, "levels", place, "unknown"),
        LevelsFault::Twice(place) => refused_at_text(alloc, "levels", place, "twice"),
        LevelsFault::Missing(class) => refused_class(alloc, table, class, "has none"),
        LevelsFault::Unequal(class) => refused_class(alloc, table, class, "differs"),
        LevelsFault::NoMemory => Err(NoMemory),
    }
}

/// The line for a method that takes a lock of this class while one of this level may be held.
pub(crate) fn takes_text(
    alloc: Global,
    table: &ClassTable<'_>,
    method: MethodId,
    class: ClassId,
    under: u32,
) -> Result<String, NoMemory>
    ensures { IfOk result (λ line. string_bytes line ≡ takes_line (table_data table.now) method class under) }
{
    let mut line = String::new(alloc);
    write_title(&mut line, table, method)?;
    line.push_str(": takes ")?;
    line.push_str(class_name(table, class))?;
    line.push_str(" under level ")?;
    write_number(&mut line, under)?;
    line.push_str("\n")?;
    Ok(line)
}
