//! Lines, one after another.
ghost use Rattle.std.specs.Prelude.{◌≡◌, ◌<◌, ◌-◌, ℕ, List, [], Some, Ok, length, MatchResult};
ghost use Rattle.classes.specs.Table.{class_number};
ghost use Rattle.classes.specs.Views.{table_data};
ghost use Rattle.levels.specs.Walks.{level_in};
ghost use Rattle.level_check.specs.Texts.{LevelLine};
ghost use Rattle.level_check.specs.Reading.{name_at};
ghost use Rattle.level_check.specs.Faults.{IsNew, HasFlaw, Stops};
ghost use Rattle.level_check.specs.Kept.{KeepsLevels, HasRead, IsRead};

use crate::names::{class_of, level, name};
use books::Stop;
use classes::ClassTable;
use paths::ClassId;

/// What is wrong at a byte of a text.
#[derive(Clone, Copy, Debug, PartialEq, Eq)]
pub(crate) enum Flaw {
    Form,
    Unknown,
    Twice,
}

/// What is wrong, and the text from there on.
#[derive(Clone, Copy)]
pub(crate) struct LineStop<'a> {
    pub(crate) flaw: Flaw,
    pub(crate) rest: &'a [u8],
}

impl<'a> LineStop<'a> {
    /// No line goes on here.
    fn form(stop: Stop<'a>) -> LineStop<'a>
        ensures flaw { result.flaw ≡ Flaw.Form }
        ensures rest { result.rest.now ≡ stop.entry.rest.now }
    {
        LineStop {
            flaw: Flaw::Form,
            rest: stop.rest,
        }
    }
}

/// The level of a class; 0 for one that has none.
pub(crate) fn level_of(levels: &[u32], class: ClassId) -> u32
    ensures { result ≡ level_in levels.now class }
{
    match levels.get(class.0 as usize) {
        Some(level) => *level,
        None => 0,
    }
}

/// The class whose name the text begins with, and what stands behind the blank.
fn head<'a>(
    table: &ClassTable<'_>,
    levels: &[u32],
    text: &'a [u8],
) -> Result<(ClassId, &'a [u8]), LineStop<'a>>
    ensures { (before : List LevelLine) → KeepsLevels (table_data table.now) before levels.now → MatchResult result
        (λ x. (its : List ℕ) × (name_at text.now ≡ Ok (its, x.1.now)) × (class_number (table_data table.now) its ≡ Some x.0) × IsNew (table_data table.now) before its)
        (λ stop. Stops (table_data table.now) before text.now stop.flaw stop.rest.now) }
{
    let (name, rest) = match name(text) {
        Ok(found) => found,
        Err(stop) => return Err(LineStop::form(stop)),
    };
    let Some(class) = class_of(table, name) else {
        return Err(LineStop {
            flaw: Flaw::Unknown,
            rest: text,
        });
    };
    if level_of(levels, class) > 0 {
        return Err(LineStop {
            flaw: Flaw::Twice,
            rest: text,
        });
    }
    Ok((class, rest))
}

/// Reads a line.
fn line<'a>(
    table: &ClassTable<'_>,
    levels: &mut Vec<u32>,
    text: &'a [u8],
) -> Result<&'a [u8], LineStop<'a>>
    requires { (before : List LevelLine) × KeepsLevels (table_data table.now) before levels.old.items }
    ensures { (before : List LevelLine) → KeepsLevels (table_data table.now) before levels.old.items → MatchResult result
        (λ rest. IsRead (table_data table.now) before text.now rest.now levels.new.items)
        (λ stop. Stops (table_data table.now) before text.now stop.flaw stop.rest.now) }
{
    let (class, behind) = match head(table, levels.as_slice(), text) {
        Ok(found) => found,
        Err(stop) => return Err(stop),
    };
    let (level, rest) = match level(behind) {
        Ok(found) => found,
        Err(stop) => return Err(LineStop::form(stop)),
    };
    levels[class.0 as usize] = level;
    Ok(rest)
}

/// Reads all lines.
pub(crate) fn lines<'a>(
    table: &ClassTable<'_>,
    levels: &mut Vec<u32>,
    bytes: &'a [u8],
) -> Result<(), LineStop<'a>>
    requires { KeepsLevels (table_data table.now) [] levels.old.items }
    ensures { MatchResult result
        (λ _. HasRead (table_data table.now) bytes.now [] levels.new.items)
        (λ stop. HasFlaw (table_data table.now) bytes.now stop.flaw (length bytes.now - length stop.rest.now)) }
{
    let mut rest = bytes;
    'lines: while !rest.is_empty() {
        rest = match line(table, levels, rest) {
            Ok(behind) => behind,
            Err(stop) => return Err(stop),
        };
    }
    Ok(())
}
