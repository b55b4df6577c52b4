//! Levels read from their text.
ghost use Rattle.std.specs.Prelude.{◌≡◌, ◌≤◌, ◌<◌, ◌-◌, ◌^◌, ◌⊎◌, ℕ, List, [], length, replicate, IfOk, IfErr, MatchResult};
ghost use Rattle.classes.specs.Table.{TableData};
ghost use Rattle.classes.specs.Views.{table_data};
ghost use Rattle.core_program.specs.Views.{program_of};
ghost use Rattle.level_check.specs.declared.reader.LevelsFault.{LevelsFault as LevelsFaultData};
ghost use Rattle.level_check.specs.Faults.{AreLevels, IsFirstLevelsFault};
ghost use Rattle.level_check.specs.Kept.{flaw_at, HasRead, IsLevelsAnswer, IsToldAnswer};

use crate::checks::{first_missing, first_unequal};
use crate::lines::{Flaw, LineStop, lines};
use classes::ClassTable;
use core_program::CoreProgram;
use levels::Levels;
use paths::ClassId;
use std::alloc::{AllocError, Global};

/// Why bytes give no levels. Places count bytes from 0.
#[derive(Clone, Copy, Debug, PartialEq, Eq)]
pub enum LevelsFault {
    /// No text goes on with this byte, or the bytes end here too early, or a number out of range begins here.
    Form(u32),
    /// The name that begins here is that of no class.
    Unknown(u32),
    /// The name that begins here stood on a line before.
    Twice(u32),
    /// This class has no line.
    Missing(ClassId),
    /// This class has another level than the class that it extends.
    Unequal(ClassId),
    /// There was no memory for the levels.
    NoMemory,
}

impl From<AllocError> for LevelsFault {
    ghost use Rattle.std.specs.Prelude.{◌≡◌};
    ghost use Rattle.level_check.specs.declared.reader.LevelsFault.TheVariants as faults;

    ghost from_gives = { λ _ fault. fault ≡ faults.NoMemory };

    fn from(_: AllocError) -> Self {
        LevelsFault::NoMemory
    }
}

/// The fault where lines stopped in a text of this length.
fn fault_of(size: usize, stop: LineStop<'_>) -> LevelsFault
    requires { size < 2 ^ 32 }
    ensures { result ≡ flaw_at stop.entry.flaw (size - length stop.entry.rest.now) }
{
    let place = size.saturating_sub(stop.rest.len()) as u32;
    match stop.flaw {
        Flaw::Form => LevelsFault::Form(place),
        Flaw::Unknown => LevelsFault::Unknown(place),
        Flaw::Twice => LevelsFault::Twice(place),
    }
}

/// As many levels of no class.
fn no_levels(alloc: Global, count: usize) -> Result<Vec<u32>, AllocError>
    ensures { IfOk result (λ levels. levels.items ≡ replicate count 0) }
{
    let mut levels = Vec::new(alloc);
    levels.resize(count, 0)?;
    Ok(levels)
}

/// The levels that were read, where each class has one.
fn complete(levels: Vec<u32>) -> Result<Vec<u32>, LevelsFault>
    requires { length levels.items < 2 ^ 32 }
    ensures { (t : TableData) (bytes : List ℕ) → HasRead t bytes [] levels.items → IsToldAnswer t bytes result }
{
    match first_missing(levels.as_slice()) {
        Some(class) => Err(LevelsFault::Missing(ClassId(class as u32))),
        None => Ok(levels),
    }
}

/// The levels on the lines of the text, for each class one.
fn told(
    alloc: Global,
    bytes: &[u8],
    table: &ClassTable<'_>,
    count: u32,
) -> Result<Vec<u32>, LevelsFault>
    requires short { length bytes.now ≤ 16777216 }
    requires classes { length (table_data table.now).names ≡ count }
    ensures { IsToldAnswer (table_data table.now) bytes.now result }
{
    let mut levels = no_levels(alloc, count as usize)?;
    match lines(table, &mut levels, bytes) {
        Ok(()) => complete(levels),
        Err(stop) => Err(fault_of(bytes.len(), stop)),
    }
}

/// Reads the text with the one clause that its answer is right.
fn read(
    alloc: Global,
    bytes: &[u8],
    table: &ClassTable<'_>,
    program: &CoreProgram,
) -> Result<Levels, LevelsFault>
    requires short { length bytes.now ≤ 16777216 }
    requires classes { length (table_data table.now).names ≡ length (program_of program.now).classes }
    ensures { IsLevelsAnswer (table_data table.now) (program_of program.now) bytes.now result }
{
    let Ok(count) = u32::try_from(program.classes().len()) else {
        return Err(LevelsFault::NoMemory);
    };
    let of = told(alloc, bytes, table, count)?;
    match first_unequal(of.as_slice(), program) {
        Some(class) => Err(LevelsFault::Unequal(class)),
        None => Ok(Levels { of }),
    }
}

/// The levels that a text of at most 16,777,216 bytes gives, by the table of a program. A name means the first class of this name.
pub fn read_levels(
    alloc: Global,
    bytes: &[u8],
    table: &ClassTable<'_>,
    program: &CoreProgram,
) -> Result<Levels, LevelsFault>
    requires short { length bytes.now ≤ 16777216 }
    requires classes { length (table_data table.now).names ≡ length (program_of program.now).classes }

    // Each answer is right of the text.
    ensures levels { IfOk result (λ levels. AreLevels (table_data table.now) (program_of program.now) bytes.now levels.of.items) }
    ensures fault { IfErr result (λ fault. (fault ≡ LevelsFault.NoMemory) ⊎ IsFirstLevelsFault (table_data table.now) (program_of program.now) bytes.now fault) }

    // It is the only right one, and is given where there is memory.
    ensures only_levels { (found : List ℕ) → AreLevels (table_data table.now) (program_of program.now) bytes.now found →
        MatchResult result (λ levels. levels.of.items ≡ found) (λ fault. fault ≡ LevelsFault.NoMemory) }
    ensures only_fault { (found : LevelsFaultData) → IsFirstLevelsFault (table_data table.now) (program_of program.now) bytes.now found →
        MatchResult result (λ _. ⊥) (λ fault. (fault ≡ found) ⊎ (fault ≡ LevelsFault.NoMemory)) }
{
    read(alloc, bytes, table, program)
}
