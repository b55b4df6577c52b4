//! `levels FILE LEVELS`.

ghost use Rattle.std.specs.Prelude.{◌≡◌, ◌≤◌, ℕ, List, length, MatchResult};
ghost use Rattle.lexer.specs.Limits.{longest_source};
ghost use Rattle.sources.specs.Limits.{longest_second_file};
ghost use Rattle.classes.specs.Views.{table_data};
ghost use Rattle.sources.specs.Checking.{IsSourceOf};
ghost use Rattle.sources.specs.Refusals.{IsRight, Tells};
ghost use Rattle.evidence_commands.specs.LevelLines.{ordered_line, takes_line};
ghost use Rattle.evidence_commands.specs.Levels.{LevelsAnswer};
ghost use Rattle.evidence_commands.specs.RefusedLevels.{RefusesText, RefusesOrder};

use crate::level_lines::{fault_text, takes_text};
use classes::ClassTable;
use level_check::{LevelEnd, LevelsFault, ordered, read_levels};
use paths::{ClassId, MethodId};
use sources::{Ending, Refusal, Source, read_source};
use std::alloc::{AllocError as NoMemory, Global};
use std::mem::forget;

/// What is written where no circle of waiting threads is reached.
const ORDERED: &[u8] = b"ordered\n";

/// The refusal of a text with this fault.
fn refuse_text(alloc: Global, table: &ClassTable<'_>, fault: LevelsFault) -> Refusal
    ensures { IsRight (RefusesText (table_data table.now) fault) result }
{
    match fault_text(alloc, table, fault) {
        Ok(line) => Refusal::Line(Ending::LevelsRefused, line),
        Err(NoMemory) => Refusal::NoMemory,
    }
}

/// The refusal of a program with this first bad `synchronized`.
fn refuse_lock(
    alloc: Global,
    table: &ClassTable<'_>,
    method: MethodId,
    class: ClassId,
    under: u32,
) -> Refusal
    ensures { Tells Ending.LevelsRefused (takes_line (table_data table.now) method class under) result }
{
    match takes_text(alloc, table, method, class, under) {
        Ok(line) => Refusal::Line(Ending::LevelsRefused, line),
        Err(NoMemory) => Refusal::NoMemory,
    }
}

/// The refusal of a program that isn't ordered.
fn refuse_order(alloc: Global, table: &ClassTable<'_>, end: LevelEnd) -> Refusal
    ensures { IsRight (RefusesOrder (table_data table.now) end) result }
{
    match end {
        LevelEnd::Order {
            method,
            class,
            under,
        } => refuse_lock(alloc, table, method, class, under),
        LevelEnd::NoMemory => Refusal::NoMemory,
    }
}

/// What is written where the program is ordered.
fn is_ordered(alloc: Global) -> Result<Vec<u8>, Refusal>
    ensures { MatchResult result (λ out. out.items ≡ ordered_line) (λ refusal. refusal ≡ Refusal.NoMemory) }
{
    let text = ORDERED.to_vec(alloc)?;
    Ok(text)
}

/// Judges a source by the text of levels.
fn judged(alloc: Global, source: &Source<'_>, levels: &[u8]) -> Result<Vec<u8>, Refusal>
    requires source { (file : List ℕ) × IsSourceOf file source.now }
    requires levels { length levels.now ≤ longest_second_file }
    ensures { (file : List ℕ) → IsSourceOf file source.now →
        MatchResult result (λ out. LevelsAnswer file levels.now Ending.Done out.items) (IsRight (LevelsAnswer file levels.now)) }
{
    let found = match read_levels(alloc, levels, &source.table, &source.program) {
        Ok(found) => found,
        Err(fault) => return Err(refuse_text(alloc, &source.table, fault)),
    };
    match ordered(alloc, &source.program, &source.sets, &found) {
        Ok(()) => is_ordered(alloc),
        Err(end) => Err(refuse_order(alloc, &source.table, end)),
    }
}

/// Shows by the text of levels that no threads of a source can wait for each other in a circle, or refuses one of the two.
#[tactic(auto, using(crate::proofs::LevelRows::source_refused))]
pub fn order_levels(alloc: Global, file: &[u8], levels: &[u8]) -> Result<Vec<u8>, Refusal>
    requires file { length file.now ≤ longest_source }
    requires levels { length levels.now ≤ longest_second_file }
    ensures { MatchResult result (λ out. LevelsAnswer file.now levels.now Ending.Done out.items) (IsRight (LevelsAnswer file.now levels.now)) }
{
    let source = read_source(alloc, file)?;
    let text = judged(alloc, &source, levels);
    forget(source);
    text
}
