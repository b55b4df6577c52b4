//! `serialise FILE SCHEDULE`.

ghost use Rattle.std.specs.Prelude.{◌≡◌, ◌≤◌, ◌++◌, ℕ, List, Some, length, MatchResult, IfOk};
ghost use Rattle.lexer.specs.Limits.{longest_source};
ghost use Rattle.sources.specs.Limits.{longest_second_file};
ghost use Rattle.classes.specs.Views.{table_data};
ghost use Rattle.compile.specs.IsCode.{IsCodeOf};
ghost use Rattle.core_program.specs.Core.{Program};
ghost use Rattle.core_program.specs.Typed.{IsTyped};
ghost use Rattle.core_program.specs.Views.{program_of};
ghost use Rattle.machine.specs.Standing.{StandsFor, program_run};
ghost use Rattle.rules.specs.Rules.{IsAccepted};
ghost use Rattle.schedule.specs.Comments.{commented};
ghost use Rattle.schedule.specs.Text.{IsSchedule};
ghost use Rattle.schedule.specs.Written.{written};
ghost use Rattle.serialise.specs.Rewritten.{IsRewritten, IsRefused};
ghost use Rattle.sources.specs.Checking.{IsSourceOf};
ghost use Rattle.sources.specs.Refusals.{IsRight, Tells};
ghost use Rattle.state.specs.States.{State};
ghost use Rattle.report.specs.Schedules.{inside_call_line};
ghost use Rattle.report.specs.States.{state_text as state_bytes};
ghost use Rattle.semantics.specs.Run.{run};
ghost use Rattle.schedule_commands.specs.Schedules.{NoOrder};
ghost use Rattle.schedule_commands.specs.Serialise.{SerialiseAnswer};

use crate::schedules::{refuse_stop, schedule_of};
use classes::ClassTable;
use compile::{CodeTable, compile};
use core_program::CoreProgram;
use report::{open_text, state_text};
use schedule::{add_comments, comment_laws, write_schedule};
use serialise::{Rearranged, SerialEnd, rewritten_with_machine};
use sources::{Ending, Refusal, Source, judge, read_source};
use std::alloc::{AllocError as NoMemory, Global};
use std::mem::forget;

/// The refusal of a schedule that isn't rewritten, for this reason.
fn refuse_end(alloc: Global, end: SerialEnd) -> Refusal
    ensures { (P : Program) (s : List ℕ) → IsRefused P s end → IsRight (NoOrder P s) result }
{
    match end {
        SerialEnd::Stopped(stopped) => refuse_stop(alloc, &stopped),
        SerialEnd::Open { thread } => refuse_open(alloc, thread),
        SerialEnd::NoMemory => Refusal::NoMemory,
    }
}

/// The refusal of a schedule at whose end this is the least thread inside an atomic call.
pub fn refuse_open(alloc: Global, thread: u32) -> Refusal
    ensures { Tells Ending.Open (inside_call_line thread) result }
{
    match open_text(alloc, thread) {
        Ok(line) => Refusal::Line(Ending::Open, line),
        Err(NoMemory) => Refusal::NoMemory,
    }
}

/// The written order of a schedule of an accepted program, and the machine that ran the schedule.
pub fn order_of<'p>(
    alloc: Global,
    program: &'p CoreProgram,
    code: &'p CodeTable,
    schedule: &[u32],
) -> Result<Rearranged<'p>, Refusal>
    requires typed { IsTyped (program_of program.now) }
    requires accepted { IsAccepted (program_of program.now) }
    requires code { IsCodeOf (program_of program.now) code.now.code.items code.now.entry.items code.now.room.items }
    requires short { length schedule.now ≤ 200000 }
    ensures order { MatchResult result (λ found. IsRewritten (program_of program.now) schedule.now found.order.items) (IsRight (NoOrder (program_of program.now) schedule.now)) }
    ensures stands { IfOk result (λ found. (q : State) → run (program_of program.now) schedule.now ≡ Some q → StandsFor found.machine q) }
    ensures program { IfOk result (λ found. found.machine.program ≡ program.now) }
{
    match rewritten_with_machine(alloc, program, code, schedule) {
        Ok(found) => Ok(found),
        Err(end) => Err(refuse_end(alloc, end)),
    }
}

/// A schedule in a line, and a text behind it as comments.
pub fn with_comments(alloc: Global, schedule: &[u32], comment: &[u8]) -> Result<Vec<u8>, NoMemory>
    ensures text { IfOk result (λ out. out.items ≡ written schedule.now ++ commented comment.now) }
    ensures spells { IfOk result (λ out. length schedule.now ≤ 200000 → IsSchedule out.items schedule.now) }
{
    let mut text = write_schedule(alloc, schedule)?.into_bytes();
    add_comments(&mut text, comment)?;
    comment_laws();
    Ok(text)
}

/// What is written for an order and the machine that ran its schedule.
pub(crate) fn order_text(
    alloc: Global,
    table: &ClassTable,
    found: &Rearranged,
) -> Result<Vec<u8>, NoMemory>
    ensures text { (q : State) → StandsFor found.now.machine q → IfOk result (λ out. out.items ≡
        written found.now.order.items ++ commented (state_bytes (program_run found.now.machine) (table_data table.now) q)) }
    ensures spells { IfOk result (λ out. length found.now.order.items ≤ 200000 → IsSchedule out.items found.now.order.items) }
{
    let state = state_text(alloc, table, &found.machine)?;
    with_comments(alloc, found.order.as_slice(), state.as_bytes())
}

/// Writes a schedule of this source with each atomic call in one piece, and the text of the state that it runs to; or the refusal.
fn serialised(alloc: Global, source: &Source, text: &[u8]) -> Result<Vec<u8>, Refusal>
    requires source { (file : List ℕ) × IsSourceOf file source.now }
    requires text { length text.now ≤ longest_second_file }
    ensures { (file : List ℕ) → IsSourceOf file source.now →
        MatchResult result (λ out. SerialiseAnswer file text.now Ending.Done out.items) (IsRight (SerialiseAnswer file text.now)) }
{
    judge(alloc, source)?;
    let schedule = schedule_of(alloc, text)?;
    let code = compile(alloc, &source.program)?;
    let found = order_of(alloc, &source.program, &code, schedule.as_slice())?;
    let out = order_text(alloc, &source.table, &found)?;
    Ok(out)
}

/// Writes a schedule of a source with each atomic call in one piece, and the text of the state that it runs to; or the refusal.
pub fn serialise(alloc: Global, file: &[u8], text: &[u8]) -> Result<Vec<u8>, Refusal>
    requires file { length file.now ≤ longest_source }
    requires text { length text.now ≤ longest_second_file }
    ensures { MatchResult result (λ out. SerialiseAnswer file.now text.now Ending.Done out.items) (IsRight (SerialiseAnswer file.now text.now)) }
{
    let source = read_source(alloc, file)?;
    let out = serialised(alloc, &source, text);
    forget(source);
    out
}
