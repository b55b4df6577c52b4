//! `replay FILE SCHEDULE`.

ghost use Rattle.std.specs.Prelude.{◌≡◌, ◌≤◌, ℕ, List, Some, false, length, map, MatchResult};
ghost use Rattle.lexer.specs.Limits.{longest_source};
ghost use Rattle.sources.specs.Limits.{longest_second_file};
ghost use Rattle.classes.specs.Views.{table_data};
ghost use Rattle.compile.specs.IsCode.{IsCodeOf};
ghost use Rattle.core_program.specs.Typed.{IsTyped};
ghost use Rattle.core_program.specs.Views.{program_of};
ghost use Rattle.replay.specs.Records.{Told, HasNoDeep};
ghost use Rattle.replay.specs.Views.{record_told};
ghost use Rattle.schedule_commands.specs.Evaluated.{AreEvaluated};
ghost use Rattle.schedule_commands.specs.Lines.{calls_text as calls_bytes, too_deep_call_line};
ghost use Rattle.schedule_commands.specs.Replay.{NoReplay, ReplayAnswer};
ghost use Rattle.sources.specs.Checking.{IsSourceOf};
ghost use Rattle.sources.specs.Refusals.{IsRight, Tells};
ghost use Rattle.state.specs.States.{State};
ghost use Rattle.semantics.specs.Run.{run, inside, IsUninterrupted};

use crate::lines::{calls_text, too_deep_text};
use crate::schedules::schedule_of;
use crate::serialising::order_of;
use compile::{CodeTable, compile};
use core_program::CoreProgram;
use replay::{CallRecord, ReplayEnd, replay};
use sources::{Ending, Refusal, Source, judge, read_source};
use std::alloc::{AllocError as NoMemory, Global};
use std::mem::forget;

/// The refusal of a schedule of which the call with this first entry, counted from 1, is too deep.
fn refuse_deep(alloc: Global, entry: u32) -> Refusal
    ensures { Tells Ending.CallTooDeep (too_deep_call_line entry) result }
{
    match too_deep_text(alloc, entry) {
        Ok(line) => Refusal::Line(Ending::CallTooDeep, line),
        Err(NoMemory) => Refusal::NoMemory,
    }
}

/// The completed outermost atomic calls of an order that interrupts none of them.
fn calls_of(
    alloc: Global,
    program: &CoreProgram,
    code: &CodeTable,
    order: &[u32],
) -> Result<Vec<CallRecord>, Refusal>
    requires code { IsCodeOf (program_of program.now) code.now.code.items code.now.entry.items code.now.room.items }
    requires typed { IsTyped (program_of program.now) }
    requires size { length order.now ≤ 200000 }
    requires alone { IsUninterrupted (program_of program.now) order.now }
    requires whole { (q : State) → run (program_of program.now) order.now ≡ Some q → (t : ℕ) → inside (program_of program.now) q t ≡ false }
    ensures { MatchResult result
        (λ calls. AreEvaluated (program_of program.now) order.now (map record_told calls.items) × HasNoDeep (program_of program.now) order.now)
        (IsRight (NoReplay (program_of program.now) order.now)) }
{
    match replay(alloc, program, code, order) {
        Ok(calls) => Ok(calls),
        Err(ReplayEnd::TooDeep { entry }) => Err(refuse_deep(alloc, entry)),
        Err(ReplayEnd::NoMemory) => Err(Refusal::NoMemory),
    }
}

/// The lines for the completed outermost atomic calls of an order that interrupts none of them.
fn replayed_text(
    alloc: Global,
    source: &Source,
    code: &CodeTable,
    order: &[u32],
) -> Result<Vec<u8>, Refusal>
    requires code { IsCodeOf (program_of source.now.program) code.now.code.items code.now.entry.items code.now.room.items }
    requires typed { IsTyped (program_of source.now.program) }
    requires size { length order.now ≤ 200000 }
    requires alone { IsUninterrupted (program_of source.now.program) order.now }
    requires whole { (q : State) → run (program_of source.now.program) order.now ≡ Some q → (t : ℕ) → inside (program_of source.now.program) q t ≡ false }
    ensures { MatchResult result
        (λ out. (calls : List Told) × AreEvaluated (program_of source.now.program) order.now calls × HasNoDeep (program_of source.now.program) order.now × (out.items ≡ calls_bytes (table_data source.now.table) calls))
        (IsRight (NoReplay (program_of source.now.program) order.now)) }
{
    let calls = calls_of(alloc, &source.program, code, order)?;
    let text = calls_text(alloc, &source.table, calls.as_slice())?;
    Ok(text.into_bytes())
}

/// Replays the completed outermost atomic calls of a schedule of this source, one at a time; or gives the refusal.
fn replayed(alloc: Global, source: &Source, text: &[u8]) -> Result<Vec<u8>, Refusal>
    requires source { (file : List ℕ) × IsSourceOf file source.now }
    requires text { length text.now ≤ longest_second_file }
    ensures { (file : List ℕ) → IsSourceOf file source.now →
        MatchResult result (λ out. ReplayAnswer file text.now Ending.Done out.items) (IsRight (ReplayAnswer file text.now)) }
{
    judge(alloc, source)?;
    let schedule = schedule_of(alloc, text)?;
    let code = compile(alloc, &source.program)?;
    let found = order_of(alloc, &source.program, &code, schedule.as_slice())?;
    replayed_text(alloc, source, &code, found.order.as_slice())
}

/// Replays the completed outermost atomic calls of a schedule of a source, one at a time, in the order in which `serialise` writes
/// them: a line for each call, with its result and the numbers that it printed; or the refusal.
pub fn replay_calls(alloc: Global, file: &[u8], text: &[u8]) -> Result<Vec<u8>, Refusal>
    requires file { length file.now ≤ longest_source }
    requires text { length text.now ≤ longest_second_file }
    ensures { MatchResult result (λ out. ReplayAnswer file.now text.now Ending.Done out.items) (IsRight (ReplayAnswer file.now text.now)) }
{
    let source = read_source(alloc, file)?;
    let out = replayed(alloc, &source, text);
    forget(source);
    out
}
