//! `serialise-open FILE SCHEDULE`.

ghost use Rattle.std.specs.Prelude.{◌≡◌, ◌≤◌, ℕ, List, Some, length, MatchResult, IfOk};
ghost use Rattle.lexer.specs.Limits.{longest_source};
ghost use Rattle.sources.specs.Limits.{longest_second_file};
ghost use Rattle.compile.specs.IsCode.{IsCodeOf};
ghost use Rattle.core_program.specs.Core.{Program};
ghost use Rattle.core_program.specs.Typed.{IsTyped};
ghost use Rattle.core_program.specs.Views.{program_of};
ghost use Rattle.machine.specs.Standing.{StandsFor};
ghost use Rattle.serialise.specs.NoRun.{IsNoRun};
ghost use Rattle.serialise.specs.Opened.{IsOpened};
ghost use Rattle.rules.specs.Rules.{IsAccepted};
ghost use Rattle.sources.specs.Checking.{IsSourceOf};
ghost use Rattle.sources.specs.Refusals.{IsRight};
ghost use Rattle.state.specs.States.{State};
ghost use Rattle.semantics.specs.Run.{run};
ghost use Rattle.schedule_commands.specs.Schedules.{NoRun};
ghost use Rattle.schedule_commands.specs.SerialiseOpen.{SerialiseOpenAnswer};

use crate::schedules::{refuse_stop, schedule_of};
use crate::serialising::order_text;
use compile::{CodeTable, compile};
use core_program::CoreProgram;
use serialise::{Rearranged, RunEnd, opened_with_machine};
use sources::{Ending, Refusal, Source, judge, read_source};
use std::alloc::{AllocError as NoMemory, Global};
use std::mem::forget;

/// The refusal of a schedule that isn't put in its open order, for this reason.
fn refuse_end(alloc: Global, end: RunEnd) -> Refusal
    ensures { (P : Program) (s : List ℕ) → IsNoRun P s end → IsRight (NoRun P s) result }
{
    match end {
        RunEnd::Stopped(stopped) => refuse_stop(alloc, &stopped),
        RunEnd::NoMemory => Refusal::NoMemory,
    }
}

/// The open order of a schedule of an accepted program, and the machine that ran the schedule.
fn order_of<'p>(
    alloc: Global,
    program: &'p CoreProgram,
    code: &'p CodeTable,
    schedule: &[u32],
) -> Result<Rearranged<'p>, Refusal>
    requires typed { IsTyped (program_of program.now) }
    requires accepted { IsAccepted (program_of program.now) }
    requires code { IsCodeOf (program_of program.now) code.now.code.items code.now.entry.items code.now.room.items }
    requires short { length schedule.now ≤ 200000 }
    ensures order { MatchResult result (λ found. IsOpened (program_of program.now) schedule.now found.order.items) (IsRight (NoRun (program_of program.now) schedule.now)) }
    ensures stands { IfOk result (λ found. (q : State) → run (program_of program.now) schedule.now ≡ Some q → StandsFor found.machine q) }
    ensures program { IfOk result (λ found. found.machine.program ≡ program.now) }
{
    match opened_with_machine(alloc, program, code, schedule) {
        Ok(found) => Ok(found),
        Err(end) => Err(refuse_end(alloc, end)),
    }
}

/// Writes a schedule of this source with each atomic call in one piece, also one that is left open, and the text of the state
/// that it runs to; or the refusal.
fn in_order(alloc: Global, source: &Source, text: &[u8]) -> Result<Vec<u8>, Refusal>
    requires source { (file : List ℕ) × IsSourceOf file source.now }
    requires text { length text.now ≤ longest_second_file }
    ensures { (file : List ℕ) → IsSourceOf file source.now →
        MatchResult result (λ out. SerialiseOpenAnswer file text.now Ending.Done out.items) (IsRight (SerialiseOpenAnswer file text.now)) }
{
    judge(alloc, source)?;
    let schedule = schedule_of(alloc, text)?;
    let code = compile(alloc, &source.program)?;
    let found = order_of(alloc, &source.program, &code, schedule.as_slice())?;
    let out = order_text(alloc, &source.table, &found)?;
    Ok(out)
}

/// Writes a schedule of a source with each atomic call in one piece, also one that is left open, and the text of the state that
/// it runs to; or the refusal.
pub fn serialise_open(alloc: Global, file: &[u8], text: &[u8]) -> Result<Vec<u8>, Refusal>
    requires file { length file.now ≤ longest_source }
    requires text { length text.now ≤ longest_second_file }
    ensures { MatchResult result (λ out. SerialiseOpenAnswer file.now text.now Ending.Done out.items) (IsRight (SerialiseOpenAnswer file.now text.now)) }
{
    let source = read_source(alloc, file)?;
    let out = in_order(alloc, &source, text);
    forget(source);
    out
}
