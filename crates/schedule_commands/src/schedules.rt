//! The schedule that a row names, and what it runs to.

ghost use Rattle.std.specs.Prelude.{◌≡◌, ◌≢◌, ◌≤◌, ℕ, List, Some, true, false, length, MatchResult, string_bytes};
ghost use Rattle.sources.specs.Limits.{longest_second_file};
ghost use Rattle.classes.specs.Views.{table_data};
ghost use Rattle.compile.specs.IsCode.{IsCodeOf};
ghost use Rattle.core_program.specs.Core.{Program};
ghost use Rattle.core_program.specs.Views.{program_of};
ghost use Rattle.machine.specs.Standing.{program_run, StandsFor, IsStop, HasRun};
ghost use Rattle.schedule.specs.Text.{IsSchedule};
ghost use Rattle.sources.specs.Refusals.{IsRight};
ghost use Rattle.state.specs.States.{State, initial};
ghost use Rattle.report.specs.Schedules.{schedule_fault_line};
ghost use Rattle.report.specs.States.{state_text};
ghost use Rattle.semantics.specs.Run.{run};
ghost use Rattle.schedule_commands.specs.Schedules.{NoSchedule, NoRun};

use classes::ClassTable;
use compile::CodeTable;
use machine::{Machine, StepEnd, Stopped};
use report::{schedule_fault_text, state_text, stopped_text};
use schedule::{SchedFault, read_schedule};
use sources::{Ending, Refusal, Source};
use std::alloc::{AllocError as NoMemory, Global};

/// The refusal of a text for its first fault.
fn refuse_text(alloc: Global, bytes: &[u8], fault: SchedFault) -> Refusal
    requires told { fault ≢ SchedFault.NoMemory }
    requires stands { NoSchedule bytes.now Ending.NoSchedule (schedule_fault_line fault) }
    ensures { IsRight (NoSchedule bytes.now) result }
{
    match schedule_fault_text(alloc, &fault) {
        Ok(line) => Refusal::Line(Ending::NoSchedule, line),
        Err(NoMemory) => Refusal::NoMemory,
    }
}

/// The schedule that these bytes are the text of.
pub fn schedule_of(alloc: Global, bytes: &[u8]) -> Result<Vec<u32>, Refusal>
    requires { length bytes.now ≤ longest_second_file }
    ensures { MatchResult result (λ s. IsSchedule bytes.now s.items) (IsRight (NoSchedule bytes.now)) }
{
    match read_schedule(alloc, bytes) {
        Ok(schedule) => Ok(schedule),
        Err(SchedFault::Form(place)) => Err(refuse_text(alloc, bytes, SchedFault::Form(place))),
        Err(SchedFault::TooLong(place)) => Err(refuse_text(
            alloc,
            bytes,
            SchedFault::TooLong(place),
        )),
        Err(SchedFault::NoMemory) => Err(Refusal::NoMemory),
    }
}

/// The refusal of a schedule that stops so.
pub(crate) fn refuse_stop(alloc: Global, stopped: &Stopped) -> Refusal
    ensures { (P : Program) (s : List ℕ) (before : State) → IsStop P (initial P) s stopped.now before → IsRight (NoRun P s) result }
{
    if is_want_of_memory(stopped.why) {
        return Refusal::NoMemory;
    }
    match stopped_text(alloc, stopped) {
        Ok(line) => Refusal::Line(Ending::Stopped, line),
        Err(NoMemory) => Refusal::NoMemory,
    }
}

/// Whether a thread had no step for want of memory.
fn is_want_of_memory(why: StepEnd) -> bool
    ensures yes { result ≡ true → why ≡ StepEnd.NoMemory }
    ensures otherwise { result ≡ false → why ≢ StepEnd.NoMemory }
{
    match why {
        StepEnd::NoMemory => true,
        StepEnd::Absent | StepEnd::Done | StepEnd::Faulted(_) | StepEnd::Waits { .. } => false,
    }
}

/// Runs a schedule on a machine at the start.
fn run_to_end(alloc: Global, machine: &mut Machine, schedule: &[u32]) -> Result<(), Refusal>
    requires start { StandsFor machine.old (initial (program_run machine.old)) }
    requires made { machine.old.made ≡ 0 }
    requires short { length schedule.now ≤ 200000 }
    ensures ran { MatchResult result (λ _. HasRun machine.new (program_run machine.old) (initial (program_run machine.old)) schedule.now) (IsRight (NoRun (program_run machine.old) schedule.now)) }
    ensures program { machine.new.program ≡ machine.old.program }
{
    match machine.run(alloc, schedule) {
        Ok(()) => Ok(()),
        Err(stopped) => Err(refuse_stop(alloc, &stopped)),
    }
}

/// The text of the state that a schedule runs to on a machine at the start.
fn text_after(
    alloc: Global,
    table: &ClassTable,
    machine: &mut Machine,
    schedule: &[u32],
) -> Result<String, Refusal>
    requires start { StandsFor machine.old (initial (program_run machine.old)) }
    requires made { machine.old.made ≡ 0 }
    requires short { length schedule.now ≤ 200000 }
    ensures { MatchResult result
        (λ text. (q : State) × (run (program_run machine.old) schedule.now ≡ Some q) × (string_bytes text ≡ state_text (program_run machine.old) (table_data table.now) q))
        (IsRight (NoRun (program_run machine.old) schedule.now)) }
{
    run_to_end(alloc, machine, schedule)?;
    let text = state_text(alloc, table, machine)?;
    Ok(text)
}

/// The text of the state that a schedule of a source runs to, over the code of its program.
pub(crate) fn state_after(
    alloc: Global,
    source: &Source,
    code: &CodeTable,
    schedule: &[u32],
) -> Result<String, Refusal>
    requires code { IsCodeOf (program_of source.now.program) code.now.code.items code.now.entry.items code.now.room.items }
    requires short { length schedule.now ≤ 200000 }
    ensures { MatchResult result
        (λ text. (q : State) × (run (program_of source.now.program) schedule.now ≡ Some q) × (string_bytes text ≡ state_text (program_of source.now.program) (table_data source.now.table) q))
        (IsRight (NoRun (program_of source.now.program) schedule.now)) }
{
    let mut machine = Machine::start(alloc, &source.program, code)?;
    text_after(alloc, &source.table, &mut machine, schedule)
}
