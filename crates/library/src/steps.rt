//! What two neighbouring steps do.
ghost use Rattle.std.specs.Prelude.{◌≡◌, ◌≤◌, ◌&&◌, ◌==◌, nat_lt, length, Some, OnOk, IfOk};
ghost use Rattle.core_program.specs.Views.{program_of};
ghost use Rattle.state.specs.States.{State};
ghost use Rattle.compile.specs.IsCode.{IsCodeOf};
ghost use Rattle.semantics.specs.Step.{Move, Moves, outcome, moved};
ghost use Rattle.semantics.specs.Run.{run};
ghost use Rattle.machine.specs.Standing.{program_run, StandsFor};
ghost use Rattle.library.specs.Seen.{IsSeen};

use compile::CodeTable;
use core_program::CoreProgram;
use machine::Machine;
use state::StepKind;
use std::alloc::{AllocError as NoMemory, Global};

/// Two neighbouring steps: their kinds, and whether the first starts the second's thread.
#[derive(Clone, Copy, PartialEq, Eq, Debug)]
pub(crate) struct Steps {
    pub(crate) first: StepKind,
    pub(crate) second: StepKind,
    pub(crate) starts: bool,
}

/// A machine that ran a schedule. Of one that runs only memory can be wanting.
pub(crate) fn reached<'p>(
    alloc: Global,
    program: &'p CoreProgram,
    code: &'p CodeTable,
    schedule: &[u32],
) -> Result<Machine<'p>, NoMemory>
    requires code { IsCodeOf (program_of program.now) code.now.code.items code.now.entry.items code.now.room.items }
    requires short { length schedule.now ≤ 200000 }
    ensures stands { (q : State) → run (program_of program.now) schedule.now ≡ Some q → IfOk result (λ m. StandsFor m q) }
    ensures program { IfOk result (λ m. m.program ≡ program.now) }
    ensures few { IfOk result (λ m. m.made ≤ 200000) }
{
    let mut machine = Machine::start(alloc, program, code)?;
    match machine.run(alloc, schedule) {
        Ok(()) => Ok(machine),
        Err(_) => Err(NoMemory),
    }
}

/// The kind of the next step of a thread that has one.
fn kind_of(machine: &Machine<'_>, thread: u32) -> Result<StepKind, NoMemory>
    ensures { (q : State) (m : Move) → StandsFor machine.now q → outcome (program_run machine.now) q thread ≡ Moves m → IfOk result (λ kind. kind ≡ m.kind) }
{
    match machine.kind(thread) {
        Some(kind) => Ok(kind),
        None => Err(NoMemory),
    }
}

/// The step of a thread that has one is made.
fn step_on(alloc: Global, machine: &mut Machine<'_>, thread: u32) -> Result<(), NoMemory>
    requires { machine.old.made ≤ 200000 }
    ensures stands { (q : State) (m : Move) → StandsFor machine.old q → outcome (program_run machine.old) q thread ≡ Moves m → OnOk result (StandsFor machine.new (moved thread m q)) }
    ensures program { machine.new.program ≡ machine.old.program }
{
    match machine.step(alloc, thread) {
        Ok(()) => Ok(()),
        Err(_) => Err(NoMemory),
    }
}

/// Whether a thread was started that has this number: there were so many threads before, and there are more now.
fn is_started(before: usize, after: usize, thread: u32) -> bool
    ensures { result ≡ (nat_lt before after && thread == before) }
{
    before < after && thread as usize == before
}

/// The steps of two threads, one after the other.
pub(crate) fn steps_of(
    alloc: Global,
    machine: &mut Machine<'_>,
    first: u32,
    second: u32,
) -> Result<Steps, NoMemory>
    requires { machine.old.made ≤ 200000 }
    ensures { (q : State) (m n : Move) → StandsFor machine.old q → outcome (program_run machine.old) q first ≡ Moves m → outcome (program_run machine.old) (moved first m q) second ≡ Moves n →
        IfOk result (λ s. IsSeen s q m second n) }
{
    let before = machine.threads().len();
    let first_kind = kind_of(machine, first)?;
    step_on(alloc, machine, first)?;
    let starts = is_started(before, machine.threads().len(), second);
    let second_kind = kind_of(machine, second)?;
    Ok(Steps {
        first: first_kind,
        second: second_kind,
        starts,
    })
}
