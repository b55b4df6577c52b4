//! Running a schedule, with a note of each step.
ghost use Rattle.std.specs.Prelude.{◌≡◌, ◌+◌, ◌<◌, ◌≤◌, ℕ, Some, nat_lt, length, slice_get, IfOk, IfErr, OnOk, OnErr};
ghost use Rattle.core_program.specs.Views.{program_of};
ghost use Rattle.state.specs.States.{State, initial};
ghost use Rattle.compile.specs.IsCode.{IsCodeOf};
ghost use Rattle.semantics.specs.Run.{run};
ghost use Rattle.semantics.specs.Step.{outcome};
ghost use Rattle.machine.specs.Reasons.{IsReason};
ghost use Rattle.machine.specs.Standing.{program_run, StandsFor};
ghost use Rattle.serialise.specs.Calls.{AreCalls, calls_after, frames_seen, methods_at};
ghost use Rattle.serialise.specs.Made.{IsMadeStep, IsAfterUntoldStep, HaveRun};
ghost use Rattle.serialise.specs.NoRun.{IsNoRun};
ghost use Rattle.serialise.specs.Tables.{value_or, put_at};

use crate::calls::{Frames, frames_at, note_calls};
use crate::run_end::{RunEnd, refusal};
use crate::step::Step;
use crate::tables::value_at;
use compile::CodeTable;
use core_program::CoreProgram;
use machine::{Machine, StepEnd};
use state::StepKind;
use std::alloc::{AllocError as NoMemory, Global};

/// The run of a schedule: a note of each of its steps, and the machine that made them, at its end.
#[derive(Drop)]
pub struct NotedRun<'p> {
    pub steps: Vec<Step>,
    pub machine: Machine<'p>,
}

/// Notes the step of this kind that a thread made, whose frames were seen so before it.
fn note_step(
    machine: &Machine<'_>,
    calls: &mut Vec<u32>,
    thread: u32,
    kind: StepKind,
    before: Frames,
) -> Result<Step, NoMemory>
    ensures step { IfOk result (λ step. step ≡ record { thread = thread; kind = kind; inside = nat_lt 0 (value_or 0 calls.new.items thread) }) }
    ensures calls { OnOk result ((q : State) → StandsFor machine.now q → (other : ℕ) → value_or 0 calls.new.items other ≡
        put_at (value_or 0 calls.old.items) thread
        (calls_after (program_run machine.now) before (frames_seen (methods_at (slice_get q.threads thread))) (value_or 0 calls.old.items thread)) other) }
    ensures err { OnErr result (calls.new.items ≡ calls.old.items) }
{
    let after = frames_at(machine, thread);
    note_calls(machine.program(), calls, thread, before, after)?;
    Ok(Step {
        thread,
        kind,
        inside: value_at(calls, 0, thread) > 0,
    })
}

/// Makes a step of a thread, and notes it. The table has the number of atomic calls in which each thread stands; its steps keep it, so no
/// frames are looked through. Where no step is told, the table is as before; so is the machine, or memory was wanting only for the
/// note of the step that it made.
pub fn make_step(
    alloc: Global,
    machine: &mut Machine<'_>,
    calls: &mut Vec<u32>,
    thread: u32,
) -> Result<Step, StepEnd>
    requires room { machine.old.made < 4294967295 }
    ensures made { IfOk result (λ step. (q : State) → StandsFor machine.old q → AreCalls (program_run machine.old) q (value_or 0 calls.old.items) →
        IsMadeStep (program_run machine.old) thread q machine.new step (value_or 0 calls.new.items) (outcome (program_run machine.old) q thread)) }
    ensures refused { IfErr result (λ why. (q : State) → StandsFor machine.old q → IsReason why (outcome (program_run machine.old) q thread)) }
    ensures left { IfErr result (IsAfterUntoldStep thread machine.old machine.new) }
    ensures kept { OnErr result (calls.new.items ≡ calls.old.items) }
    ensures counted { OnOk result (machine.new.made ≡ machine.old.made + 1) }
    ensures program { machine.new.program ≡ machine.old.program }
{
    let before = frames_at(machine, thread);
    let kind = machine.step_kind(alloc, thread)?;
    match note_step(machine, calls, thread, kind, before) {
        Ok(step) => Ok(step),
        Err(NoMemory) => Err(StepEnd::NoMemory),
    }
}

/// Runs a schedule on a machine at its start.
fn run_noted(
    alloc: Global,
    machine: &mut Machine<'_>,
    schedule: &[u32],
) -> Result<Vec<Step>, RunEnd>
    requires stands { StandsFor machine.old (initial (program_run machine.old)) }
    requires start { machine.old.made ≡ 0 }
    requires size { length schedule.now ≤ 200000 }
    ensures ran { IfOk result (λ steps. (calls : ℕ → ℕ) × HaveRun machine.new schedule.now steps.items calls) }
    ensures length { IfOk result (λ steps. length steps.items ≡ length schedule.now) }
    ensures refused { IfErr result (IsNoRun (program_run machine.old) schedule.now) }
    ensures program { machine.new.program ≡ machine.old.program }
{
    let mut calls = Vec::new(alloc);
    let mut steps = Vec::with_capacity(alloc, schedule.len())?;
    for (place, thread) in schedule.iter().enumerate() {
        match make_step(alloc, machine, &mut calls, *thread) {
            Ok(step) => steps.push(step)?,
            Err(why) => return Err(refusal(place as u32 + 1, *thread, why)),
        }
    }
    Ok(steps)
}

/// Runs a schedule of a program from its start. The entries of a stop are counted from 1.
pub fn run_from_start<'p>(
    alloc: Global,
    program: &'p CoreProgram,
    code: &'p CodeTable,
    schedule: &[u32],
) -> Result<NotedRun<'p>, RunEnd>
    requires code { IsCodeOf (program_of program.now) code.now.code.items code.now.entry.items code.now.room.items }
    requires size { length schedule.now ≤ 200000 }
    ensures ran { IfOk result (λ noted. (calls : ℕ → ℕ) × HaveRun noted.machine schedule.now noted.steps.items calls) }
    ensures length { IfOk result (λ noted. length noted.steps.items ≡ length schedule.now) }
    ensures stands { IfOk result (λ noted. (q : State) → run (program_of program.now) schedule.now ≡ Some q → StandsFor noted.machine q) }
    ensures program { IfOk result (λ noted. noted.machine.program ≡ program.now) }
    ensures refused { IfErr result (IsNoRun (program_of program.now) schedule.now) }
{
    let mut machine = Machine::start(alloc, program, code)?;
    let steps = run_noted(alloc, &mut machine, schedule)?;
    Ok(NotedRun { steps, machine })
}
