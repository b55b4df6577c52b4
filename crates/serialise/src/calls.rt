//! In how many atomic calls each thread stands.
ghost use Rattle.std.specs.Prelude.{◌≡◌, ◌-◌, ℕ, map, slice_get, IfOk, OnOk, OnErr, Some};
ghost use Rattle.core_program.specs.Views.{program_of};
ghost use Rattle.state.specs.Frames.{frames_in};
ghost use Rattle.state.specs.States.{State};
ghost use Rattle.semantics.specs.Run.{is_annotated};
ghost use Rattle.machine.specs.Standing.{StandsFor};
ghost use Rattle.serialise.specs.Calls.{with_call, without_call, frames_seen, methods_at, is_atomic, calls_after};
ghost use Rattle.serialise.specs.Tables.{value_or, put_at};

use crate::tables::{put, value_at};
use core_program::CoreProgram;
use machine::{Machine, is_annotated};
use paths::MethodId;
use state::ThreadCell;
use std::alloc::AllocError as NoMemory;

/// What is seen of a thread's frames: how many they are, and the innermost one's method.
#[derive(Clone, Copy)]
pub(crate) struct Frames {
    count: usize,
    top: Option<MethodId>,
}

/// What is seen of a thread's frames.
fn frames_seen(cell: &ThreadCell) -> Frames
    ensures { result ≡ frames_seen (map (λ f. f.method) (frames_in cell.now)) }
{
    Frames {
        count: cell.frames(),
        top: cell.top(),
    }
}

/// What is seen of the frames of the thread of this number.
pub(crate) fn frames_at(machine: &Machine<'_>, thread: u32) -> Frames
    ensures { (q : State) → StandsFor machine.now q → result ≡ frames_seen (methods_at (slice_get q.threads thread)) }
{
    match machine.threads().get(thread as usize) {
        Some(cell) => frames_seen(cell),
        None => Frames {
            count: 0,
            top: None,
        },
    }
}

/// Whether a method that may be missing is annotated `atomic`.
fn is_atomic(program: &CoreProgram, method: Option<MethodId>) -> bool
    ensures { result ≡ is_atomic (program_of program.now) method }
{
    match method {
        Some(method) => is_annotated(program, method),
        None => false,
    }
}

/// One call more, where it is of an annotated method.
fn with_call(atomic: bool, calls: u32) -> Result<u32, NoMemory>
    ensures { IfOk result (λ now. now ≡ with_call atomic calls) }
{
    if !atomic {
        return Ok(calls);
    }
    // No thread has so many frames.
    if calls == u32::MAX {
        return Err(NoMemory);
    }
    Ok(calls + 1)
}

/// One call less, where it was of an annotated method.
fn without_call(atomic: bool, calls: u32) -> u32
    ensures { result ≡ without_call atomic calls }
{
    if atomic {
        calls.saturating_sub(1)
    } else {
        calls
    }
}

/// The number of a thread's atomic calls after a step, by what is seen of its frames before and after it.
fn calls_after(
    program: &CoreProgram,
    before: Frames,
    after: Frames,
    calls: u32,
) -> Result<u32, NoMemory>
    ensures { IfOk result (λ now. now ≡ calls_after (program_of program.now) before after calls) }
{
    if before.count < after.count {
        return with_call(is_atomic(program, after.top), calls);
    }
    if after.count < before.count {
        return Ok(without_call(is_atomic(program, before.top), calls));
    }
    Ok(calls)
}

/// Notes how a step changed the number of its thread's atomic calls, by what is seen of the frames before and after it. After
/// want of memory the table is as before.
pub(crate) fn note_calls(
    program: &CoreProgram,
    calls: &mut Vec<u32>,
    thread: u32,
    before: Frames,
    after: Frames,
) -> Result<(), NoMemory>
    ensures noted { OnOk result ((other : ℕ) → value_or 0 calls.new.items other ≡
        put_at (value_or 0 calls.old.items) thread (calls_after (program_of program.now) before after (value_or 0 calls.old.items thread)) other) }
    ensures err { OnErr result (calls.new.items ≡ calls.old.items) }
{
    if before.count == after.count {
        return Ok(());
    }
    let now = calls_after(program, before, after, value_at(calls, 0, thread))?;
    put(calls, 0, thread, now)
}
