//! One entry of a schedule.
ghost use Rattle.std.specs.Prelude.{◌≡◌, ◌<◌, ◌+◌, [], Some, IfOk, OnOk, MatchResult, drop, length, slice_get};
ghost use Rattle.core_program.specs.Views.{program_of};
ghost use Rattle.state.specs.States.{State};
ghost use Rattle.semantics.specs.Step.{step, has_result};
ghost use Rattle.machine.specs.Standing.{program_run, StandsFor};
ghost use Rattle.serialise.specs.Calls.{AreCalls};
ghost use Rattle.replay.specs.Scanning as scan;
ghost use Rattle.replay.specs.Calls.{depth, result_in};
ghost use Rattle.replay.specs.Views.{record_told, all_told_in, begun_of, open_of, IsDeepEnd};
ghost use Rattle.serialise.specs.Tables.{value_or};

use crate::begun::Begun;
use crate::calls::{CallRecord, ReplayEnd};
use crate::sight::{Sight, sight_at};
use core_program::CoreProgram;
use machine::Machine;
use paths::MethodId;
use serialise::make_step;
use state::Value;
use std::alloc::{AllocError as NoMemory, Global};

/// What an entry adds: the call that is open after it, and the record of the one that ended with it.
#[derive(Drop)]
pub(crate) struct Added {
    pub(crate) open: Option<Begun>,
    pub(crate) told: Option<CallRecord>,
}

/// An entry of a schedule: its number, counted from 1, its thread, and what was seen before it: how many frames the thread had,
/// and how many numbers were printed.
#[derive(Clone, Copy)]
struct Entry {
    number: u32,
    thread: u32,
    frames: usize,
    printed: usize,
}

/// Whether a method has a result.
fn has_result(program: &CoreProgram, method: MethodId) -> bool
    ensures { result ≡ has_result (slice_get (program_of program.now).methods method) }
{
    match program.methods.get(method.0 as usize) {
        Some(found) => found.result.is_some(),
        None => false,
    }
}

/// The result of a call of a method, which stands on top of the operands.
fn result_at(machine: &Machine<'_>, method: MethodId, thread: u32) -> Option<Value>
    ensures { (q : State) → StandsFor machine.now q → result ≡ result_in (has_result (slice_get (program_run machine.now).methods method)) (slice_get q.threads thread) }
{
    if has_result(machine.program(), method) {
        sight_at(machine, thread).top
    } else {
        None
    }
}

/// The numbers from a place on.
fn behind(numbers: &[i32], from: usize) -> &[i32]
    ensures { result.now ≡ drop from numbers.now }
{
    if from <= numbers.len() {
        &numbers[from..]
    } else {
        &[]
    }
}

/// The record of a call that ended.
fn told_of(alloc: Global, machine: &Machine<'_>, begun: Begun) -> Result<CallRecord, NoMemory>
    ensures { IfOk result (λ c. (r : State) → StandsFor machine.now r → record_told c ≡ scan.told_call (program_run machine.now) r (begun_of begun)) }
{
    let printed = behind(machine.output(), begun.printed);
    let mut prints = Vec::with_capacity(alloc, printed.len())?;
    prints.extend_from_slice(printed)?;
    Ok(CallRecord {
        entry: begun.entry,
        thread: begun.thread,
        method: begun.method,
        on: begun.on,
        result: result_at(machine, begun.method, begun.thread),
        prints,
    })
}

/// The call that begins with an entry, where its method and receiver were seen.
fn begun_at(entry: Entry, after: Sight) -> Option<Begun>
    ensures { (q : State) → entry.frames ≡ depth (slice_get q.threads entry.thread) → entry.printed ≡ length q.output →
        open_of result ≡ scan.begun_in q entry.number entry.thread after.call }
{
    match after.call {
        Some((method, on)) => Some(Begun {
            entry: entry.number,
            thread: entry.thread,
            method,
            on,
            frames: entry.frames,
            printed: entry.printed,
        }),
        None => None,
    }
}

/// Refuses an open call that has more than 100 frames of its own.
fn refuse_deep(machine: &Machine<'_>, opened: Option<Begun>) -> Result<Option<Begun>, ReplayEnd>
    ensures { (r : State) → StandsFor machine.now r → MatchResult result
        (λ o. scan.low_or_deep r (open_of opened) ≡ scan.Goes (open_of o) [])
        (λ e. IsDeepEnd e (scan.low_or_deep r (open_of opened))) }
{
    let Some(begun) = opened else {
        return Ok(None);
    };
    let frames = sight_at(machine, begun.thread).frames;
    if frames > begun.frames && frames - begun.frames > 100 {
        return Err(ReplayEnd::TooDeep { entry: begun.entry });
    }
    Ok(Some(begun))
}

/// What an entry adds that led the machine here, after which its thread stands inside an atomic call or not.
fn adds(
    alloc: Global,
    machine: &Machine<'_>,
    opened: Option<Begun>,
    entry: Entry,
    inside: bool,
) -> Result<Added, ReplayEnd>
    ensures { (q r : State) → entry.frames ≡ depth (slice_get q.threads entry.thread) → entry.printed ≡ length q.output → StandsFor machine.now r → MatchResult result
        (λ a. scan.next_by (program_run machine.now) q r entry.number entry.thread (open_of opened) inside ≡ scan.Goes (open_of a.open) (all_told_in a.told))
        (λ e. IsDeepEnd e (scan.next_by (program_run machine.now) q r entry.number entry.thread (open_of opened) inside)) }
{
    if inside {
        let begins = match opened {
            Some(begun) => Some(begun),
            None => begun_at(entry, sight_at(machine, entry.thread)),
        };
        let open = refuse_deep(machine, begins)?;
        return Ok(Added { open, told: None });
    }
    match opened {
        Some(begun) => {
            let told = told_of(alloc, machine, begun)?;
            Ok(Added {
                open: None,
                told: Some(told),
            })
        }
        None => Ok(Added {
            open: None,
            told: None,
        }),
    }
}

/// Makes the step of an entry, which its thread can make, and tells what it adds. The table has the number of atomic calls in which
/// each thread stands.
pub(crate) fn enter(
    alloc: Global,
    machine: &mut Machine<'_>,
    calls: &mut Vec<u32>,
    opened: Option<Begun>,
    entry: u32,
    thread: u32,
) -> Result<Added, ReplayEnd>
    requires { machine.old.made < 4294967295 }
    ensures next { (q r : State) → StandsFor machine.old q → AreCalls (program_run machine.old) q (value_or 0 calls.old.items) → step (program_run machine.old) q thread ≡ Some r → MatchResult result
        (λ a. scan.next_of (program_run machine.old) q r entry thread (open_of opened) ≡ scan.Goes (open_of a.open) (all_told_in a.told))
        (λ e. IsDeepEnd e (scan.next_of (program_run machine.old) q r entry thread (open_of opened))) }
    ensures stands { OnOk result ((q r : State) → StandsFor machine.old q → AreCalls (program_run machine.old) q (value_or 0 calls.old.items) → step (program_run machine.old) q thread ≡ Some r →
        StandsFor machine.new r × AreCalls (program_run machine.old) r (value_or 0 calls.new.items)) }
    ensures counted { OnOk result (machine.new.made ≡ machine.old.made + 1) }
    ensures program { machine.new.program ≡ machine.old.program }
{
    let frames = sight_at(machine, thread).frames;
    let printed = machine.output().len();
    let before = Entry {
        number: entry,
        thread,
        frames,
        printed,
    };
    match make_step(alloc, machine, calls, thread) {
        Ok(step) => adds(alloc, machine, opened, before, step.inside),
        Err(_) => Err(ReplayEnd::NoMemory),
    }
}
